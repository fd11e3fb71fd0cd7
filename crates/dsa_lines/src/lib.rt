//! Operations as lines of text: each line is read to its operation, and each operation has one canonical line; whole
//! texts: a list of operations as lines, and back; and the texts of a portal and a staging area.
#![tactic(auto)]

mod disassembling;
mod emitted_laws;
mod fault;
mod laws;
mod line;
mod lines;
mod list_line;
mod numbers;
mod operations;
mod options;
mod portal;
mod portal_laws;
mod reading;
mod recording;
mod staged_record;
mod staging;
mod staging_laws;
mod text_list;
mod words;
mod writing;

pub use disassembling::{disassemble, text_with_barriers};
pub use emitted_laws::emissions_have_texts;
pub use fault::{EmittedFault, Expected, LineFault, TextFault};
pub use laws::{
    canonical_line_spells, canonical_text_spells, one_line_no_newline, one_line_one_operation,
    one_mark_each, one_marked_spelling, one_text_one_list, spells_one, text_spells_one,
};
pub use line::Line;
pub use lines::before;
pub use list_line::operation_bytes;
pub use numbers::{number_of, numeral, size_of};
pub use portal::disassemble_portal;
pub use portal_laws::{
    one_portal_shown, one_portal_text, portal_text_is_read, portal_text_is_recorded,
};
pub use reading::{line_bytes, parse_line};
pub use recording::assemble_recording;
pub use staging::disassemble_staging;
pub use staging_laws::{
    one_staging_shown, one_staging_text, staging_text_is_read, staging_text_is_recorded,
};
pub use text_list::{OperationLine, TextList, line_of_operation, one_line_each, parse_text};
pub use writing::{line_of, line_of_fields, op_text, operation_text};
