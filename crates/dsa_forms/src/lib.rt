//! Bytes that come as text, and what an input is by looking at it: bytes, a dump of bytes, a job, or lines of
//! operations.
#![tactic(auto)]

mod forms;
mod kinds;
mod places;

pub use forms::{
    Form, Part, begins_with_digits, bytes_of_text, first_part, form_of, is_passed, is_text,
    next_part,
};
pub use kinds::{InputKind, has_batch, is_binary, kind_of, lines_are_lines, sample_kinds};
pub use places::{BytesFault, bytes_of_input};
