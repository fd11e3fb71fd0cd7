//! Planned submissions that are filled for other buffers: planned once, submitted on any buffers.
#![tactic(auto)]

mod entry;
mod fault;
mod filling;
mod groups;
mod keeping;
mod laws;
mod parts;
mod places;
mod prepared;
mod preparing;
mod preparing_any;
mod reading;
mod row;
mod sorted;
mod template;
mod tie;
mod word;
mod writing;

pub use fault::{FillFault, PrepareFault};
pub use filling::fill_rows;
pub use keeping::{
    choice_stays, conflicts_stay, listed_relocates, meeting_spans_stay, pieces_lie,
    pieces_relocate, plans_relocate, regions_are_one_to_one, regions_keep_offsets,
    samples_relocate, submission_relocates,
};
pub use laws::{
    aligned_bases_align, filled_any_is_planned, filled_is_emission, filled_is_planned,
    prepared_without_fences,
};
pub use prepared::Prepared;
pub use preparing::{Costed, prepare};
pub use preparing_any::prepare_any_list;
pub use reading::are_prepared;
pub use row::Row;
