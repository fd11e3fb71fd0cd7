//! What submissions in flight have to wait for.
#![tactic(auto)]

mod asking;
mod board;
mod fault;
mod finding;
mod grid;
mod groups;
mod head;
mod keeping;
mod kept;
mod laws;
mod limits;
mod marking;
mod marks;
mod owner;
mod parts;
mod slots;
mod submitted;
mod tracked;
mod units;
pub mod words;

pub use fault::{TrackFault, WordsFault};
pub use laws::{groups_end_in_turn, groups_stage_what_entries_name, tracker_ends_in_turn};
pub use owner::Owner;
pub use slots::Slots;
pub use submitted::{Retired, Submitted};
pub use tracked::Tracked;
