//! What is left to submit of a planned list after a page fault or another failure.
#![tactic(auto)]

mod barriers;
mod ends;
mod fault;
mod laws;
mod left;
mod rest;
mod resuming;
mod shared;
mod status;

pub use fault::ResumeFault;
pub use laws::{
    barriers_hold, failed_first_has_left, left_is_reached, left_is_short, legal_plans_resume,
    records_are_their_own, rest_can_be_listed, resuming_leaves_whole,
};
pub use left::LeftOrder;
pub use rest::{LeftOut, Rest};
pub use resuming::{resume_list, resume_pieces};
pub use shared::last_shared;
pub use status::{Ended, how_ended};
