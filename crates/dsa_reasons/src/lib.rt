//! Why a plan has its fences and its groups: the conflicts that each of them alone separates, as values and in a
//! sentence.
#![tactic(auto)]

mod fences;
mod laws;
mod one_group;
mod reason;
mod sentences;

pub use fences::{Detail, Fence, fences_of};
pub use laws::{each_cut_once, each_fence_once, fences_are_cuts};
pub use one_group::cut_reasons;
pub use reason::Reason;
pub use sentences::{
    NamedConflict, fence_text, first_conflict, kind_text, reason_text, record_of, sentence_text,
};
