//! What is worth a warning about the pieces of a planned list.
#![tactic(auto)]

mod concerned;
mod concerns;
mod sentences;
mod warnings;

pub use concerned::Concerned;
pub use concerns::{Concern, check_concern, overlaps};
pub use sentences::warning_text;
pub use warnings::{Warning, warnings_of};
