//! What each cause of a refusal means, in a sentence: for programs that print it, and for callers in C. Nothing is
//! allocated.
#![tactic(auto)]

mod causes;
mod sentences;
mod text;

pub use causes::TextCause;
pub use sentences::sentence_of;
pub use text::{LONGEST_TEXT, refusal_text};
