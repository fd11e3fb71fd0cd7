//! JSON values, read from the tokens of a text with no tree between.
#![tactic(auto)]

mod kinds;
mod lists;
mod numbers;
mod objects;
mod passing;
mod slots;
mod texts;
mod tuples;
mod unread;

pub use kinds::{Kind, Text, Truth, Whole, read_next};
pub use lists::{array_into, begin_array, items_into, list_of, list_up_to};
pub use objects::{Fields, object_into, pass_member};
pub use passing::{next, pass_items, pass_other, pass_value};
pub use slots::{Slot, read_into};
pub use texts::{MAX_DEPTH, value_of};
pub use tuples::{end_items, next_item};
pub use unread::Unread;
