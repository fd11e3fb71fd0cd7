//! Submissions in flight: what a program may know of their ends, by the events of a recording, and which waits between
//! them are missing.
#![tactic(auto)]

mod answer;
mod course;
mod event;
mod fitting;
mod keys;
mod known;
mod laws;
mod lines;
mod recorded;
mod report;
mod search;
mod words;

pub use answer::{WaitsAnswer, answer_waits};
pub use course::{Course, Entry, Made};
pub use event::{Event, Queue};
pub use fitting::{Found, Misfit, WaitsFault, find_waits};
pub use keys::Keyed;
pub use laws::waits_suffice;
pub use lines::{Line, LinesFault, Submitting, read_lines};
pub use recorded::course_of;
pub use search::{Missing, missing_waits};
