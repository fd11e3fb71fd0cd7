//! Answers on lists as bytes, texts and jobs: what their plans do and why, what is worth a note, and what is wrong with
//! one that is refused.
#![tactic(auto)]

mod answer;
mod bytes;
mod checks;
mod comments;
mod decimals;
mod diagnosis;
mod explaining;
mod failed;
mod faulty;
mod forgone;
mod form;
mod given_plan;
mod jobs;
mod kept;
mod laws;
mod left;
mod listed;
mod members;
mod messages;
mod mistakes;
mod notes;
mod numbers;
mod origins;
mod overlapping;
mod overwritten;
mod rows;
mod settings;
mod shown;
mod syntax;
mod unfenced;
mod unfit;
mod unplanned;
mod words;

pub use answer::Answer;
pub use bytes::bytes_or_refusal;
pub use explaining::{explain_checked, explain_fenced, explain_list, explain_text};
pub use form::{Form, form_of};
pub use given_plan::explain_judged;
pub use jobs::explain_job_text;
pub use kept::{fence_lines, fenced_in, joined};
pub use laws::{one_name_each, planned_fences_are_needed};
pub use left::resume_notes;
pub use messages::{message_of, message_with, push_indices, push_sentence};
pub use numbers::{number_of, numbers_of, parts_of};
pub use settings::{SettingsWords, limits_of, push_settings, settings_fault, settings_of};
pub use unplanned::{Source, refuse_unplanned};
