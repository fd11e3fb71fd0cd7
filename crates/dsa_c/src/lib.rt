//! The planner for programs in C: descriptors as bytes in, bytes to submit out, in buffers of the caller.
#![tactic(auto)]

mod buffer;
mod certificate;
mod certified;
mod checking;
mod counting;
mod explaining;
mod filling;
mod judging;
mod laws;
mod marks;
mod planning;
mod preparing;
mod reasons;
mod refusal;
mod resuming;
mod settings;
mod texts;
mod tracked;
mod tracking;
mod warnings;

pub use certificate::RawPair;
pub use certified::dsa_plan_list_certified;
pub use checking::{dsa_check, dsa_check_list};
pub use counting::dsa_count_pieces;
pub use explaining::dsa_explain_list;
pub use filling::dsa_fill;
pub use judging::dsa_judge;
pub use laws::{
    checked_without_checksums, judged_without_fences, marks_spell_plans, planned_without_fences,
    plans_spell_marks, reasons_say_as_explained, resumed_without_checksums,
};
pub use planning::{RawPlanned, dsa_plan_list};
pub use preparing::{RawInfo, dsa_prepare};
pub use reasons::{RawReason, dsa_reason_text};
pub use refusal::RawRefusal;
pub use resuming::dsa_resume;
pub use settings::RawSettings;
pub use texts::dsa_refusal_text;
pub use tracked::{dsa_track_ask, dsa_track_complete, dsa_track_waits, dsa_track_withdraw};
pub use tracking::{dsa_track_begin, dsa_track_list, dsa_track_spans};
pub use warnings::{RawWarning, dsa_warn_list, dsa_warning_text};
