//! Planning, judging, checking and resuming lists of operations, checksums among them.
#![tactic(auto)]

mod any_list;
mod checking;
mod judging;
mod laws;
mod pieces;
mod planning;
mod read_list;
mod resuming;
mod submitting;

pub use any_list::{check_any_list, judge_any_list, plan_any_list};
pub use checking::check_operation_list;
pub use judging::judge_operation_list;
pub use laws::{descriptors_are_submitted_alike, descriptors_conflict_alike};
pub use pieces::{AnyPieces, AnyPlanned, any_pieces, operations_of, plan_any_pieces};
pub use planning::search_operations;
pub use read_list::{as_operation_list, descriptors_in, plan_read_list};
pub use resuming::{resume_any_list, resume_operation_list};
pub use submitting::{PlannedOperations, plan_entries, plan_operation_list};
