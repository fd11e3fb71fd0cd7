//! Calls over the bytes of a list: planning it, judging a plan of it, checking an emission with its certificate, and
//! replaying or running it.
#![tactic(auto)]

mod checking;
mod fault;
mod judging;
mod laws;
mod line;
mod planning;
mod replaying;
mod running;

pub use checking::{
    FencedFault, check_bytes, check_fenced_list, check_pieces, check_plan, check_submitted,
};
pub use dsa_descriptor::MOST_PIECES;
pub use fault::{InnerFault, PlanFault};
pub use judging::{first_over, judge_bytes, judge_fenced_list, judge_pieces};
pub use laws::{
    fenced_plan_is_checked, fenced_plan_is_least, judges_without_fences, one_checked,
    one_fenced_check, one_fenced_plan, one_judged, one_planned, one_replayed, one_run,
    planned_is_least_and_shown, planned_runs_leave_whole, plans_without_barriers,
    replays_follow_plans, runs_follow_plans,
};
pub use line::{LONGEST_LINE, refusal_line};
pub use planning::{
    Planned, fenced_pieces, own_pieces, pieces_of, plan_fenced_list, plan_list, plan_operations,
};
pub use replaying::replay_bytes;
pub use running::{run_bytes, run_gated};
