//! What the outcomes of the calls promise of each other. Each function is a law: its body is empty, and its clause is
//! what the proof shows.

ghost use Rattle.dsa_calls.specs.Fenced.{OneFencedPlan, FencedPlanIsLeast, NoMarksPlanAlike, NoBarriersPlanAlike, NoFencesPlanAlike, NoFencesJudgeAlike};
ghost use Rattle.dsa_calls.specs.FencedChecked.{FencedPlanIsChecked, OneFencedCheck};
ghost use Rattle.dsa_calls.specs.Laws.{OneJudged, OnePlanned, OneChecked, OneReplayed, OneRun, PlannedIsLeastAndShown, PlannedRunsLeaveWhole, ReplaysFollowPlans, RunsFollowPlans};

/// Judging has at most one outcome for bytes, a plan and settings.
pub fn one_judged()
    ensures { OneJudged }
{}

/// Planning has at most one outcome for bytes and settings.
pub fn one_planned()
    ensures { OnePlanned }
{}

/// Planning with fences as barriers has at most one outcome for bytes and settings.
pub fn one_fenced_plan()
    ensures { OneFencedPlan }
{}

/// If planning with fences answers, the plan keeps each barrier, no legal plan that does costs less, and the
/// certificate checks.
pub fn fenced_plan_is_least()
    ensures { FencedPlanIsLeast }
{}

/// Operations without barriers are planned as those of [`plan_list`](crate::plan_list). A list in which no operation
/// but the first has the fence flag is planned as without that flag, and a list in which none has it is planned as by
/// [`plan_list`](crate::plan_list).
pub fn plans_without_barriers()
    ensures operations { NoMarksPlanAlike }
    ensures first { NoBarriersPlanAlike }
    ensures none { NoFencesPlanAlike }
{}

/// A list in which no operation has the fence flag is judged as by [`judge_bytes`](crate::judge_bytes).
pub fn judges_without_fences()
    ensures { NoFencesJudgeAlike }
{}

/// Checking bytes for a list has at most one outcome for the list, the bytes, settings and a certificate.
pub fn one_fenced_check()
    ensures { OneFencedCheck }
{}

/// If planning with fences answers, checking what it submits for the list, with its certificate, answers its cost.
pub fn fenced_plan_is_checked()
    ensures { FencedPlanIsChecked }
{}

/// Checking has at most one outcome for bytes, settings and a certificate.
pub fn one_checked()
    ensures { OneChecked }
{}

/// If planning answers, the plan is legal, no legal plan of its pieces costs less, and checking the bytes that submit
/// it, with its certificate, answers its cost.
pub fn planned_is_least_and_shown()
    ensures { PlannedIsLeastAndShown }
{}

/// Replaying has at most one outcome for bytes, settings, a memory, engines and events.
pub fn one_replayed()
    ensures { OneReplayed }
{}

/// Running has at most one outcome for bytes, settings, a memory and engines, whoever did what, unless the run breaks
/// off.
pub fn one_run()
    ensures { OneRun }
{}

/// If planning answers, replaying is for its pieces and its plan.
pub fn replays_follow_plans()
    ensures { ReplaysFollowPlans }
{}

/// If planning answers, running is for its pieces and its plan.
pub fn runs_follow_plans()
    ensures { RunsFollowPlans }
{}

/// If planning answers, every complete run of the plan, in whatever order and by whatever engines, leaves what
/// executing the list in order leaves, provided that each operation succeeds there.
pub fn planned_runs_leave_whole()
    ensures { PlannedRunsLeaveWhole }
{}
