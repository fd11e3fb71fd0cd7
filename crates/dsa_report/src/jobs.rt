//! A job: its name, its reader, and its line.

ghost use Rattle.std.specs.Prelude.{◌≡◌, ◌≢◌, MatchOption, Some, map};
ghost use Rattle.serde_json.specs.Data.{Data};
ghost use Rattle.dsa_report.specs.Calls.{AnswersRead};
ghost use Rattle.dsa_report.specs.Gives.{GivesLine};
ghost use Rattle.dsa_report.specs.Fields.{IsObject, all_members};
ghost use Rattle.dsa_report.specs.Job.{HasName, NamesJob, has, name_text};
ghost use Rattle.dsa_report.specs.Read.{HasParts, IsJob, ReadsJob, ReadsJobText};

use crate::answer_line::AnswerLine;
use crate::check_job::{CheckJob, check_line, check_of};
use crate::fields::{JobObject, Slots};
use crate::judge_job::{JudgeJob, judge_line, judge_of};
use crate::parts::{Parts, parts_of};
use crate::plan_job::{PlanJob, plan_job_of, plan_line};
use crate::reading::LONGEST_TEXT;
use crate::replay_job::{ReplayJob, replay_line, replay_of};
use crate::run_job::{RunJob, run_line, run_of};
use dsa_calls::PlanFault;
use dsa_tokens::{Slot, Unread, value_of};
use json::Scratch;
use std::alloc::Global;
use std::sync::Wait;
use std::thread::Threads;

/// The names that a job may go by.
#[derive(Clone, Copy)]
pub enum JobName {
    /// `judge`: the cost of a plan of listed pieces.
    Judge,
    /// `plan`: a plan of a list, with its certificate and the bytes that submit it.
    Plan,
    /// `check`: the cost of the plan that bytes submit, if a certificate proves that none costs less.
    Check,
    /// `replay`: what a run of a planned list leaves, if the trace is a complete one.
    Replay,
    /// `run`: what a run of a planned list by engines leaves.
    Run,
}

impl JobName {
    /// All names, in the order in which they are looked for.
    const ALL: [JobName; 5] = [
        JobName::Judge,
        JobName::Plan,
        JobName::Check,
        JobName::Replay,
        JobName::Run,
    ];

    /// The value of `do`.
    fn text(self) -> &'static str
        ensures { result.now ≡ name_text self }
    {
        match self {
            JobName::Judge => "judge",
            JobName::Plan => "plan",
            JobName::Check => "check",
            JobName::Replay => "replay",
            JobName::Run => "run",
        }
    }

    /// Whether the job has each member that some job has: certificate, do, engines, image, list, plan, portal,
    /// settings, staging and trace.
    pub(crate) fn listed(self) -> [bool; 10]
        ensures { result ≡ map (has self) all_members }
    {
        match self {
            JobName::Judge => [
                false, true, false, false, true, true, false, true, false, false,
            ],
            JobName::Plan => [
                false, true, false, false, true, false, false, true, false, false,
            ],
            JobName::Check => [
                true, true, false, false, false, false, true, true, true, false,
            ],
            JobName::Replay => [
                false, true, true, true, true, false, false, true, false, true,
            ],
            JobName::Run => [
                false, true, true, true, true, false, false, true, false, false,
            ],
        }
    }
}

/// A job that was read.
#[derive(Drop)]
pub enum Job {
    /// Judge a plan of listed pieces.
    Judge(JudgeJob),
    /// Plan a list.
    Plan(PlanJob),
    /// Check the bytes that submit a plan.
    Check(CheckJob),
    /// Replay events on a planned list.
    Replay(ReplayJob),
    /// Run a planned list by engines.
    Run(RunJob),
}

/// The job that a JSON text spells, or why it spells none: the text is too long, it is no JSON, or the first cause to
/// refuse its value.
pub fn read_job(alloc: Global, text: &[u8]) -> Result<Job, PlanFault>
    ensures { ReadsJobText text.now result }
{
    if text.len() > LONGEST_TEXT {
        return Err(PlanFault::JobTooLong);
    }
    let Ok(text) = simdutf8::compat::from_utf8(text) else {
        return Err(PlanFault::Json);
    };
    let mut scratch = Scratch::new(alloc);
    match value_of::<JobObject>(alloc, text, &mut scratch) {
        Ok(Some(slots)) => job_of(alloc, slots),
        Ok(None) => Err(PlanFault::Member),
        Err(Unread::Json) => Err(PlanFault::Json),
        Err(Unread::Memory) => Err(PlanFault::Memory),
    }
}

/// The job of this name that has these parts.
fn named_job(name: JobName, parts: Parts) -> Result<Job, PlanFault>
    ensures { (d : Data) → HasParts name d parts → ReadsJob IsJob d result }
{
    match name {
        JobName::Judge => Ok(Job::Judge(judge_of(parts)?)),
        JobName::Plan => Ok(Job::Plan(plan_job_of(parts)?)),
        JobName::Check => Ok(Job::Check(check_of(parts)?)),
        JobName::Replay => Ok(Job::Replay(replay_of(parts)?)),
        JobName::Run => Ok(Job::Run(run_of(parts)?)),
    }
}

/// The job that an object spells, or the first cause to refuse it.
fn job_of(alloc: Global, slots: Slots<'_>) -> Result<Job, PlanFault>
    ensures { (d : Data) → IsObject d (Some slots.entry) → ReadsJob IsJob d result }
{
    match job_name(&slots) {
        Some(name) => {
            let parts = parts_of(alloc, slots, name)?;
            named_job(name, parts)
        }
        None => Err(PlanFault::Do),
    }
}

/// The name that is the value of `do`.
fn job_name(slots: &Slots<'_>) -> Option<JobName>
    ensures { (d : Data) → IsObject d (Some slots.now)
        → MatchOption result (¬ NamesJob d) (HasName d) }
{
    match &slots.name {
        Slot::Held(text) => job_named(text),
        Slot::Missing | Slot::Other => None,
    }
}

/// The job that goes by this name.
fn job_named(text: &str) -> Option<JobName>
    ensures { MatchOption result ((name : JobName) → name_text name ≢ text.now)
        (λ name. name_text name ≡ text.now) }
{
    for name in JobName::ALL {
        if name.text() == text {
            return Some(name);
        }
    }
    None
}

/// The line that answers a job. A job to run starts its engines by the handle.
pub(crate) fn job_line<H: Threads + Wait + Sync>(
    rt: &H,
    alloc: Global,
    job: &Job,
) -> Result<AnswerLine, PlanFault>
    ensures { GivesLine (AnswersRead job.now) result }
{
    match job {
        Job::Judge(job) => judge_line(alloc, job),
        Job::Plan(job) => plan_line(alloc, job),
        Job::Check(job) => check_line(alloc, job),
        Job::Replay(job) => replay_line(alloc, job),
        Job::Run(job) => run_line(rt, alloc, job),
    }
}
