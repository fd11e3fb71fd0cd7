//! `explain` of a job.

ghost use Rattle.std.specs.Prelude.{IfOk};
ghost use Rattle.dsa_calls.specs.declared.fault.PlanFault.TheVariants.{Do};
ghost use Rattle.dsa_advice.specs.Jobs.{ExplainsJob, ExplainsJobText};
ghost use Rattle.dsa_advice.specs.Refusals.{IsRefusal};

use crate::answer::Answer;
use crate::diagnosis::job_fault;
use crate::explaining::{explain_checked, explain_list};
use crate::form::Form;
use crate::given_plan::explain_judged;
use dsa_calls::PlanFault;
use dsa_report::{Job, read_job};
use std::alloc::{AllocError, Global};

/// The refusal of a job to replay or to run.
fn not_explained(alloc: Global) -> Result<Answer, AllocError>
    ensures { IfOk result (IsRefusal Do) }
{
    let message = "a job to replay or to run is not explained, but one to plan, judge or check";
    Answer::fault_with(alloc, PlanFault::Do, message)
}

/// What `explain` answers to a job to plan, to judge or to check.
fn explain_job(alloc: Global, job: &Job, form: Form) -> Result<Answer, AllocError>
    ensures { IfOk result (ExplainsJob job.now form) }
{
    match job {
        Job::Plan(job) => explain_list(alloc, &job.list, &job.settings, form),
        Job::Judge(job) => explain_judged(alloc, &job.list, &job.plan, &job.settings, form),
        Job::Check(job) => explain_checked(
            alloc,
            &job.portal,
            &job.staging,
            &job.certificate,
            &job.settings,
            form,
        ),
        Job::Replay(_) | Job::Run(_) => not_explained(alloc),
    }
}

/// What `explain` answers to the text of a job.
pub fn explain_job_text(alloc: Global, text: &[u8], form: Form) -> Result<Answer, AllocError>
    ensures { IfOk result (ExplainsJobText text.now form) }
{
    match read_job(alloc, text) {
        Ok(job) => explain_job(alloc, &job, form),
        Err(fault) => job_fault(alloc, text, fault),
    }
}
