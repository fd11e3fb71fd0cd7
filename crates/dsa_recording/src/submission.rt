//! The fences of a recorded submission.

ghost use Rattle.std.specs.Prelude.{◌≡◌, All, map, IfOk};
ghost use Rattle.dsa_recording.specs.Entries.{action_of};
ghost use Rattle.dsa_recording.specs.Pairs.{terms};
ghost use Rattle.dsa_descriptor.specs.Fences.{is_fenced};
ghost use Rattle.dsa_recording.specs.Submissions.{head_at, IsWithin, IsAudited, AreAudited};

use crate::accepted::Accepted;
use crate::assumptions::Assumptions;
use crate::failure::fallible_of;
use crate::flaws::{Flaws, all_flaws, has_misaligned_record};
use crate::member::{Members, action_of, members_of};
use crate::pairs::AcceptedPairs;
use crate::shared::shared_in;
use crate::showing::visible_of;
use crate::stream::Submission;
use dsa_audit::{Action, Audit, Effects, Member, audit_fences};
use dsa_descriptor::is_fenced;
use std::alloc::{AllocError, Global};

/// A submission whose fences are audited.
#[derive(Drop)]
pub struct Audited {
    /// Whether it is a batch.
    pub is_batch: bool,
    /// Whether the descriptor of a batch has a fence of its own.
    pub is_head_fenced: bool,
    /// Whether the completion record of the descriptor is at an address that is no multiple of 32.
    pub is_head_misaligned: bool,
    /// Whether each member has a fence.
    pub fences: Vec<bool>,
    /// What is known of each member.
    pub members: Vec<Member>,
    /// What each does.
    pub actions: Vec<Action>,
    /// What is known of the data of each.
    pub operands: Vec<Member>,
    /// For each, the last member before it of which the record meets its record or data, or the other way round.
    pub shared: Vec<Option<usize>>,
    /// What is wrong with each beside fences.
    pub flaws: Vec<Flaws>,
    /// The missing and the needless fences.
    pub audit: Audit,
}

/// The entry of a submission's descriptor.
pub fn head_at(submission: Submission) -> usize
    ensures { result ≡ head_at submission }
{
    if submission.is_batch {
        submission.first.saturating_sub(1)
    } else {
        submission.first
    }
}

/// Whether each of the entries is fenced.
fn fences_of(alloc: Global, entries: &[[u8; 64]]) -> Result<Vec<bool>, AllocError>
    ensures { IfOk result (λ fences. fences.items ≡ map is_fenced entries.now) }
{
    entries.iter().map(|entry| is_fenced(entry)).collect(alloc)
}

/// What each of the entries does.
fn actions_of(alloc: Global, entries: &[[u8; 64]]) -> Result<Vec<Action>, AllocError>
    ensures { IfOk result (λ actions. actions.items ≡ map action_of entries.now) }
{
    entries.iter().map(|entry| action_of(entry)).collect(alloc)
}

/// The fences of a submission of these entries: which are missing, once pairs with these keys are accepted, and which
/// are needless under the assumptions.
pub fn audit_submission(
    alloc: Global,
    all: &[[u8; 64]],
    accepted: &Accepted,
    assumptions: Assumptions,
    submission: Submission,
) -> Result<Audited, AllocError>
    requires { IsWithin all.now submission }
    ensures { IfOk result
        (IsAudited (terms accepted.now assumptions) all.now submission) }
{
    let at = head_at(submission);
    let entries = &all[submission.first..submission.first + submission.size];
    let fences = fences_of(alloc, entries)?;
    let actions = actions_of(alloc, entries)?;
    let Members {
        whole: members,
        operands,
        records,
        statuses,
    } = members_of(alloc, &all[at], entries)?;
    let fallible = fallible_of(alloc, assumptions, &members, entries)?;
    let visible = visible_of(alloc, assumptions, &all[at], &members, entries)?;
    let effects = Effects {
        fallible: &fallible,
        visible: &visible,
    };
    let pairs = AcceptedPairs {
        accepted,
        entries,
        operands: &operands,
    };
    let audit = audit_fences(
        alloc, &fences, &actions, &operands, &members, effects, &pairs,
    )?;
    Ok(Audited {
        is_batch: submission.is_batch,
        is_head_fenced: is_fenced(&all[at]),
        is_head_misaligned: has_misaligned_record(&all[at]),
        fences,
        members,
        actions,
        operands,
        shared: shared_in(alloc, &records, &statuses)?,
        flaws: all_flaws(alloc, submission.is_batch, &all[at], entries)?,
        audit,
    })
}

/// The fences of submissions of these entries.
pub fn audit_submissions(
    alloc: Global,
    all: &[[u8; 64]],
    accepted: &Accepted,
    assumptions: Assumptions,
    submissions: &[Submission],
) -> Result<Vec<Audited>, AllocError>
    requires { All (IsWithin all.now) submissions.now }
    ensures { IfOk result
        (λ audits. AreAudited (terms accepted.now assumptions)
        all.now submissions.now audits.items) }
{
    let mut audits = Vec::with_capacity(alloc, submissions.len())?;
    for submission in submissions {
        let audited = audit_submission(alloc, all, accepted, assumptions, *submission)?;
        audits.push(audited)?;
    }
    Ok(audits)
}
