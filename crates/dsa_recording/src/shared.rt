//! Which entries share a completion record.

ghost use Rattle.std.specs.Prelude.{◌≡◌, ℕ, ◌<◌, List, get_or, length, IfOk, None};
ghost use Rattle.dsa_conflicts.specs.Access.{later};
ghost use Rattle.dsa_recording.specs.declared.member.Aspect.TheVariants as aspects;
ghost use Rattle.dsa_recording.specs.Submissions.{AreMembers, AreShared};

use dsa_audit::{Member, all_lasts};
use std::alloc::{AllocError, Global};

/// The later of two members, if there are any.
pub(crate) fn later_of(first: Option<usize>, second: Option<usize>) -> Option<usize>
    ensures { result ≡ later first second }
{
    match (first, second) {
        (Some(a), Some(b)) => Some(a.max(b)),
        (Some(a), None) => Some(a),
        (None, other) => other,
    }
}

/// The later of both, for each member.
fn later_lasts(
    alloc: Global,
    firsts: &[Option<usize>],
    seconds: &[Option<usize>],
) -> Result<Vec<Option<usize>>, AllocError>
    requires { length seconds.now ≡ length firsts.now }
    ensures count { IfOk result (λ lasts. length lasts.items ≡ length firsts.now) }
    ensures each { IfOk result (λ lasts. (k : ℕ) → k < length firsts.now →
        get_or lasts.items k None ≡ later (get_or firsts.now k None) (get_or seconds.now k None)) }
{
    let mut lasts = Vec::with_capacity(alloc, firsts.len())?;
    for k in 0..firsts.len() {
        lasts.push(later_of(firsts[k], seconds[k]))?;
    }
    Ok(lasts)
}

/// For each member of a batch, the last one before it with which it shares a record, by what is known of their records
/// and of their statuses.
pub(crate) fn shared_in(
    alloc: Global,
    records: &[Member],
    statuses: &[Member],
) -> Result<Vec<Option<usize>>, AllocError>
    requires { length statuses.now ≡ length records.now }
    ensures { IfOk result (λ shared. (head : List ℕ) (es : List (List ℕ)) →
        AreMembers aspects.Record head es records.now →
        AreMembers aspects.Status head es statuses.now → AreShared head es shared.items) }
{
    let firsts = all_lasts(alloc, records)?;
    let seconds = all_lasts(alloc, statuses)?;
    let shared = later_lasts(alloc, &firsts, &seconds)?;
    Ok(shared)
}
