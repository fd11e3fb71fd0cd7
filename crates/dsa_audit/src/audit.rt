//! The fences of one recorded batch.

ghost use Rattle.std.specs.Prelude.{◌≡◌, length, IfOk};
ghost use Rattle.dsa_audit.specs.Audits.{IsCorrected};
ghost use Rattle.dsa_audit.specs.Laws.{IsAudit, IsReducedAccepting, AcceptingFreesNone, AuditsHold, AssumptionsFree, SeparatedIsLegal};
ghost use Rattle.dsa_audit.specs.Members.{KnownConflict, PossibleConflict};
ghost use Rattle.dsa_audit.specs.Steps.{AreLasts};

use crate::accepted::{Acceptance, accepted_of, held_of, left_lasts};
use crate::lasts::{all_lasts, possible_lasts};
use crate::member::Member;
use crate::missing::{Corrected, add_missing};
use crate::needless::{Reasons, Reduced, drop_needless};
use crate::outer::outer_lasts;
use crate::repeats::{Action, OrderedConflicts, ordered_lasts, repeats_of};
use std::alloc::{AllocError, Global};

/// Which fences of a batch are missing, and which are needless.
#[derive(Drop)]
pub struct Audit {
    /// For each member the last one before it that it is known to conflict with, if it does what that one does and
    /// neither reads what the other writes: their order does not matter, and no fence between them is missing.
    pub repeated: Vec<Option<usize>>,
    /// The fences that are missing if nothing is accepted, added to those of the batch.
    pub unaccepted: Corrected,
    /// For each member that lacks a fence then, the earlier one that is named, if the two are accepted.
    pub accepted: Vec<Option<usize>>,
    /// The missing fences once the accepted pairs are taken out, added to those of the batch.
    pub corrected: Corrected,
    /// The last conflicts of the first members that are not ruled out: with these [`needed_fences`] reduces the fences
    /// again under other effects.
    pub lasts: Vec<Option<usize>>,
    /// Of all fences then, those that are needed.
    pub reduced: Reduced,
}

/// What members can do beside reading and writing memory.
#[derive(Clone, Copy)]
pub struct Effects<'a> {
    /// Whether each member can fail, so that the next fence stops the rest of its batch.
    pub fallible: &'a [bool],
    /// Whether software can see of each member that it has ended.
    pub visible: &'a [bool],
}

/// Of the fences `corrected`, those that are needed, where with nothing accepted the fences are `unaccepted`. Recorded
/// fences that are needed then stay.
pub fn needed_fences(
    alloc: Global,
    fences: &[bool],
    unaccepted: &[bool],
    corrected: &[bool],
    members: &[Member],
    lasts: &[Option<usize>],
    effects: Effects<'_>,
) -> Result<Reduced, AllocError>
    requires fences { length fences.now ≡ length members.now }
    requires unaccepted { length unaccepted.now ≡ length members.now }
    requires corrected { length corrected.now ≡ length members.now }
    requires lasts { AreLasts (PossibleConflict members.now) lasts.now }
    ensures { IfOk result (λ r. IsReducedAccepting members.now
        effects.entry.fallible.now effects.entry.visible.now fences.now unaccepted.now
        corrected.now r.uses.items r.fences.items) }
{
    let reasons = Reasons {
        fallible: effects.fallible,
        visible: effects.visible,
        held: &[],
    };
    let outers = outer_lasts(alloc, unaccepted, members, lasts)?;
    let needed = drop_needless(alloc, unaccepted, &outers, reasons)?;
    let held = held_of(alloc, fences, &needed.fences)?;
    let reasons = Reasons {
        held: &held,
        ..reasons
    };
    let outers = outer_lasts(alloc, corrected, members, lasts)?;
    drop_needless(alloc, corrected, &outers, reasons)
}

/// The fewest fences that have to be added so that no two members of an epoch are known to conflict, each with a
/// conflict that it separates.
pub fn missing_fences(
    alloc: Global,
    fences: &[bool],
    members: &[Member],
) -> Result<Corrected, AllocError>
    requires { length fences.now ≡ length members.now }
    ensures { IfOk result (λ c. IsCorrected (KnownConflict members.now)
        fences.now c.places.items c.fences.items) }
{
    let lasts = all_lasts(alloc, members)?;
    add_missing(alloc, fences, &lasts)
}

/// The fences that are missing by the `operands` of members, the data that these are known to read and write, where the
/// `actions` do not repeat one another; the same without the accepted pairs; and of all fences then, those that are
/// needless by all that the `members` are known to touch, their completion records too, whatever those do of which
/// nothing is known, whichever fail that can, and whichever software sees that have ended.
pub fn audit_fences<A: Acceptance>(
    alloc: Global,
    fences: &[bool],
    actions: &[Action],
    operands: &[Member],
    members: &[Member],
    effects: Effects<'_>,
    acceptance: &A,
) -> Result<Audit, AllocError>
    requires operands { length fences.now ≡ length operands.now }
    requires members { length fences.now ≡ length members.now }
    ensures { IfOk result (λ a. IsAudit (A.lists acceptance.now) actions.now operands.now
        members.now effects.entry.fallible.now effects.entry.visible.now fences.now a) }
{
    let known = all_lasts(alloc, operands)?;
    let repeated = repeats_of(alloc, actions, operands, &known)?;
    let ordered = ordered_lasts(alloc, actions, operands, &known, &repeated)?;
    let relation = OrderedConflicts {
        actions,
        members: operands,
    };
    let unaccepted = add_missing(alloc, fences, &ordered)?;
    let accepted = accepted_of(alloc, acceptance, &unaccepted.places)?;
    let left = left_lasts(alloc, fences, relation, acceptance, &ordered)?;
    let corrected = add_missing(alloc, fences, &left)?;
    let lasts = possible_lasts(alloc, members)?;
    let reduced = needed_fences(
        alloc,
        fences,
        &unaccepted.fences,
        &corrected.fences,
        members,
        &lasts,
        effects,
    )?;
    Ok(Audit {
        repeated,
        unaccepted,
        accepted,
        corrected,
        lasts,
        reduced,
    })
}

/// Whatever the members do that are not looked at, and whichever fail that can: what is missing is missing, what may go
/// may go, and whoever sees that a member has ended knows the same of the others.
pub fn audits_hold()
    ensures { AuditsHold }
{}

/// Accepting pairs never makes a recorded fence needless.
pub fn accepting_frees_none()
    ensures { AcceptingFreesNone }
{}

/// Fewer members that can fail, or that can be seen to have ended, never leave more fences.
pub fn assumptions_free()
    ensures { AssumptionsFree }
{}

/// A group that separates its conflicts does so as legal plans do.
pub fn separated_is_legal()
    ensures { SeparatedIsLegal }
{}
