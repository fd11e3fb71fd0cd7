//! The fences that are missing in a batch.

ghost use Rattle.std.specs.Prelude.{◌≡◌, ◌<◌, ℕ, length, IfOk};
ghost use Rattle.dsa_audit.specs.Audits.{IsCorrected};
ghost use Rattle.dsa_conflicts.specs.Last.{IsLastOf};
ghost use Rattle.dsa_audit.specs.Steps.{IsNextPlace, has_fence, epoch_after};

use std::alloc::{AllocError, Global};

/// What is before a member of a batch, and what has to.
#[derive(Clone, Copy)]
pub enum FencePlace {
    /// No fence, and none is missing.
    NoFence,
    /// A fence.
    Given,
    /// No fence, and one is missing: the member conflicts with this earlier one of its epoch.
    Missing(usize),
}

impl FencePlace {
    /// Whether a fence has to be there.
    pub fn is_fenced(self) -> bool
        ensures { result ≡ has_fence self }
    {
        match self {
            FencePlace::NoFence => false,
            FencePlace::Given | FencePlace::Missing(_) => true,
        }
    }

    /// The member that the epoch begins with that goes on after this one.
    fn epoch(self, epoch: usize, at: usize) -> usize
        ensures { result ≡ epoch_after self epoch at }
    {
        if self.is_fenced() { at } else { epoch }
    }
}

/// The fences that a batch has and those that it lacks.
#[derive(Drop)]
pub struct Corrected {
    /// What is before each member, and what has to be.
    pub places: Vec<FencePlace>,
    /// Whether each member has a fence, once the missing ones are added.
    pub fences: Vec<bool>,
}

/// What is before the member, where the epoch so far begins with the member `epoch`.
fn place_of(fences: &[bool], lasts: &[Option<usize>], epoch: usize, at: usize) -> FencePlace
    requires fenced { at < length fences.now }
    requires within { at < length lasts.now }
    requires before { (a : ℕ) → IsLastOf lasts.now a at → a < at }
    ensures { IsNextPlace (IsLastOf lasts.now) fences.now epoch at result }
{
    if fences[at] {
        return FencePlace::Given;
    }
    match lasts[at] {
        Some(earlier) => {
            if earlier < epoch {
                return FencePlace::NoFence;
            }
            FencePlace::Missing(earlier)
        }
        None => FencePlace::NoFence,
    }
}

/// The fewest fences that have to be added so that each member is in another epoch than the one before it that it has
/// in `lasts`.
pub(crate) fn add_missing(
    alloc: Global,
    fences: &[bool],
    lasts: &[Option<usize>],
) -> Result<Corrected, AllocError>
    requires count { length lasts.now ≡ length fences.now }
    requires before { (a b : ℕ) → IsLastOf lasts.now a b → a < b }
    ensures { IfOk result
        (λ m. IsCorrected (IsLastOf lasts.now) fences.now m.places.items m.fences.items) }
{
    let mut places = Vec::with_capacity(alloc, fences.len())?;
    let mut corrected = Vec::with_capacity(alloc, fences.len())?;
    let mut epoch = 0;
    for at in 0..fences.len() {
        let place = place_of(fences, lasts, epoch, at);
        places.push(place)?;
        corrected.push(place.is_fenced())?;
        epoch = place.epoch(epoch, at);
    }
    Ok(Corrected {
        places,
        fences: corrected,
    })
}
