//! Laws of legal plans: their bodies are empty, and their clauses are what the proofs show.

ghost use Rattle.dsa_settings.specs.Barriers.{LegalIsKept, BarriersPart};
ghost use Rattle.dsa_settings.specs.Epochs.{LegalEpochsPart, EpochsFollow, LegalWithMore};

use crate::conflicts::Conflicts;

/// Epochs follow the list, and a legal plan has conflicting pieces in different epochs, whichever pieces conflict.
/// Larger batches make no legal plan illegal, nor do prices.
pub fn legal_epochs_part<C: Conflicts>()
    ensures follow { EpochsFollow }
    ensures part { LegalEpochsPart C.conflict }
    ensures more { LegalWithMore C.conflict }
{}

/// The plans that are legal with barriers are the legal plans that keep each barrier, whichever pieces conflict; and
/// each piece before a barrier is of an earlier epoch than each piece after it.
pub fn barriers_are_kept<C: Conflicts>()
    ensures kept { LegalIsKept C.conflict }
    ensures part { BarriersPart C.conflict }
{}
