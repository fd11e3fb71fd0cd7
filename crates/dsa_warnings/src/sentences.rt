//! The sentence of a warning.

ghost use Rattle.std.specs.Prelude.{◌≡◌, IfOk, string_bytes};
ghost use Rattle.dsa_warnings.specs.Sentences.{warning_words};

use crate::concerns::Concern;
use crate::warnings::Warning;
use std::alloc::{AllocError, Global};

/// The sentence of a warning.
///
/// # Errors
/// [`AllocError`] at the first allocation that fails.
pub fn warning_text(alloc: Global, warning: &Warning) -> Result<String, AllocError>
    ensures { IfOk result (λ s. string_bytes s ≡ warning_words warning.now) }
{
    let piece = warning.piece;
    match warning.concern {
        Concern::SharedRecord(earlier) => format!(in alloc;
            "piece {piece}: it or piece {earlier} writes into the completion record of the other"
        ),
        Concern::Unchecked => format!(in alloc;
            "piece {piece}: without check its result does not stop what is after a barrier"
        ),
        Concern::Unguarded => format!(in alloc;
            "piece {piece}: what is after its check, up to a barrier, may run even if it fails"
        ),
        Concern::Overlap => format!(in alloc;
            "piece {piece}: its ranges overlap, and only devices with overlapping copy support (GENCAP bit 1) take it"
        ),
    }
}
