//! Bytes as hexadecimal text, in any form that `audit` reads, or as they are.

ghost use Rattle.std.specs.Prelude.{IfOk, MatchResult};
ghost use Rattle.dsa_calls.specs.declared.fault.PlanFault.TheVariants.{Hex};
ghost use Rattle.dsa_forms.specs.Forms.{SpellsBytes, SpellsNone};
ghost use Rattle.dsa_advice.specs.Refusals.{IsRefusal};

use crate::answer::Answer;
use dsa_calls::PlanFault;
use dsa_forms::bytes_of_input;
use std::alloc::{AllocError, Global};

/// The bytes of a text, or the refusal, which names the place where there are none, after these words.
pub fn bytes_or_refusal(
    alloc: Global,
    text: &[u8],
    before: &str,
) -> Result<Result<Vec<u8>, Answer>, AllocError>
    ensures { IfOk result
        (λ read. MatchResult read
        (λ bytes. SpellsBytes text.now bytes.items)
        (λ a. SpellsNone text.now × IsRefusal Hex a)) }
{
    match bytes_of_input(alloc, text)? {
        Ok(bytes) => Ok(Ok(bytes)),
        Err(fault) => {
            let place = fault.text(alloc, "")?;
            let message = format!(in alloc; "{before}{place}")?;
            Ok(Err(Answer::fault_with(alloc, PlanFault::Hex, &message)?))
        }
    }
}
