//! `disassemble`: the text of a list, a portal or a staging area.

ghost use Rattle.std.specs.Prelude.{IfOk};
ghost use Rattle.dsa_calls.specs.declared.fault.PlanFault.{PlanFault};
ghost use Rattle.dsa_calls.specs.Fault.{list_cause};
ghost use Rattle.dsa_advice.specs.Refusals.{IsRefusal};
ghost use Rattle.dsa_text.specs.Disassembled.{DisassemblesList};

use crate::options::word;
use clap::ArgMatches;
use dsa_advice::{Answer, bytes_or_refusal, limits_of, number_of};
use dsa_calls::PlanFault;
use dsa_descriptor::{FieldFault, ListFault};
use dsa_forms::is_text;
use dsa_lines::EmittedFault;
use dsa_plan::Setting;
use std::alloc::{AllocError, Global};

/// What to do about an entry that is no operation of a list, in which fences are kept or at fault.
fn hint_of(list: &[u8], keep_fences: bool, at: usize, fault: FieldFault) -> &'static str {
    let (entries, _) = list.as_chunks::<64>();
    let Some(entry) = entries.get(at) else {
        return "";
    };
    match fault {
        FieldFault::FlagBits if entry[4] & 1 == 1 && !keep_fences => {
            "note: it has a fence (flag 0x0001), which --keep-fences reads as a barrier\n"
        }
        FieldFault::Opcode if entry[7] == 1 => {
            "note: it is a batch: --portal and --staging read what is submitted, audit --list a recording\n"
        }
        FieldFault::Opcode
        | FieldFault::FlagBits
        | FieldFault::Reserved
        | FieldFault::SizeZero
        | FieldFault::Wrap
        | FieldFault::RecordAlign
        | FieldFault::DualcastBits
        | FieldFault::Overlap
        | FieldFault::Delta
        | FieldFault::Expected
        | FieldFault::RecordMeetsData => "",
    }
}

/// The same refusal, with a hint after it.
fn with_hint(refusal: Answer, hint: &str) -> Result<Answer, AllocError>
    ensures { IfOk result
        (λ a. (fault : PlanFault) → IsRefusal fault refusal → IsRefusal fault a) }
{
    let mut hinted = refusal;
    hinted.text.push_str(hint)?;
    Ok(hinted)
}

/// The refusal of a list, and what to do about it.
fn refused_list(
    alloc: Global,
    list: &[u8],
    keep_fences: bool,
    fault: ListFault,
) -> Result<Answer, AllocError>
    ensures { IfOk result (IsRefusal (list_cause fault)) }
{
    let refusal = Answer::list_fault(alloc, list, fault)?;
    let hint = match fault {
        ListFault::Field(at, fault) => hint_of(list, keep_fences, at, fault),
        ListFault::Length | ListFault::MixedPasid(_) | ListFault::Memory => "",
    };
    with_hint(refusal, hint)
}

/// The text of a list. If fences are kept, each after the first operation is a barrier.
fn disassemble_list(alloc: Global, list: &[u8], keep_fences: bool) -> Result<Answer, AllocError>
    ensures { IfOk result (DisassemblesList keep_fences list.now) }
{
    match dsa_lines::disassemble(alloc, list, keep_fences) {
        Ok(text) => Ok(Answer::done(text)),
        Err(fault) => refused_list(alloc, list, keep_fences, fault),
    }
}

/// The cause why bytes are no portal or no staging area.
fn cause_of(fault: EmittedFault) -> PlanFault {
    match fault {
        EmittedFault::Emission(fault) => PlanFault::Emission(fault),
        EmittedFault::Memory => PlanFault::Memory,
    }
}

/// The answer of a text, or the refusal.
fn answer_of(alloc: Global, text: Result<String, EmittedFault>) -> Result<Answer, AllocError> {
    match text {
        Ok(text) => Ok(Answer::done(text)),
        Err(fault) => Answer::fault(alloc, cause_of(fault)),
    }
}

/// The text of a portal: a line for each entry.
fn disassemble_portal(alloc: Global, portal: &[u8]) -> Result<Answer, AllocError> {
    answer_of(alloc, dsa_lines::disassemble_portal(alloc, portal))
}

/// The text of a staging area at an address: a line for each entry and each record. The address is a multiple of 64 and
/// at most 2^63, as that of settings is.
fn disassemble_staging(alloc: Global, staging: &[u8], at: u64) -> Result<Answer, AllocError> {
    if !Setting::Staging.allows(at) {
        return Answer::fault(alloc, PlanFault::Settings);
    }
    answer_of(alloc, dsa_lines::disassemble_staging(alloc, staging, at))
}

/// The lines of bytes.
fn lines_of(
    alloc: Global,
    matches: &ArgMatches<'_>,
    bytes: &[u8],
    at: u64,
) -> Result<Answer, AllocError> {
    if matches.get_flag("portal") {
        disassemble_portal(alloc, bytes)
    } else if matches.get_flag("staging") {
        disassemble_staging(alloc, bytes, at)
    } else {
        disassemble_list(alloc, bytes, matches.get_flag("keep-fences"))
    }
}

/// What `disassemble` answers. An input that is no text is taken as its bytes.
pub(crate) fn disassemble(
    alloc: Global,
    matches: &ArgMatches<'_>,
    input: &[u8],
) -> Result<Answer, AllocError> {
    let word = word(matches, "at");
    let Some(at) = number_of(word).filter(|at| Setting::Staging.allows(*at)) else {
        let limits = limits_of(Setting::Staging);
        let message = format!(in alloc; "--at: '{word}' is no {limits}")?;
        return Answer::fault_with(alloc, PlanFault::Settings, &message);
    };
    if !is_text(input) {
        return lines_of(alloc, matches, input, at);
    }
    match bytes_or_refusal(alloc, input, "")? {
        Ok(bytes) => lines_of(alloc, matches, &bytes, at),
        Err(refusal) => Ok(refusal),
    }
}
