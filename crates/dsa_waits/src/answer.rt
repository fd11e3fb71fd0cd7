//! What is answered of a recording with events.

ghost use Rattle.std.specs.Prelude.{◌≡◌, ℕ, List, IfOk};
ghost use Rattle.dsa_recording.specs.declared.accepted.Accepted.{Accepted};
ghost use Rattle.dsa_recording.specs.declared.stream.Submission.{Submission};
ghost use Rattle.dsa_recording.specs.Answers.{Refuses};
ghost use Rattle.dsa_waits.specs.Answered.{AnswersWaits, IsStatusOf, status_in};
ghost use Rattle.dsa_waits.specs.Fitting.{AreWaits};

use crate::fitting::{Found, find_waits};
use crate::keys::{Keyed, are_none, shown_waits};
use crate::report::{waits_json, waits_keys};
use crate::words::{fault_text, waits_text};
use dsa_recording::{
    Accepted, AuditAnswer, AuditFormat, MissingWait, StreamFault, Submission, read_stream,
};
use std::alloc::{AllocError, Global};

/// The status of what was found: whether some missing wait is not accepted.
fn status_of(found: &Found) -> u8
    ensures { (accepted : Accepted) (es : List (List ℕ)) (ss : List Submission) (text : List ℕ) →
        AreWaits accepted es ss text found.now → IsStatusOf accepted es ss found.now result }
{
    if are_none(&found.left) {
        return 0;
    }
    1
}

/// What is answered of a recording with events.
#[derive(Drop)]
pub struct WaitsAnswer {
    /// The missing waits; of a picture no text.
    pub report: AuditAnswer,
    /// Of a picture those that it shows.
    pub drawn: Vec<MissingWait>,
}

/// What was found in words, as an object of JSON, or as the keys of the waits that are not accepted.
fn found_text(keyed: Keyed<'_>, found: &Found, format: AuditFormat) -> Result<String, AllocError> {
    match format {
        AuditFormat::Text | AuditFormat::List => waits_text(keyed, found),
        AuditFormat::Picture => Ok(String::new(keyed.alloc)),
        AuditFormat::Json => waits_json(keyed, found),
        AuditFormat::Keys => waits_keys(keyed, found),
    }
}

/// The missing waits that a picture shows.
fn drawn_waits(
    keyed: Keyed<'_>,
    found: &Found,
    format: AuditFormat,
) -> Result<Vec<MissingWait>, AllocError> {
    let mut drawn = Vec::new(keyed.alloc);
    match format {
        AuditFormat::Picture => {
            for wait in &shown_waits(keyed, found)? {
                drawn.push(MissingWait {
                    earlier: wait.earlier,
                    later: wait.later,
                    hazard: wait.hazard,
                    is_accepted: wait.is_accepted,
                })?;
            }
        }
        AuditFormat::Text | AuditFormat::Json | AuditFormat::List | AuditFormat::Keys => {}
    }
    Ok(drawn)
}

/// The status that is answered in a format: of keys 0.
fn status_in(format: AuditFormat, status: u8) -> u8
    ensures { result ≡ status_in format status }
{
    match format {
        AuditFormat::Text | AuditFormat::Json | AuditFormat::Picture | AuditFormat::List => status,
        AuditFormat::Keys => 0,
    }
}

/// A refusal for this reason.
fn refusal(alloc: Global, text: String) -> WaitsAnswer
    ensures { Refuses result.report }
{
    WaitsAnswer {
        report: AuditAnswer::refused(alloc, text),
        drawn: Vec::new(alloc),
    }
}

/// The missing waits of a recording with the text of its events: in words, as an object of JSON, or as the keys of
/// those that are not accepted; for a list in words, and of a picture those that it shows. The status is 0 of keys, and
/// if there are none or all are accepted; 1 if there are others; and 2 with the reason if the bytes are no recording,
/// or the text has no events that fit it.
pub fn answer_waits(
    alloc: Global,
    bytes: &[u8],
    text: &[u8],
    format: AuditFormat,
    accepted: &Accepted,
) -> Result<WaitsAnswer, AllocError>
    ensures { IfOk result
        (λ a. AnswersWaits format accepted.now bytes.now text.now a.report) }
{
    let submissions = match read_stream(alloc, bytes) {
        Ok(submissions) => submissions,
        Err(StreamFault::Memory) => return Err(AllocError),
        Err(StreamFault::Length | StreamFault::CutOff(_)) => {
            let text = String::from_str(alloc, "error: the recording is cut off\n")?;
            return Ok(refusal(alloc, text));
        }
    };
    let (all, _) = bytes.as_chunks::<64>();
    match find_waits(alloc, all, &submissions, text, accepted) {
        Ok(found) => {
            let keyed = Keyed {
                alloc,
                all,
                submissions: &submissions,
                accepted,
            };
            let text = found_text(keyed, &found, format)?;
            let drawn = drawn_waits(keyed, &found, format)?;
            let status = status_in(format, status_of(&found));
            let used = found.used;
            let report = AuditAnswer { text, status, used };
            Ok(WaitsAnswer { report, drawn })
        }
        Err(fault) => {
            let text = fault_text(alloc, fault)?;
            Ok(refusal(alloc, text))
        }
    }
}
