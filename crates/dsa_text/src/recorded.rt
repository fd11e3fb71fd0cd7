//! `explain` of a recording: of the operations that its audit lists.

ghost use Rattle.std.specs.Prelude.{IfOk};
ghost use Rattle.dsa_text.specs.Recorded.{ExplainsRecording, ListsRecording};

use dsa_advice::{Answer, Form, explain_text};
use dsa_plan::Settings;
use dsa_recording::{
    Accepted, Assumptions, AuditAnswer, AuditFormat, AuditOptions, Await, Denied, audit_entries,
};
use std::alloc::{AllocError, Global};

/// What `audit --list` answers to the bytes of a recording, without other options. A list has no price, so any settings
/// do.
fn list_recording(
    alloc: Global,
    bytes: &[u8],
    settings: &Settings,
) -> Result<AuditAnswer, AllocError>
    ensures { IfOk result (ListsRecording bytes.now) }
{
    let accepted = Accepted::none(alloc);
    let denied = Denied {
        needless: false,
        guarding: false,
        signalling: false,
        unseen: false,
        nothing: false,
    };
    let assumptions = Assumptions {
        awaited: Await::Writes,
        resident: false,
    };
    let options = AuditOptions {
        format: AuditFormat::List,
        every: false,
        denied,
        accepted: &accepted,
        assumptions,
        waits: &[],
    };
    audit_entries(alloc, bytes, settings, options)
}

/// What the plan of least cost of a recording's operations does and why, in this form: those of the text that its audit
/// lists, with its barriers. What the audit refuses is refused with its reason.
pub fn explain_recording(
    alloc: Global,
    bytes: &[u8],
    settings: &Settings,
    form: Form,
) -> Result<Answer, AllocError>
    ensures { IfOk result (ExplainsRecording bytes.now settings.now form) }
{
    let listed = list_recording(alloc, bytes, settings)?;
    if listed.status == 2 {
        return Ok(Answer::refused(listed.text));
    }
    explain_text(alloc, listed.text.as_bytes(), false, settings, form)
}
