//! Where a job is refused: the line and column of a text that is no JSON, or the member at fault.

ghost use Rattle.std.specs.Prelude.{IfOk};
ghost use Rattle.dsa_advice.specs.Refusals.{IsRefusal};

use crate::answer::Answer;
use crate::members::{KnownMembers, SETTINGS_MEMBERS, SeenValue, job_members, settings_members};
use crate::settings::{SETTINGS, limits_of, member_of};
use crate::syntax::syntax_fault;
use crate::words::push_shown;
use dsa_calls::PlanFault;
use std::alloc::{AllocError, Global};

/// The members of the jobs that can be explained, by the name of the job.
const JOBS: [(&str, &[&str]); 3] = [
    ("plan", &["do", "list", "settings"]),
    ("judge", &["do", "list", "plan", "settings"]),
    (
        "check",
        &["do", "certificate", "portal", "settings", "staging"],
    ),
];

/// The members that are bytes.
const BYTES: [&str; 3] = ["list", "portal", "staging"];

/// A better reason for a refusal than its cause; none if nothing was found, or that an allocation failed.
type Found = Result<Option<String>, AllocError>;

/// That an object has a member of no known name, which may be as long as the text, and may have signs that a terminal
/// obeys.
fn no_member(alloc: Global, whole: &str, name: &str) -> Result<String, AllocError> {
    let mut words = format!(in alloc; "{whole} has no member `")?;
    push_shown(alloc, &mut words, name.as_bytes())?;
    words.push_str("`")?;
    Ok(words)
}

/// What is wrong with the names of an object's members.
fn names_fault(alloc: Global, members: &KnownMembers, whole: &str, names: &[&str]) -> Found {
    for name in names {
        if members.get(name).is_none() {
            return Ok(Some(format!(in alloc; "{whole} lacks the member `{name}`")?));
        }
    }
    match members.least_beside(names) {
        Some(name) => Ok(Some(no_member(alloc, whole, name)?)),
        None => Ok(None),
    }
}

/// The kind that a member of a job has to be of, if it is not.
fn wrong_kind(name: &str, value: &SeenValue) -> Option<&'static str> {
    match name {
        "do" | "list" | "portal" | "staging" => {
            (!matches!(value, SeenValue::Text(_))).then_some("text")
        }
        "plan" => (!matches!(value, SeenValue::Array)).then_some("an array of groups"),
        "settings" | "certificate" => (!matches!(value, SeenValue::Object)).then_some("an object"),
        _ => None,
    }
}

/// Which of these members of a job is of another kind.
fn kind_fault(alloc: Global, job: &KnownMembers, names: &[&str]) -> Found {
    for name in names {
        if let Some(kind) = job.get(name).and_then(|value| wrong_kind(name, value)) {
            return Ok(Some(format!(in alloc; "`{name}` is not {kind}")?));
        }
    }
    Ok(None)
}

/// Which member of a job is missing, not named for it, or of another kind.
fn own_fault(alloc: Global, job: &KnownMembers) -> Found {
    let name = job.text("do").unwrap_or("");
    for (known, names) in JOBS {
        if known == name {
            let whole = format!(in alloc; "a job to {name}")?;
            return match names_fault(alloc, job, &whole, names)? {
                Some(fault) => Ok(Some(fault)),
                None => kind_fault(alloc, job, names),
            };
        }
    }
    Ok(None)
}

/// The kind that a member of settings has to be of, if it is not.
fn wrong_setting(name: &str, value: &SeenValue) -> Option<&'static str> {
    match (name, value) {
        (_, SeenValue::Whole(_)) | ("batch", SeenValue::Array) => None,
        ("batch", _) => Some("a whole number below 2^64 or an array of such"),
        (_, _) => Some("a whole number below 2^64"),
    }
}

/// Which member of settings is of another kind.
fn setting_kind_fault(alloc: Global, settings: &KnownMembers) -> Found {
    for name in SETTINGS_MEMBERS {
        if let Some(kind) = settings
            .get(name)
            .and_then(|value| wrong_setting(name, value))
        {
            return Ok(Some(format!(in alloc; "`settings`: `{name}` is not {kind}")?));
        }
    }
    Ok(None)
}

/// What is wrong with the members of settings.
fn own_settings_fault(alloc: Global, settings: &KnownMembers) -> Found {
    match names_fault(alloc, settings, "`settings`", &SETTINGS_MEMBERS)? {
        Some(fault) => Ok(Some(fault)),
        None => setting_kind_fault(alloc, settings),
    }
}

/// The same of the members of its settings.
fn settings_fault(alloc: Global, text: &[u8], job: &KnownMembers) -> Found {
    match (job.get("settings"), settings_members(alloc, text)?) {
        (Some(_), Some(settings)) => own_settings_fault(alloc, &settings),
        (Some(_), None) => Ok(Some(String::from_str(alloc, "`settings` is no object")?)),
        (None, _) => Ok(None),
    }
}

/// Which member is missing, not named for the job, or of another kind.
fn member_fault(alloc: Global, text: &[u8]) -> Found {
    let Some(job) = job_members(alloc, text)? else {
        return Ok(Some(String::from_str(alloc, "a job is an object")?));
    };
    match own_fault(alloc, &job)? {
        Some(fault) => Ok(Some(fault)),
        None => settings_fault(alloc, text, &job),
    }
}

/// Which setting is outside its limits.
fn setting_fault(alloc: Global, text: &[u8]) -> Found {
    let Some(settings) = settings_members(alloc, text)? else {
        return Ok(None);
    };
    for setting in SETTINGS {
        let member = member_of(setting);
        if let Some(SeenValue::Whole(number)) = settings.get(member) {
            if !setting.allows(*number) {
                let limits = limits_of(setting);
                return Ok(Some(format!(in alloc; "`settings`: `{member}` is no {limits}")?));
            }
        }
    }
    Ok(None)
}

/// Which member's bytes are no hexadecimal text.
fn hex_fault(alloc: Global, text: &[u8]) -> Found {
    let Some(job) = job_members(alloc, text)? else {
        return Ok(None);
    };
    for member in BYTES {
        if let Some(digits) = job.text(member) {
            match hex::decode(alloc, digits.as_bytes()) {
                Ok(_) => {}
                Err(hex::FromHexError::OutOfMemory) => return Err(AllocError),
                Err(_) => {
                    return Ok(Some(format!(in alloc;
                        "`{member}` is no hexadecimal text of even length"
                    )?));
                }
            }
        }
    }
    Ok(None)
}

/// Where the text is no JSON.
fn json_fault(alloc: Global, text: &[u8]) -> Found {
    let Some(fault) = syntax_fault(alloc, text)? else {
        return Ok(None);
    };
    let (line, column) = (fault.line, fault.column);
    if fault.is_cut {
        return Ok(Some(format!(in alloc; "line {line}: the text ends before its JSON does")?));
    }
    Ok(Some(format!(in alloc; "line {line}, column {column}: the text is no JSON")?))
}

/// What is wrong with a text that spells no job.
fn text_fault(alloc: Global, text: &[u8], fault: PlanFault) -> Found {
    match fault {
        PlanFault::Json => json_fault(alloc, text),
        PlanFault::Member => member_fault(alloc, text),
        PlanFault::Settings => setting_fault(alloc, text),
        PlanFault::Hex => hex_fault(alloc, text),
        PlanFault::List(_)
        | PlanFault::Split(_)
        | PlanFault::Emission(_)
        | PlanFault::Core(_)
        | PlanFault::Room(_)
        | PlanFault::Legal(_)
        | PlanFault::Check(_)
        | PlanFault::OutOfImage(_)
        | PlanFault::ImageSize
        | PlanFault::OverTransfer(_)
        | PlanFault::Shape
        | PlanFault::Memory
        | PlanFault::Do
        | PlanFault::Engines
        | PlanFault::JobTooLong => Ok(None),
    }
}

/// The refusal of a text that spells no job.
pub(crate) fn job_fault(alloc: Global, text: &[u8], fault: PlanFault) -> Result<Answer, AllocError>
    ensures { IfOk result (IsRefusal fault) }
{
    match text_fault(alloc, text, fault)? {
        Some(words) => Answer::fault_with(alloc, fault, &words),
        None => Answer::fault(alloc, fault),
    }
}
