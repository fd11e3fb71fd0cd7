//! A report on a recording as JSON.

use crate::answer::{AuditOptions, severity_in};
use crate::assumptions::Assumptions;
use crate::detail::{Conflict, Detail, named_by};
use crate::entry_words::descriptor_text;
use crate::findings::{FindingKind, Flaw, Place};
use crate::keys::key_text;
use crate::sums::Sums;
use crate::words::Severity;
use crate::written::Before;
use dsa_audit::Unseen;
use dsa_ranges::HazardKind;
use serde::Serialize;
use std::alloc::{AllocError, Global};

/// The version of the program that writes reports, which is that of bindings/c/dsa_planner.h.
pub const VERSION: &str = "1.0.0";

/// The name of a severity.
fn severity_name(severity: Severity) -> &'static str {
    match severity {
        Severity::Error => "error",
        Severity::Warning => "warning",
        Severity::Note => "note",
        Severity::Accepted => "accepted",
    }
}

/// The name of a reason why a member is not looked at.
pub(crate) fn unseen_name(why: Unseen) -> &'static str {
    match why {
        Unseen::Blank => "blank",
        Unseen::Operation => "operation",
        Unseen::Nested => "nested",
        Unseen::Owner => "owner",
        Unseen::Empty => "empty",
        Unseen::Wrap => "wrap",
    }
}

/// The name of a hazard.
pub fn hazard_name(kind: HazardKind) -> &'static str {
    match kind {
        HazardKind::ReadAfterWrite => "read after write",
        HazardKind::WriteAfterRead => "write after read",
        HazardKind::WriteAfterWrite => "write after write",
    }
}

// The members of each object are in the order of the alphabet.

/// The owner of an entry.
#[derive(Drop, Serialize)]
struct OwnerObject {
    pasid: u32,
    privileged: bool,
}

/// What was found, and why.
#[derive(Drop, Serialize)]
#[serde(untagged)]
enum CauseObject {
    /// A member is not looked at.
    Unseen {
        kind: &'static str,
        operation: u64,
        owner: OwnerObject,
        submission_owner: OwnerObject,
        why: &'static str,
    },
    /// A fence is missing.
    Missing {
        address: String,
        bytes: u64,
        earlier: u64,
        hazard: &'static str,
        kind: &'static str,
        records: Vec<u64>,
    },
    /// It is about an earlier member.
    Earlier {
        earlier: u64,
        kind: &'static str,
    },
    /// It is about a member that is waited for.
    Awaited {
        awaited: u64,
        kind: &'static str,
    },
    /// It is about both.
    EarlierAndAwaited {
        awaited: u64,
        earlier: u64,
        kind: &'static str,
    },
    /// A fence is needless.
    Needless {
        kind: &'static str,
        once_corrected: bool,
    },
    /// Two members share a record.
    SharedRecord {
        address: String,
        earlier: u64,
        kind: &'static str,
    },
    /// It is about the record at this address.
    Record {
        address: String,
        kind: &'static str,
    },
    /// A batch has this size.
    Size {
        kind: &'static str,
        size: u64,
    },
    /// There is no more to say.
    Plain {
        kind: &'static str,
    },
}

/// An entry: its number, where its bytes begin, and what it does.
#[derive(Drop, Serialize)]
pub struct EntryObject {
    entry: u64,
    offset: u64,
    operation: String,
}

/// A finding.
#[derive(Drop, Serialize)]
struct FindingObject {
    entries: Vec<EntryObject>,
    entry: u64,
    key: String,
    member: Option<u64>,
    severity: &'static str,
    submission: u64,
    what: CauseObject,
}

/// The members in whose completion records the address of a conflict lies.
fn records_of(alloc: Global, detail: &Detail, earlier: usize) -> Result<Vec<u64>, AllocError> {
    let mut members = Vec::new(alloc);
    if detail.records.earlier {
        members.push(earlier as u64)?;
    }
    if let (true, Place::Member(member)) = (detail.records.later, detail.place) {
        members.push(member as u64)?;
    }
    Ok(members)
}

/// Why a fence is missing.
fn hazard_object(
    alloc: Global,
    detail: &Detail,
    conflict: Conflict,
) -> Result<CauseObject, AllocError> {
    let Conflict { earlier, hazard } = conflict;
    let records = records_of(alloc, detail, earlier)?;
    let address = hazard.address;
    Ok(CauseObject::Missing {
        address: format!(in alloc; "0x{address:x}")?,
        bytes: detail.overlap,
        earlier: earlier as u64,
        hazard: hazard_name(hazard.kind),
        kind: "missing",
        records,
    })
}

/// An owner.
fn owner_object(owner: u32) -> OwnerObject {
    OwnerObject {
        pasid: owner % (1 << 20),
        privileged: owner >> 31 == 1,
    }
}

/// Why a member is not looked at.
fn unseen_object(detail: &Detail, why: Unseen) -> CauseObject {
    CauseObject::Unseen {
        kind: "unseen",
        operation: u64::from(detail.code),
        owner: owner_object(detail.owner),
        submission_owner: owner_object(detail.head_owner),
        why: unseen_name(why),
    }
}

/// What is wrong with the record at this address.
fn record_object(
    alloc: Global,
    record_at: u64,
    kind: &'static str,
) -> Result<CauseObject, AllocError> {
    let address = format!(in alloc; "0x{record_at:x}")?;
    Ok(CauseObject::Record { address, kind })
}

/// The record that two members share.
fn shared_object(alloc: Global, record_at: u64, earlier: usize) -> Result<CauseObject, AllocError> {
    Ok(CauseObject::SharedRecord {
        address: format!(in alloc; "0x{record_at:x}")?,
        earlier: earlier as u64,
        kind: "shared record",
    })
}

/// What is wrong beside fences.
fn flaw_object(alloc: Global, record_at: u64, flaw: Flaw) -> Result<CauseObject, AllocError> {
    match flaw {
        Flaw::SharedRecord(earlier) => shared_object(alloc, record_at, earlier),
        Flaw::DataOverRecord => record_object(alloc, record_at, "data over record"),
        Flaw::MisalignedRecord => record_object(alloc, record_at, "misaligned record"),
        Flaw::OverwritesBatch => Ok(CauseObject::Plain {
            kind: "overwrites batch",
        }),
        Flaw::ReservedBytes => Ok(CauseObject::Plain {
            kind: "reserved bytes",
        }),
        Flaw::SmallBatch(size) => Ok(CauseObject::Size {
            kind: "small batch",
            size: size as u64,
        }),
        Flaw::FenceWithoutEffect => Ok(CauseObject::Plain {
            kind: "fence without effect",
        }),
    }
}

/// What was found, and why; `complete`: no fence of its submission is missing.
fn cause_object(alloc: Global, detail: &Detail, complete: bool) -> Result<CauseObject, AllocError> {
    match detail.cause {
        FindingKind::NotSeen(why) => Ok(unseen_object(detail, why)),
        FindingKind::MissingFence(conflict) => hazard_object(alloc, detail, conflict),
        FindingKind::GuardingFence(earlier) => Ok(CauseObject::Earlier {
            earlier: earlier as u64,
            kind: "guarding",
        }),
        FindingKind::SignallingFence(awaited) => Ok(CauseObject::Awaited {
            awaited: awaited as u64,
            kind: "signalling",
        }),
        FindingKind::GuardingAndSignallingFence(earlier, awaited) => Ok(
            CauseObject::EarlierAndAwaited {
                awaited: awaited as u64,
                earlier: earlier as u64,
                kind: "guarding and signalling",
            },
        ),
        FindingKind::NeedlessFence => Ok(CauseObject::Needless {
            kind: "needless",
            once_corrected: !complete,
        }),
        FindingKind::Repeated(earlier) => Ok(CauseObject::Earlier {
            earlier: earlier as u64,
            kind: "repeated operation",
        }),
        FindingKind::Flawed(flaw) => flaw_object(alloc, detail.record_at, flaw),
    }
}

/// The object of an entry of this number.
pub fn entry_object(
    alloc: Global,
    number: usize,
    entry: &[u8; 64],
) -> Result<EntryObject, AllocError> {
    let operation = descriptor_text(alloc, entry)?;
    let number = number as u64;
    Ok(EntryObject {
        entry: number,
        offset: number.saturating_mul(64),
        operation,
    })
}

/// Adds the object of the entry of this number, if there is one in those from number `from` on.
fn push_entry(
    alloc: Global,
    entries: &mut Vec<EntryObject>,
    from: usize,
    all: &[[u8; 64]],
    number: usize,
) -> Result<(), AllocError> {
    if let Some(entry) = all.get(number.saturating_sub(from)) {
        entries.push(entry_object(alloc, number, entry)?)?;
    }
    Ok(())
}

/// The entries that a finding is of: its own, and those of the members that it names.
fn entries_of(
    alloc: Global,
    from: usize,
    all: &[[u8; 64]],
    detail: &Detail,
) -> Result<Vec<EntryObject>, AllocError> {
    let mut entries = Vec::new(alloc);
    push_entry(alloc, &mut entries, from, all, detail.entry)?;
    for member in named_by(detail.cause).as_slice() {
        let number = detail.first.saturating_add(*member);
        if number != detail.entry {
            push_entry(alloc, &mut entries, from, all, number)?;
        }
    }
    Ok(entries)
}

/// The number of the member that a finding is of, if it is of one of a batch.
fn member_of(detail: &Detail) -> Option<u64> {
    match (detail.place, detail.is_batch) {
        (Place::Member(member), true) => Some(member as u64),
        (Place::Member(_), false) | (Place::Head, true | false) => None,
    }
}

/// Writes a value as JSON.
pub fn push_json<T: Serialize>(
    alloc: Global,
    line: &mut String,
    value: &T,
) -> Result<(), AllocError> {
    match serde_json::to_string(alloc, value) {
        Ok(text) => line.push_str(&text),
        // the types that are written have no other fault
        Err(_) => Err(AllocError),
    }
}

/// Writes the object of a finding of a part, which has these entries.
pub(crate) fn push_finding(
    alloc: Global,
    line: &mut String,
    before: Before,
    all: &[[u8; 64]],
    detail: &Detail,
    complete: bool,
    options: AuditOptions<'_>,
) -> Result<(), AllocError> {
    let shown = before.shown(detail);
    let entries = entries_of(alloc, before.entries, all, &shown)?;
    let key = key_text(alloc, all, detail)?;
    let severity = severity_name(severity_in(alloc, options, all, detail)?);
    let finding = FindingObject {
        entries,
        entry: shown.entry as u64,
        key,
        member: member_of(detail),
        severity,
        submission: shown.submission as u64,
        what: cause_object(alloc, detail, complete)?,
    };
    push_json(alloc, line, &finding)
}

/// The program that wrote a report.
#[derive(Serialize)]
struct Tool {
    name: &'static str,
    version: &'static str,
}

/// This program.
const TOOL: Tool = Tool {
    name: "dsa_text",
    version: VERSION,
};

/// Writes a member of the report after others.
fn push_member<T: Serialize>(
    alloc: Global,
    line: &mut String,
    name: &str,
    value: &T,
) -> Result<(), AllocError> {
    line.push_str(name)?;
    push_json(alloc, line, value)
}

/// The report as one line of JSON, of these findings.
pub(crate) fn report_json(
    alloc: Global,
    findings: &str,
    sums: &Sums,
    assumptions: Assumptions,
) -> Result<String, AllocError> {
    let mut line = String::new(alloc);
    push_member(alloc, &mut line, "{\"assumptions\":", &assumptions)?;
    push_member(alloc, &mut line, ",\"costs\":", &sums.costs)?;
    line.push_str(",\"findings\":[")?;
    line.push_str(findings)?;
    push_member(alloc, &mut line, "],\"freed\":", &sums.freed)?;
    push_member(alloc, &mut line, ",\"tool\":", &TOOL)?;
    push_member(alloc, &mut line, ",\"totals\":", &sums.totals)?;
    line.push_str("}\n")?;
    Ok(line)
}
