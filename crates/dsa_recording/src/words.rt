//! The words of what an audit finds.

ghost use Rattle.std.specs.Prelude.{◌≡◌, ◌++◌, ◌-◌, ◌<◌, ◌^◌, Some, true, IfOk, OnOk, codes, slice_get, string_bytes};
ghost use Rattle.dsa_recording.specs.declared.detail.Detail.{Detail};
ghost use Rattle.dsa_recording.specs.declared.findings.Place.TheVariants as Place;
ghost use Rattle.dsa_recording.specs.Details.{named_by};
ghost use Rattle.dsa_recording.specs.EntryWords.{operation_words};
ghost use Rattle.dsa_recording.specs.Words.{entry_words, member_words, place_words, note_unless, severity_of, is_error, severity_with, severity_words, unseen_words, hazard_words, guarding_words, signalling_words, both_words, repeated_words, refused_words, flaw_words, flaw_place_words, needless_words, cause_words, privilege_words, owners_words, record_words, overlap_words, more_words, entry_line, other_line, other_lines, finding_line, finding_words};
ghost use Rattle.dsa_audit.specs.declared.member.Unseen.TheVariants.{Owner};

use crate::detail::{Conflict, Detail, Records, named_by};
use crate::entry_words::{bytes_text, descriptor_text, operation_text};
use crate::findings::{FindingKind, Flaw, Place};
use dsa_audit::Unseen;
use dsa_ranges::{Hazard, HazardKind};
use std::alloc::{AllocError, Global};

/// How severe a finding is.
#[derive(Clone, Copy)]
pub enum Severity {
    /// The program ends with status 1.
    Error,
    /// The audit says less than it could.
    Warning,
    /// It may be left as it is.
    Note,
    /// It would be an error, but is known and accepted.
    Accepted,
}

/// What counts as an error too.
#[derive(Clone, Copy)]
pub struct Denied {
    /// Needless fences.
    pub needless: bool,
    /// Fences that guard.
    pub guarding: bool,
    /// Fences that signal.
    pub signalling: bool,
    /// Members that are not looked at.
    pub unseen: bool,
    /// Recordings of no descriptor.
    pub nothing: bool,
}

/// How severe a finding is that may be left as it is, unless it is denied.
fn note_unless(denied: bool) -> Severity
    ensures { result ≡ note_unless denied }
{
    if denied {
        Severity::Error
    } else {
        Severity::Note
    }
}

/// How severe it is that this was found. This alone decides what is an error: a missing fence, a flaw, and what is
/// denied.
pub fn severity_of<E: Copy>(denied: Denied, kind: FindingKind<E>) -> Severity
    ensures { result ≡ severity_of denied kind }
{
    match kind {
        FindingKind::NotSeen(_) => {
            if denied.unseen {
                Severity::Error
            } else {
                Severity::Warning
            }
        }
        FindingKind::MissingFence(_) => Severity::Error,
        FindingKind::GuardingFence(_) => note_unless(denied.guarding),
        FindingKind::SignallingFence(_) => note_unless(denied.signalling),
        FindingKind::GuardingAndSignallingFence(_, _) => {
            note_unless(denied.guarding || denied.signalling)
        }
        FindingKind::NeedlessFence => note_unless(denied.needless),
        FindingKind::Repeated(_) => Severity::Note,
        FindingKind::Flawed(_) => Severity::Error,
    }
}

/// Whether this is an error.
pub(crate) fn is_error(severity: Severity) -> bool
    ensures { result ≡ is_error severity }
{
    match severity {
        Severity::Error => true,
        Severity::Warning | Severity::Note | Severity::Accepted => false,
    }
}

/// How severe it is if its key is accepted, or is not.
pub(crate) fn severity_with(accepted: bool, severity: Severity) -> Severity
    ensures { result ≡ severity_with accepted severity }
{
    match (accepted, severity) {
        (true, Severity::Error) => Severity::Accepted,
        (true, Severity::Warning | Severity::Note | Severity::Accepted) | (false, _) => severity,
    }
}

/// Where a member of a batch is.
fn batch_place(
    alloc: Global,
    entry: usize,
    submission: usize,
    member: usize,
) -> Result<String, AllocError>
    ensures { IfOk result (λ s. string_bytes s ≡
        entry_words entry submission (member_words true (Place.Member member))) }
{
    format!(in alloc; "entry {entry} (submission {submission}, member {member})")
}

/// Where the descriptor of a batch is.
fn head_place(alloc: Global, entry: usize, submission: usize) -> Result<String, AllocError>
    ensures { IfOk result (λ s. string_bytes s ≡
        entry_words entry submission (codes ", its descriptor)")) }
{
    format!(in alloc; "entry {entry} (submission {submission}, its descriptor)")
}

/// Where a lone descriptor is.
fn lone_place(alloc: Global, entry: usize, submission: usize) -> Result<String, AllocError>
    ensures { IfOk result (λ s. string_bytes s ≡
        entry_words entry submission (codes ", lone)")) }
{
    format!(in alloc; "entry {entry} (submission {submission}, lone)")
}

/// Where it was found: the submission and its member.
fn place_text(alloc: Global, detail: &Detail) -> Result<String, AllocError>
    ensures { IfOk result (λ s. string_bytes s ≡ place_words detail.now) }
{
    match (detail.place, detail.is_batch) {
        (Place::Head, true | false) => head_place(alloc, detail.entry, detail.submission),
        (Place::Member(member), true) => {
            batch_place(alloc, detail.entry, detail.submission, member)
        }
        (Place::Member(_), false) => lone_place(alloc, detail.entry, detail.submission),
    }
}

/// Writes how severe it is.
fn push_severity(text: &mut String, severity: Severity) -> Result<(), AllocError>
    ensures { OnOk result (string_bytes text.new ≡ string_bytes text.old ++
        severity_words severity) }
{
    match severity {
        Severity::Error => text.push_str(": error: "),
        Severity::Warning => text.push_str(": warning: "),
        Severity::Note => text.push_str(": note: "),
        Severity::Accepted => text.push_str(": accepted: "),
    }
}

/// That a member of this operation code is not looked at.
fn unknown_text(alloc: Global, code: u8) -> Result<String, AllocError>
    ensures { IfOk result (λ s. string_bytes s ≡ codes "not looked at: " ++ operation_words code) }
{
    let operation = operation_text(alloc, code)?;
    format!(in alloc; "not looked at: {operation}")
}

/// Why a member of this operation code is not looked at.
pub(crate) fn unseen_text(alloc: Global, why: Unseen, code: u8) -> Result<String, AllocError>
    ensures { IfOk result (λ s. string_bytes s ≡ unseen_words why code) }
{
    match why {
        Unseen::Blank => String::from_str(alloc, "not looked at: 64 zero bytes"),
        Unseen::Operation => unknown_text(alloc, code),
        Unseen::Nested => String::from_str(alloc, "not looked at: a batch in a batch"),
        Unseen::Owner => String::from_str(
            alloc,
            "not looked at: another PASID or privilege than its batch",
        ),
        Unseen::Empty => String::from_str(alloc, "not looked at: size 0"),
        Unseen::Wrap => String::from_str(
            alloc,
            "not looked at: data or completion record past the last address",
        ),
    }
}

/// Why a fence is missing after an earlier member.
pub(crate) fn hazard_text(
    alloc: Global,
    earlier: usize,
    hazard: Hazard,
) -> Result<String, AllocError>
    ensures { IfOk result (λ s. string_bytes s ≡ hazard_words hazard.kind earlier hazard.address) }
{
    let address = hazard.address;
    match hazard.kind {
        HazardKind::ReadAfterWrite => {
            format!(in alloc;
                "missing fence, read after write: reads what member {earlier} writes, at 0x{address:x}"
            )
        }
        HazardKind::WriteAfterRead => {
            format!(in alloc;
                "missing fence, write after read: writes what member {earlier} reads, at 0x{address:x}"
            )
        }
        HazardKind::WriteAfterWrite => {
            format!(in alloc;
                "missing fence, write after write: writes what member {earlier} writes, at 0x{address:x}"
            )
        }
    }
}

/// That a fence is needless, at once or with the missing ones.
pub(crate) fn needless_text(alloc: Global, complete: bool) -> Result<String, AllocError>
    ensures { IfOk result (λ s. string_bytes s ≡ needless_words complete) }
{
    if complete {
        String::from_str(alloc, "needless fence")
    } else {
        String::from_str(
            alloc,
            "needless fence, once the missing fences of its batch are set",
        )
    }
}

/// That a fence guards, and which member can fail.
pub(crate) fn guarding_text(alloc: Global, earlier: usize) -> Result<String, AllocError>
    ensures { IfOk result (λ s. string_bytes s ≡ guarding_words earlier) }
{
    format!(in alloc; "guarding fence: member {earlier} can fail")
}

/// That a fence signals, and which member software can await.
pub(crate) fn signalling_text(alloc: Global, awaited: usize) -> Result<String, AllocError>
    ensures { IfOk result (λ s. string_bytes s ≡ signalling_words awaited) }
{
    format!(in alloc; "signalling fence: member {awaited} can be awaited")
}

/// That a fence guards and signals.
pub(crate) fn both_text(alloc: Global, earlier: usize, awaited: usize) -> Result<String, AllocError>
    ensures { IfOk result (λ s. string_bytes s ≡ both_words earlier awaited) }
{
    format!(in alloc;
        "guarding and signalling fence: member {earlier} can fail, member {awaited} can be awaited"
    )
}

/// That a member does what an earlier one does.
fn repeated_text(alloc: Global, earlier: usize) -> Result<String, AllocError>
    ensures { IfOk result (λ s. string_bytes s ≡ repeated_words earlier) }
{
    format!(in alloc; "repeated operation: member {earlier} does the same")
}

/// What else may be wrong with a batch of so many members: one that was refused is recorded without them.
fn refused_words(size: usize) -> &'static str
    ensures { result.now ≡ refused_words size }
{
    if size == 0 {
        ", at most as many as its queue takes, and a list that can be read"
    } else {
        ""
    }
}

/// What is wrong beside fences.
pub(crate) fn flaw_text(alloc: Global, flaw: Flaw) -> Result<String, AllocError>
    ensures { IfOk result (λ s. string_bytes s ≡ flaw_words flaw) }
{
    match flaw {
        Flaw::SharedRecord(earlier) => format!(in alloc;
            "shared record, use another: it and member {earlier} meet in a completion record"
        ),
        Flaw::OverwritesBatch => String::from_str(
            alloc,
            "overwrites its batch: it writes the descriptors or the completion record of its batch",
        ),
        Flaw::DataOverRecord => String::from_str(alloc, "data over its own completion record"),
        Flaw::MisalignedRecord => String::from_str(
            alloc,
            "misaligned record: its address is no multiple of 32",
        ),
        Flaw::ReservedBytes => String::from_str(
            alloc,
            "reserved bytes set: clear bytes 16 to 35 and 38 to 63, or begin the recording at an entry",
        ),
        Flaw::SmallBatch(size) => {
            let more = refused_words(size);
            format!(in alloc; "batch of {size}: a batch has two members at least{more}")
        }
        Flaw::FenceWithoutEffect => String::from_str(
            alloc,
            "fence without effect: wait for earlier submissions in its place",
        ),
    }
}

/// What was found, and why; `complete`: no fence of its submission is missing.
fn cause_text(alloc: Global, detail: &Detail, complete: bool) -> Result<String, AllocError>
    ensures { IfOk result (λ s. string_bytes s ≡
        cause_words complete detail.now.code detail.now.cause) }
{
    match detail.cause {
        FindingKind::NotSeen(why) => unseen_text(alloc, why, detail.code),
        FindingKind::MissingFence(Conflict { earlier, hazard }) => hazard_text(
            alloc, earlier, hazard,
        ),
        FindingKind::GuardingFence(earlier) => guarding_text(alloc, earlier),
        FindingKind::SignallingFence(awaited) => signalling_text(alloc, awaited),
        FindingKind::GuardingAndSignallingFence(earlier, awaited) => both_text(
            alloc, earlier, awaited,
        ),
        FindingKind::NeedlessFence => needless_text(alloc, complete),
        FindingKind::Repeated(earlier) => repeated_text(alloc, earlier),
        FindingKind::Flawed(flaw) => flaw_text(alloc, flaw),
    }
}

/// What is said of the privilege in bit 31 of an owner.
pub(crate) fn privilege_text(owner: u32) -> &'static str
    ensures { result.now ≡ privilege_words owner }
{
    if owner / (1 << 31) == 1 {
        " privileged"
    } else {
        ""
    }
}

/// The owner of an entry, which is not that of its batch.
fn owners_text(alloc: Global, owner: u32, head: u32) -> Result<String, AllocError>
    ensures { IfOk result (λ s. string_bytes s ≡ owners_words Owner owner head) }
{
    let (own, other) = (owner % (1 << 20), head % (1 << 20));
    let (privilege, other_privilege) = (privilege_text(owner), privilege_text(head));
    format!(in alloc; ": PASID {own}{privilege}, not PASID {other}{other_privilege}")
}

/// Whose completion record has the address of a conflict. The earlier one has this name, as `member `, and number.
pub fn record_text(
    alloc: Global,
    records: Records,
    name: &str,
    earlier: usize,
) -> Result<String, AllocError>
    ensures { IfOk result (λ s. string_bytes s ≡
        record_words records.earlier records.later name.now earlier) }
{
    match (records.earlier, records.later) {
        (false, false) => Ok(String::new(alloc)),
        (true, false) => format!(in alloc; ", in the record of {name}{earlier}"),
        (false, true) => String::from_str(alloc, ", in its own record"),
        (true, true) => format!(in alloc; ", in its own record and that of {name}{earlier}"),
    }
}

/// How many bytes conflict from the address on.
fn overlap_text(alloc: Global, bytes: u64) -> Result<String, AllocError>
    ensures { IfOk result (λ s. string_bytes s ≡ overlap_words bytes) }
{
    let count = bytes_text(alloc, bytes)?;
    format!(in alloc; " ({count})")
}

/// The address of the completion record that a flaw is about.
fn flaw_place_text(alloc: Global, record_at: u64, flaw: Flaw) -> Result<String, AllocError>
    ensures { IfOk result (λ s. string_bytes s ≡ flaw_place_words record_at flaw) }
{
    match flaw {
        Flaw::SharedRecord(_) | Flaw::DataOverRecord | Flaw::MisalignedRecord => {
            format!(in alloc; ", at 0x{record_at:x}")
        }
        Flaw::OverwritesBatch
        | Flaw::ReservedBytes
        | Flaw::SmallBatch(_)
        | Flaw::FenceWithoutEffect => { Ok(String::new(alloc)) }
    }
}

/// Writes what is said after the cause: two owners, how far the conflict goes and whose completion record it is in, or
/// the address of the record.
fn push_more(alloc: Global, line: &mut String, detail: &Detail) -> Result<(), AllocError>
    ensures { OnOk result (string_bytes line.new ≡ string_bytes line.old ++
        more_words detail.now detail.now.cause) }
{
    match detail.cause {
        FindingKind::NotSeen(Unseen::Owner) => {
            line.push_str(&owners_text(alloc, detail.owner, detail.head_owner)?)
        }
        FindingKind::MissingFence(Conflict { earlier, .. }) => {
            line.push_str(&overlap_text(alloc, detail.overlap)?)?;
            line.push_str(&record_text(alloc, detail.records, "member ", earlier)?)
        }
        FindingKind::NotSeen(
            Unseen::Blank | Unseen::Operation | Unseen::Nested | Unseen::Empty | Unseen::Wrap,
        )
        | FindingKind::GuardingFence(_)
        | FindingKind::SignallingFence(_)
        | FindingKind::GuardingAndSignallingFence(_, _)
        | FindingKind::NeedlessFence
        | FindingKind::Repeated(_) => Ok(()),
        FindingKind::Flawed(flaw) => line.push_str(&flaw_place_text(
            alloc,
            detail.record_at,
            flaw,
        )?),
    }
}

/// Writes the line of a finding: where it is, how severe, what, and why; `complete`: no fence of its submission is missing.
fn finding_line(
    alloc: Global,
    detail: &Detail,
    complete: bool,
    severity: Severity,
) -> Result<String, AllocError>
    ensures { IfOk result (λ s. string_bytes s ≡ finding_line severity complete detail.now) }
{
    let mut line = place_text(alloc, detail)?;
    push_severity(&mut line, severity)?;
    line.push_str(&cause_text(alloc, detail, complete)?)?;
    push_more(alloc, &mut line, detail)?;
    line.push_str("\n")?;
    Ok(line)
}

/// Writes a line of the entry of this number.
fn push_entry_line(
    alloc: Global,
    text: &mut String,
    number: u128,
    entry: &[u8; 64],
) -> Result<(), AllocError>
    requires { number < 2 ^ 65 }
    ensures { OnOk result (string_bytes text.new ≡ string_bytes text.old ++
        entry_line number (Some entry.now)) }
{
    let (first, words) = (number * 64, descriptor_text(alloc, entry)?);
    text.push_str(&format!(in alloc; "  entry {number}, byte {first}: {words}\n")?)
}

/// Writes a line of the entry of this number, if there is one.
pub fn push_entry(
    alloc: Global,
    text: &mut String,
    all: &[[u8; 64]],
    number: usize,
) -> Result<(), AllocError>
    ensures { OnOk result (string_bytes text.new ≡ string_bytes text.old ++
        entry_line number (slice_get all.now number)) }
{
    match all.get(number) {
        Some(entry) => push_entry_line(alloc, text, number as u128, entry),
        None => Ok(()),
    }
}

/// The same in the entries of a recording from number `from` on.
fn push_entry_from(
    alloc: Global,
    text: &mut String,
    from: usize,
    all: &[[u8; 64]],
    number: u128,
) -> Result<(), AllocError>
    requires { number < 2 ^ 65 }
    ensures { OnOk result (string_bytes text.new ≡ string_bytes text.old ++
        entry_line number (slice_get all.now (number - from))) }
{
    let Ok(index) = usize::try_from(number.saturating_sub(from as u128)) else {
        return Ok(());
    };
    match all.get(index) {
        Some(entry) => push_entry_line(alloc, text, number, entry),
        None => Ok(()),
    }
}

/// Writes a line of another member of the finding's submission.
fn push_other(
    alloc: Global,
    text: &mut String,
    from: usize,
    all: &[[u8; 64]],
    detail: &Detail,
    member: usize,
) -> Result<(), AllocError>
    ensures { OnOk result (string_bytes text.new ≡ string_bytes text.old ++
        other_line from all.now detail.now member) }
{
    let number = detail.first as u128 + member as u128;
    if number == detail.entry as u128 {
        return Ok(());
    }
    push_entry_from(alloc, text, from, all, number)
}

/// Writes a line of each other member that the cause of a finding names.
fn push_others(
    alloc: Global,
    text: &mut String,
    from: usize,
    all: &[[u8; 64]],
    detail: &Detail,
) -> Result<(), AllocError>
    ensures { OnOk result (string_bytes text.new ≡ string_bytes text.old ++
        other_lines from all.now detail.now (named_by detail.now.cause)) }
{
    let members = named_by(detail.cause);
    for member in members.as_slice() {
        push_other(alloc, text, from, all, detail, *member)?;
    }
    Ok(())
}

/// The lines of a finding of this severity, in the entries of a recording from number `from` on: where it is, what, and
/// why; its entry, and those that it names. `complete`: no fence of its submission is missing.
pub fn finding_text(
    alloc: Global,
    from: usize,
    all: &[[u8; 64]],
    detail: &Detail,
    complete: bool,
    severity: Severity,
) -> Result<String, AllocError>
    ensures { IfOk result (λ s. string_bytes s ≡
        finding_words severity complete from all.now detail.now) }
{
    let mut text = finding_line(alloc, detail, complete, severity)?;
    push_entry_from(alloc, &mut text, from, all, detail.entry as u128)?;
    push_others(alloc, &mut text, from, all, detail)?;
    Ok(text)
}
