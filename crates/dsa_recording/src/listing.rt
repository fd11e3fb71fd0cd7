//! A recording as a list of operations to plan.

ghost use Rattle.std.specs.Prelude.{ℕ, ◌≡◌, ◌≤◌, ◌<◌, ◌^◌, ◌+◌, ◌*◌, ◌++◌, ◌∷◌, [], length, slice_index_or, IfOk, MatchOption, OnOk, codes, decimal, string_bytes};
ghost use Rattle.dsa_audit.specs.declared.needless.FenceUse.TheVariants.{NoFence};
ghost use Rattle.std.specs.List.{list_all, sum_by};
ghost use Rattle.dsa_descriptor.specs.Places.{code_at};
ghost use Rattle.dsa_lines.specs.Views.{view};
ghost use Rattle.dsa_operations.specs.Listed.{listed_op};
ghost use Rattle.dsa_recording.specs.Listings.{record_in_list, kept_flags, flags_in_list, is_checked, stand_in, is_clear, expecting_zero, op_in_list, expects_bit, is_apart_from_added, left_out, operation_line, plain_words, barrier_for, fence_line, known_line, known_operation, member_line, member_lines, submission_lines, member_operation, member_operations, listed_operations, left_line, listing_text, AreEntries, StandInsConflict, ListingIsRead};
ghost use Rattle.dsa_recording.specs.Totals.{HasSums, member_count};

use crate::entry::{Header, RECORD_REQUESTED};
use crate::entry_words::operation_text;
use crate::report::Report;
use crate::totals::members_in;
use crate::words::unseen_text;
use bitflags::Flags;
use dsa_audit::{FenceUse, Member};
use dsa_descriptor::{FlagWord, Op, Span};
use dsa_lines::{Line, line_of_fields};
use dsa_operations::{CHECKSUM_FLAGS, ListedOp};
use dsa_ranges::Touched;
use std::alloc::{AllocError, Global};

/// The address of the first record that an entry gets which requests none.
const RECORDS: u64 = 1 << 62;

/// The completion record of an entry in a list.
fn record_in_list(entry: &[u8; 64], number: usize) -> u64
    requires { number < 2 ^ 58 }
    ensures { result ≡ record_in_list number entry.now }
{
    let header = Header::of(entry);
    if header.flags.contains(RECORD_REQUESTED) {
        return header.record_at;
    }
    RECORDS + 32 * number as u64
}

/// Whether the span has no address, or lies below the records that entries of this number may get, or above them.
fn is_clear(count: usize, span: Span) -> bool
    requires { count ≤ 2 ^ 58 }
    ensures { result ≡ is_clear count span }
{
    span.len == 0 || span.end() <= u128::from(RECORDS) || RECORDS + 32 * count as u64 <= span.first
}

/// Whether each of the spans is clear of these records.
fn are_clear(count: usize, spans: &[Span]) -> bool
    requires { count ≤ 2 ^ 58 }
    ensures { result ≡ list_all (is_clear count) spans.now }
{
    spans.iter().all(|span| is_clear(count, *span))
}

/// Whether none of these records is touched.
fn is_apart_from_added(count: usize, touched: &Touched) -> bool
    requires { count ≤ 2 ^ 58 }
    ensures { result ≡ is_apart_from_added count touched.now }
{
    are_clear(count, &touched.reads) && are_clear(count, &touched.writes)
}

/// A comment in place of the operation of an entry.
fn left_out(alloc: Global, number: usize, why: &str) -> Result<String, AllocError>
    ensures { IfOk result (λ line. string_bytes line ≡ left_out number why.now) }
{
    format!(in alloc; "# entry {number}, {why}")
}

/// The number of the entry after an operation.
fn entry_text(alloc: Global, number: usize) -> Result<String, AllocError>
    ensures { IfOk result (λ text. string_bytes text ≡ codes " # entry " ++ decimal number) }
{
    format!(in alloc; " # entry {number}")
}

/// The flags of an entry that change what its operation does.
fn kept_flags(op: ListedOp) -> u32
    ensures { result ≡ kept_flags op }
{
    match op {
        ListedOp::Descriptor(Op::Compare { .. } | Op::ComparePattern { .. }) =>
            FlagWord::CHECK_RESULT.0,
        ListedOp::Descriptor(Op::Move { .. } | Op::Fill { .. } | Op::Dualcast { .. }) => 0,
        ListedOp::Descriptor(Op::ApplyDelta { .. }) => 0,
        ListedOp::Checksum(_) => CHECKSUM_FLAGS.0,
    }
}

/// The flags of the operation that stands for an entry with these flags.
fn flags_in_list(op: ListedOp, flags: FlagWord) -> FlagWord
    ensures { result.0 ≡ flags_in_list op flags.0 }
{
    FlagWord(RECORD_REQUESTED.0 | (flags.0 & kept_flags(op)))
}

/// The operation with the expected result 0.
fn expecting_zero(op: ListedOp) -> ListedOp
    ensures { result ≡ expecting_zero op }
{
    match op {
        ListedOp::Descriptor(Op::Compare { src, src2, .. }) => ListedOp::Descriptor(Op::Compare {
            src,
            src2,
            expected: 0,
        }),
        ListedOp::Descriptor(Op::ComparePattern { src, pattern, .. }) => ListedOp::Descriptor(
            Op::ComparePattern {
                src,
                pattern,
                expected: 0,
            },
        ),
        ListedOp::Descriptor(Op::Move { .. } | Op::Fill { .. } | Op::Dualcast { .. }) => op,
        ListedOp::Descriptor(Op::ApplyDelta { .. }) | ListedOp::Checksum(_) => op,
    }
}

/// Whether an operation is a compare whose result is checked.
fn is_checked(op: ListedOp, flags: FlagWord) -> bool
    ensures { result ≡ is_checked op flags.0 }
{
    flags_in_list(op, flags).contains(FlagWord::CHECK_RESULT)
}

/// The operation of an entry as a list has it: a compare expects 0 unless its result is checked.
fn op_in_list(op: ListedOp, flags: FlagWord) -> ListedOp
    ensures { result ≡ op_in_list op flags.0 }
{
    if is_checked(op, flags) {
        return op;
    }
    expecting_zero(op)
}

/// Whether no other result than 0 or 1 is expected.
fn expects_bit(op: ListedOp) -> bool
    ensures { result ≡ expects_bit op }
{
    match op {
        ListedOp::Descriptor(Op::Compare { expected, .. } | Op::ComparePattern { expected, .. }) =>
            expected <= 1,
        ListedOp::Descriptor(Op::Move { .. } | Op::Fill { .. } | Op::Dualcast { .. }) => true,
        ListedOp::Descriptor(Op::ApplyDelta { .. }) | ListedOp::Checksum(_) => true,
    }
}

/// What the list has for an entry with this operation.
fn stand_in(number: usize, entry: &[u8; 64], op: ListedOp) -> Line
    requires { number < 2 ^ 58 }
    ensures { view result ≡ stand_in number entry.now op }
{
    let Header {
        owner,
        flags,
        size,
        ..
    } = Header::of(entry);
    Line {
        pasid: owner % (1 << 20),
        privileged: owner >> 31 == 1,
        flags: flags_in_list(op, flags).0,
        record_at: record_in_list(entry, number),
        size,
        int_handle: 0,
        op: op_in_list(op, flags),
    }
}

/// The line of the operation of an entry, with the entry's number.
fn operation_line(
    alloc: Global,
    number: usize,
    entry: &[u8; 64],
    op: ListedOp,
) -> Result<String, AllocError>
    requires { number < 2 ^ 58 }
    ensures { IfOk result (λ line. string_bytes line ≡ operation_line number entry.now op) }
{
    let mut line = line_of_fields(alloc, &stand_in(number, entry, op))?;
    line.push_str(&entry_text(alloc, number)?)?;
    Ok(line)
}

/// Why no list has the operation of this code.
fn plain_text(alloc: Global, code: u8) -> Result<String, AllocError>
    ensures { IfOk result (λ text. string_bytes text ≡ plain_words code) }
{
    if code == 0 {
        return String::from_str(alloc, "left out: a no-op");
    }
    let operation = operation_text(alloc, code)?;
    format!(in alloc; "left out: {operation}")
}

/// The comment in place of an entry with an operation that no list has.
fn plain_line(alloc: Global, number: usize, entry: &[u8; 64]) -> Result<String, AllocError>
    ensures { IfOk result (λ line. string_bytes line ≡
        left_out number (plain_words (code_at entry.now))) }
{
    let why = plain_text(alloc, Header::of(entry).code)?;
    left_out(alloc, number, &why)
}

/// The line of an entry that is looked at.
fn known_line(
    alloc: Global,
    count: usize,
    number: usize,
    entry: &[u8; 64],
    touched: &Touched,
) -> Result<String, AllocError>
    requires within { number < count }
    requires few { count ≤ 2 ^ 58 }
    ensures { IfOk result (λ line. string_bytes line ≡
        known_line count number entry.now touched.now (listed_op entry.now)) }
{
    let Some(op) = ListedOp::named(entry) else {
        return plain_line(alloc, number, entry);
    };
    if !is_apart_from_added(count, touched) {
        let why = "left out: it touches addresses that this list keeps for records";
        return left_out(alloc, number, why);
    }
    if expects_bit(op_in_list(op, Header::of(entry).flags)) {
        return operation_line(alloc, number, entry, op);
    }
    let why = "left out: its check expects another result than 0 or 1";
    left_out(alloc, number, why)
}

/// The line of a member, which is the entry of that number of a recording of `count` entries.
fn member_line(
    alloc: Global,
    count: usize,
    number: usize,
    entry: &[u8; 64],
    member: &Member,
) -> Result<String, AllocError>
    requires within { number < count }
    requires few { count ≤ 2 ^ 58 }
    ensures { IfOk result (λ line. string_bytes line ≡
        member_line count number entry.now member.now) }
{
    match member {
        Member::Known(touched) => known_line(alloc, count, number, entry, touched),
        Member::Unknown(why) => {
            let words = unseen_text(alloc, *why, Header::of(entry).code)?;
            left_out(alloc, number, &words)
        }
    }
}

/// The line of a barrier for a fence of this kind.
fn barrier_for(alloc: Global, kind: &str, number: usize) -> Result<String, AllocError>
    ensures { IfOk result (λ line. string_bytes line ≡ barrier_for kind.now number) }
{
    format!(in alloc; "barrier # {kind} fence of entry {number}")
}

/// What a fence is kept for that no conflict needs.
fn kept_for(fence: FenceUse) -> Option<&'static str>
    ensures { MatchOption result ((number : ℕ) → fence_line number fence ≡ [])
        (λ kind. (number : ℕ) → fence_line number fence ≡ barrier_for kind.now number ++ 10 ∷ []) }
{
    match fence {
        FenceUse::NoFence | FenceUse::Needed(_, _) | FenceUse::Needless => None,
        FenceUse::Held => Some("held"),
        FenceUse::Guarding(_) => Some("guarding"),
        FenceUse::Signalling(_) => Some("signalling"),
        FenceUse::GuardingAndSignalling(_, _) => Some("guarding and signalling"),
    }
}

/// Writes the line of a barrier before an entry whose fence guards, signals or is held.
fn push_fence(
    alloc: Global,
    text: &mut String,
    number: usize,
    fence: FenceUse,
) -> Result<(), AllocError>
    ensures { OnOk result (string_bytes text.new ≡
        string_bytes text.old ++ fence_line number fence) }
{
    let Some(kind) = kept_for(fence) else {
        return Ok(());
    };
    let line = barrier_for(alloc, kind, number)?;
    text.push_str(&line)?;
    text.push_str("\n")
}

/// What the fence of a member is for.
fn use_at(uses: &[FenceUse], member: usize) -> FenceUse
    ensures { result ≡ slice_index_or uses.now member NoFence }
{
    if member < uses.len() {
        uses[member]
    } else {
        FenceUse::NoFence
    }
}

/// Writes the lines of members, of which the first is entry `first`, and of what their fences are
/// for.
fn push_members(
    alloc: Global,
    text: &mut String,
    all: &[[u8; 64]],
    first: usize,
    members: &[Member],
    uses: &[FenceUse],
) -> Result<(), AllocError>
    requires within { first + length members.now ≤ length all.now }
    requires few { length all.now ≤ 2 ^ 58 }
    ensures { OnOk result (string_bytes text.new ≡
        string_bytes text.old ++ member_lines all.now first members.now uses.now) }
{
    for member in 0..members.len() {
        let number = first + member;
        push_fence(alloc, text, number, use_at(uses, member))?;
        let line = member_line(alloc, all.len(), number, &all[number], &members[member])?;
        text.push_str(&line)?;
        text.push_str("\n")?;
    }
    Ok(())
}

/// How many operations the list has of an entry that is looked at: one or none.
fn known_count(count: usize, entry: &[u8; 64], touched: &Touched) -> usize
    requires { count ≤ 2 ^ 58 }
    ensures value { (number : ℕ) → result ≡
        length (known_operation count number entry.now touched.now (listed_op entry.now)) }
    ensures few { result ≤ 1 }
{
    let Some(op) = ListedOp::named(entry) else {
        return 0;
    };
    if !is_apart_from_added(count, touched) {
        return 0;
    }
    if expects_bit(op_in_list(op, Header::of(entry).flags)) {
        return 1;
    }
    0
}

/// How many operations the list has of a member: one or none.
fn listed_count(count: usize, entry: &[u8; 64], member: &Member) -> usize
    requires { count ≤ 2 ^ 58 }
    ensures value { (number : ℕ) → result ≡
        length (member_operation count number entry.now member.now) }
    ensures few { result ≤ 1 }
{
    match member {
        Member::Known(touched) => known_count(count, entry, touched),
        Member::Unknown(_) => 0,
    }
}

/// How many operations the list has of members, of which the first is entry `first`.
fn listed_of(all: &[[u8; 64]], first: usize, members: &[Member]) -> usize
    requires within { first + length members.now ≤ length all.now }
    requires few { length all.now ≤ 2 ^ 58 }
    ensures value { result ≡ length (member_operations all.now first members.now) }
    ensures few { result ≤ length members.now }
{
    let mut listed = 0;
    for member in 0..members.len() {
        listed += listed_count(all.len(), &all[first + member], &members[member]);
    }
    listed
}

/// How many operations the list has of all submissions.
fn listed_in(all: &[[u8; 64]], report: &Report) -> usize
    requires entries { AreEntries all.now report.now.submissions.items report.now.audits.items }
    requires few { length all.now ≤ 2 ^ 58 }
    requires sums { HasSums report.now }
    ensures value { result ≡
        length (listed_operations all.now report.now.submissions.items report.now.audits.items) }
    ensures few { result ≤ sum_by member_count report.now.audits.items }
{
    let mut listed = 0;
    for number in 0..report.audits.len() {
        listed += listed_of(
            all,
            report.submissions[number].first,
            &report.audits[number].members,
        );
    }
    listed
}

/// The line that says how many of the operations are left out, none if that is 0, or that there are no operations.
fn left_text(alloc: Global, left: usize, total: usize) -> Result<String, AllocError>
    ensures { IfOk result (λ text. string_bytes text ≡ left_line left total) }
{
    if total == 0 {
        return String::from_str(
            alloc,
            "# this list is empty: the recording has no operations\n",
        );
    }
    if left == 0 {
        return Ok(String::new(alloc));
    }
    let mut line = format!(in alloc;
        "# left out: {left} of {total} operations, each for the reason in its comment: \
         no plan has them, and no cost counts them"
    )?;
    line.push_str("\n")?;
    Ok(line)
}

/// Writes the lines of all submissions.
fn push_submissions(
    alloc: Global,
    text: &mut String,
    all: &[[u8; 64]],
    report: &Report,
) -> Result<(), AllocError>
    requires entries { AreEntries all.now report.now.submissions.items report.now.audits.items }
    requires few { length all.now ≤ 2 ^ 58 }
    ensures { OnOk result (string_bytes text.new ≡ string_bytes text.old ++
        submission_lines all.now report.now.submissions.items report.now.audits.items) }
{
    for number in 0..report.audits.len() {
        let first = report.submissions[number].first;
        let audited = &report.audits[number];
        let uses = &audited.audit.reduced.uses;
        push_members(alloc, text, all, first, &audited.members, uses)?;
    }
    Ok(())
}

/// The operations of a report on these entries, as a list to plan, with a barrier for each fence
/// that guards or signals, and before them how many are left out.
pub(crate) fn listing_text(
    alloc: Global,
    all: &[[u8; 64]],
    report: &Report,
) -> Result<String, AllocError>
    requires entries { AreEntries all.now report.now.submissions.items report.now.audits.items }
    requires few { length all.now ≤ 2 ^ 58 }
    requires sums { HasSums report.now }
    ensures { IfOk result (λ text. string_bytes text ≡
        listing_text all.now report.now.submissions.items report.now.audits.items) }
{
    let total = members_in(&report.audits);
    let left = total - listed_in(all, report);
    let mut text = left_text(alloc, left, total)?;
    push_submissions(alloc, &mut text, all, report)?;
    Ok(text)
}

/// Two operations of the list of a recording conflict exactly if their entries do.
pub fn stand_ins_conflict()
    ensures { StandInsConflict }
{}

/// The list of a recording is read as its operations, if each is one that a list may have.
#[tactic(auto, using(crate::proofs::ListingRead::listing_is_read))]
pub fn listing_is_read()
    ensures { ListingIsRead }
{}
