//! The message about operations that can't be planned: which operation is where, what it does, and which setting to
//! change.

ghost use Rattle.std.specs.Prelude.{IfOk};
ghost use Rattle.dsa_advice.specs.Refusals.{IsRefusal};

use crate::answer::Answer;
use crate::notes::push_span;
use crate::origins::count_of;
use dsa_calls::PlanFault;
use dsa_descriptor::{MOST_PIECES, RECORD_LEN};
use dsa_lines::{OperationLine, line_of_operation};
use dsa_operations::Operation;
use dsa_plan::{STAGED_LEN, Settings};
use dsa_ranges::{Piece, Span, meets};
use dsa_splitter::SplitFault;
use dsa_tracker::Tracked;
use std::alloc::{AllocError, Global};

/// Where operations come from.
#[derive(Clone, Copy)]
pub enum Source<'a> {
    /// A text and the lines of its operations, with options.
    Text(&'a [u8], &'a [OperationLine<'a>]),
    /// The bytes of a list, with options.
    List,
    /// The list of a job, which has settings of its own.
    Job,
}

/// The operations that were to be planned, and their settings.
#[derive(Clone, Copy)]
struct Given<'a> {
    operations: &'a [Operation],
    settings: &'a Settings,
    source: Source<'a>,
}

/// An address of an operation that another range has too.
#[derive(Clone, Copy)]
struct SharedAddress {
    /// What part of the operation it is.
    what: &'static str,
    address: u64,
}

impl Source<'_> {
    /// How the address of the staging area is given.
    fn staging(self) -> &'static str {
        match self {
            Source::Text(_, _) | Source::List => "--staging",
            Source::Job => "`staging`",
        }
    }

    /// How the greatest transfer is given.
    fn transfer(self) -> &'static str {
        match self {
            Source::Text(_, _) | Source::List => "--greatest-transfer",
            Source::Job => "`greatest_transfer`",
        }
    }
}

/// Whether operations that are longer than the greatest transfer are split: none is beside a checksum.
fn are_split(operations: &[Operation]) -> bool {
    operations.iter().all(|operation| match operation {
        Operation::Descriptor(_) => true,
        Operation::Checksum(_) => false,
    })
}

/// How many pieces operations have.
fn piece_total(operations: &[Operation], settings: &Settings) -> usize {
    if !are_split(operations) {
        return operations.len();
    }
    let mut total: usize = 0;
    for operation in operations {
        total = total.saturating_add(count_of(operation, settings));
    }
    total
}

/// The operation that has the piece of this number.
fn operation_of_piece(given: Given<'_>, piece: usize) -> usize {
    if !are_split(given.operations) {
        return piece;
    }
    let mut before: usize = 0;
    for (index, d) in given.operations.iter().enumerate() {
        before = before.saturating_add(count_of(d, given.settings));
        if piece < before {
            return index;
        }
    }
    given.operations.len()
}

/// Which operation is refused.
fn operation_at_fault(given: Given<'_>, cause: SplitFault) -> usize {
    match cause {
        SplitFault::DeltaTooLong(index)
        | SplitFault::ExpectedSplit(index)
        | SplitFault::RowMeetsData(index)
        | SplitFault::RowWrap(index) => index,
        SplitFault::TooManyPieces => operation_of_piece(given, MOST_PIECES),
        SplitFault::StagingMeets(piece) => operation_of_piece(given, piece),
        SplitFault::Memory => given.operations.len(),
    }
}

/// The bytes of so many entries from an address on.
fn row(first: u64, entry: u64, count: usize) -> Span {
    Span {
        first,
        len: entry.saturating_mul(count as u64),
    }
}

/// The first address that a range has with some of these.
fn shared(area: Span, spans: &[Span], what: &'static str) -> Option<SharedAddress> {
    for span in spans {
        if meets(area, *span) {
            let address = area.first.max(span.first);
            return Some(SharedAddress { what, address });
        }
    }
    None
}

/// An address at which the operation's data lies in a range.
fn data_in(d: &Operation, area: Span) -> Option<SharedAddress> {
    if let Some(found) = shared(area, &d.sources(), "source") {
        return Some(found);
    }
    shared(area, &d.targets(), "destination")
}

/// An address at which the operation's data, or the records of so many pieces of it, lie in a range.
fn operation_in(d: &Operation, count: usize, area: Span) -> Option<SharedAddress> {
    if let Some(found) = data_in(d, area) {
        return Some(found);
    }
    shared(
        area,
        &[row(d.completion_record().first, RECORD_LEN, count)],
        "completion record",
    )
}

/// Writes where the operation meets the staging area.
fn push_staging(
    alloc: Global,
    text: &mut String,
    given: Given<'_>,
    d: &Operation,
) -> Result<(), AllocError> {
    let option = given.source.staging();
    let area = row(
        given.settings.staging(),
        STAGED_LEN,
        piece_total(given.operations, given.settings),
    );
    if let Some(SharedAddress { what, address }) = operation_in(
        d,
        count_of(d, given.settings),
        area,
    ) {
        text.push_str(&format!(in alloc; "its {what} meets the staging area at 0x{address:x}; ")?)?;
    }
    text.push_str("the area is ")?;
    push_span(alloc, text, area)?;
    text.push_str(&format!(in alloc; ", 96 bytes for each piece: choose another {option}")?)
}

/// Writes where the records of the operation's pieces meet its own data.
fn push_row(
    alloc: Global,
    text: &mut String,
    given: Given<'_>,
    d: &Operation,
) -> Result<(), AllocError> {
    let (count, option) = (count_of(d, given.settings), given.source.transfer());
    let records = row(d.completion_record().first, RECORD_LEN, count);
    text.push_str(&format!(in alloc; "the records of its {count} pieces, ")?)?;
    push_span(alloc, text, records)?;
    text.push_str(", meet its own ")?;
    if let Some(SharedAddress { what, address }) = data_in(d, records) {
        text.push_str(&format!(in alloc; "{what} at 0x{address:x}")?)?;
    }
    text.push_str(&format!(in alloc; ": move the record, or raise {option}")?)
}

/// Writes what is wrong with the operation, and what to change.
fn push_cause(
    alloc: Global,
    text: &mut String,
    given: Given<'_>,
    d: &Operation,
    cause: SplitFault,
) -> Result<(), AllocError> {
    let (size, record) = (d.transfer_size(), d.completion_record().first);
    let (greatest, option) = (given.settings.greatest_transfer(), given.source.transfer());
    match cause {
        SplitFault::DeltaTooLong(_) => text.push_str(&format!(in alloc;
            "a delta of {size} bytes is above the greatest transfer, {greatest}, and is not split: raise {option}"
        )?),
        SplitFault::ExpectedSplit(_) => text.push_str(&format!(in alloc;
            "a compare that checks for a difference is not split, and {size} bytes are above the greatest \
             transfer, {greatest}: raise {option}"
        )?),
        SplitFault::TooManyPieces if !are_split(given.operations) => {
            text.push_str("with it there are more than 65,536 operations: plan fewer")
        }
        SplitFault::TooManyPieces => text.push_str(&format!(in alloc;
            "with it there are more than 65,536 pieces of up to {greatest} bytes: raise {option}, or plan \
             fewer operations"
        )?),
        SplitFault::StagingMeets(_) => push_staging(alloc, text, given, d),
        SplitFault::RowMeetsData(_) => push_row(alloc, text, given, d),
        SplitFault::RowWrap(_) => text.push_str(&format!(in alloc;
            "the records of its pieces, 32 bytes each from 0x{record:x} on, would pass 2^64: move the \
             record, or raise {option}"
        )?),
        SplitFault::Memory => Ok(()),
    }
}

/// Which operation it is, and its line in a text.
fn place_text(alloc: Global, source: Source<'_>, index: usize) -> Result<String, AllocError> {
    match source {
        Source::Text(_, lines) => {
            let line = line_of_operation(lines, index);
            format!(in alloc; "line {line}, operation {index}: ")
        }
        Source::List | Source::Job => format!(in alloc; "operation {index}: "),
    }
}

/// The message about an operation that is too long, in a list with a checksum.
fn too_long(alloc: Global, given: Given<'_>, index: usize) -> Result<String, AllocError> {
    let (greatest, option) = (given.settings.greatest_transfer(), given.source.transfer());
    let size = given
        .operations
        .get(index)
        .map_or(0, |operation| operation.transfer_size());
    let mut text = place_text(alloc, given.source, index)?;
    text.push_str(&format!(in alloc;
        "{size} bytes are above the greatest transfer, {greatest}, and no operation of a list with a \
         checksum is split: raise {option}"
    )?)?;
    Ok(text)
}

/// The message about operations that can't be split.
fn words_of(alloc: Global, given: Given<'_>, cause: SplitFault) -> Result<String, AllocError> {
    let index = operation_at_fault(given, cause);
    let mut text = place_text(alloc, given.source, index)?;
    if let Some(d) = given.operations.get(index) {
        push_cause(alloc, &mut text, given, d, cause)?;
    }
    Ok(text)
}

/// The refusal of operations that can't be planned.
pub fn refuse_unplanned(
    alloc: Global,
    operations: &[Operation],
    settings: &Settings,
    source: Source<'_>,
    fault: PlanFault,
) -> Result<Answer, AllocError>
    ensures { IfOk result (IsRefusal fault) }
{
    let given = Given {
        operations,
        settings,
        source,
    };
    let words = if let PlanFault::Split(cause) = fault {
        words_of(alloc, given, cause)?
    } else if let PlanFault::OverTransfer(index) = fault {
        too_long(alloc, given, index)?
    } else {
        return Answer::fault(alloc, fault);
    };
    Answer::fault_with(alloc, fault, &words)
}
