//! What a text lists, from one walk over its lines.

ghost use Rattle.std.specs.Prelude.{◌≡◌, [], ◌∷◌, ◌++◌, List, IfErr, IfOk, OnOk, MatchResult, map};
ghost use Rattle.dsa_descriptor.specs.Lists.{AreOfOneOwner};
ghost use Rattle.dsa_operations.specs.declared.operation.Operation.{Operation};
ghost use Rattle.dsa_operations.specs.OperationFields.{operation_fields};
ghost use Rattle.dsa_operations.specs.Operations.{spelling_of};
ghost use Rattle.dsa_lines.specs.declared.fault.TextFault.TheVariants.{Memory};
ghost use Rattle.dsa_lines.specs.Barriers.{barriers_of};
ghost use Rattle.dsa_lines.specs.TextLists.{Gathers, IsFirstTextFault, IsTextFault, NamesLine, OneLineEach, PushesLine, line_number, line_shown, operation_lines};
ghost use Rattle.dsa_lines.specs.Texts.{TextSpells, lines_of};

use crate::fault::TextFault;
use crate::lines::before;
use crate::list_line::{ListLine, list_line};
use dsa_descriptor::{ListFault, kept_marks, read_plain};
use dsa_operations::{Operation, OperationList};
use std::alloc::{AllocError, Global};

/// The line of an operation.
#[derive(Clone, Copy)]
pub struct OperationLine<'a> {
    /// Its number, from 1 on.
    pub number: usize,
    /// Whether `fence` is before the operation, in its own line.
    pub is_fenced: bool,
    /// Its bytes, without a newline.
    pub text: &'a [u8],
}

/// What a text lists.
#[derive(Drop)]
pub struct TextList<'a> {
    /// The operations with their barriers.
    pub list: OperationList,
    /// The line of each operation.
    pub lines: Vec<OperationLine<'a>>,
}

/// What the lines so far have.
#[derive(Drop)]
pub(crate) struct Gathered<'a> {
    /// The bytes of their operations, listed or not.
    pub(crate) bytes: Vec<u8>,
    /// Whether a barrier is before each operation.
    pub(crate) marks: Vec<bool>,
    /// The line of each operation.
    pub(crate) lines: Vec<OperationLine<'a>>,
}

/// Adds an operation.
fn push_operation<'a>(
    gathered: &mut Gathered<'a>,
    entry: &[u8; 64],
    mark: bool,
    line: OperationLine<'a>,
) -> Result<(), AllocError>
    ensures bytes { OnOk result
        (gathered.new.bytes.items ≡ gathered.old.bytes.items ++ entry.now) }
    ensures marks { OnOk result
        (gathered.new.marks.items ≡ gathered.old.marks.items ++ mark ∷ []) }
    ensures lines { OnOk result
        (gathered.new.lines.items ≡ gathered.old.lines.items ++ line.entry ∷ []) }
{
    gathered.bytes.extend_from_slice(entry)?;
    gathered.marks.push(mark)?;
    gathered.lines.push(line)?;
    Ok(())
}

/// Adds what a line has. `pending` says whether a barrier is before the next operation; so does what is returned.
fn push_line<'a>(
    gathered: &mut Gathered<'a>,
    line: &'a [u8],
    number: usize,
    keep_fences: bool,
    pending: bool,
) -> Result<bool, TextFault>
    ensures { PushesLine
        keep_fences pending number line.now gathered.old gathered.new result }
{
    match list_line(line) {
        Ok(ListLine::Nothing) => Ok(pending),
        Ok(ListLine::Barrier) => Ok(true),
        Ok(ListLine::Entry(entry, is_fenced)) => {
            let mark = pending || is_fenced && keep_fences;
            let found = OperationLine {
                number,
                is_fenced,
                text: line,
            };
            push_operation(gathered, &entry, mark, found)?;
            Ok(false)
        }
        Err((column, expected)) => Err(TextFault::Grammar(number, column, expected)),
    }
}

/// What the lines of a text have.
pub(crate) fn gather<'a>(
    alloc: Global,
    text: &'a [u8],
    keep_fences: bool,
) -> Result<Gathered<'a>, TextFault>
    ensures { Gathers keep_fences (lines_of text.now) result }
{
    let mut gathered = Gathered {
        bytes: Vec::new(alloc),
        marks: Vec::new(alloc),
        lines: Vec::new(alloc),
    };
    let mut pending = false;
    let mut rest = text;
    let mut number: usize = 1;
    'lines: loop {
        let (line, after) = rest.split_at(before(rest, b'\n'));
        pending = push_line(&mut gathered, line, number, keep_fences, pending)?;
        let [_newline, next @ ..] = after else {
            return Ok(gathered);
        };
        rest = next;
        number += 1;
    }
}

/// The number of the line, from 1 on, that has the operation of this index; 0 if there is no such operation.
pub fn line_of_operation(lines: &[OperationLine<'_>], index: usize) -> usize
    ensures { result ≡ line_number (map line_shown lines.now) index }
{
    match lines.get(index) {
        Some(line) => line.number,
        None => 0,
    }
}

/// The fault of a list, with the line of the operation that it names.
pub(crate) fn text_fault(lines: &[OperationLine<'_>], fault: ListFault) -> TextFault
    ensures fault { IsTextFault fault result }
    ensures place { NamesLine (map line_shown lines.now) result }
{
    match fault {
        ListFault::Length => TextFault::List(1, fault),
        ListFault::Field(index, _) | ListFault::MixedPasid(index) => {
            TextFault::List(line_of_operation(lines, index), fault)
        }
        ListFault::Memory => TextFault::Memory,
    }
}

/// What a text lists, from one walk over its lines: its operations with their barriers, and the line of each. A line
/// `barrier` is one before the operation after it; so is `fence` in an operation's own line, if fences are kept. One
/// before the first operation says nothing. The line of a batch is passed over, since a plan has batches of its own.
///
/// # Errors
/// The first line that leaves the grammar; else the first fault of the operations as a list, as [`read_plain`] reports
/// it, with the line of its operation; [`TextFault::Memory`] at the first allocation that fails.
pub fn parse_text<'a>(
    alloc: Global,
    text: &'a [u8],
    keep_fences: bool,
) -> Result<TextList<'a>, TextFault>
    ensures spelled { IfOk result
        (λ read. TextSpells text.now (map operation_fields read.list.entries.items)) }
    ensures barriers { IfOk result
        (λ read. read.list.barriers.items ≡ barriers_of keep_fences (lines_of text.now)) }
    ensures lines { IfOk result
        (λ read. map line_shown read.lines.items ≡ operation_lines 1 (lines_of text.now)) }
    ensures only { (os : List Operation) →
        TextSpells text.now (map operation_fields os) → AreOfOneOwner spelling_of os →
        MatchResult result (λ read. read.list.entries.items ≡ os) (λ fault. fault ≡ Memory) }
    ensures fault { IfErr result (IsFirstTextFault (lines_of text.now)) }
{
    let Gathered {
        bytes,
        marks,
        lines,
    } = match gather(alloc, text, keep_fences) {
        Ok(gathered) => gathered,
        Err(fault) => return Err(fault),
    };
    let read = match read_plain::<Operation>(alloc, bytes.as_slice()) {
        Ok(read) => read,
        Err(fault) => return Err(text_fault(&lines, fault)),
    };
    let list = OperationList {
        entries: read.entries,
        barriers: kept_marks(alloc, marks),
    };
    Ok(TextList { list, lines })
}

/// A text that spells operations has a line for each.
#[tactic(auto, using(crate::proofs::Marks::one_line_each))]
pub fn one_line_each()
    ensures { OneLineEach }
{}
