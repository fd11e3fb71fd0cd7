//! All mistakes of a text in one message, by line.

ghost use Rattle.std.specs.Prelude.{◌≡◌, ◌++◌, IfOk, string_bytes};
ghost use Rattle.dsa_calls.specs.Fault.{list_cause};
ghost use Rattle.dsa_advice.specs.Refusals.{NamesCause, NamesGrammar};

use crate::messages::{grammar_message, line_message};
use dsa_descriptor::{ListFault, u32_at};
use dsa_lines::{Expected, operation_bytes};
use dsa_operations::Operation;
use dsa_sentences::TextCause;
use std::alloc::{AllocError, Global};

/// The most lines that a message names, beside the first that is refused.
const MOST_NAMED: usize = 19;

/// What is wrong with a line.
#[derive(Clone, Copy)]
enum Mistake {
    /// It leaves the grammar at this column.
    Grammar(usize, Expected),
    /// Its operation can't be listed.
    Operation(ListFault),
}

/// What is known of the operations of the lines so far.
#[derive(Clone, Copy)]
struct Sofar {
    /// How many there are.
    operations: usize,
    /// The owner of the first.
    owner: Option<u32>,
    /// Whether a line before left the grammar: it counts as an operation, of an owner that is not known.
    has_left: bool,
}

impl Sofar {
    /// What is wrong with a line, which is counted.
    fn mistake_of(&mut self, line: &[u8]) -> Option<Mistake> {
        match operation_bytes(line) {
            Err((column, expected)) => {
                self.operations = self.operations.saturating_add(1);
                self.has_left = true;
                Some(Mistake::Grammar(column, expected))
            }
            Ok(None) => None,
            Ok(Some(entry)) => self.fault_of(&entry).map(Mistake::Operation),
        }
    }

    /// Why the next operation can't be listed.
    fn fault_of(&mut self, entry: &[u8; 64]) -> Option<ListFault> {
        let (index, owner) = (self.operations, u32_at(entry, 0));
        self.operations = index.saturating_add(1);
        let first = *self.owner.get_or_insert(owner);
        match Operation::read(entry) {
            Err(fault) => Some(ListFault::Field(index, fault)),
            Ok(_) if owner != first && !self.has_left => Some(ListFault::MixedPasid(index)),
            Ok(_) => None,
        }
    }
}

/// The lines that are wrong beside one.
#[derive(Drop)]
struct OtherMistakes {
    /// The messages of those before it.
    before: String,
    /// The messages of those after it.
    after: String,
    /// How many of them are named.
    named: usize,
    /// How many there are.
    count: usize,
}

impl OtherMistakes {
    /// Counts a line that is wrong, and names it if not too many are named.
    fn push(
        &mut self,
        alloc: Global,
        text: &[u8],
        line: usize,
        is_before: bool,
        mistake: Mistake,
    ) -> Result<(), AllocError> {
        self.count = self.count.saturating_add(1);
        if self.named >= MOST_NAMED {
            return Ok(());
        }
        self.named = self.named.saturating_add(1);
        let message = match mistake {
            Mistake::Grammar(column, expected) => {
                grammar_message(alloc, text, line, column, expected)?
            }
            Mistake::Operation(fault) => line_message(alloc, text, line, fault)?,
        };
        let place = if is_before {
            &mut self.before
        } else {
            &mut self.after
        };
        place.push_str(&message)
    }
}

/// The lines that are wrong, but for the one of this number.
fn others_of(alloc: Global, text: &[u8], known: usize) -> Result<OtherMistakes, AllocError> {
    let mut others = OtherMistakes {
        before: String::new(alloc),
        after: String::new(alloc),
        named: 0,
        count: 0,
    };
    let mut sofar = Sofar {
        operations: 0,
        owner: None,
        has_left: false,
    };
    for (at, line) in text.split(|byte| *byte == b'\n').enumerate() {
        let number = at.saturating_add(1);
        let mistake = sofar.mistake_of(line);
        if let Some(mistake) = mistake {
            if number != known {
                others.push(alloc, text, number, number < known, mistake)?;
            }
        }
    }
    Ok(others)
}

/// How many lines are wrong, with the one that is not among the others, and how many of them are not named.
fn count_text(alloc: Global, others: &OtherMistakes) -> Result<String, AllocError> {
    let count = others.count.saturating_add(1);
    let left = others.count.saturating_sub(others.named);
    if left == 0 {
        return format!(in alloc; "error: {count} lines are wrong");
    }
    format!(in alloc; "error: {count} lines are wrong, and {left} of them are not named")
}

/// The message of the first line that leaves the grammar, with what is wrong with the other lines.
pub(crate) fn grammar_mistakes(
    alloc: Global,
    text: &[u8],
    line: usize,
    first: String,
) -> Result<String, AllocError>
    requires { NamesGrammar (string_bytes first) }
    ensures { IfOk result (λ s. NamesGrammar (string_bytes s)) }
{
    let others = others_of(alloc, text, line)?;
    if others.count == 0 {
        return Ok(first);
    }
    let mut all = String::from_str(alloc, &others.before)?;
    all.push_str(&first)?;
    all.push_str(&others.after)?;
    all.push_str(&count_text(alloc, &others)?)?;
    all.push_str(TextCause::Line.ending())?;
    Ok(all)
}

/// The message of the first operation that can't be listed, with what is wrong with the other lines.
pub(crate) fn list_mistakes(
    alloc: Global,
    text: &[u8],
    line: usize,
    fault: ListFault,
    first: String,
) -> Result<String, AllocError>
    requires { NamesCause (list_cause fault) (string_bytes first) }
    ensures { IfOk result (λ s. NamesCause (list_cause fault) (string_bytes s)) }
{
    let others = others_of(alloc, text, line)?;
    if others.count == 0 {
        return Ok(first);
    }
    let mut all = first;
    all.push_str(&others.after)?;
    all.push_str(&count_text(alloc, &others)?)?;
    all.push_str("\n")?;
    Ok(all)
}
