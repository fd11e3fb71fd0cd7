//! Why a line spells no operation, and a text no list; why bytes are no portal and no staging area.

ghost use Rattle.std.specs.Prelude.{◌≡◌};
ghost use Rattle.dsa_lines.specs.declared.fault.EmittedFault.TheVariants.{Memory};
ghost use Rattle.dsa_lines.specs.declared.fault.TextFault.TheVariants.{Memory as TextMemory};

use crate::words::skip_blanks;
use dsa_descriptor::{FieldFault, ListFault};
use dsa_emission::EmissionFault;
use std::alloc::AllocError;
use std::fmt;

/// What the grammar has at a place of a line.
#[derive(Clone, Copy, PartialEq, Eq)]
pub enum Expected {
    /// The name of an operation.
    Operation,
    /// A number below 2^64.
    Number,
    /// A number below 2^64, or the word `pattern`.
    NumberOrPattern,
    /// A number below 2^32.
    Size,
    /// A number below 2^20.
    Pasid,
    /// A number below 2^16.
    Handle,
    /// A number of flags that are carried and have no name.
    Flags,
    /// 0 or 1.
    Bit,
    /// The 16 hexadecimal digits of a pattern.
    Pattern,
    /// A number below 2^32, or the word `at`.
    Seed,
    /// A comma.
    Comma,
    /// A comma, or the end of the line.
    CommaOrEnd,
    /// The word `->`.
    Arrow,
    /// The word `with`.
    With,
    /// The word `and`.
    And,
    /// The word `bytes`.
    Bytes,
    /// The word `expect`.
    Expect,
    /// The word `record`.
    Record,
    /// The word `of`.
    Of,
    /// The word `at`.
    At,
    /// The name of an option that the line does not have yet.
    Option,
    /// The end of the line.
    End,
}

impl Expected {
    /// What is missing, in words for a reader.
    pub fn text(self) -> &'static str {
        match self {
            Expected::Operation => "move, fill, compare, delta, dualcast, crc or copy_crc",
            Expected::Number => "a number below 2^64",
            Expected::NumberOrPattern => "a number below 2^64, or pattern",
            Expected::Size => "a number below 2^32",
            Expected::Pasid => "a number below 2^20",
            Expected::Handle => "a number below 2^16",
            Expected::Flags => "flags of 0x0002, 0x0020, 0x0100 to 0x8000, 0x020000 and 0x040000",
            Expected::Bit => "0 or 1",
            Expected::Pattern => "16 hexadecimal digits",
            Expected::Seed => "a number below 2^32, or at",
            Expected::Comma => "a comma",
            Expected::CommaOrEnd => "a comma, or the end of the line",
            Expected::Arrow => "->",
            Expected::With => "with",
            Expected::And => "and",
            Expected::Bytes => "bytes",
            Expected::Expect => "expect",
            Expected::Record => "record",
            Expected::Of => "of",
            Expected::At => "at",
            Expected::Option =>
                "an option that does not stand before: pasid, privileged, check, flags or handle",
            Expected::End => "the end of the line",
        }
    }
}

/// Why a line spells no operation of a list.
#[derive(Clone, Copy, PartialEq, Eq)]
pub enum LineFault {
    /// The line leaves the grammar at this column, from 1 on, where this was expected.
    Grammar(usize, Expected),
    /// The fields that it spells are none that a list may have.
    Field(FieldFault),
}

/// Its name, without what it has.
impl fmt::Debug for LineFault {
    fn fmt<W: fmt::Write>(&self, f: &mut fmt::Formatter<W>) -> fmt::Result {
        f.write_str(match self {
            LineFault::Grammar(_, _) => "Grammar",
            LineFault::Field(_) => "Field",
        })
    }
}

/// Why a text spells no list. Lines and columns are counted from 1.
#[derive(Clone, Copy, PartialEq, Eq)]
pub enum TextFault {
    /// The line leaves the grammar at the column, where this was expected.
    Grammar(usize, usize, Expected),
    /// The operations are no list: the fault names one of them by its index, and this is its line.
    List(usize, ListFault),
    /// An allocation failed.
    Memory,
}

/// Its name, without what it has.
impl fmt::Debug for TextFault {
    fn fmt<W: fmt::Write>(&self, f: &mut fmt::Formatter<W>) -> fmt::Result {
        f.write_str(match self {
            TextFault::Grammar(_, _, _) => "Grammar",
            TextFault::List(_, _) => "List",
            TextFault::Memory => "Memory",
        })
    }
}

impl From<AllocError> for TextFault {
    ghost from_gives = { λ _ fault. fault ≡ TextMemory };

    fn from(_error: AllocError) -> TextFault {
        TextFault::Memory
    }
}

/// Why bytes are no portal, or no staging area.
#[derive(Clone, Copy)]
pub enum EmittedFault {
    /// The length of a portal or a staging area.
    Emission(EmissionFault),
    /// An allocation failed.
    Memory,
}

impl From<AllocError> for EmittedFault {
    ghost from_gives = { λ _ fault. fault ≡ Memory };

    fn from(_error: AllocError) -> EmittedFault {
        EmittedFault::Memory
    }
}

/// Where reading stopped: so many bytes before the end of the line, where this was expected.
#[derive(Clone, Copy)]
pub(crate) struct Stop {
    pub(crate) left: usize,
    pub(crate) expected: Expected,
}

impl Stop {
    /// A stop at the next word of the text.
    pub(crate) fn at(text: &[u8], expected: Expected) -> Stop {
        Stop {
            left: skip_blanks(text).len(),
            expected,
        }
    }

    /// The column of the line, from 1 on.
    pub(crate) fn column(self, line: &[u8]) -> usize {
        line.len().saturating_sub(self.left).saturating_add(1)
    }
}
