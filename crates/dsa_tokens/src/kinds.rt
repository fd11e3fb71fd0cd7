//! Kinds of values, and readers of those that are no arrays or objects.

ghost use Rattle.std.specs.Prelude.{◌∷◌, Option};
ghost use Rattle.json.specs.Reads.{token_of};
ghost use Rattle.serde_json.specs.Data.{Data, boolean, string};
ghost use Rattle.dsa_tokens.specs.Spelled.{Reads, whole};
ghost use Rattle.dsa_tokens.specs.Taken.{Answers};

use crate::numbers::whole_of;
use crate::passing::{next, pass_other};
use crate::unread::Unread;
use json::{Reader, Token};
use std::alloc::Global;

/// A kind of values.
pub trait Kind<'t> {
    /// What is read of one.
    type Found: Drop;

    /// What is said of a value if this was read, or if it is of another kind.
    ghost says: { Data → Option Self.Found → Type 0 };

    /// Reads the rest of a value that begins with this token; none if it is of another kind. Its arrays and objects may
    /// nest `depth` deep.
    fn read(
        alloc: Global,
        first: Token<'t>,
        reader: &mut Reader<'t>,
        depth: usize,
    ) -> Result<Option<Self::Found>, Unread>
        ensures { Answers says depth (token_of first.entry ∷ reader.old) reader.new result };
}

/// Reads the value that comes next; none if it is of another kind.
#[inline(always)]
pub fn read_next<'t, K: Kind<'t>>(
    alloc: Global,
    reader: &mut Reader<'t>,
    depth: usize,
) -> Result<Option<K::Found>, Unread>
    ensures { Answers K.says depth reader.old reader.new result }
{
    let first = next(reader)?;
    K::read(alloc, first, reader, depth)
}

/// Whole numbers below 2^64.
pub struct Whole;

impl<'t> Kind<'t> for Whole {
    type Found = u64;

    ghost says = { Reads whole (λ n. n) };

    #[inline(always)]
    fn read(
        _alloc: Global,
        first: Token<'t>,
        reader: &mut Reader<'t>,
        depth: usize,
    ) -> Result<Option<u64>, Unread> {
        match first {
            Token::Number(text) => match whole_of(text) {
                Some(found) => Ok(found),
                None => Err(Unread::Json),
            },
            other => {
                pass_other(reader, other, depth)?;
                Ok(None)
            }
        }
    }
}

/// Truth values.
pub struct Truth;

impl<'t> Kind<'t> for Truth {
    type Found = bool;

    ghost says = { Reads boolean (λ b. b) };

    #[inline(always)]
    fn read(
        _alloc: Global,
        first: Token<'t>,
        reader: &mut Reader<'t>,
        depth: usize,
    ) -> Result<Option<bool>, Unread> {
        match first {
            Token::Bool(found) => Ok(Some(found)),
            other => {
                pass_other(reader, other, depth)?;
                Ok(None)
            }
        }
    }
}

/// Strings, borrowed from the text unless they have escapes.
pub struct Text;

impl<'t> Kind<'t> for Text {
    type Found = &'t str;

    ghost says = { Reads string (λ text. text.now) };

    #[inline(always)]
    fn read(
        _alloc: Global,
        first: Token<'t>,
        reader: &mut Reader<'t>,
        depth: usize,
    ) -> Result<Option<&'t str>, Unread> {
        match first {
            Token::String(found) => Ok(Some(found)),
            other => {
                pass_other(reader, other, depth)?;
                Ok(None)
            }
        }
    }
}
