//! Objects, member by member.

ghost use Rattle.std.specs.Prelude.{◌≡◌, ◌∷◌, ◌<◌, Err, OnOk, length, true};
ghost use Rattle.json.specs.Reads.{token_of};
ghost use Rattle.serde_json.specs.Data.{Members, put};
ghost use Rattle.dsa_tokens.specs.Said.{Fills};
ghost use Rattle.dsa_tokens.specs.Spelled.{AreInOrder};
ghost use Rattle.dsa_tokens.specs.Taken.{Answers, BeginsObject, TakesMembers, TakesNoMembers};

use crate::passing::{next_key, pass_other, pass_value};
use crate::unread::Unread;
use json::{Reader, Token};
use std::alloc::Global;

/// The members of an object, as far as they are read.
pub trait Fields<'t> {
    /// What was read is of these members.
    ghost hold: { Self → Members → Type 0 };

    /// Reads the value at a key. Of two values at one key the last counts.
    fn take(
        &mut self,
        alloc: Global,
        key: &str,
        reader: &mut Reader<'t>,
        depth: usize,
    ) -> Result<(), Unread>
        ensures { Answers (λ d _. (ms : Members) → hold self.old ms →
            hold self.new (put key.now d ms))
            depth reader.old reader.new result };
}

/// Whether the token begins an object. A value of another kind is passed over.
fn begin_object(first: Token<'_>, reader: &mut Reader<'_>, depth: usize) -> Result<bool, Unread>
    ensures { BeginsObject depth (token_of first.entry ∷ reader.old) reader.new result }
{
    match first {
        Token::BeginObject => if depth == 0 {
            Err(Unread::Json)
        } else {
            Ok(true)
        },
        other => {
            pass_other(reader, other, depth)?;
            Ok(false)
        }
    }
}

/// Reads the members of an object that was begun.
fn members_into<'t, F: Fields<'t>>(
    alloc: Global,
    fields: &mut F,
    reader: &mut Reader<'t>,
    depth: usize,
) -> Result<(), Unread>
    ensures ok { OnOk result ((found : Members) → (all : Members)
        × TakesMembers depth reader.old found all reader.new
        × (F.hold fields.old found → F.hold fields.new all)
        × (AreInOrder found → AreInOrder all)) }
    ensures err { result ≡ Err Unread.Json
        → (found : Members) → TakesNoMembers depth reader.old found }
    ensures shorter { OnOk result (length reader.new < length reader.old) }
{
    'members: while let Some(key) = next_key(reader)? {
        fields.take(alloc, key, reader, depth)?;
    }
    Ok(())
}

/// Reads the members of an object that begins with this token, and returns whether it is one.
pub fn object_into<'t, F: Fields<'t>>(
    alloc: Global,
    fields: &mut F,
    first: Token<'t>,
    reader: &mut Reader<'t>,
    depth: usize,
) -> Result<bool, Unread>
    ensures { Answers (Fills (F.hold fields.old) (F.hold fields.new))
        depth (token_of first.entry ∷ reader.old) reader.new result }
{
    if !begin_object(first, reader, depth)? {
        return Ok(false);
    }
    members_into(alloc, fields, reader, depth - 1)?;
    Ok(true)
}

/// Passes over a member whose name is none of those that are known, and notes it.
pub fn pass_member(
    has_others: &mut bool,
    reader: &mut Reader<'_>,
    depth: usize,
) -> Result<(), Unread>
    ensures { Answers (λ d _. has_others.new ≡ true) depth reader.old reader.new result }
{
    pass_value(reader, depth)?;
    *has_others = true;
    Ok(())
}
