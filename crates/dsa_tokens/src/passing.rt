//! Passing over values, and checking them.

ghost use Rattle.std.specs.Prelude.{◌≡◌, ◌∷◌, ◌<◌, ◌≤◌, ℕ, length, Some, None, IfErr, IfOk, OnOk, OnErr, option_map, MatchResult};
ghost use Rattle.json.specs.Json.{read_key};
ghost use Rattle.json.specs.Reads.{token_of};
ghost use Rattle.serde_json.specs.Data.{Data, Items, Members};
ghost use Rattle.dsa_tokens.specs.Taken.{Takes, TakesNone, TakesItems, TakesNoItems, TakesMembers, TakesNoMembers, PassesRest};

use crate::numbers::whole_of;
use crate::unread::Unread;
use json::{Reader, Token};

/// The next token.
#[inline(always)]
pub fn next<'t>(reader: &mut Reader<'t>) -> Result<Token<'t>, Unread>
    ensures ok { IfOk result (λ token. reader.old ≡ token_of token ∷ reader.new) }
    ensures err { IfErr result (λ cause. (cause ≡ Unread.Json)
        × ((depth : ℕ) → TakesNone depth reader.old)) }
{
    match reader.next() {
        Some(token) => Ok(token),
        None => Err(Unread::Json),
    }
}

/// The next key of an object, or none at its end.
#[inline(always)]
pub(crate) fn next_key<'t>(reader: &mut Reader<'t>) -> Result<Option<&'t str>, Unread>
    ensures { MatchResult result
        (λ key. read_key reader.old ≡ Some (option_map (λ k. k.now) key, reader.new))
        (λ cause. (cause ≡ Unread.Json) × (read_key reader.old ≡ None)) }
{
    match reader.next_key() {
        Ok(key) => Ok(key),
        Err(_) => Err(Unread::Json),
    }
}

/// Passes over a value. Arrays and objects may nest `depth` deep.
#[cycle(pass)]
#[inline(always)]
pub fn pass_value(reader: &mut Reader<'_>, depth: usize) -> Result<(), Unread>
    ensures ok { OnOk result ((d : Data) × Takes depth reader.old d reader.new) }
    ensures err { OnErr result (TakesNone depth reader.old) }
    ensures shorter { OnOk result (length reader.new < length reader.old) }
{
    let token = next(reader)?;
    pass_rest(reader, token, depth)
}

/// The same of a value whose first token is this one.
#[cycle(pass)]
#[inline(always)]
pub fn pass_rest(reader: &mut Reader<'_>, token: Token<'_>, depth: usize) -> Result<(), Unread>
    ensures ok { OnOk result
        ((d : Data) × Takes depth (token_of token.entry ∷ reader.old) d reader.new) }
    ensures err { OnErr result (TakesNone depth (token_of token.entry ∷ reader.old)) }
    ensures shorter { OnOk result (length reader.new ≤ length reader.old) }
{
    match token {
        Token::String(_) => Ok(()),
        Token::Bool(_) => Ok(()),
        Token::Null => Ok(()),
        Token::Number(text) => match whole_of(text) {
            Some(_) => Ok(()),
            None => Err(Unread::Json),
        },
        Token::EndObject => Err(Unread::Json),
        Token::EndArray => Err(Unread::Json),
        Token::Key(_) => Err(Unread::Json),
        Token::Bad => Err(Unread::Json),
        Token::BeginArray => {
            if depth == 0 {
                return Err(Unread::Json);
            }
            pass_items(reader, depth - 1)
        }
        Token::BeginObject => {
            if depth == 0 {
                return Err(Unread::Json);
            }
            pass_members(reader, depth - 1)
        }
    }
}

/// Passes over the items of an array, and its end.
#[cycle(pass)]
#[inline(never)]
pub fn pass_items(reader: &mut Reader<'_>, depth: usize) -> Result<(), Unread>
    ensures ok { OnOk result ((ds : Items) × TakesItems depth reader.old ds reader.new) }
    ensures err { OnErr result (TakesNoItems depth reader.old) }
    ensures shorter { OnOk result (length reader.new < length reader.old) }
{
    'items: while !reader.take_end_array() {
        pass_value(reader, depth)?;
    }
    Ok(())
}

/// Passes over the members of an object, and its end.
#[cycle(pass)]
#[inline(never)]
pub fn pass_members(reader: &mut Reader<'_>, depth: usize) -> Result<(), Unread>
    ensures ok { OnOk result ((found : Members) →
        (all : Members) × TakesMembers depth reader.old found all reader.new) }
    ensures err { OnErr result ((found : Members) → TakesNoMembers depth reader.old found) }
    ensures shorter { OnOk result (length reader.new < length reader.old) }
{
    'members: while let Some(_) = next_key(reader)? {
        pass_value(reader, depth)?;
    }
    Ok(())
}

/// Passes over the rest of a value that begins with this token: it is of another kind than the one that is wanted.
#[cold]
#[inline(never)]
pub fn pass_other(reader: &mut Reader<'_>, token: Token<'_>, depth: usize) -> Result<(), Unread>
    ensures { PassesRest depth (token_of token.entry) reader.old reader.new result }
{
    pass_rest(reader, token, depth)
}
