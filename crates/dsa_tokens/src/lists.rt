//! Arrays of values of one kind.

ghost use Rattle.std.specs.Prelude.{◌≡◌, ◌↔◌, ◌≤◌, [], ◌∷◌, ◌++◌, length, false, IsTrue, MatchOption, OnOk, option_map};
ghost use Rattle.json.specs.Reads.{token_of};
ghost use Rattle.dsa_tokens.specs.Said.{AddsArray, AddsItems, IsArray, IsArrayUpTo, room, up_to};
ghost use Rattle.dsa_tokens.specs.Taken.{Answers, AnswersItems, BeginsArray};

use crate::kinds::{Kind, read_next};
use crate::passing::{pass_items, pass_other};
use crate::unread::Unread;
use json::{Reader, Token};
use std::alloc::{AllocFailed, Global};

/// Whether the token begins an array. A value of another kind is passed over.
#[inline(always)]
pub fn begin_array(first: Token<'_>, reader: &mut Reader<'_>, depth: usize) -> Result<bool, Unread>
    ensures { BeginsArray depth (token_of first.entry ∷ reader.old) reader.new result }
{
    match first {
        Token::BeginArray => if depth == 0 {
            Err(Unread::Json)
        } else {
            Ok(true)
        },
        other => {
            pass_other(reader, other, depth)?;
            Ok(false)
        }
    }
}

/// Whether there is no room beside so many.
#[inline(always)]
fn is_full(most: Option<usize>, count: usize) -> bool
    ensures { MatchOption most (result ≡ false) (λ n. IsTrue result ↔ n ≤ count) }
{
    match most {
        Some(most) => most <= count,
        None => false,
    }
}

/// Adds an item, if there is room for it.
#[inline(always)]
fn add<T: Drop>(found: &mut Vec<T>, most: Option<usize>, item: T) -> Result<(), AllocFailed<T>>
    ensures { OnOk result (found.new.items
        ≡ found.old.items ++ up_to (room most (length found.old.items)) (item ∷ [])) }
{
    if is_full(most, found.len()) {
        return Ok(());
    }
    found.push(item)?;
    Ok(())
}

/// Adds what is read of the items of an array that was begun, as far as there is room, and returns whether each item is
/// of its kind. With a bound there is room for so many in all.
pub fn items_into<'t, K: Kind<'t>>(
    found: &mut Vec<K::Found>,
    most: Option<usize>,
    alloc: Global,
    reader: &mut Reader<'t>,
    depth: usize,
) -> Result<bool, Unread>
    ensures { AnswersItems (AddsItems K.says most found.old.items found.new.items)
        depth reader.old reader.new result }
{
    'items: while !reader.take_end_array() {
        let Some(item) = read_next::<K>(alloc, reader, depth)? else {
            pass_items(reader, depth)?;
            return Ok(false);
        };
        add(found, most, item)?;
    }
    Ok(true)
}

/// The same of the items of an array that begins with this token; `false` too if the value is none.
pub fn array_into<'t, K: Kind<'t>>(
    found: &mut Vec<K::Found>,
    most: Option<usize>,
    alloc: Global,
    first: Token<'t>,
    reader: &mut Reader<'t>,
    depth: usize,
) -> Result<bool, Unread>
    ensures { Answers (AddsArray K.says most found.old.items found.new.items)
        depth (token_of first.entry ∷ reader.old) reader.new result }
{
    if !begin_array(first, reader, depth)? {
        return Ok(false);
    }
    items_into::<K>(found, most, alloc, reader, depth - 1)
}

/// What is kept of an array that begins with this token: what is read of its items, of the first so many if there is a
/// bound; none if the value is of another kind, or an item is.
pub fn list_up_to<'t, K: Kind<'t>>(
    most: Option<usize>,
    alloc: Global,
    first: Token<'t>,
    reader: &mut Reader<'t>,
    depth: usize,
) -> Result<Option<Vec<K::Found>>, Unread>
    ensures { Answers (λ d kept. IsArrayUpTo most K.says d (option_map (λ v. v.items) kept))
        depth (token_of first.entry ∷ reader.old) reader.new result }
{
    let mut found = Vec::new(alloc);
    if !array_into::<K>(&mut found, most, alloc, first, reader, depth)? {
        return Ok(None);
    }
    Ok(Some(found))
}

/// What is read of an array that begins with this token; none if the value is of another kind, or an item is.
pub fn list_of<'t, K: Kind<'t>>(
    alloc: Global,
    first: Token<'t>,
    reader: &mut Reader<'t>,
    depth: usize,
) -> Result<Option<Vec<K::Found>>, Unread>
    ensures { Answers (λ d found. IsArray K.says d (option_map (λ v. v.items) found))
        depth (token_of first.entry ∷ reader.old) reader.new result }
{
    list_up_to::<K>(None, alloc, first, reader, depth)
}
