//! Arrays of a few values of different kinds, one after another.

ghost use Rattle.dsa_tokens.specs.Taken.{EndsItems, NextItem};

use crate::kinds::{Kind, read_next};
use crate::passing::pass_items;
use crate::unread::Unread;
use json::Reader;
use std::alloc::Global;

/// The next item of an array that was begun: none if it ends, and else what is read of the item, if it is of its kind.
#[inline(always)]
pub fn next_item<'t, K: Kind<'t>>(
    alloc: Global,
    reader: &mut Reader<'t>,
    depth: usize,
) -> Result<Option<Option<K::Found>>, Unread>
    ensures { NextItem K.says depth reader.old reader.new result }
{
    if reader.take_end_array() {
        return Ok(None);
    }
    let found = read_next::<K>(alloc, reader, depth)?;
    Ok(Some(found))
}

/// Ends an array that was begun, and returns whether no item was left. Those that are left are passed over.
#[inline(always)]
pub fn end_items(reader: &mut Reader<'_>, depth: usize) -> Result<bool, Unread>
    ensures { EndsItems depth reader.old reader.new result }
{
    if reader.take_end_array() {
        return Ok(true);
    }
    pass_items(reader, depth)?;
    Ok(false)
}
