//! What an object has at a name.

ghost use Rattle.std.specs.Prelude.{◌≡◌, Some};
ghost use Rattle.dsa_tokens.specs.Said.{Holds, slot_held, slot_is_there, slot_option};
ghost use Rattle.dsa_tokens.specs.Taken.{Answers};

use crate::kinds::{Kind, read_next};
use crate::unread::Unread;
use json::Reader;
use std::alloc::Global;

/// What an object has at a name, as far as it was read.
#[derive(Drop)]
pub enum Slot<T> {
    /// Nothing.
    Missing,
    /// A value of another kind.
    Other,
    /// A value of which this was read.
    Held(T),
}

impl<T: Drop> Slot<T> {
    /// What was read, if the value is there and of its kind.
    pub fn into_option(self) -> Option<T>
        ensures { result ≡ slot_option self }
    {
        match self {
            Slot::Held(found) => Some(found),
            Slot::Missing | Slot::Other => None,
        }
    }

    /// What was read, or that nothing is there (`Some(None)`); `None` if the value is of another kind.
    pub fn into_held(self) -> Option<Option<T>>
        ensures { result ≡ slot_held self }
    {
        match self {
            Slot::Missing => Some(None),
            Slot::Other => None,
            Slot::Held(found) => Some(Some(found)),
        }
    }

    /// Whether there is a value.
    pub fn is_there(&self) -> bool
        ensures { result ≡ slot_is_there self.now }
    {
        match self {
            Slot::Missing => false,
            Slot::Other | Slot::Held(_) => true,
        }
    }
}

/// Reads the value that comes next into the slot. Of two values at one name the last counts.
pub fn read_into<'t, K: Kind<'t>>(
    slot: &mut Slot<K::Found>,
    alloc: Global,
    reader: &mut Reader<'t>,
    depth: usize,
) -> Result<(), Unread>
    ensures { Answers (λ d _. Holds K.says (Some d) slot.new)
        depth reader.old reader.new result }
{
    *slot = match read_next::<K>(alloc, reader, depth)? {
        Some(found) => Slot::Held(found),
        None => Slot::Other,
    };
    Ok(())
}
