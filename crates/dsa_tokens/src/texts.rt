//! Whole texts.

ghost use Rattle.std.specs.Prelude.{◌≡◌, Some, None, Err, IfOk};
ghost use Rattle.serde_json.specs.Data.{Data};
ghost use Rattle.serde_json.specs.Read.{read};

use crate::kinds::{Kind, read_next};
use crate::unread::Unread;
use json::{Reader, Scratch};
use std::alloc::Global;

/// How deep arrays and objects may nest.
pub const MAX_DEPTH: usize = 127;

/// What is read of the value that the text is; none if it is of another kind. The scratch takes as much memory as the
/// text, and has the strings with escapes.
pub fn value_of<'t, K: Kind<'t>>(
    alloc: Global,
    text: &'t str,
    scratch: &'t mut Scratch,
) -> Result<Option<K::Found>, Unread>
    ensures ok { IfOk result (λ found. (d : Data) × (read text.now ≡ Some d) × K.says d found) }
    ensures err { result ≡ Err Unread.Json → read text.now ≡ None }
{
    let mut reader = Reader::new(text, scratch)?;
    let found = read_next::<K>(alloc, &mut reader, MAX_DEPTH)?;
    match reader.next() {
        Some(_) => Err(Unread::Json),
        None => Ok(found),
    }
}
