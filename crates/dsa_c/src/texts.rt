//! The text of a refusal, into a buffer of the caller.

ghost use Rattle.std.specs.Prelude.{◌≡◌, ◌≤◌, length, take};
ghost use Rattle.dsa_c.specs.Raw.{text_of, written};

use crate::buffer::put;
use crate::refusal::RawRefusal;
use dsa_sentences::refusal_text;

/// Writes the bytes at the front of the buffer, as many as it has room for.
pub(crate) fn put_front(buffer: &mut [u8], bytes: &[u8])
    ensures { buffer.new ≡ written (take (length buffer.old) bytes.now) buffer.old }
{
    if bytes.len() <= buffer.len() {
        put(buffer, bytes);
        return;
    }
    let room = buffer.len();
    put(buffer, &bytes[..room]);
}

/// Writes what the refusal means, in a sentence with the numbers that it names, to the front of `text`, as far as there
/// is room, and leaves the rest of it. It allocates nothing. It returns how many bytes the sentence has: at most 512,
/// and 0 for a number that no cause has.
#[unsafe(no_mangle)]
pub extern "C" fn dsa_refusal_text(refusal: &RawRefusal, text: &mut [u8]) -> u64
    ensures len { result ≡ length (text_of refusal.now) }
    ensures short { result ≤ 512 }
    ensures written { text.new ≡ written (take (length text.old) (text_of refusal.now)) text.old }
{
    let said = refusal_text(refusal.number, refusal.inner, refusal.first, refusal.second);
    let bytes = said.as_slice();
    put_front(text, bytes);
    bytes.len() as u64
}
