//! Parts of a text.

ghost use Rattle.std.specs.Prelude.{◌≡◌, ◌≤◌, length};
ghost use Rattle.dsa_lines.specs.Texts.{before};

/// How many bytes come before the first that is `byte`, or how many there are if none is.
pub fn before(text: &[u8], byte: u8) -> usize
    ensures value { result ≡ before byte text.now }
    ensures bound { result ≤ length text.now }
{
    let mut len: usize = 0;
    let mut rest = text;
    while let [first, after @ ..] = rest {
        if *first == byte {
            return len;
        }
        len += 1;
        rest = after;
    }
    len
}
