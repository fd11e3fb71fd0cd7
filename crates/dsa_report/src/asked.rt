//! How often a reader is asked.

ghost use Rattle.std.specs.Prelude.{ℕ, ◌≤◌, ◌+◌};
ghost use Rattle.std.specs.Io.{ReadsAtMost};
ghost use Rattle.std.specs.Io.KnownBytes.{ReadConsumes};

use std::io::{self, Read};

/// A reader that can be asked in turns.
///
/// The contract of [`Read::read`] counts no calls. Here `asks` is a count that each turn raises by at most one, and
/// nothing is known of it after any other call of the reader. A function over such readers is proved for each count, so
/// a clause that bounds the rise of `asks` bounds the turns.
pub trait Asked: Read {
    ghost asks: { Self → ℕ };

    /// Reads once.
    fn ask(&mut self, buffer: &mut [u8]) -> io::Result<usize>
        ensures turn { asks self.new ≤ asks self.old + 1 }
        ensures bound { ReadsAtMost result buffer.new }
        ensures bytes { ReadConsumes
            (Self.remaining self.old) (Self.remaining self.new) result buffer.new };
}

impl<R: Read> Asked for R {
    ghost asks = { λ _. 0 };

    fn ask(&mut self, buffer: &mut [u8]) -> io::Result<usize> {
        self.read(buffer)
    }
}
