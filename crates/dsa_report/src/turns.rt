//! The turns of reading a text.

ghost use Rattle.std.specs.Prelude.{◌≡◌, ◌≢◌, ◌+◌, ◌<◌, ◌≤◌, ◌↔◌, Some};
ghost use Rattle.dsa_report.specs.Reading.{ReadsTurn, most_turns};

use crate::asked::Asked;

/// The most bytes that one turn reads.
pub const TURN_BYTES: usize = 65_536;

/// The most turns of reading, with the one that finds the end.
pub const TURNS: u32 = 1_048_576;

/// What came of a turn of reading.
#[derive(Clone, Copy)]
pub(crate) enum Turn {
    /// So many bytes, from the start of the buffer.
    Bytes(usize),
    /// The end of the text.
    End,
    /// The reader failed. An interrupted read is a failure too.
    Failed,
    /// The reader was not asked, since no turn is left.
    Over,
}

/// A reader and the turns that are left of [`TURNS`]. Nobody else has the reader meanwhile, and no other file can write
/// these fields: code that reads a text through this can neither ask in more turns nor end before they are over.
#[derive(Drop)]
pub(crate) struct Turns<'a, R> {
    reader: &'a mut R,
    left: u32,
    last: Option<Turn>,
}

impl<'a, R: Asked> Turns<'a, R> {
    /// A reader with all of its turns.
    pub(crate) fn new(reader: &'a mut R) -> Turns<'a, R>
        ensures same_reader { result.reader.ghost_name ≡ reader.entry.ghost_name }
        ensures reader { result.reader.now ≡ reader.old }
        ensures left { result.left ≡ most_turns }
    {
        Turns {
            reader,
            left: TURNS,
            last: None,
        }
    }

    /// Asks the reader once for at most `most` bytes, and never for more than the buffer has.
    pub(crate) fn ask(&mut self, buffer: &mut [u8; TURN_BYTES], most: usize) -> Turn
        requires { 0 < most }
        ensures same_reader { self.new.reader.ghost_name ≡ self.old.reader.ghost_name }
        ensures last { self.new.last ≡ Some result }
        ensures over { result ≡ Turn.Over ↔ (self.old.left ≡ 0) }
        ensures counted { result ≢ Turn.Over → self.new.left + 1 ≡ self.old.left }
        ensures kept { result ≡ Turn.Over → self.new.left ≡ self.old.left }
        // The reader is asked at most once for each turn that is taken.
        ensures asks { R.asks self.new.reader.now + self.new.left
            ≤ R.asks self.old.reader.now + self.old.left }
        ensures bytes { ReadsTurn (R.remaining self.old.reader.now)
            (R.remaining self.new.reader.now) most buffer.new result }
    {
        if self.left == 0 {
            self.last = Some(Turn::Over);
            return Turn::Over;
        }
        self.left -= 1;
        let room = TURN_BYTES.min(most);
        let turn = match self.reader.ask(&mut buffer[..room]) {
            Ok(0) => Turn::End,
            Ok(count) => Turn::Bytes(count),
            Err(_) => Turn::Failed,
        };
        self.last = Some(turn);
        turn
    }
}
