//! Rows of ten words: a prepared submission is an array of them.

ghost use Rattle.std.specs.Prelude.{◌≡◌, ◌+◌, ◌≤◌, ◌↔◌, ◌++◌, drop, length, take, IsTrue};
ghost use Rattle.dsa_prepared.specs.Entries.{filled_entry, own_bytes, reads_seed, word_value};
ghost use Rattle.dsa_prepared.specs.Sound.{HasValue, HasValues};
ghost use Rattle.std.specs.Int.{w64, from_le_bytes, to_le_bytes};
ghost use Rattle.dsa_prepared.specs.Rows.{AreNumbered, AreOrigins, HasKinds, IsNumbered, IsOrigin, entry_in, entry_row, kind_of, region_in, region_row, tie_in, tie_row, unit_in, value_of, word_in};

use crate::entry::Entry;
use crate::tie::Tie;
use crate::word::Word;
use dsa_descriptor::Span;

/// `struct dsa_prepared_row`: a row of a prepared submission, its header, a region, a tie or an entry.
#[repr(C)]
#[derive(Clone, Copy)]
pub struct Row {
    /// Their meaning depends on the place of the row.
    pub words: [u64; 10],
}

/// What words of one kind count from.
#[derive(Clone, Copy)]
pub(crate) struct Origin {
    pub(crate) kind: u64,
    pub(crate) origin: u64,
}

/// What words of this kind count from, as that of this value does: the region's base, the staging area's address, or 0.
#[inline(always)]
fn origin_of(kind: u64, value: u64, bases: &[u64], staging: u64) -> Origin
    requires { HasValue bases.now staging (word_in kind value) }
    ensures kind { result.kind ≡ kind }
    ensures origin { IsOrigin bases.now staging result.kind result.origin }
{
    if kind >= 2 {
        let origin = bases[(kind - 2) as usize];
        return Origin { kind, origin };
    }
    let origin = if kind == 1 { staging } else { 0 };
    Origin { kind, origin }
}

/// What the words of an entry count from, but for the operation's own.
#[derive(Clone, Copy)]
pub(crate) struct Origins {
    pub(crate) completion: Origin,
    pub(crate) first: Origin,
    pub(crate) second: Origin,
}

/// Bytes 40 to 47, and 48 to 55.
#[derive(Clone, Copy)]
struct Own {
    first: u64,
    second: u64,
}

/// Whether the first eight bytes are those of a checksum that reads its seed.
#[inline(always)]
fn reads_seed(head: u64) -> bool
    ensures { result ≡ reads_seed (to_le_bytes w64 head) }
{
    head / (1 << 57) == 8 && head / (1 << 48) % 2 == 1
}

/// What the operation's own word gives: most often its value, which is tested first.
#[inline(always)]
fn own_in(head: u64, kind: u64, value: u64, bases: &[u64], staging: u64) -> Own
    requires { HasValue bases.now staging (word_in kind value) }
    ensures { to_le_bytes w64 result.first ++ to_le_bytes w64 result.second ≡
        own_bytes (to_le_bytes w64 head) (word_in kind value)
        (word_value bases.now staging (word_in kind value)) }
{
    if kind == 0 {
        return Own {
            first: value,
            second: 0,
        };
    }
    let address = origin_of(kind, value, bases, staging).origin + value;
    if reads_seed(head) {
        return Own {
            first: 0,
            second: address,
        };
    }
    Own {
        first: address,
        second: 0,
    }
}

/// Writes the number over the eight bytes from the place on. A loop, which is compiled to one store.
#[inline(always)]
fn put(buffer: &mut [u8], place: usize, number: u64)
    requires { place + 8 ≤ length buffer.old }
    ensures { buffer.new ≡
        take place buffer.old ++ (to_le_bytes w64 number ++ drop (place + 8) buffer.old) }
{
    let bytes = number.to_le_bytes();
    for k in 0..8 {
        buffer[place + k] = bytes[k];
    }
}

/// The kind of the word.
fn kind_of(word: Word) -> u64
    requires { IsNumbered word }
    ensures { result ≡ kind_of word }
{
    match word {
        Word::InRegion(region, _) => region as u64 + 2,
        Word::InStaging(_) => 1,
        Word::Fixed(_) => 0,
    }
}

/// The value of the word.
fn value_of(word: Word) -> u64
    ensures { result ≡ value_of word }
{
    match word {
        Word::InRegion(_, value) | Word::InStaging(value) | Word::Fixed(value) => value,
    }
}

impl Row {
    /// The region that the row says.
    #[inline(always)]
    pub(crate) fn region(&self) -> Span
        ensures { result ≡ region_in self.now }
    {
        Span {
            first: self.words[0],
            len: self.words[1],
        }
    }

    /// The unit of that region.
    #[inline(always)]
    pub(crate) fn unit(&self) -> u64
        ensures { result ≡ unit_in self.now }
    {
        self.words[2]
    }

    /// The tie that the row says.
    #[inline(always)]
    pub(crate) fn tie(&self) -> Tie
        ensures { result ≡ tie_in self.now }
    {
        Tie {
            region: self.words[0] as usize,
            offset: self.words[1],
            other: self.words[2] as usize,
            other_offset: self.words[3],
        }
    }

    /// What the words of the row's entry count from, if the regions have these bases and the staging area this address.
    #[inline(always)]
    pub(crate) fn origins(&self, bases: &[u64], staging: u64) -> Origins
        requires { HasValues bases.now staging (entry_in self.now) }
        ensures origins { AreOrigins bases.now staging result }
        ensures kinds { HasKinds self.now result }
    {
        let words = &self.words;
        Origins {
            completion: origin_of(words[2], words[3], bases, staging),
            first: origin_of(words[4], words[5], bases, staging),
            second: origin_of(words[6], words[7], bases, staging),
        }
    }

    /// Whether the words of the row's entry are of these kinds.
    #[inline(always)]
    pub(crate) fn has_kinds(&self, origins: &Origins) -> bool
        ensures { IsTrue result ↔ HasKinds self.now origins.now }
    {
        let words = &self.words;
        words[2] == origins.completion.kind
            && words[4] == origins.first.kind
            && words[6] == origins.second.kind
    }

    /// Writes the bytes of the row's entry over those from the place on, if the regions have these bases and the
    /// staging area this address, and its words count from these origins.
    #[inline(always)]
    pub(crate) fn fill(
        &self,
        origins: &Origins,
        bases: &[u64],
        staging: u64,
        buffer: &mut [u8],
        place: usize,
    )
        requires kinds { HasKinds self.now origins.now }
        requires origins { AreOrigins bases.now staging origins.now }
        requires values { HasValues bases.now staging (entry_in self.now) }
        requires room { place + 64 ≤ length buffer.old }
        ensures { buffer.new ≡ take place buffer.old
            ++ (filled_entry bases.now staging (entry_in self.now)
            ++ drop (place + 64) buffer.old) }
    {
        let words = &self.words;
        put(buffer, place, words[0]);
        put(buffer, place + 8, origins.completion.origin + words[3]);
        put(buffer, place + 16, origins.first.origin + words[5]);
        put(buffer, place + 24, origins.second.origin + words[7]);
        put(buffer, place + 32, words[1]);
        let own = own_in(words[0], words[8], words[9], bases, staging);
        put(buffer, place + 40, own.first);
        put(buffer, place + 48, own.second);
        put(buffer, place + 56, 0);
    }
}

/// The row of a region and its unit.
pub(crate) fn region_row(region: Span, unit: u64) -> Row
    ensures { result ≡ region_row region unit }
{
    Row {
        words: [region.first, region.len, unit, 0, 0, 0, 0, 0, 0, 0],
    }
}

/// The row of a tie.
pub(crate) fn tie_row(tie: &Tie) -> Row
    ensures { result ≡ tie_row tie.now }
{
    Row {
        words: [
            tie.region as u64,
            tie.offset,
            tie.other as u64,
            tie.other_offset,
            0,
            0,
            0,
            0,
            0,
            0,
        ],
    }
}

/// The bytes as a little-endian number.
fn number_of(bytes: &[u8; 8]) -> u64
    ensures value { result ≡ from_le_bytes w64 bytes.now }
    ensures read { to_le_bytes w64 result ≡ bytes.now }
{
    u64::from_le_bytes(*bytes)
}

/// The row of an entry.
pub(crate) fn entry_row(entry: &Entry) -> Row
    requires { AreNumbered entry.now }
    ensures value { result ≡ entry_row entry.now }
    ensures read { entry_in result ≡ entry.now }
{
    Row {
        words: [
            number_of(&entry.head),
            number_of(&entry.middle),
            kind_of(entry.completion),
            value_of(entry.completion),
            kind_of(entry.first),
            value_of(entry.first),
            kind_of(entry.second),
            value_of(entry.second),
            kind_of(entry.own),
            value_of(entry.own),
        ],
    }
}
