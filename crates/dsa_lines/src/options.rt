//! Reading the options of a line.

ghost use Rattle.std.specs.Prelude.{◌≡◌};
ghost use Rattle.dsa_lines.specs.Words.{words_of};
ghost use Rattle.dsa_lines.specs.Options.{flags_with, line_flags, no_options, or_zero, seed_flag};
ghost use Rattle.dsa_lines.specs.Grammar.{Gives, pasid_at, privileged_at, check_at, flags_at, handle_at, option_at, options_at};

use crate::fault::{Expected, Stop};
use crate::reading::{after, number_at};
use crate::words::{is_over, next_word};
use dsa_operations::{ChecksumOp, ListedOp, Seed};

/// The flags that each operation of a list has: record address valid, and request record.
const REQUIRED_FLAGS: u32 = 0x00_000c;

/// The flags that may be carried and have no name.
pub(crate) const CARRIED_FLAGS: u32 = 0x06_ff22;

/// The flag check result.
pub(crate) const CHECK_RESULT: u32 = 0x00_0080;

/// The flag that a seed is read from memory.
const SEED_IN_MEMORY: u32 = 0x01_0000;

/// The most options that a line may have.
const MOST_OPTIONS: usize = 5;

/// The flag of a seed.
fn seed_flag(seed: Seed) -> u32
    ensures { result ≡ seed_flag seed }
{
    match seed {
        Seed::Given(_) => 0,
        Seed::At(_) => SEED_IN_MEMORY,
    }
}

/// The options of a line.
#[derive(Clone, Copy)]
pub(crate) struct Options {
    pub(crate) pasid: Option<u32>,
    pub(crate) privileged: bool,
    pub(crate) check: bool,
    pub(crate) flags: Option<u32>,
    pub(crate) handle: Option<u16>,
}

impl Options {
    /// No option.
    fn none() -> Options
        ensures { result ≡ no_options }
    {
        Options {
            pasid: None,
            privileged: false,
            check: false,
            flags: None,
            handle: None,
        }
    }

    /// The PASID, 0 if there is none.
    pub(crate) fn pasid_or_zero(self) -> u32
        ensures { result ≡ or_zero self.pasid }
    {
        match self.pasid {
            Some(pasid) => pasid,
            None => 0,
        }
    }

    /// The handle, 0 if there is none.
    pub(crate) fn handle_or_zero(self) -> u16
        ensures { result ≡ or_zero self.handle }
    {
        match self.handle {
            Some(handle) => handle,
            None => 0,
        }
    }

    /// The flags under `flags`, 0 if there are none.
    fn carried(self) -> u32
        ensures { result ≡ or_zero self.flags }
    {
        match self.flags {
            Some(flags) => flags,
            None => 0,
        }
    }

    /// The flags that the options give: the required ones, those under `flags`, and check result.
    fn flag_bits(self) -> u32
        ensures { result ≡ flags_with (or_zero self.flags) self.check }
    {
        let check = if self.check { CHECK_RESULT } else { 0 };
        REQUIRED_FLAGS | self.carried() | check
    }

    /// All flags of the line of an operation: for a checksum, that of its seed too.
    pub(crate) fn line_flags(self, op: ListedOp) -> u32
        ensures { result ≡ line_flags op (or_zero self.flags) self.check }
    {
        match op {
            ListedOp::Descriptor(_) => self.flag_bits(),
            ListedOp::Checksum(ChecksumOp::Crc { seed, .. } | ChecksumOp::CopyCrc { seed, .. }) =>
                self.flag_bits() | seed_flag(seed),
        }
    }
}

/// The PASID, after its name; `name` is the text from its name on, where a second PASID is reported.
#[tactic(auto, unfolding(crate::specs::Grammar::pasid_at))]
fn pasid_at<'a>(options: Options, name: &[u8], text: &'a [u8]) -> Result<(Options, &'a [u8]), Stop>
    ensures { Gives
        (λ x. (x.0, words_of x.1.now)) result (pasid_at options (words_of text.now)) }
{
    if options.pasid.is_some() {
        return Err(Stop::at(name, Expected::Option));
    }
    let (pasid, rest) = number_at(text, 0xf_ffff, Expected::Pasid)?;
    let options = Options {
        pasid: Some(pasid as u32),
        ..options
    };
    Ok((options, rest))
}

/// The privilege, after its name.
#[tactic(auto, unfolding(crate::specs::Grammar::privileged_at))]
fn privileged_at<'a>(
    options: Options,
    name: &[u8],
    text: &'a [u8],
) -> Result<(Options, &'a [u8]), Stop>
    ensures { Gives
        (λ x. (x.0, words_of x.1.now)) result (privileged_at options (words_of text.now)) }
{
    if options.privileged {
        return Err(Stop::at(name, Expected::Option));
    }
    let options = Options {
        privileged: true,
        ..options
    };
    Ok((options, text))
}

/// Check result, after its name.
#[tactic(auto, unfolding(crate::specs::Grammar::check_at))]
fn check_at<'a>(options: Options, name: &[u8], text: &'a [u8]) -> Result<(Options, &'a [u8]), Stop>
    ensures { Gives
        (λ x. (x.0, words_of x.1.now)) result (check_at options (words_of text.now)) }
{
    if options.check {
        return Err(Stop::at(name, Expected::Option));
    }
    let options = Options {
        check: true,
        ..options
    };
    Ok((options, text))
}

/// The carried flags, after their name.
#[tactic(auto, unfolding(crate::specs::Grammar::flags_at))]
fn flags_at<'a>(options: Options, name: &[u8], text: &'a [u8]) -> Result<(Options, &'a [u8]), Stop>
    ensures { Gives
        (λ x. (x.0, words_of x.1.now)) result (flags_at options (words_of text.now)) }
{
    if options.flags.is_some() {
        return Err(Stop::at(name, Expected::Option));
    }
    let (flags, rest) = number_at(text, 0xff_ffff, Expected::Flags)?;
    let flags = flags as u32;
    if flags & CARRIED_FLAGS != flags {
        return Err(Stop::at(text, Expected::Flags));
    }
    let options = Options {
        flags: Some(flags),
        ..options
    };
    Ok((options, rest))
}

/// The interrupt handle, after its name.
#[tactic(auto, unfolding(crate::specs::Grammar::handle_at))]
fn handle_at<'a>(options: Options, name: &[u8], text: &'a [u8]) -> Result<(Options, &'a [u8]), Stop>
    ensures { Gives
        (λ x. (x.0, words_of x.1.now)) result (handle_at options (words_of text.now)) }
{
    if options.handle.is_some() {
        return Err(Stop::at(name, Expected::Option));
    }
    let (handle, rest) = number_at(text, 0xffff, Expected::Handle)?;
    let options = Options {
        handle: Some(handle as u16),
        ..options
    };
    Ok((options, rest))
}

/// One option more, and what comes after it.
#[tactic(auto, unfolding(crate::specs::Grammar::option_at))]
fn option_at(options: Options, text: &[u8]) -> Result<(Options, &[u8]), Stop>
    ensures { Gives
        (λ x. (x.0, words_of x.1.now)) result (option_at options (words_of text.now)) }
{
    let Some((word, rest)) = next_word(text) else {
        return Err(Stop::at(text, Expected::Option));
    };
    if word == b"pasid".as_slice() {
        return pasid_at(options, text, rest);
    }
    if word == b"privileged".as_slice() {
        return privileged_at(options, text, rest);
    }
    if word == b"check".as_slice() {
        return check_at(options, text, rest);
    }
    if word == b"flags".as_slice() {
        return flags_at(options, text, rest);
    }
    if word == b"handle".as_slice() {
        return handle_at(options, text, rest);
    }
    Err(Stop::at(text, Expected::Option))
}

/// The options up to the end of the line, in any order and each at most once.
pub(crate) fn options_at(text: &[u8]) -> Result<Options, Stop>
    ensures { Gives (λ x. x) result (options_at 5 no_options (words_of text.now)) }
{
    let mut options = Options::none();
    let mut rest = text;
    for _turn in 0..MOST_OPTIONS {
        if is_over(rest) {
            return Ok(options);
        }
        let later = after(rest, b",", Expected::CommaOrEnd)?;
        let (next, later) = option_at(options, later)?;
        options = next;
        rest = later;
    }
    if is_over(rest) {
        Ok(options)
    } else {
        Err(Stop::at(rest, Expected::End))
    }
}
