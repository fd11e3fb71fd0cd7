//! Events as lines of text.

ghost use Rattle.std.specs.Prelude.{◌≡◌, IfErr, IfOk};
ghost use Rattle.std.specs.Str.{bytes_eq};
ghost use Rattle.dsa_lines.specs.Numbers.{numeral};
ghost use Rattle.dsa_waits.specs.declared.lines.LinesFault.TheVariants.{Memory};
ghost use Rattle.dsa_waits.specs.Lines.{IsLinesFault, Spells, after, ended_line, first_part, known_line, line_by, line_of, member_line, queue_in, queue_of, submission_with, submitted_line, watched_line};

use crate::event::{Event, Queue};
use dsa_lines::{before, numeral};
use std::alloc::{AllocFailed, Global};

/// What the line of a submission says of it.
#[derive(Clone, Copy)]
pub struct Submitting {
    /// Its number.
    pub number: u64,
    /// Its queue.
    pub queue: Queue,
    /// Its operation code.
    pub code: u64,
    /// How many members it has; 0 if it is no batch.
    pub members: u64,
}

/// A line of events.
#[derive(Clone, Copy)]
pub enum Line {
    /// A submission is made.
    Submitted(Submitting),
    /// Something else happens.
    Happened(Event),
}

/// Why a text is none of events.
#[derive(Clone, Copy)]
pub enum LinesFault {
    /// The line of this index, from 0, is none of an event, or does not end.
    Line(usize),
    /// An allocation failed.
    Memory,
}

impl<T: Drop> From<AllocFailed<T>> for LinesFault {
    ghost from_gives = { λ _ fault. fault ≡ Memory };

    fn from(_error: AllocFailed<T>) -> LinesFault {
        LinesFault::Memory
    }
}

/// What comes before the first of these bytes, and what comes after it.
fn parted(text: &[u8], byte: u8) -> (&[u8], &[u8])
    ensures first { result.0.now ≡ first_part byte text.now }
    ensures rest { result.1.now ≡ after byte text.now }
{
    let len = before(text, byte);
    if len == text.len() {
        return (text, &[]);
    }
    (&text[..len], &text[len + 1..])
}

/// The queue of a name.
fn queue_in(numbers: &[u8]) -> Option<Queue>
    ensures { result ≡ queue_in numbers.now }
{
    let (device, number) = parted(numbers, b'.');
    let Some(device) = numeral(device, 10) else {
        return None;
    };
    let Some(number) = numeral(number, 10) else {
        return None;
    };
    Some(Queue { device, number })
}

/// The queue of a name, as `wq0.1`.
fn queue_of(name: &[u8]) -> Option<Queue>
    ensures { result ≡ queue_of name.now }
{
    if let [first, second, numbers @ ..] = name {
        if *first == b'w' && *second == b'q' {
            return queue_in(numbers);
        }
    }
    None
}

/// The submission of this number, queue, code and count.
fn submission_of(number: &[u8], queue: &[u8], code: &[u8], members: &[u8]) -> Option<Line>
    ensures { result ≡ submission_with (numeral 10 number.now) (queue_of queue.now)
        (numeral 10 code.now) (numeral 10 members.now) }
{
    let Some(number) = numeral(number, 10) else {
        return None;
    };
    let Some(queue) = queue_of(queue) else {
        return None;
    };
    let Some(code) = numeral(code, 10) else {
        return None;
    };
    let Some(members) = numeral(members, 10) else {
        return None;
    };
    Some(Line::Submitted(Submitting {
        number,
        queue,
        code,
        members,
    }))
}

/// Whether the word is this one.
fn is_word(word: &[u8], name: &[u8]) -> bool
    ensures { result ≡ bytes_eq word.now name.now }
{
    word == name
}

/// The line of a submission, after its letter.
fn submitted_line(text: &[u8]) -> Option<Line>
    ensures { result ≡ submitted_line text.now }
{
    let (number, rest) = parted(text, b' ');
    let (queue, rest) = parted(rest, b' ');
    let (operation, rest) = parted(rest, b' ');
    let (code, rest) = parted(rest, b' ');
    let (count, rest) = parted(rest, b' ');
    let (members, _) = parted(rest, b' ');
    if !is_word(operation, b"op") {
        return None;
    }
    if !is_word(count, b"members") {
        return None;
    }
    submission_of(number, queue, code, members)
}

/// The line of an end of a member, after its letter.
fn member_line(text: &[u8]) -> Option<Line>
    ensures { result ≡ member_line text.now }
{
    let (number, rest) = parted(text, b' ');
    let (member, status) = parted(rest, b' ');
    let Some(number) = numeral(number, 10) else {
        return None;
    };
    let Some(member) = numeral(member, 10) else {
        return None;
    };
    let Some(_) = numeral(status, 10) else {
        return None;
    };
    Some(Line::Happened(Event::MemberEnded(number as usize, member as usize)))
}

/// The line of an end of a submission, after its letter.
fn ended_line(text: &[u8]) -> Option<Line>
    ensures { result ≡ ended_line text.now }
{
    let (number, status) = parted(text, b' ');
    let Some(number) = numeral(number, 10) else {
        return None;
    };
    let Some(status) = numeral(status, 10) else {
        return None;
    };
    Some(Line::Happened(Event::Ended(number as usize, status)))
}

/// The line of a record that is watched, after its letter.
fn watched_line(text: &[u8]) -> Option<Line>
    ensures { result ≡ watched_line text.now }
{
    let Some(number) = numeral(text, 10) else {
        return None;
    };
    Some(Line::Happened(Event::Watched(number as usize)))
}

/// The line of a record that the program has looked at, after its letter.
fn known_line(text: &[u8]) -> Option<Line>
    ensures { result ≡ known_line text.now }
{
    let Some(number) = numeral(text, 10) else {
        return None;
    };
    Some(Line::Happened(Event::Known(number as usize)))
}

/// The line with this letter, and what comes after the blank.
fn line_by(letter: u8, rest: &[u8]) -> Option<Line>
    ensures { result ≡ line_by letter rest.now }
{
    if letter == b'S' {
        return submitted_line(rest);
    }
    if letter == b'W' {
        return watched_line(rest);
    }
    if letter == b'c' {
        return member_line(rest);
    }
    if letter == b'C' {
        return ended_line(rest);
    }
    if letter == b'K' {
        return known_line(rest);
    }
    None
}

/// The event of a line.
fn line_of(text: &[u8]) -> Option<Line>
    ensures { result ≡ line_of text.now }
{
    if let [letter, blank, rest @ ..] = text {
        if *blank == b' ' {
            return line_by(*letter, rest);
        }
    }
    None
}

/// The lines of a text of events.
///
/// # Errors
/// [`LinesFault::Line`] with the first line that is none of an event or does not end; or [`LinesFault::Memory`].
pub fn read_lines(alloc: Global, text: &[u8]) -> Result<Vec<Line>, LinesFault>
    ensures ok { IfOk result (λ lines. Spells text.now lines.items) }
    ensures err { IfErr result (IsLinesFault text.now) }
{
    let mut lines = Vec::new(alloc);
    let mut rest = text;
    while !rest.is_empty() {
        let (text, more) = parted(rest, b'\n');
        if text.len() == rest.len() {
            return Err(LinesFault::Line(lines.len()));
        }
        let Some(line) = line_of(text) else {
            return Err(LinesFault::Line(lines.len()));
        };
        lines.push(line)?;
        rest = more;
    }
    Ok(lines)
}
