//! Lines of accepted keys that fit nothing.

ghost use Rattle.std.specs.Prelude.{◌≡◌, ◌++◌, IfOk, OnOk};
ghost use Rattle.dsa_recording.specs.Uses.{is_key_line, is_looked_for, stale_from, stale_line};

use crate::accepted::Accepted;
use std::alloc::{AllocError, Global};

/// Whether a line is a key: it begins with a letter from a to z. Others are comments.
fn is_key_line(line: &str) -> bool
    ensures { result ≡ is_key_line line.now }
{
    match line.as_bytes() {
        [first, ..] => *first >= b'a' && *first <= b'z',
        [] => false,
    }
}

/// Whether a line is looked for in an audit: it is a key, and without events none of a missing wait.
fn is_looked_for(line: &str, with_events: bool) -> bool
    ensures { result ≡ is_looked_for with_events line.now }
{
    if !is_key_line(line) {
        return false;
    }
    if with_events {
        return true;
    }
    !line.starts_with("missing wait")
}

/// Adds the number of a line, if it is looked for and not used.
fn push_stale(
    numbers: &mut Vec<usize>,
    number: usize,
    line: &str,
    with_events: bool,
    used: &Accepted,
) -> Result<(), AllocError>
    ensures { OnOk result
        (numbers.new.items ≡ numbers.old.items ++ stale_line number with_events used.now line.now) }
{
    if !is_looked_for(line, with_events) {
        return Ok(());
    }
    if used.has(line) {
        return Ok(());
    }
    numbers.push(number)?;
    Ok(())
}

/// The lines that are looked for in an audit, with events or without, and not used: by their numbers from 1, in order.
pub fn stale_lines(
    alloc: Global,
    accepted: &Accepted,
    with_events: bool,
    used: &Accepted,
) -> Result<Vec<usize>, AllocError>
    ensures { IfOk result (λ numbers. numbers.items ≡
        stale_from 1 with_events used.now accepted.now.lines.items) }
{
    let mut numbers = Vec::new(alloc);
    for at in 0..accepted.lines.len() {
        push_stale(&mut numbers, at + 1, &accepted.lines[at], with_events, used)?;
    }
    Ok(numbers)
}
