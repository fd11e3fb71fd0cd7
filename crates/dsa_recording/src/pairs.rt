//! Pairs of members that are accepted.

ghost use Rattle.std.specs.Prelude.{◌≡◌, ◌<◌, ◌^◌, ◌++◌, ◌∷◌, ℕ, List, IfOk, MatchOption, OnOk, decimal, string_bytes};
ghost use Rattle.dsa_recording.specs.Pairs.{IsAbove, IsFirstAfter, IsListedPair, LeadsOn, NamesAfter, NamesEach, NoneAfter, Pushes, hazards_by};

use crate::accepted::Accepted;
use crate::keys::{fence_front, fence_key};
use dsa_audit::{Acceptance, Hazards, Member, are_known_to_conflict, hazards_between};
use std::alloc::{AllocError, Global};

/// The members of a batch, and the keys of missing fences that are accepted.
#[derive(Clone, Copy)]
pub(crate) struct AcceptedPairs<'a> {
    /// The keys.
    pub accepted: &'a Accepted,
    /// The entries of the members.
    pub entries: &'a [[u8; 64]],
    /// What is known of the data of each.
    pub operands: &'a [Member],
}

/// The hazards of this number: a bit for each.
fn hazards_by(number: usize) -> Hazards
    ensures { result ≡ hazards_by number }
{
    Hazards {
        read_after_write: number % 2 == 1,
        write_after_write: number / 2 % 2 == 1,
        write_after_read: number / 4 % 2 == 1,
    }
}

/// The number that a text has before its first colon, and what comes after that.
pub(crate) fn number_before(text: &str) -> Option<(usize, &str)>
    ensures { (n : ℕ) (rest : List ℕ) → n < 2 ^ 64 → text.now ≡ decimal n ++ (58 ∷ rest) →
        MatchOption result ⊥ (λ found. (found.0 ≡ n) × (found.1.now ≡ rest)) }
{
    let Some((digits, rest)) = text.split_once(':') else {
        return None;
    };
    match digits.parse() {
        Ok(number) => Some((number, rest)),
        Err(_) => None,
    }
}

/// What comes after `front` in the first key from `front` and `rest` on, if that begins so.
fn first_after<'a>(
    alloc: Global,
    accepted: &'a Accepted,
    front: &str,
    rest: &str,
) -> Result<Option<&'a str>, AllocError>
    ensures { IfOk result (λ found. MatchOption found
        (NoneAfter accepted.now front.now rest.now)
        (λ text. IsFirstAfter accepted.now front.now rest.now text.now)) }
{
    let from = format!(in alloc; "{front}{rest}")?;
    match accepted.keys.range(from..).next() {
        Some(key) => Ok(key.strip_prefix(front)),
        None => Ok(None),
    }
}

/// A text above `rest`, and above each that has the same number before a colon.
fn next_rest(alloc: Global, rest: &str) -> Result<String, AllocError>
    ensures above { IfOk result (λ next. IsAbove (string_bytes next) rest.now) }
    ensures others { IfOk result (λ next. LeadsOn rest.now (string_bytes next)) }
{
    match rest.split_once(':') {
        Some((digits, _)) => format!(in alloc; "{digits};"),
        None => format!(in alloc; "{rest}\0"),
    }
}

/// Adds the number that the text has before its first colon, if it has one.
fn push_number(numbers: &mut Vec<usize>, text: &str) -> Result<(), AllocError>
    ensures { OnOk result (Pushes text.now numbers.old.items numbers.new.items) }
{
    if let Some((number, _)) = number_before(text) {
        numbers.push(number)?;
    }
    Ok(())
}

/// Adds the numbers that keys have after this front and before a colon. The time grows with their count, and not with
/// that of the keys.
fn push_numbers(
    alloc: Global,
    numbers: &mut Vec<usize>,
    accepted: &Accepted,
    front: &str,
) -> Result<(), AllocError>
    ensures { OnOk result
        (NamesAfter accepted.now front.now numbers.old.items numbers.new.items) }
{
    let mut rest = first_after(alloc, accepted, front, "")?;
    while let Some(text) = rest {
        push_number(numbers, text)?;
        let next = next_rest(alloc, text)?;
        rest = first_after(alloc, accepted, front, &next)?;
    }
    Ok(())
}

/// The earlier members that accepted keys of missing fences before member `later` of a batch with these entries name,
/// and maybe others.
pub(crate) fn named_with(
    alloc: Global,
    accepted: &Accepted,
    entries: &[[u8; 64]],
    later: usize,
) -> Result<Vec<usize>, AllocError>
    ensures { IfOk result (λ found. NamesEach accepted.now entries.now later found.items) }
{
    let mut members = Vec::new(alloc);
    for number in 0..8 {
        let front = fence_front(alloc, entries, later, hazards_by(number))?;
        push_numbers(alloc, &mut members, accepted, &front)?;
    }
    Ok(members)
}

impl<'a> Acceptance for AcceptedPairs<'a> {
    ghost lists = { λ p. IsListedPair p.accepted.now p.entries.now p.operands.now };

    fn is_listed(&self, alloc: Global, earlier: usize, later: usize) -> Result<bool, AllocError> {
        if earlier >= later {
            return Ok(false);
        }
        if later >= self.operands.len() {
            return Ok(false);
        }
        if !are_known_to_conflict(&self.operands[earlier], &self.operands[later]) {
            return Ok(false);
        }
        let hazards = hazards_between(self.operands, earlier, later);
        let key = fence_key(alloc, self.entries, earlier, later, hazards)?;
        Ok(self.accepted.has(&key))
    }

    fn listed_with(&self, alloc: Global, later: usize) -> Result<Vec<usize>, AllocError> {
        named_with(alloc, self.accepted, self.entries, later)
    }
}
