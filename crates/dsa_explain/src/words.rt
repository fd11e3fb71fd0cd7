//! The words of an explanation.

ghost use Rattle.std.specs.Prelude.{◌≡◌, ◌++◌, IfOk, OnOk, codes, decimal, map, string_bytes};
ghost use Rattle.dsa_explain.specs.Words.{alike_words, batch_words, cost_words, fences_words, full_words, group_words, groups_words, lone_words, name_of, name_words, origin_words, piece_words, pieces_words, plural, saved_words, size_words};

use crate::labels::Origin;
use dsa_lines::line_of;
use dsa_operations::Operation;
use dsa_plan::{Costs, GroupCost};
use std::alloc::{AllocError, Global};

/// An s, unless the number is 1.
pub(crate) fn plural(count: u128) -> &'static str
    ensures { result.now ≡ plural count }
{
    if count == 1 { "" } else { "s" }
}

/// How many fences a batch has, how many epochs they divide it into, and its cost.
#[tactic(auto, unfolding(crate::specs::Words::fences_words))]
fn fences_text(alloc: Global, fences: usize, cost: u64) -> Result<String, AllocError>
    ensures { IfOk result (λ s. string_bytes s ≡ fences_words fences cost) }
{
    let epochs = fences as u128 + 1;
    let (ends, many) = (plural(fences as u128), plural(epochs));
    format!(in alloc; "{fences} fence{ends}, {epochs} epoch{many}, cost {cost}")
}

/// The words of a lone submission.
fn lone_text(alloc: Global, number: usize, cost: u64) -> Result<String, AllocError>
    ensures { IfOk result (λ s. string_bytes s ≡ lone_words number cost) }
{
    format!(in alloc; "group {number}: lone submission, cost {cost}")
}

/// That a batch is as large as it may be.
fn full_text(greatest: u64, size: usize) -> &'static str
    ensures { result.now ≡ full_words greatest size }
{
    if size as u64 == greatest {
        " (full)"
    } else {
        ""
    }
}

/// The size of a batch, its fences and the epochs that they divide it into, and its cost.
fn size_text(alloc: Global, greatest: u64, group: &GroupCost) -> Result<String, AllocError>
    ensures { IfOk result (λ s. string_bytes s ≡ size_words greatest group.now) }
{
    let fences = fences_text(alloc, group.fences, group.cost)?;
    let (size, full) = (group.size, full_text(greatest, group.size));
    let fences = fences.as_str();
    format!(in alloc; "{size}{full}, {fences}")
}

/// The words of a batch.
fn batch_text(
    alloc: Global,
    greatest: u64,
    number: usize,
    group: &GroupCost,
) -> Result<String, AllocError>
    ensures { IfOk result (λ s. string_bytes s ≡ batch_words greatest number group.now) }
{
    let size = size_text(alloc, greatest, group)?;
    let size = size.as_str();
    format!(in alloc; "group {number}: batch of {size}")
}

/// The words of a group; `greatest` is the size of the largest batch.
pub fn group_text(
    alloc: Global,
    greatest: u64,
    number: usize,
    group: &GroupCost,
) -> Result<String, AllocError>
    ensures { IfOk result (λ s. string_bytes s ≡ group_words greatest number group.now) }
{
    if group.size == 1 {
        lone_text(alloc, number, group.cost)
    } else {
        batch_text(alloc, greatest, number, group)
    }
}

/// The words of groups that are alike: lone pieces or batches.
fn alike_text(alloc: Global, greatest: u64, group: &GroupCost) -> Result<String, AllocError>
    ensures { IfOk result (λ s. string_bytes s ≡ alike_words greatest group.now) }
{
    if group.size == 1 {
        let cost = group.cost;
        return format!(in alloc; " lone submissions, cost {cost}");
    }
    let size = size_text(alloc, greatest, group)?;
    let size = size.as_str();
    format!(in alloc; " batches of {size}")
}

/// The words of the groups of these numbers, which are alike.
pub(crate) fn groups_text(
    alloc: Global,
    greatest: u64,
    first: usize,
    last: usize,
    group: &GroupCost,
) -> Result<String, AllocError>
    ensures { IfOk result (λ s. string_bytes s ≡ groups_words greatest first last group.now) }
{
    if first == last {
        return group_text(alloc, greatest, first, group);
    }
    let count = (last as u128 + 1).saturating_sub(first as u128);
    let alike = alike_text(alloc, greatest, group)?;
    let alike = alike.as_str();
    format!(in alloc; "groups {first} to {last}: {count}{alike} each")
}

/// Writes which of its operation's pieces a piece is, if the operation was split.
pub(crate) fn push_origin(
    alloc: Global,
    text: &mut String,
    origin: Option<Origin>,
) -> Result<(), AllocError>
    ensures { OnOk result (string_bytes text.new ≡ string_bytes text.old ++ origin_words origin) }
{
    let Some(origin) = origin else {
        return Ok(());
    };
    if origin.pieces <= 1 {
        return Ok(());
    }
    let (operation, piece, pieces) = (origin.operation, origin.piece, origin.pieces);
    let part = format!(in alloc; " (operation {operation}, piece {piece} of {pieces})")?;
    text.push_str(&part)
}

/// Writes the name of an operation, as the comment of its line.
pub(crate) fn push_name(text: &mut String, name: &str) -> Result<(), AllocError>
    ensures { OnOk result (string_bytes text.new ≡ string_bytes text.old ++ name_words name.now) }
{
    if name.is_empty() {
        return Ok(());
    }
    text.push_str(" # ")?;
    text.push_str(name)
}

/// The name of the operation that a piece is of; empty if it has none.
pub(crate) fn name_of(names: &[String], origin: Option<Origin>) -> &str
    ensures { result.now ≡ name_of (map string_bytes names.now) origin }
{
    let Some(origin) = origin else {
        return "";
    };
    match names.get(origin.operation) {
        Some(name) => name.as_str(),
        None => "",
    }
}

/// The words of a piece: its canonical line, which piece it is if its operation was split, and the operation's name.
pub(crate) fn piece_text(
    alloc: Global,
    d: &Operation,
    origin: Option<Origin>,
    name: &str,
) -> Result<String, AllocError>
    ensures { IfOk result (λ s. string_bytes s ≡ piece_words d.now origin name.now) }
{
    let mut text = line_of(alloc, d)?;
    push_origin(alloc, &mut text, origin)?;
    push_name(&mut text, name)?;
    Ok(text)
}

/// What a plan saves, or how much less lone submissions cost.
fn saved_text(alloc: Global, cost: u64, lone: u64) -> Result<String, AllocError>
    ensures { IfOk result (λ s. string_bytes s ≡ saved_words cost lone) }
{
    if cost <= lone {
        let saved = lone - cost;
        return format!(in alloc; "saved {saved}");
    }
    let lost = cost - lone;
    format!(in alloc; "{lost} less")
}

/// The words of the plan's cost.
fn cost_front(alloc: Global, cost: u64) -> Result<String, AllocError>
    ensures { IfOk result (λ s. string_bytes s ≡ codes "cost " ++ (decimal cost ++ codes "; ")) }
{
    format!(in alloc; "cost {cost}; ")
}

/// The words that say that so many lone submissions cost the number that follows.
#[tactic(auto, unfolding(crate::specs::Words::pieces_words))]
fn pieces_text(alloc: Global, pieces: usize) -> Result<String, AllocError>
    ensures { IfOk result (λ s. string_bytes s ≡ pieces_words pieces) }
{
    if pieces == 1 {
        return format!(in alloc; "{pieces} lone submission costs");
    }
    format!(in alloc; "{pieces} lone submissions cost")
}

/// Writes that so many lone submissions cost the number that follows.
fn push_pieces(alloc: Global, text: &mut String, pieces: usize) -> Result<(), AllocError>
    ensures { OnOk result (string_bytes text.new ≡ string_bytes text.old ++ pieces_words pieces) }
{
    let words = pieces_text(alloc, pieces)?;
    text.push_str(&words)
}

/// Writes what the lone submissions would cost.
fn push_lone(alloc: Global, text: &mut String, lone: u64) -> Result<(), AllocError>
    ensures { OnOk result (string_bytes text.new ≡ string_bytes text.old ++
        (codes " " ++ (decimal lone ++ codes ", "))) }
{
    let words = format!(in alloc; " {lone}, ")?;
    text.push_str(&words)
}

/// The words of the costs: those of the plan, of as many lone submissions, and what is saved.
pub fn cost_text(alloc: Global, costs: &Costs, pieces: usize) -> Result<String, AllocError>
    ensures { IfOk result (λ s. string_bytes s ≡ cost_words costs.now pieces) }
{
    let mut text = cost_front(alloc, costs.cost)?;
    push_pieces(alloc, &mut text, pieces)?;
    push_lone(alloc, &mut text, costs.lone)?;
    let saved = saved_text(alloc, costs.cost, costs.lone)?;
    text.push_str(&saved)?;
    Ok(text)
}
