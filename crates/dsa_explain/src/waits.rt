//! Which earlier groups each group of a plan waits for, if each is a submission of its own.

ghost use Rattle.std.specs.Prelude.{◌≡◌, ◌++◌, ◌<◌, ◌≤◌, IfOk, MatchResult, OnOk, codes, decimal, length, string_bytes};
ghost use Rattle.dsa_tracker.specs.Table.{IsExactly, WaitsFor};
ghost use Rattle.dsa_tracker.specs.Words.{IsTracker, table_in};
ghost use Rattle.dsa_explain.specs.declared.waits.WaitsFault.TheVariants.{Memory};
ghost use Rattle.dsa_explain.specs.Waits.{AreSets, AreWaits, RefusesWaits, awaited_words, chains_of, has_group, longest, longest_in, saved_words, set_words, waits_line, waits_lines, waits_words};

use crate::listing::push_line;
use crate::words::plural;
use dsa_operations::Operation;
use dsa_plan::Plan;
use dsa_tracker::{Slots, TrackFault, WordsFault, words};
use std::alloc::{AllocError, Global};

/// The most slots of a tracker, and so the most groups that can be explained.
const MOST_GROUPS: u32 = 64;

/// How many spans a group of 1,024 pieces may read or write.
const MOST_SPANS: u32 = 3074;

/// The rows of the tracker, as a power of two.
const LOG2_ROWS: u32 = 14;

/// The length of the units that addresses are cut into, as a power of two.
const LOG2_UNIT: u32 = 12;

/// What groups wait for, if a tracker takes one after another.
#[derive(Drop)]
pub struct Waits {
    /// The slot of each group.
    pub slots: Vec<u32>,
    /// The slots that each group waits for.
    pub sets: Vec<Slots>,
}

/// Why waits cannot be reported.
#[derive(Clone, Copy)]
pub enum WaitsFault {
    /// A tracker refuses the groups.
    Track(TrackFault),
    /// An allocation failed.
    Memory,
}

impl From<AllocError> for WaitsFault {
    ghost from_gives = { λ _ fault. fault ≡ Memory };

    fn from(_error: AllocError) -> WaitsFault {
        WaitsFault::Memory
    }
}

/// What the submission of a slot waits for: nothing, if the slot is free.
fn waits_of(tracker: &[u64], slot: u32) -> Slots
    requires { IsTracker tracker.now }
    ensures { IsExactly result (λ s. WaitsFor (table_in tracker.now).slots s slot) }
{
    match words::waits(tracker, slot) {
        Ok(waits) => waits,
        Err(_) => Slots::EMPTY,
    }
}

/// What the submissions of these slots wait for.
fn sets_of(alloc: Global, tracker: &[u64], slots: &[u32]) -> Result<Vec<Slots>, AllocError>
    requires { IsTracker tracker.now }
    ensures { IfOk result (λ sets. AreSets (table_in tracker.now) slots.now sets.items) }
{
    let mut sets = Vec::with_capacity(alloc, slots.len())?;
    for slot in slots {
        sets.push(waits_of(tracker, *slot))?;
    }
    Ok(sets)
}

/// What each group of a plan of these pieces waits for, if its staging area is at this address.
///
/// # Errors
/// [`WaitsFault::Track`]: there are more than 64 groups, or others cannot be taken;
/// [`WaitsFault::Memory`] at the first allocation that fails.
pub fn group_waits(
    alloc: Global,
    plan: &Plan,
    pieces: &[Operation],
    staging: u64,
) -> Result<Waits, WaitsFault>
    ensures { MatchResult result
        (λ w. AreWaits staging plan.now pieces.now w.slots.items w.sets.items)
        (RefusesWaits staging plan.now pieces.now) }
{
    let mut tracker = words::begun(alloc, MOST_GROUPS, MOST_SPANS, LOG2_ROWS, LOG2_UNIT)?;
    let mut slots = vec![in alloc; 0; plan.groups().len()]?;
    match words::submit_groups(
        &mut tracker,
        pieces,
        plan,
        staging,
        Slots::EMPTY,
        &mut slots,
    ) {
        Ok(()) => {}
        Err(WordsFault::Track(fault)) => return Err(WaitsFault::Track(fault)),
        // which words that are a tracker never answer
        Err(WordsFault::NotATracker) => return Err(WaitsFault::Memory),
    }
    let sets = sets_of(alloc, &tracker, &slots)?;
    Ok(Waits { slots, sets })
}

/// Whether the set has the slot of the group.
fn has_group(slots: &[u32], set: Slots, number: usize) -> bool
    requires { number < length slots.now }
    ensures { result ≡ has_group slots.now set number }
{
    set.contains(slots[number])
}

/// The longest of these chains that end in groups of the set.
fn longest_in(slots: &[u32], set: Slots, chains: &[usize]) -> usize
    requires { length chains.now ≤ length slots.now }
    ensures { result ≡ longest_in slots.now set chains.now (length chains.now) }
{
    let mut longest = 0;
    for (number, chain) in chains.iter().enumerate() {
        if has_group(slots, set, number) {
            longest = longest.max(*chain);
        }
    }
    longest
}

/// For each group the longest chain that ends in it.
fn chains_of(alloc: Global, slots: &[u32], sets: &[Slots]) -> Result<Vec<usize>, AllocError>
    requires { length slots.now ≡ length sets.now }
    ensures { IfOk result
        (λ chains. chains.items ≡ chains_of slots.now sets.now (length sets.now)) }
{
    let mut chains = Vec::with_capacity(alloc, sets.len())?;
    for set in sets {
        let before = longest_in(slots, *set, &chains);
        chains.push(before + 1)?;
    }
    Ok(chains)
}

/// The longest chain.
fn longest(chains: &[usize]) -> usize
    ensures { result ≡ longest chains.now (length chains.now) }
{
    let mut longest = 0;
    for chain in chains {
        longest = longest.max(*chain);
    }
    longest
}

/// Writes the number of a group.
fn push_number(alloc: Global, text: &mut String, number: usize) -> Result<(), AllocError>
    ensures { OnOk result (string_bytes text.new ≡ string_bytes text.old ++
        (codes " " ++ decimal number)) }
{
    let words = format!(in alloc; " {number}")?;
    text.push_str(&words)
}

/// Writes the numbers of the first groups that are in the set.
fn push_awaited(
    alloc: Global,
    text: &mut String,
    slots: &[u32],
    set: Slots,
    count: usize,
) -> Result<(), AllocError>
    requires { count ≤ length slots.now }
    ensures { OnOk result (string_bytes text.new ≡ string_bytes text.old ++
        awaited_words slots.now set count) }
{
    for number in 0..count {
        if has_group(slots, set, number) {
            push_number(alloc, text, number)?;
        }
    }
    Ok(())
}

/// Writes what a group waits for.
fn push_set(
    alloc: Global,
    text: &mut String,
    slots: &[u32],
    set: Slots,
    number: usize,
) -> Result<(), AllocError>
    requires { number ≤ length slots.now }
    ensures { OnOk result (string_bytes text.new ≡ string_bytes text.old ++
        set_words slots.now set number) }
{
    if set.0 == 0 {
        return text.push_str(" none");
    }
    push_awaited(alloc, text, slots, set, number)
}

/// The line of a group up to what it waits for.
fn line_front(alloc: Global, number: usize) -> Result<String, AllocError>
    ensures { IfOk result (λ s. string_bytes s ≡ codes "group " ++
        (decimal number ++ codes " waits for")) }
{
    format!(in alloc; "group {number} waits for")
}

/// Writes the line of a group.
fn push_waits_line(
    alloc: Global,
    text: &mut String,
    slots: &[u32],
    set: Slots,
    number: usize,
) -> Result<(), AllocError>
    requires { number ≤ length slots.now }
    ensures { OnOk result (string_bytes text.new ≡ string_bytes text.old ++
        waits_line slots.now set number) }
{
    let front = line_front(alloc, number)?;
    text.push_str(&front)?;
    push_set(alloc, text, slots, set, number)?;
    text.push_str("\n")
}

/// Writes the lines of all groups.
fn push_waits(
    alloc: Global,
    text: &mut String,
    slots: &[u32],
    sets: &[Slots],
) -> Result<(), AllocError>
    requires { length slots.now ≡ length sets.now }
    ensures { OnOk result (string_bytes text.new ≡ string_bytes text.old ++
        waits_lines slots.now sets.now (length sets.now)) }
{
    for (number, set) in sets.iter().enumerate() {
        push_waits_line(alloc, text, slots, *set, number)?;
    }
    Ok(())
}

/// How many groups have to be awaited one after another, and how many fewer these are.
#[tactic(auto, unfolding(crate::specs::Waits::saved_words))]
fn saved_text(alloc: Global, groups: usize, chain: usize) -> Result<String, AllocError>
    requires { chain ≤ groups }
    ensures { IfOk result (λ s. string_bytes s ≡ saved_words groups chain) }
{
    let saved = groups - chain;
    let (ends, many) = (plural(groups as u128), plural(saved as u128));
    format!(in alloc;
        "longest chain of waits: {chain} of {groups} group{ends}, {saved} round trip{many} saved"
    )
}

/// A line for each group with the earlier ones that it waits for, and one that says what this
/// saves.
pub fn waits_text(alloc: Global, waits: &Waits) -> Result<String, AllocError>
    requires { length waits.now.slots.items ≡ length waits.now.sets.items }
    ensures { IfOk result (λ s.
        string_bytes s ≡ waits_words waits.now.slots.items waits.now.sets.items) }
{
    let mut text = String::new(alloc);
    push_waits(alloc, &mut text, &waits.slots, &waits.sets)?;
    let chains = chains_of(alloc, &waits.slots, &waits.sets)?;
    let saved = saved_text(alloc, waits.sets.len(), longest(&chains))?;
    push_line(&mut text, &saved)?;
    Ok(text)
}
