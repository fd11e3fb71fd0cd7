//! The parts of a tracker in an array of words, handed to what works on a tracker's words.

ghost use Rattle.std.specs.Prelude.{◌≡◌, ℕ, ◌+◌, ◌*◌, ◌<◌, ◌≤◌, ◌++◌, MatchOption, Some, flat_map, length, slice_set};
ghost use Rattle.dsa_tracker.specs.Calls.{AreAddressable, CanKeep, Releases, SameAddresses};
ghost use Rattle.dsa_tracker.specs.Finding.{reads_store, writes_store};
ghost use Rattle.dsa_tracker.specs.Head.{IsHeadOf, with_board};
ghost use Rattle.dsa_tracker.specs.Kept.{kept};
ghost use Rattle.dsa_tracker.specs.Sets.{Has};
ghost use Rattle.dsa_tracker.specs.State.{kept_at, waits_of};
ghost use Rattle.dsa_tracker.specs.Table.{ConflictsWith, HasToWait, IsExactly, IsReady, WaitsFor};
ghost use Rattle.dsa_tracker.specs.Words.{IsShapedIn, IsStateIn, board_in, shown_in, stores_in, waits_in};

use crate::asking::slots_in_the_way;
use crate::board::{release, take, waits_at};
use crate::finding::Others;
use crate::head::{HEAD_LEN, Head, write_head};
use crate::keeping::{keep_reads, keep_spans, keep_writes};
use crate::owner::Owner;
use crate::slots::Slots;
use crate::submitted::Retired;
use crate::tracked::Tracked;
use dsa_descriptor::Span;

/// Keeps just these spans in the stores of the free slot.
pub(crate) fn keep_spans_in(
    words: &mut [u64],
    head: Head,
    slot: u32,
    reads: &[Span],
    writes: &[Span],
)
    requires shaped { IsShapedIn words.old }
    requires head { IsHeadOf words.old head }
    requires within { slot < head.slots }
    requires free { ¬ Has head.board.outstanding slot }
    requires room { CanKeep head.room reads.now writes.now }
    ensures shaped { IsShapedIn words.new }
    ensures head { IsHeadOf words.new head }
    ensures shown { shown_in words.new ≡ shown_in words.old }
    ensures state { IsStateIn words.old head.shape → IsStateIn words.new head.shape }
    ensures reads { SameAddresses
        (kept (reads_store head.shape.width (stores_in words.new) slot)) reads.now }
    ensures writes { SameAddresses
        (kept (writes_store head.shape.width (stores_in words.new) slot)) writes.now }
{
    let width = head.shape.width;
    let (_, body) = words.split_at_mut(HEAD_LEN);
    let (_, body) = body.split_at_mut(head.slots);
    let (stores, _) = body.split_at_mut(2 * head.slots * width);
    keep_spans(stores, width, 2 * slot as usize, reads);
    keep_spans(stores, width, 2 * slot as usize + 1, writes);
}

/// Keeps just what these pieces read, and what they write and their staging bytes, in the stores of
/// the free slot.
pub(crate) fn keep_list_in<P: Tracked>(
    words: &mut [u64],
    head: Head,
    slot: u32,
    pieces: &[P],
    staged: &[Span],
)
    requires shaped { IsShapedIn words.old }
    requires head { IsHeadOf words.old head }
    requires within { slot < head.slots }
    requires free { ¬ Has head.board.outstanding slot }
    requires room { 3 * length pieces.now + length staged.now ≤ head.room }
    requires addressable { AreAddressable staged.now }
    ensures shaped { IsShapedIn words.new }
    ensures head { IsHeadOf words.new head }
    ensures shown { shown_in words.new ≡ shown_in words.old }
    ensures state { IsStateIn words.old head.shape → IsStateIn words.new head.shape }
    ensures reads { SameAddresses
        (kept (reads_store head.shape.width (stores_in words.new) slot))
        (flat_map P.reads pieces.now) }
    ensures writes { SameAddresses
        (kept (writes_store head.shape.width (stores_in words.new) slot))
        (staged.now ++ flat_map P.writes pieces.now) }
{
    let width = head.shape.width;
    let (_, body) = words.split_at_mut(HEAD_LEN);
    let (_, body) = body.split_at_mut(head.slots);
    let (stores, _) = body.split_at_mut(2 * head.slots * width);
    keep_reads(stores, width, 2 * slot as usize, pieces);
    keep_writes(stores, width, 2 * slot as usize + 1, pieces, staged);
}

/// Takes the free slot for what its stores keep, answers what that waits for, and writes the head
/// with this owner.
pub(crate) fn take_in(
    words: &mut [u64],
    head: Head,
    slot: u32,
    also: Slots,
    owner: Option<Owner>,
) -> Slots
    requires shaped { IsShapedIn words.old }
    requires head { IsHeadOf words.old head }
    requires within { slot < head.slots }
    requires free { ¬ Has head.board.outstanding slot }
    ensures shaped { IsShapedIn words.new }
    ensures head { IsHeadOf words.new (with_board head (board_in words.new) owner) }
    ensures stores { stores_in words.new ≡ stores_in words.old }
    ensures waits { IsStateIn words.old head.shape → IsExactly result (HasToWait
        (shown_in words.old) (kept (reads_store head.shape.width (stores_in words.old) slot))
        (kept (writes_store head.shape.width (stores_in words.old) slot)) also) }
    ensures slots { shown_in words.new ≡ slice_set (shown_in words.old) slot
        (Some (kept_at head.shape.width (waits_in words.new) (stores_in words.new) slot)) }
    ensures here { waits_of (waits_in words.new) slot ≡ result }
    ensures state { IsStateIn words.old head.shape → IsStateIn words.new head.shape }
{
    let mut board = head.board;
    let (front, body) = words.split_at_mut(HEAD_LEN);
    let (waits, body) = body.split_at_mut(head.slots);
    let (stores, body) = body.split_at_mut(2 * head.slots * head.shape.width);
    let (rows, _) = body.split_at_mut(2 << head.shape.grid.log2_rows);
    let awaited = take(&mut board, waits, rows, stores, head.shape, slot, also);
    write_head(
        front,
        Head {
            board,
            owner,
            ..head
        },
    );
    awaited
}

/// Frees the slot, takes it off all waits, and writes the head.
pub(crate) fn release_in(words: &mut [u64], head: Head, slot: u32) -> Retired
    requires shaped { IsShapedIn words.old }
    requires head { IsHeadOf words.old head }
    requires held { Has head.board.outstanding slot }
    ensures shaped { IsShapedIn words.new }
    ensures head { IsHeadOf words.new (with_board head (board_in words.new) head.owner) }
    ensures released { IsStateIn words.old head.shape →
        Releases (shown_in words.old) slot (shown_in words.new) }
    ensures waited { IsStateIn words.old head.shape →
        IsExactly result.waited (WaitsFor (shown_in words.old) slot) }
    ensures ready { IsStateIn words.old head.shape → IsExactly result.ready (λ s.
        WaitsFor (shown_in words.old) slot s × IsReady (shown_in words.new) s) }
    ensures state { IsStateIn words.old head.shape → IsStateIn words.new head.shape }
{
    let mut board = head.board;
    let (front, body) = words.split_at_mut(HEAD_LEN);
    let (waits, body) = body.split_at_mut(head.slots);
    let (stores, body) = body.split_at_mut(2 * head.slots * head.shape.width);
    let (rows, _) = body.split_at_mut(2 << head.shape.grid.log2_rows);
    let retired = release(&mut board, waits, rows, stores, head.shape, slot);
    write_head(front, Head { board, ..head });
    retired
}

/// What the submission of the slot waits for, if it is outstanding.
pub(crate) fn waits_at_in(words: &[u64], head: Head, slot: u32) -> Option<Slots>
    requires shaped { IsShapedIn words.now }
    requires head { IsHeadOf words.now head }
    ensures { MatchOption result (¬ Has head.board.outstanding slot)
        (λ w. Has head.board.outstanding slot × (w ≡ waits_of (waits_in words.now) slot)) }
{
    let (_, body) = words.split_at(HEAD_LEN);
    let (waits, _) = body.split_at(head.slots);
    waits_at(head.board.outstanding, waits, slot)
}

/// The outstanding submissions that conflict with what reads and writes these spans.
pub(crate) fn conflicts_in(words: &[u64], head: Head, reads: &[Span], writes: &[Span]) -> Slots
    requires shaped { IsShapedIn words.now }
    requires head { IsHeadOf words.now head }
    ensures { IsStateIn words.now head.shape →
        IsExactly result (ConflictsWith (shown_in words.now) reads.now writes.now) }
{
    let (_, body) = words.split_at(HEAD_LEN);
    let (_, body) = body.split_at(head.slots);
    let (stores, body) = body.split_at(2 * head.slots * head.shape.width);
    let (rows, _) = body.split_at(2 << head.shape.grid.log2_rows);
    let others = Others {
        among: head.board.outstanding,
        wide: head.board.wide,
    };
    slots_in_the_way(rows, head.shape, stores, others, reads, writes)
}
