//! The head of a tracker in an array of words: its measures, its board and its owner.

ghost use Rattle.std.specs.Prelude.{◌≡◌, ℕ, ◌+◌, ◌*◌, ◌^◌, ◌<◌, ◌≤◌, ◌↔◌, IsTrue, MatchOption, length, slice_index};
ghost use Rattle.dsa_tracker.specs.Head.{IsHeadOf, head_words, owner_words};
ghost use Rattle.dsa_tracker.specs.Sets.{Has};
ghost use Rattle.dsa_tracker.specs.Words.{AreMeasures, IsBoard, IsShapedIn, board_in, owner_by, words_needed};

use crate::board::Board;
use crate::grid::{Grid, Shape};
use crate::owner::Owner;
use crate::slots::{Slots, are_below};

/// The first word: the bytes of "dsatrack".
const MARK: u64 = 0x6b63_6172_7461_7364;

/// The words of a head.
pub(crate) const HEAD_LEN: usize = 16;

/// What the head of a tracker says.
#[derive(Clone, Copy)]
pub(crate) struct Head {
    /// The number of slots.
    pub slots: usize,
    /// How many spans a submission may read, and how many it may write.
    pub room: u32,
    /// How the words after the head are cut.
    pub shape: Shape,
    /// The board.
    pub board: Board,
    /// The owner, once it is known.
    pub owner: Option<Owner>,
}

/// Whether the measures are in their ranges.
pub(crate) fn are_measures(slots: usize, room: usize, log2_rows: usize, log2_unit: usize) -> bool
    ensures { IsTrue result ↔ AreMeasures slots room log2_rows log2_unit }
{
    if slots > 64 {
        return false;
    }
    if room > u32::MAX as usize {
        return false;
    }
    if log2_rows < 1 {
        return false;
    }
    if log2_rows > 32 {
        return false;
    }
    if log2_unit < 1 {
        return false;
    }
    log2_unit <= 63
}

/// How many words a tracker of these measures takes.
pub(crate) fn needed(slots: usize, room: usize, log2_rows: usize) -> usize
    requires { AreMeasures slots room log2_rows 1 }
    ensures { result ≡ words_needed slots room log2_rows }
{
    HEAD_LEN + slots + 2 * slots * (2 * room + 1) + (2 << log2_rows)
}

/// Whether only slots are outstanding, and only outstanding ones blocked.
fn is_board(board: Board, slots: usize) -> bool
    requires { slots ≤ 64 }
    ensures { IsTrue result ↔ IsBoard board slots }
{
    if !are_below(board.outstanding, slots) {
        return false;
    }
    board.blocked.minus(board.outstanding).is_empty()
}

/// The board of the head.
fn read_board(words: &[u64]) -> Board
    requires { 16 ≤ length words.now }
    ensures { result ≡ board_in words.now }
{
    Board {
        outstanding: Slots(words[5]),
        blocked: Slots(words[6]),
        wide: Slots(words[7]),
    }
}

/// The owner by its three words.
fn read_owner(known: u64, pasid: u64, privileged: u64) -> Option<Owner>
    requires { pasid < 2 ^ 32 }
    ensures { result ≡ owner_by known pasid privileged }
{
    if known != 1 {
        return None;
    }
    Some(Owner {
        pasid: pasid as u32,
        privileged: privileged == 1,
    })
}

/// The head, if the words have the form of a tracker.
pub(crate) fn read_head(words: &[u64]) -> Option<Head>
    ensures { MatchOption result (¬ IsShapedIn words.now)
        (λ head. IsShapedIn words.now × IsHeadOf words.now head) }
{
    if words.len() < HEAD_LEN {
        return None;
    }
    if words[0] != MARK {
        return None;
    }
    let slots = words[1] as usize;
    let room = words[2] as usize;
    let log2_rows = words[3] as usize;
    let log2_unit = words[4] as usize;
    if !are_measures(slots, room, log2_rows, log2_unit) {
        return None;
    }
    if words.len() < needed(slots, room, log2_rows) {
        return None;
    }
    if words[9] > u64::from(u32::MAX) {
        return None;
    }
    let board = read_board(words);
    if !is_board(board, slots) {
        return None;
    }
    Some(Head {
        slots,
        room: room as u32,
        shape: Shape {
            width: 2 * room + 1,
            grid: Grid {
                log2_rows: log2_rows as u32,
                log2_unit: log2_unit as u32,
            },
        },
        board,
        owner: read_owner(words[8], words[9], words[10]),
    })
}

/// The three words of an owner.
fn words_of_owner(owner: Option<Owner>) -> (u64, u64, u64)
    ensures value { result ≡ owner_words owner }
    ensures low { result.1 < 2 ^ 32 }
{
    match owner {
        Some(owner) => (1, u64::from(owner.pasid), u64::from(owner.privileged)),
        None => (0, 0, 0),
    }
}

/// Writes the head.
pub(crate) fn write_head(front: &mut [u64], head: Head)
    requires { length front.old ≡ 16 }
    ensures value { front.new ≡ head_words head }
    ensures low { slice_index front.new 9 < 2 ^ 32 }
{
    let (known, pasid, privileged) = words_of_owner(head.owner);
    front.copy_from_slice(&[
        MARK,
        head.slots as u64,
        u64::from(head.room),
        u64::from(head.shape.grid.log2_rows),
        u64::from(head.shape.grid.log2_unit),
        head.board.outstanding.0,
        head.board.blocked.0,
        head.board.wide.0,
        known,
        pasid,
        privileged,
        0,
        0,
        0,
        0,
        0,
    ]);
}
