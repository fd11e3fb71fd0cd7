//! What the barriers of a stopped list hold back.

ghost use Rattle.std.specs.Prelude.{◌≡◌, ◌≢◌, ◌<◌, ◌≤◌, ◌↔◌, ℕ, [], IsTrue, IfSome, length};
ghost use Rattle.dsa_settings.specs.Barriers.{IsBarrier};
ghost use Rattle.dsa_resume.specs.Barriers.{FindsBegun, FindsPassed, FindsStop, IsFirstOpen, IsFront};

use crate::status::Ended;
use dsa_descriptor::mark_at;

/// The first piece that has not succeeded, or the number of pieces.
fn first_open(ends: &[Ended]) -> usize
    ensures { IsFirstOpen ends.now result }
{
    for (index, ended) in ends.iter().enumerate() {
        if ended.is_open() {
            return index;
        }
    }
    ends.len()
}

/// The pieces before the first barrier that holds.
#[derive(Clone, Copy)]
pub(crate) struct Front {
    /// The first piece that has not succeeded, or the number of pieces.
    pub unfinished: usize,
    /// The first piece after that barrier, or the number of pieces.
    pub end: usize,
}

/// The front of pieces with these barriers that have ended so.
pub(crate) fn front_of(barriers: &[bool], ends: &[Ended]) -> Front
    requires { barriers.now ≢ [] → length barriers.now ≡ length ends.now }
    ensures unfinished { IsFirstOpen ends.now result.unfinished }
    ensures front { IsFront barriers.now ends.now result.end }
{
    let unfinished = first_open(ends);
    for end in unfinished..ends.len() {
        if unfinished < end && mark_at(barriers, end) {
            return Front { unfinished, end };
        }
    }
    Front {
        unfinished,
        end: ends.len(),
    }
}

/// The first piece after the front that has begun.
fn first_begun(ends: &[Ended], front: usize) -> Option<usize>
    ensures { FindsBegun ends.now front result }
{
    for index in front..ends.len() {
        if ends[index].has_begun() {
            return Some(index);
        }
    }
    None
}

/// The first piece that has begun though a barrier before it holds, after the first piece for which it does.
pub(crate) fn first_passed(
    barriers: &[bool],
    ends: &[Ended],
    front: Front,
) -> Option<(usize, usize)>
    requires unfinished { IsFirstOpen ends.now front.unfinished }
    requires front { IsFront barriers.now ends.now front.end }
    ensures { FindsPassed barriers.now ends.now result }
{
    let _ = barriers;
    match first_begun(ends, front.end) {
        Some(index) => Some((front.unfinished, index)),
        None => None,
    }
}

/// The first piece of the front that will not succeed by being done again.
pub(crate) fn first_stop(ends: &[Ended], front: usize) -> Option<usize>
    requires { front ≤ length ends.now }
    ensures { FindsStop ends.now front result }
{
    for index in 0..front {
        if ends[index].stops() {
            return Some(index);
        }
    }
    None
}
