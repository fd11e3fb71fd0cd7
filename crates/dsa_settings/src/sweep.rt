//! A sweep over the addresses that the pieces of a group touch: whether no two of them conflict without a fence
//! between.

ghost use Rattle.std.specs.Prelude.{◌≡◌, ◌≢◌, ◌+◌, ◌<◌, ◌≤◌, ◌++◌, true, false, map, length, IsTrue};
ghost use Rattle.std.specs.List.{Contains};
ghost use Rattle.std.specs.List.Sorted.{IsNonDecreasingBy};
ghost use Rattle.arrayvec.specs.ArrayVec.{array_vec_len};
ghost use Rattle.dsa_descriptor.specs.Pieces.{most_pieces};
ghost use Rattle.dsa_settings.specs.declared.sweep.Access.{Access};
ghost use Rattle.dsa_settings.specs.LegalFaults.{IsFencedWithin};
ghost use Rattle.dsa_settings.specs.Sweeps.{access, access_end, first_of, Clash, Covers, IsOrdered, HasSeen, HasAccesses, HasNoClash};

use crate::plan::Group;
use arrayvec::ArrayVec;
use dsa_ranges::{Piece, Span};

/// The greatest number of spans that a piece touches.
const MOST_SPANS: usize = 6;

/// Room for the spans of 1024 pieces.
pub(crate) const ROOM: usize = 6144;

/// A span that a piece reads or writes.
#[derive(Clone, Copy, Default)]
pub(crate) struct Access {
    /// Its addresses.
    pub(crate) span: Span,
    /// The number of the piece.
    pub(crate) owner: u32,
    /// Whether the piece writes it.
    pub(crate) written: bool,
}

/// How far the spans seen so far go: those of one piece, and those of all others.
#[derive(Clone, Copy)]
struct Reach {
    owner: u32,
    own_end: u128,
    other_end: u128,
}

impl Reach {
    /// The reach of no spans.
    fn new() -> Reach
        ensures { result.other_end ≤ result.own_end }
    {
        Reach {
            owner: 0,
            own_end: 0,
            other_end: 0,
        }
    }

    /// How far the spans of all pieces but this one go.
    fn beside(&self, owner: u32) -> u128
        requires { self.now.other_end ≤ self.now.own_end }
        ensures { (a : Access) → Covers self.now a → a.owner ≢ owner → access_end a ≤ result }
    {
        if owner == self.owner {
            self.other_end
        } else {
            self.own_end
        }
    }

    /// With this access, too.
    fn with(&self, access: Access) -> Reach
        requires { self.now.other_end ≤ self.now.own_end }
        ensures ordered { result.other_end ≤ result.own_end }
        ensures kept { (a : Access) → Covers self.now a → Covers result a }
        ensures added { Covers result access }
    {
        let end = access.span.end();
        if access.owner == self.owner {
            Reach {
                own_end: self.own_end.max(end),
                ..*self
            }
        } else if end > self.own_end {
            Reach {
                owner: access.owner,
                own_end: end,
                other_end: self.own_end,
            }
        } else {
            Reach {
                other_end: self.other_end.max(end),
                ..*self
            }
        }
    }
}

/// How far the spans seen so far go, and how far those of them go that are written.
#[derive(Clone, Copy)]
struct Seen {
    all: Reach,
    written: Reach,
}

impl Seen {
    /// Nothing.
    fn new() -> Seen
        ensures { IsOrdered result }
    {
        Seen {
            all: Reach::new(),
            written: Reach::new(),
        }
    }

    /// Whether the access may meet one seen so far, of another piece, if one of the two writes. Each of those begins no
    /// later. An empty span meets none.
    fn may_meet(&self, access: Access) -> bool
        requires { IsOrdered self.now }
        ensures { (a : Access) →
            result ≡ false → HasSeen self.now a → first_of a ≤ first_of access → ¬ Clash a access }
    {
        let end = if access.written {
            self.all.beside(access.owner)
        } else {
            self.written.beside(access.owner)
        };
        access.span.len > 0 && u128::from(access.span.first) < end
    }

    /// With this access, too.
    fn with(&self, access: Access) -> Seen
        requires { IsOrdered self.now }
        ensures ordered { IsOrdered result }
        ensures kept { (a : Access) → HasSeen self.now a → HasSeen result a }
        ensures added { HasSeen result access }
    {
        Seen {
            all: self.all.with(access),
            written: if access.written {
                self.written.with(access)
            } else {
                self.written
            },
        }
    }
}

/// Whether no access meets an earlier one of another piece, if one of the two writes.
fn walk(accesses: &[Access]) -> bool
    requires { IsNonDecreasingBy first_of accesses.now }
    ensures { IsTrue result → HasNoClash accesses.now }
{
    let mut seen = Seen::new();
    for access in accesses {
        if seen.may_meet(*access) {
            return false;
        }
        seen = seen.with(*access);
    }
    true
}

/// Whether no two accesses of different pieces meet, if one of the two writes. Changes the order of the accesses.
fn is_clear(accesses: &mut [Access]) -> bool
    ensures { IsTrue result → HasNoClash accesses.old }
{
    accesses.sort_unstable_by_key(|access| access.span.first);
    walk(accesses)
}

/// Appends the spans as those of the piece.
fn push_all(accesses: &mut ArrayVec<Access, ROOM>, spans: &[Span], owner: u32, written: bool)
    requires { array_vec_len accesses.old + length spans.now ≤ 6144 }
    ensures items { accesses.new.items ≡ accesses.old.items ++
        map (λ span. access span owner written) spans.now }
    ensures len { array_vec_len accesses.new ≡ array_vec_len accesses.old + length spans.now }
{
    for span in spans {
        accesses.push(Access {
            span: *span,
            owner,
            written,
        });
    }
}

/// Appends what the piece touches.
fn push_piece<P: Piece>(accesses: &mut ArrayVec<Access, ROOM>, piece: &P, owner: u32)
    requires { array_vec_len accesses.old + 6 ≤ 6144 }
    ensures kept { (a : Access) → Contains accesses.old.items a → Contains accesses.new.items a }
    ensures held { HasAccesses accesses.new.items (P.reads piece.now) (P.writes piece.now) owner }
{
    let touched = piece.touched_spans();
    push_all(accesses, touched.reads.as_slice(), owner, false);
    push_all(accesses, touched.writes.as_slice(), owner, true);
}

/// In a group that begins with piece `start`: whether a sweep sees that any two conflicting pieces have a fence
/// between. A `false` says nothing.
pub(crate) fn is_seen_fenced<P: Piece>(
    group: &Group,
    pieces: &[P],
    start: usize,
    accesses: &mut ArrayVec<Access, ROOM>,
) -> bool
    requires known { start + length group.now ≤ length pieces.now }
    requires few { length pieces.now ≤ most_pieces }
    ensures { IsTrue result → IsFencedWithin (P.conflict pieces.now) start group.now }
{
    P::conflict_as_touched();
    accesses.clear();
    for at in start..start + group.len() {
        if group.fences()[at - start] {
            if !is_clear(accesses.as_mut_slice()) {
                return false;
            }
            accesses.clear();
        }
        if accesses.remaining_capacity() < MOST_SPANS {
            return false;
        }
        push_piece(accesses, &pieces[at], at as u32);
    }
    is_clear(accesses.as_mut_slice())
}
