//! All spans that pieces read and write, in the order of their first addresses.

ghost use Rattle.std.specs.Prelude.{◌≡◌, ◌≤◌, ◌++◌, All, length, map, IfOk, OnOk};
ghost use Rattle.std.specs.List.Sorted.{IsNonDecreasingBy};
ghost use Rattle.dsa_descriptor.specs.Pieces.{most_pieces};
ghost use Rattle.std.specs.List.{Contains};
ghost use Rattle.dsa_ranges.specs.Pieces.{reads_of, writes_of};
ghost use Rattle.dsa_conflicts.specs.declared.touches.Touch.{Touch};
ghost use Rattle.dsa_conflicts.specs.Touches.{HasKind, HasTouches, IsTouchOf, access_of, spans_of, touch};

use crate::access::Access;
use arrayvec::ArrayVec;
use dsa_descriptor::{Descriptor, record_span};
use dsa_ranges::{Span, Touched, Touching};
use std::alloc::{AllocError, Global};

/// A span that a piece reads or writes.
#[derive(Clone, Copy)]
pub(crate) struct Touch {
    pub(crate) span: Span,
    /// The index of the piece.
    pub(crate) piece: u32,
    pub(crate) access: Access,
}

/// What a span is to its piece. The spans of one kind often rise from piece to piece.
#[derive(Clone, Copy)]
pub(crate) enum Kind {
    Source,
    Record,
    Target,
}

/// What a piece does with its spans of this kind.
fn access_of(kind: Kind) -> Access
    ensures { result ≡ access_of kind }
{
    match kind {
        Kind::Source => Access::Read,
        Kind::Record => Access::Write,
        Kind::Target => Access::Write,
    }
}

/// The descriptor's spans of this kind.
fn descriptor_spans(d: &Descriptor, kind: Kind) -> ArrayVec<Span, 2>
    ensures { result.items ≡ spans_of kind (reads_of d.now) (writes_of d.now) }
{
    match kind {
        Kind::Source => d.op.sources(d.size),
        Kind::Record => {
            let mut spans = ArrayVec::new();
            spans.push(record_span(d.record_at));
            spans
        }
        Kind::Target => d.op.targets(d.size),
    }
}

/// The spans of this kind among those that a piece reads and writes: its record is the first that it writes.
fn touched_spans(touched: &Touched, kind: Kind) -> &[Span]
    ensures { result.now ≡ spans_of kind touched.now.reads.items touched.now.writes.items }
{
    let (record, targets) = touched.writes.split_at(1usize.min(touched.writes.len()));
    match kind {
        Kind::Source => touched.reads.as_slice(),
        Kind::Record => record,
        Kind::Target => targets,
    }
}

/// Appends an access of the spans by the piece.
fn push_touches(
    touches: &mut Vec<Touch>,
    spans: &[Span],
    piece: u32,
    access: Access,
) -> Result<(), AllocError>
    ensures { OnOk result (touches.new.items ≡ touches.old.items ++
        map (touch piece access) spans.now) }
{
    for span in spans {
        touches.push(Touch {
            span: *span,
            piece,
            access,
        })?;
    }
    Ok(())
}

/// A way to find what a piece touches of each kind.
pub(crate) trait Finding<T: Touching> {
    /// Appends what the piece with this index touches of this kind.
    fn push_spans(
        touches: &mut Vec<Touch>,
        piece: &T,
        index: u32,
        kind: Kind,
    ) -> Result<(), AllocError>
        ensures { OnOk result (touches.new.items ≡ touches.old.items ++
            map (touch index (access_of kind))
            (spans_of kind (T.reads piece.now) (T.writes piece.now))) };
}

/// Finds those of a descriptor without what it touches of other kinds.
pub(crate) struct ByKind;

/// Finds those of any piece among all that it touches.
pub(crate) struct AmongAll;

impl Finding<Descriptor> for ByKind {
    #[inline(always)]
    fn push_spans(
        touches: &mut Vec<Touch>,
        piece: &Descriptor,
        index: u32,
        kind: Kind,
    ) -> Result<(), AllocError> {
        let spans = descriptor_spans(piece, kind);
        push_touches(touches, &spans, index, access_of(kind))
    }
}

impl<T: Touching> Finding<T> for AmongAll {
    fn push_spans(
        touches: &mut Vec<Touch>,
        piece: &T,
        index: u32,
        kind: Kind,
    ) -> Result<(), AllocError> {
        let touched = piece.touched_spans();
        push_touches(
            touches,
            touched_spans(&touched, kind),
            index,
            access_of(kind),
        )
    }
}

/// Appends what the pieces touch of this kind.
fn push_kind<T: Touching, F: Finding<T>>(
    touches: &mut Vec<Touch>,
    pieces: &[T],
    kind: Kind,
) -> Result<(), AllocError>
    requires few { length pieces.now ≤ most_pieces }
    requires known { All (IsTouchOf T.reads T.writes pieces.now) touches.old.items }
    ensures known { OnOk result (All (IsTouchOf T.reads T.writes pieces.now) touches.new.items) }
    ensures kept { OnOk result
        ((t : Touch) → Contains touches.old.items t → Contains touches.new.items t) }
    ensures all { OnOk result
        (HasKind T.reads T.writes kind touches.new.items pieces.now (length pieces.now)) }
{
    for piece in 0..pieces.len() {
        F::push_spans(touches, &pieces[piece], piece as u32, kind)?;
    }
    Ok(())
}

/// What the pieces touch, in the order of first addresses.
pub(crate) fn touches_of<T: Touching, F: Finding<T>>(
    alloc: Global,
    pieces: &[T],
) -> Result<Vec<Touch>, AllocError>
    requires { length pieces.now ≤ most_pieces }
    ensures sorted { IfOk result (λ touches. IsNonDecreasingBy (λ t. t.span.first) touches.items) }
    ensures known { IfOk result
        (λ touches. All (IsTouchOf T.reads T.writes pieces.now) touches.items) }
    ensures all { IfOk result
        (λ touches. HasTouches T.reads T.writes touches.items pieces.now (length pieces.now)) }
{
    // Most pieces touch three spans. Each kind has a run of its own, since a stable sort merges runs.
    let mut touches = Vec::with_capacity(alloc, 3 * pieces.len())?;
    push_kind::<T, F>(&mut touches, pieces, Kind::Source)?;
    push_kind::<T, F>(&mut touches, pieces, Kind::Target)?;
    touches.sort_by_key(|touch| touch.span.first)?;
    // Most records rise after all data: then the second sort sees that nothing has to move.
    push_kind::<T, F>(&mut touches, pieces, Kind::Record)?;
    touches.sort_by_key(|touch| touch.span.first)?;
    Ok(touches)
}
