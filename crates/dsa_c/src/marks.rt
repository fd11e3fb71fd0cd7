//! A plan as one byte for each piece, its mark: whether the piece begins a group, and whether it is fenced.

ghost use Rattle.std.specs.Prelude.{◌≡◌, ◌++◌, IfOk};
ghost use Rattle.dsa_c.specs.Marks.{mark, group_marks, marks_of, begins_group, is_fenced, plan_of};

use dsa_plan::{Group, Plan};
use std::alloc::{AllocError, Global};

/// The mark of a piece that begins a group.
const BEGINS: u8 = 1;
/// The mark of a piece that is fenced.
const FENCED: u8 = 2;

/// The mark of a piece.
fn mark(begins: bool, fenced: bool) -> u8
    ensures { result ≡ mark begins fenced }
{
    let first = if begins { BEGINS } else { 0 };
    let second = if fenced { FENCED } else { 0 };
    first + second
}

/// The piece of this mark begins a group.
fn begins_group(mark: u8) -> bool
    ensures { result ≡ begins_group mark }
{
    mark % 2 == 1
}

/// The piece of this mark is fenced.
fn is_fenced(mark: u8) -> bool
    ensures { result ≡ is_fenced mark }
{
    mark / 2 % 2 == 1
}

/// Adds the marks of the pieces of a group.
fn push_group(marks: &mut Vec<u8>, group: &[bool]) -> Result<(), AllocError>
    ensures { IfOk result (λ _. marks.new.items ≡ marks.old.items ++ group_marks group.now) }
{
    if let [first, rest @ ..] = group {
        marks.push(mark(true, *first))?;
        for fenced in rest {
            marks.push(mark(false, *fenced))?;
        }
    }
    Ok(())
}

/// The marks of the plan's pieces, in order: [`BEGINS`] if a piece begins a group, plus [`FENCED`] if it is fenced.
pub(crate) fn marks_of(alloc: Global, plan: &Plan) -> Result<Vec<u8>, AllocError>
    ensures { IfOk result (λ marks. marks.items ≡ marks_of plan.now) }
{
    let mut marks = Vec::new(alloc);
    for group in plan.groups() {
        push_group(&mut marks, group.fences())?;
    }
    Ok(marks)
}

/// The plan that these marks spell. The first piece begins a group, whatever its mark; only the bits [`BEGINS`] and
/// [`FENCED`] of a mark count.
pub(crate) fn plan_of(alloc: Global, marks: &[u8]) -> Result<Plan, AllocError>
    ensures { IfOk result (λ plan. plan ≡ plan_of marks.now) }
{
    let mut groups = Vec::new(alloc);
    let mut group = Vec::new(alloc);
    for mark in marks {
        if begins_group(*mark) && !group.is_empty() {
            groups.push(Group::new(group))?;
            group = Vec::new(alloc);
        }
        group.push(is_fenced(*mark))?;
    }
    if !group.is_empty() {
        groups.push(Group::new(group))?;
    }
    Ok(Plan::new(groups))
}
