//! The places of groups, pieces and fences in a picture.

ghost use Rattle.std.specs.Prelude.{◌≡◌, ◌++◌, IfOk, OnOk};
ghost use Rattle.dsa_explain.specs.Cells.{cells_from, row_cells};

use dsa_plan::{Group, Plan};
use std::alloc::{AllocError, Global};

/// A piece in a picture: a box, and before it a bar if the piece is fenced.
#[derive(Clone, Copy, PartialEq, Eq)]
pub struct Cell {
    /// The number of its group, which is its row.
    pub row: usize,
    /// Its number in the group.
    pub column: usize,
    /// Whether a fence is before it.
    pub fenced: bool,
}

/// Writes the cells of a group at the end.
fn push_row(cells: &mut Vec<Cell>, row: usize, group: &Group) -> Result<(), AllocError>
    ensures { OnOk result (cells.new.items ≡ cells.old.items ++ row_cells row 0 group.now) }
{
    for (column, fenced) in group.fences().iter().enumerate() {
        cells.push(Cell {
            row,
            column,
            fenced: *fenced,
        })?;
    }
    Ok(())
}

/// The cells of a plan, one for each piece and in their order.
pub fn lay_out(alloc: Global, plan: &Plan) -> Result<Vec<Cell>, AllocError>
    ensures { IfOk result (λ cells. cells.items ≡ cells_from 0 plan.now) }
{
    let mut cells = Vec::new(alloc);
    for (row, group) in plan.groups().iter().enumerate() {
        push_row(&mut cells, row, group)?;
    }
    Ok(cells)
}
