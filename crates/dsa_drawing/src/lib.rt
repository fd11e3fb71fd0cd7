//! Pictures of plans and of audits: operations in columns, buffers in rows, and the conflict that each fence is about.
#![tactic(auto)]

mod bars;
mod drawing;
mod grid;
mod heads;
mod layout;
mod likeness;
mod names;
mod places;
mod ranges;
mod repeats;
mod rows;
mod shapes;
mod slots;
mod texts;

pub use drawing::draw;
pub use layout::{Bar, BarKind, Buffer, Column, Group, Layout, Separated, Split};
pub use names::{hazard_name, op_name};
pub use places::MOST_ROWS;
pub use slots::MOST_COLUMNS;
