//! What a plan does and why: what each group costs, which conflict each fence separates, and the places of groups,
//! pieces and fences in a picture.
#![tactic(auto)]

mod cells;
mod document;
mod explanation;
mod labels;
mod laws;
mod listing;
mod picture;
mod runs;
mod waits;
mod words;

pub use cells::{Cell, lay_out};
pub use document::explanation_line;
pub use dsa_descriptor::MOST_PIECES;
pub use dsa_drawing::{Buffer, MOST_ROWS};
pub use dsa_plan::{Costs, GroupCost, plan_costs};
pub use dsa_reasons::{Detail, Fence, Reason, each_fence_once, fences_of, kind_text};
pub use explanation::{ExplainFault, Explanation, explain, explain_legal};
pub use labels::{Labels, Origin};
pub use laws::{cells_are_pieces_and_fences, group_costs_add_up, least_plans_save};
pub use listing::explanation_text;
pub use picture::{PieceRange, View, draw};
pub use waits::{Waits, WaitsFault, group_waits, waits_text};
