//! Settings of a planner, and plans: how a list of pieces is submitted in groups, which plans are legal for it, and why
//! one is not.
#![tactic(auto)]

mod conflicts;
mod keeping;
mod laws;
mod legal;
mod numbers;
mod plan;
mod same;
mod setting;
mod settings;
mod staging;
mod sweep;

pub use conflicts::Conflicts;
pub use keeping::is_barrier;
pub use laws::{barriers_are_kept, legal_epochs_part};
pub use legal::{LegalFault, is_legal, is_legal_with};
pub use numbers::{cuts_of, epoch_numbers};
pub use plan::{Group, Plan};
pub use same::{copy_plan, same_plan};
pub use setting::{Setting, SettingsFault, are_batch_prices, outside_limits};
pub use settings::Settings;
pub use staging::STAGED_LEN;
