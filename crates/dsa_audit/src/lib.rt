//! Which fences of a recorded batch are missing, and which are needless.
#![tactic(auto)]

mod accepted;
mod audit;
mod hazard;
mod lasts;
mod looks;
mod member;
mod missing;
mod needless;
mod outer;
mod relation;
mod repeats;

pub use accepted::Acceptance;
pub use audit::{
    Audit, Effects, accepting_frees_none, assumptions_free, audit_fences, audits_hold,
    missing_fences, needed_fences, separated_is_legal,
};
pub use hazard::{Hazards, hazard_between, hazards_between};
pub use lasts::all_lasts;
pub use member::{Member, Unseen, are_known_to_conflict};
pub use missing::{Corrected, FencePlace};
pub use needless::{FenceUse, Reduced};
pub use relation::{KnownConflicts, Relation};
pub use repeats::{Action, OrderedConflicts};
