//! The bytes that submit a plan, written and read back.
#![tactic(auto)]

mod demands;
mod emission;
mod emission_fault;
mod laws;
mod place;
mod portal;
mod reading;

pub use emission::{Emission, emit, emit_entries};
pub use emission_fault::{EmissionFault, EntryFault};
pub use laws::{emission_at_places, one_emission};
pub use reading::{read_emission, read_submitted};
