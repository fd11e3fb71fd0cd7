//! Laws of emissions. Each function is a law: its body is empty, and its clause is what the
//! proof shows.

ghost use Rattle.dsa_emission.specs.EmissionLaws.{OneEmission, EmissionStandsAtPlaces};

/// The emitted bytes determine the plan and the pieces: no other plan and pieces have these bytes.
#[tactic(auto, using(crate::proofs::Told::one_emission))]
pub fn one_emission()
    ensures { OneEmission }
{}

/// Bytes are the emission of a plan and its pieces exactly if each entry is that of its place.
pub fn emission_at_places()
    ensures { EmissionStandsAtPlaces }
{}
