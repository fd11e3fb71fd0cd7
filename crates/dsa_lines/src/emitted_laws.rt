//! A law of the texts of what the planner submits: its body is empty, and its clauses are what the proof shows.

ghost use Rattle.dsa_lines.specs.EmittedTexts.{DescriptorsHaveTexts, EmissionsHaveTexts};

/// The bytes that submit a plan are a portal with no unknown entry, and a staging area, so both have a text.
#[tactic(auto, using(crate::proofs::EmittedTexts::emissions_have_texts, crate::proofs::EmittedTexts::descriptors_have_texts))]
pub fn emissions_have_texts()
    ensures operations { EmissionsHaveTexts }
    ensures descriptors { DescriptorsHaveTexts }
{}
