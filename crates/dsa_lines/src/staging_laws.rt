//! Laws of the texts of staging areas. Each function is a law: its body is empty, and its clause is what the proof
//! shows.

ghost use Rattle.dsa_lines.specs.ReadAgain.{StagingTextIsRead, StagingTextIsRecorded};
ghost use Rattle.dsa_lines.specs.Stagings.{OneStagingShown, OneStagingText};

/// The entries and records of a staging area are determined, so it has one text at each address.
#[tactic(auto, using(crate::proofs::StagingLemmas::one_staging))]
pub fn one_staging_shown()
    ensures { OneStagingShown }
{}

/// At one address, staging areas with the same text have the same entries and records, and so the same bytes.
#[tactic(auto, using(crate::proofs::StagingTexts::one_staging_text))]
pub fn one_staging_text()
    ensures { OneStagingText }
{}

/// The text of a staging area is read back as its pieces, if each entry is a piece and each record can be one.
#[tactic(auto, using(crate::proofs::ReadAgain::staging_is_read))]
pub fn staging_text_is_read()
    ensures { StagingTextIsRead }
{}

/// Read as a recording, the text of a staging area spells the bytes of its pieces, if each entry is a piece and each
/// record can be one.
pub fn staging_text_is_recorded()
    ensures { StagingTextIsRecorded }
{}
