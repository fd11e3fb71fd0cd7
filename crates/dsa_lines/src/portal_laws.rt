//! Laws of the texts of portals. Each function is a law: its body is empty, and its clause is what the proof shows.

ghost use Rattle.dsa_lines.specs.Portals.{OnePortalShown, OnePortalText};
ghost use Rattle.dsa_lines.specs.ReadAgain.{PortalTextIsRead, PortalTextIsRecorded};

/// What a portal submits is determined, so it has one text.
#[tactic(auto, using(crate::proofs::PortalLemmas::one_portal))]
pub fn one_portal_shown()
    ensures { OnePortalShown }
{}

/// Portals with the same text submit the same: batches of the same sizes and addresses, the same operations and other
/// bytes.
#[tactic(auto, using(crate::proofs::PortalLemmas::one_text))]
pub fn one_portal_text()
    ensures { OnePortalText }
{}

/// The text of a portal is read back as its lone operations, if each entry is a batch or an operation.
#[tactic(auto, using(crate::proofs::ReadAgain::portal_is_read))]
pub fn portal_text_is_read()
    ensures { PortalTextIsRead }
{}

/// Read as a recording, the text of a portal says its batches and its lone operations, if each entry is one of these.
#[tactic(auto, using(crate::proofs::RecordedAgain::portal_is_recorded))]
pub fn portal_text_is_recorded()
    ensures { PortalTextIsRecorded }
{}
