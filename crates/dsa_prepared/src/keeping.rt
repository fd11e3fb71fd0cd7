//! Laws of relocation. Each function is a law: its body is empty, and its clause is what the proof shows.

ghost use Rattle.dsa_prepared.specs.Relocation.{MeetingSpansStay, ConflictsStay, PlacesStay, ChoiceStays, RegionsAreOneToOne, RegionsKeepOffsets, PiecesRelocate, PiecesLie};
ghost use Rattle.std.specs.Prelude.{◌≡◌, map};
ghost use Rattle.std.specs.List.{AllByRecursion};
ghost use Rattle.dsa_prepared.specs.Relocated.{relocated_fields};
ghost use Rattle.dsa_prepared.specs.Regions.{relocated};
ghost use Rattle.dsa_prepared.specs.Samples.{sample_regions, sample_settings, sample_staging, sample_list, relocated_sample};
ghost use Rattle.dsa_prepared.specs.Submissions.{MayRelocate, SubmissionRelocates};
ghost use Rattle.dsa_prepared.specs.Listed.{IsAlignedAt, ListedRelocates, PlansRelocate};

/// Two spans that each lie in one region meet exactly if their relocated spans do.
pub fn meeting_spans_stay()
    ensures { MeetingSpansStay }
{}

/// Two descriptors conflict exactly if the relocated ones do, by themselves and by their places in a list.
pub fn conflicts_stay()
    ensures two { ConflictsStay }
    ensures places { PlacesStay }
{}

/// The chosen plan, its prices and its pairs are those of the relocated pieces.
pub fn choice_stays()
    ensures { ChoiceStays }
{}

/// Disjoint regions relocate no two of their addresses to the same address.
pub fn regions_are_one_to_one()
    ensures { RegionsAreOneToOne }
{}

/// Each address of a span that lies in one such region keeps its offset in the span.
pub fn regions_keep_offsets()
    ensures { RegionsKeepOffsets }
{}

/// The pieces of relocated operations are their relocated pieces.
pub fn pieces_relocate()
    ensures { PiecesRelocate }
{}

/// The submission of relocated operations and their barriers: the same plan, certificate and cost, and the emission of
/// the relocated pieces.
pub fn submission_relocates()
    ensures { SubmissionRelocates }
{}

/// A listed descriptor is listed after relocation, if it is aligned there.
pub fn listed_relocates()
    ensures { ListedRelocates }
{}

/// Planning the relocated list, with its fences, answers the relocated submission.
pub fn plans_relocate()
    ensures { PlansRelocate }
{}

/// Each span of a piece lies in one region, if those of its operation do.
pub fn pieces_lie()
    ensures { PiecesLie }
{}

/// The premises of the laws can hold: they do for a computed sample, a move in two pieces on three regions.
pub fn samples_relocate()
    ensures may { MayRelocate sample_regions sample_staging sample_settings sample_list }
    ensures aligned { AllByRecursion (IsAlignedAt (relocated sample_regions)) sample_list }
    ensures list { map (relocated_fields (relocated sample_regions)) sample_list ≡
        relocated_sample }
{}
