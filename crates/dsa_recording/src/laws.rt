//! Laws of recordings.

ghost use Rattle.dsa_recording.specs.Laws.{ListedAreKnown, FenceKeysAgree, FindingsArePlaced, StatusesJoin};

/// Operations of a list are looked at, as what they read and write.
pub fn listed_are_known()
    ensures { ListedAreKnown }
{}

/// Each finding of a report on a recording is of an entry, and a missing fence has a known conflict: [`detail_of`]
/// answers of each.
///
/// [`detail_of`]: crate::detail_of
pub fn findings_are_placed()
    ensures { FindingsArePlaced }
{}

/// The key of a finding that is a missing fence is the one by which its pair of members is accepted.
pub fn fence_keys_agree()
    ensures { FenceKeysAgree }
{}

/// A recording that ends with a whole submission, and one after it, have the greater status of both: what is found in a
/// submission rests on its own entries.
pub fn statuses_join()
    ensures { StatusesJoin }
{}
