//! Why a tracker refuses a call.

ghost use Rattle.std.specs.Prelude.{◌≡◌, ◌≤◌, length};
ghost use Rattle.dsa_tracker.specs.Causes.{track_indices, track_name, track_number, words_indices, words_number};

use dsa_descriptor::Indices;

/// A refusal of a tracker. After one nothing has changed.
#[derive(Clone, Copy)]
pub enum TrackFault {
    /// All slots are outstanding: complete one first.
    NoSlot,
    /// The submission may read or write this many spans, more than the tracker keeps for one.
    TooManySpans(usize),
    /// The slot has no outstanding submission.
    NotOutstanding(u32),
    /// The submission of the slot still waits, so it can't have completed: withdraw it.
    Held(u32),
    /// The span of this index goes past 2^64.
    Wrap(usize),
    /// The piece of this index has another PASID or privilege.
    OtherOwner(usize),
    /// The groups of the plan do not have just these pieces.
    OtherPlan,
    /// The plan has this many groups, more than slots are free, or have a place in the answer.
    FewSlots(usize),
}

/// A refusal of a call over an array of words. After one nothing has changed.
#[derive(Clone, Copy)]
pub enum WordsFault {
    /// The words have not the form of a tracker, or one of these measures does not fit into them.
    NotATracker,
    /// The tracker refuses the call.
    Track(TrackFault),
}

impl WordsFault {
    /// The number of the refusal.
    pub fn number(self) -> u8
        ensures { result ≡ words_number self }
    {
        match self {
            WordsFault::NotATracker => 126,
            WordsFault::Track(fault) => fault.number(),
        }
    }

    /// The indices that the refusal names.
    pub fn indices(self) -> Indices
        ensures { result ≡ words_indices self }
    {
        match self {
            WordsFault::NotATracker => Indices::Empty,
            WordsFault::Track(fault) => fault.indices(),
        }
    }
}

impl TrackFault {
    /// The number of the refusal.
    pub fn number(self) -> u8
        ensures { result ≡ track_number self }
    {
        match self {
            TrackFault::NoSlot => 120,
            TrackFault::TooManySpans(_) => 121,
            TrackFault::NotOutstanding(_) => 122,
            TrackFault::Held(_) => 123,
            TrackFault::Wrap(_) => 124,
            TrackFault::OtherOwner(_) => 125,
            TrackFault::OtherPlan => 127,
            TrackFault::FewSlots(_) => 128,
        }
    }

    /// The name of the refusal.
    pub fn name(self) -> &'static str
        ensures value { result.now ≡ track_name self }
        ensures short { length result.now ≤ 16 }
    {
        match self {
            TrackFault::NoSlot => "NoSlot",
            TrackFault::TooManySpans(_) => "TooManySpans",
            TrackFault::NotOutstanding(_) => "NotOutstanding",
            TrackFault::Held(_) => "Held",
            TrackFault::Wrap(_) => "Wrap",
            TrackFault::OtherOwner(_) => "OtherOwner",
            TrackFault::OtherPlan => "OtherPlan",
            TrackFault::FewSlots(_) => "FewSlots",
        }
    }

    /// The indices that the refusal names.
    pub fn indices(self) -> Indices
        ensures { result ≡ track_indices self }
    {
        match self {
            TrackFault::NoSlot | TrackFault::OtherPlan => Indices::Empty,
            TrackFault::TooManySpans(index)
            | TrackFault::Wrap(index)
            | TrackFault::OtherOwner(index)
            | TrackFault::FewSlots(index) => Indices::One(index as u64),
            TrackFault::NotOutstanding(slot) | TrackFault::Held(slot) => Indices::One(u64::from(
                slot,
            )),
        }
    }
}
