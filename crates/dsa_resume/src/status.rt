//! What a completion record says of its piece.

ghost use Rattle.std.specs.Prelude.{◌≡◌};
ghost use Rattle.dsa_resume.specs.Ended.{ended_of, has_begun, is_open, stops};

/// How a piece has ended.
#[derive(Clone, Copy)]
pub enum Ended {
    /// It has not: its record has the status 0, as the caller has set it.
    Waiting,
    /// It has succeeded.
    Finished,
    /// It is a compare that found another result than expected: nothing after a barrier may follow it.
    Unexpected,
    /// It has failed, as by a page fault, and is to be done again.
    Failed,
    /// It has failed, and is not to be done again: nothing after a barrier may follow it.
    GivenUp,
}

impl Ended {
    /// Whether it has begun.
    pub(crate) fn has_begun(self) -> bool
        ensures { result ≡ has_begun self }
    {
        match self {
            Ended::Waiting => false,
            Ended::Finished | Ended::Unexpected | Ended::Failed | Ended::GivenUp => true,
        }
    }

    /// Whether it has not succeeded, so that the next barrier holds.
    pub(crate) fn is_open(self) -> bool
        ensures { result ≡ is_open self }
    {
        match self {
            Ended::Finished => false,
            Ended::Waiting | Ended::Unexpected | Ended::Failed | Ended::GivenUp => true,
        }
    }

    /// Whether it never succeeds, so that nothing after the next barrier may be done.
    pub(crate) fn stops(self) -> bool
        ensures { result ≡ stops self }
    {
        match self {
            Ended::Unexpected | Ended::GivenUp => true,
            Ended::Waiting | Ended::Finished | Ended::Failed => false,
        }
    }
}

/// How the piece has ended that has this completion record, and this mark of the caller: not 0 if it is not to be done
/// again after it has failed.
pub fn how_ended(completion: &[u8; 32], mark: u8) -> Ended
    ensures { result ≡ ended_of completion.now mark }
{
    match completion[0] {
        0 => Ended::Waiting,
        1 => Ended::Finished,
        2 => Ended::Unexpected,
        3..=255 => {
            if mark == 0 {
                Ended::Failed
            } else {
                Ended::GivenUp
            }
        }
    }
}
