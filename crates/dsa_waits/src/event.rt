//! What happened to submissions.

ghost use Rattle.std.specs.Prelude.{◌≡◌};
ghost use Rattle.dsa_waits.specs.Waits.{ended_by, failed_by, watched_by};
ghost use Rattle.dsa_waits.specs.Steps.{Marks};

/// A queue, by the names of Linux: `wq0.1` is queue 1 of device 0.
#[derive(Clone, Copy, Default)]
pub struct Queue {
    /// The number of its device.
    pub device: u64,
    /// Its number there.
    pub number: u64,
}

/// An event in the life of submissions, which are numbered from 0 in the order in which they were made.
#[derive(Clone, Copy, PartialEq, Eq)]
pub enum Event {
    /// The next submission is made.
    Submitted,
    /// It is seen whether the program looks at the completion record of this submission.
    Watched(usize),
    /// The member of the submission has ended: first the submission, then the member.
    MemberEnded(usize, usize),
    /// The submission has ended, with this status.
    Ended(usize, u64),
    /// The program has looked at the record of the submission.
    Known(usize),
}

impl Event {
    /// The submission whose record is watched from now on.
    pub(crate) fn watched_number(self) -> Option<usize>
        ensures { result ≡ watched_by self }
    {
        match self {
            Event::Watched(number) => Some(number),
            Event::Submitted | Event::MemberEnded(_, _) | Event::Ended(_, _) | Event::Known(_) =>
                None,
        }
    }

    /// The submission that has ended.
    pub(crate) fn ended_number(self) -> Option<usize>
        ensures { result ≡ ended_by self }
    {
        match self {
            Event::Ended(number, _) => Some(number),
            Event::Submitted | Event::Watched(_) | Event::MemberEnded(_, _) | Event::Known(_) =>
                None,
        }
    }

    /// The submission that has ended with an error.
    pub(crate) fn failed_number(self) -> Option<usize>
        ensures { result ≡ failed_by self }
    {
        match self {
            Event::Ended(number, status) => { if status == 1 { None } else { Some(number) } }
            Event::Submitted | Event::Watched(_) | Event::MemberEnded(_, _) | Event::Known(_) =>
                None,
        }
    }
}

/// Sets the flag of a submission, if there is one.
pub(crate) fn mark(flags: &mut Vec<bool>, number: Option<usize>)
    ensures { Marks number flags.old.items flags.new.items }
{
    if let Some(number) = number {
        if number < flags.len() {
            flags[number] = true;
        }
    }
}
