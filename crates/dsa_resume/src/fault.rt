//! Why nothing is said of what is left.

ghost use Rattle.std.specs.Prelude.{◌≡◌, ◌≤◌, length};
ghost use Rattle.dsa_resume.specs.Causes.{resume_number, resume_name, resume_indices};

use dsa_calls::PlanFault;
use dsa_descriptor::Indices;

/// Why a list is not resumed.
#[derive(Clone, Copy)]
pub enum ResumeFault {
    /// Planning refuses the list, or an allocation failed.
    Plan(PlanFault),
    /// There are not 32 bytes of records for each piece.
    Records,
    /// One of these two pieces writes into the completion record of the other.
    SharedRecord(usize, usize),
    /// This piece is given up, but has not failed, or there is no such piece.
    NotFailed(usize),
    /// The second piece has begun, though a barrier is between, and the first has not succeeded.
    PassedBarrier(usize, usize),
}

impl ResumeFault {
    /// The number of the refusal.
    pub fn number(self) -> u64
        ensures { result ≡ resume_number self }
    {
        match self {
            ResumeFault::Plan(fault) => fault.number(),
            ResumeFault::Records => 112,
            ResumeFault::SharedRecord(_, _) => 113,
            ResumeFault::NotFailed(_) => 114,
            ResumeFault::PassedBarrier(_, _) => 115,
        }
    }

    /// The name of the refusal.
    pub fn name(self) -> &'static str
        ensures value { result.now ≡ resume_name self }
        ensures short { length result.now ≤ 16 }
    {
        match self {
            ResumeFault::Plan(fault) => fault.name(),
            ResumeFault::Records => "Records",
            ResumeFault::SharedRecord(_, _) => "SharedRecord",
            ResumeFault::NotFailed(_) => "NotFailed",
            ResumeFault::PassedBarrier(_, _) => "PassedBarrier",
        }
    }

    /// The indices that the refusal names.
    pub fn indices(self) -> Indices
        ensures { result ≡ resume_indices self }
    {
        match self {
            ResumeFault::Plan(fault) => fault.indices(),
            ResumeFault::Records => Indices::Empty,
            ResumeFault::NotFailed(i) => Indices::One(i as u64),
            ResumeFault::SharedRecord(i, j) | ResumeFault::PassedBarrier(i, j) => {
                Indices::Two(i as u64, j as u64)
            }
        }
    }
}
