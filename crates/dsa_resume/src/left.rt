//! What is left of a list of pieces.

ghost use Rattle.std.specs.Prelude.{◌≡◌, ◌++◌, IfOk, OnOk, length};
ghost use Rattle.dsa_resume.specs.Left.{is_in, left_of, those};

use crate::status::Ended;
use dsa_ranges::Piece;
use std::alloc::{AllocError, Global};

/// In which order what is left is submitted.
#[derive(Clone, Copy)]
pub enum LeftOrder {
    /// As it was listed.
    AsListed,
    /// The pieces that failed, and after them those that wait.
    FailedFirst,
}

/// A part of the pieces.
#[derive(Clone, Copy)]
enum Part {
    /// Those that failed or wait.
    Unfinished,
    /// Those that failed.
    Failed,
    /// Those that wait.
    Waiting,
}

impl Part {
    /// Whether a piece that has ended so is one of them.
    fn has(self, ended: Ended) -> bool
        ensures { result ≡ is_in self ended }
    {
        match (self, ended) {
            (Part::Unfinished, Ended::Waiting | Ended::Failed)
            | (Part::Failed, Ended::Failed)
            | (Part::Waiting, Ended::Waiting) => true,
            (Part::Failed, Ended::Waiting) | (Part::Waiting, Ended::Failed) => false,
            (
                Part::Unfinished | Part::Failed | Part::Waiting,
                Ended::Finished | Ended::Unexpected | Ended::GivenUp,
            ) => false,
        }
    }
}

/// The pieces that are left, of pieces that have ended so, in this order.
///
/// # Errors
/// An allocation failed.
pub(crate) fn left_pieces<P: Piece>(
    alloc: Global,
    pieces: &[P],
    ends: &[Ended],
    order: LeftOrder,
) -> Result<Vec<P>, AllocError>
    requires { length ends.now ≡ length pieces.now }
    ensures { IfOk result (λ rest. rest.items ≡ left_of order pieces.now ends.now) }
{
    let mut rest = Vec::new(alloc);
    match order {
        LeftOrder::AsListed => add(&mut rest, pieces, ends, Part::Unfinished)?,
        LeftOrder::FailedFirst => {
            add(&mut rest, pieces, ends, Part::Failed)?;
            add(&mut rest, pieces, ends, Part::Waiting)?;
        }
    }
    Ok(rest)
}

// Adds the pieces of the part.
fn add<P: Piece>(
    rest: &mut Vec<P>,
    pieces: &[P],
    ends: &[Ended],
    part: Part,
) -> Result<(), AllocError>
    requires { length ends.now ≡ length pieces.now }
    ensures { OnOk result (rest.new.items ≡
        rest.old.items ++ those (is_in part) pieces.now ends.now) }
{
    for (index, piece) in pieces.iter().enumerate() {
        if part.has(ends[index]) {
            rest.push(*piece)?;
        }
    }
    Ok(())
}
