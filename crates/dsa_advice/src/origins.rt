//! The operation of a planned list that each piece is of.

ghost use Rattle.std.specs.Prelude.{◌≡◌, ◌++◌, IfOk, OnOk};
ghost use Rattle.dsa_advice.specs.Origins.{count_of, first_origins, origins_from};

use dsa_explain::Origin;
use dsa_operations::Operation;
use dsa_plan::Settings;
use dsa_ranges::Piece;
use std::alloc::{AllocError, Global};

/// How many pieces an operation is split into: one at each multiple of the greatest transfer.
#[tactic(auto, unfolding(dsa_image::specs::Lines::quotient_up))]
pub(crate) fn count_of(d: &Operation, settings: &Settings) -> usize
    ensures { result ≡ count_of settings.now.greatest_transfer d.now }
{
    u64::from(d.transfer_size()).div_ceil(settings.greatest_transfer()) as usize
}

/// Writes the origins of an operation's pieces.
fn push_origins(
    origins: &mut Vec<Origin>,
    operation: usize,
    pieces: usize,
) -> Result<(), AllocError>
    ensures { OnOk result (origins.new.items ≡ origins.old.items ++
        first_origins operation pieces pieces) }
{
    for piece in 0..pieces {
        origins.push(Origin {
            operation,
            piece: piece + 1,
            pieces,
        })?;
    }
    Ok(())
}

/// The operation that each piece is of.
pub(crate) fn origins_of(
    alloc: Global,
    operations: &[Operation],
    settings: &Settings,
) -> Result<Vec<Origin>, AllocError>
    ensures { IfOk result (λ origins. origins.items ≡
        origins_from settings.now.greatest_transfer 0 operations.now) }
{
    let mut origins = Vec::new(alloc);
    for (operation, d) in operations.iter().enumerate() {
        push_origins(&mut origins, operation, count_of(d, settings))?;
    }
    Ok(origins)
}
