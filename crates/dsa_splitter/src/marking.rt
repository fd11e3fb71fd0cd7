//! The barriers of the pieces of operations.

ghost use Rattle.std.specs.Prelude.{◌≡◌, ◌-◌, ◌<◌, ◌≤◌, ◌++◌, ◌∷◌, false, replicate, map, IfOk};
ghost use Rattle.dsa_descriptor.specs.Descriptors.{fields};
ghost use Rattle.dsa_splitter.specs.Pieces.{piece_barriers};

use crate::rules::piece_count;
use dsa_descriptor::DescriptorList;
use dsa_settings::Settings;
use std::alloc::{AllocError, Global};

/// Adds the mark of a first piece, and those of the others.
fn push_marks(found: &mut Vec<bool>, mark: bool, count: u64) -> Result<(), AllocError>
    requires { 0 < count }
    ensures { IfOk result (λ _. found.new.items ≡ found.old.items ++
        (mark ∷ replicate (count - 1) false)) }
{
    found.push(mark)?;
    for _turn in 0..count - 1 {
        found.push(false)?;
    }
    Ok(())
}

/// The barriers of the pieces of the operations: the barrier before an operation is before its first piece. A list
/// without barriers takes no memory.
pub(crate) fn piece_barriers(
    alloc: Global,
    list: &DescriptorList,
    settings: &Settings,
) -> Result<Vec<bool>, AllocError>
    ensures barriers { IfOk result (λ found. found.items ≡
        piece_barriers settings.now.greatest_transfer
        (map fields list.now.descriptors.items) list.now.barriers.items) }
    ensures least { 8 ≤ settings.now.greatest_transfer }
{
    let greatest = settings.greatest_transfer();
    let mut found = Vec::new(alloc);
    let marked = list.barriers.len().min(list.descriptors.len());
    for index in 0..marked {
        push_marks(
            &mut found,
            list.barriers[index],
            piece_count(&list.descriptors[index], greatest),
        )?;
    }
    Ok(found)
}
