//! What a warning may be about.

ghost use Rattle.std.specs.Prelude.{◌≡◌, Option, Some};
ghost use Rattle.std.specs.Option.{option_copied};
ghost use Rattle.dsa_descriptor.specs.declared.descriptor.Descriptor.{Descriptor};

use dsa_descriptor::Descriptor;
use dsa_operations::Operation;
use dsa_ranges::Piece;

/// A piece of a plan that warnings may be about.
pub trait Concerned: Piece {
    /// The piece as one of the operations of a descriptor, if it is one.
    ghost descriptor: { Self → Option Descriptor };

    /// The piece as one of the operations of a descriptor, if it is one.
    fn descriptor(&self) -> Option<&Descriptor>
        ensures { option_copied result ≡ descriptor self.now };
}

impl Concerned for Descriptor {
    ghost descriptor = { λ d. Some d };

    fn descriptor(&self) -> Option<&Descriptor> {
        Some(self)
    }
}

impl Concerned for Operation {
    ghost use Rattle.dsa_warnings.specs.Concerned.{descriptor_of};

    ghost descriptor = { descriptor_of };

    fn descriptor(&self) -> Option<&Descriptor> {
        match self {
            Operation::Descriptor(descriptor) => Some(descriptor),
            Operation::Checksum(_) => None,
        }
    }
}
