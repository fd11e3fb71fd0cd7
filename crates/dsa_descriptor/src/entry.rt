//! What may be an entry of a list.

ghost use Rattle.std.specs.Prelude.{◌≡◌, ◌↔◌, ℕ, List, IfErr, IfOk, IsTrue};
ghost use Rattle.dsa_descriptor.specs.declared.fault.FieldFault.{FieldFault};
ghost use Rattle.dsa_descriptor.specs.Descriptors.{fields};
ghost use Rattle.dsa_descriptor.specs.Faults.{IsFirstBreach, Keeps};
ghost use Rattle.dsa_descriptor.specs.Lists.{AreEntries};
ghost use Rattle.dsa_descriptor.specs.Spelling.{spelling};

use crate::descriptor::Descriptor;
use crate::equality::same_descriptor;
use crate::fault::FieldFault;

/// What 64 bytes of a list may spell.
pub trait Entry: Copy {
    /// The 64 bytes that spell it, without a fence.
    ghost spelling: { Self → List ℕ };

    /// The bytes keep the rule whose breach the fault is.
    ghost keeps: { List ℕ → FieldFault → Type 0 };

    /// The spelling and the rules fit each other.
    fn are_entries()
        ensures { AreEntries spelling keeps };

    /// What the bytes spell.
    ///
    /// # Errors
    /// The first fault of the bytes, in the order of [`FieldFault`]'s numbers.
    fn read_entry(bytes: &[u8; 64]) -> Result<Self, FieldFault>
        ensures found { IfOk result (λ entry. bytes.now ≡ spelling entry) }
        ensures fault { IfErr result (IsFirstBreach keeps bytes.now) };

    /// The bytes that spell it.
    fn write_entry(&self) -> [u8; 64]
        ensures { result ≡ spelling self.now };

    /// Whether the two are equal.
    fn is_same(&self, other: &Self) -> bool
        ensures { IsTrue result ↔ (self.now ≡ other.now) };
}

impl Entry for Descriptor {
    ghost spelling = { λ d. spelling (fields d) };

    ghost keeps = { Keeps };

    fn are_entries() {}

    #[inline(always)]
    fn read_entry(bytes: &[u8; 64]) -> Result<Self, FieldFault> {
        Descriptor::read(bytes)
    }

    #[inline(always)]
    fn write_entry(&self) -> [u8; 64] {
        self.write()
    }

    #[inline(always)]
    #[tactic(auto, using(crate::proofs::Same::same_descriptor))]
    fn is_same(&self, other: &Self) -> bool {
        same_descriptor(self, other)
    }
}
