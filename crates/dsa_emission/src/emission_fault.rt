//! Why bytes are no emission.

ghost use Rattle.std.specs.Prelude.{◌≡◌, ◌≤◌, length};
ghost use Rattle.dsa_emission.specs.declared.emission_fault.EmissionFault.TheVariants.{Memory};
ghost use Rattle.dsa_emission.specs.declared.emission_fault.EntryFault.TheVariants.{Field};
ghost use Rattle.dsa_emission.specs.Causes.{entry_number, entry_name, emission_is_memory, emission_number, emission_name, emission_indices, emission_entry};

use dsa_descriptor::{FieldFault, Indices};
use std::alloc::{AllocError, AllocFailed};
use std::fmt;

/// Why the bytes of one piece are refused.
#[derive(Clone, Copy, PartialEq, Eq)]
pub enum EntryFault {
    /// The bytes without the fence are no listed descriptor.
    Field(FieldFault),
    /// The piece is longer than `greatest_transfer`.
    OverTransfer,
    /// The PASID or the privilege of the piece isn't that of the first.
    MixedPasid,
    /// The staging area meets a range of the piece.
    StagingMeets,
}

impl EntryFault {
    /// The number of the refusal.
    pub fn number(self) -> u8
        ensures { result ≡ entry_number self }
    {
        match self {
            EntryFault::Field(fault) => fault.number(),
            EntryFault::OverTransfer => 37,
            EntryFault::MixedPasid => 12,
            EntryFault::StagingMeets => 33,
        }
    }

    /// The name of the refusal.
    pub fn name(self) -> &'static str
        ensures value { result.now ≡ entry_name self }
        ensures short { length result.now ≤ 16 }
    {
        match self {
            EntryFault::Field(fault) => fault.name(),
            EntryFault::OverTransfer => "OverTransfer",
            EntryFault::MixedPasid => "MixedPasid",
            EntryFault::StagingMeets => "StagingMeets",
        }
    }
}

impl From<FieldFault> for EntryFault {
    ghost from_gives = { λ fault entry. entry ≡ Field fault };

    fn from(fault: FieldFault) -> EntryFault {
        EntryFault::Field(fault)
    }
}

/// Why bytes are no emission. Groups, pieces and batches are numbered from 0.
#[derive(Clone, Copy, PartialEq, Eq)]
pub enum EmissionFault {
    /// The portal isn't made of entries of 64 bytes.
    PortalLength,
    /// The staging area is not as long as the entries of the batches say, or there are more than 65,536 pieces.
    StagingLength,
    /// The group's batch entry has a size that it may not have, or a byte that differs from what its place asks for.
    BatchFields(usize),
    /// The first piece of the group is fenced.
    EntryFence(usize),
    /// The piece is refused.
    Entry(usize, EntryFault),
    /// The bytes for the batch's completion record aren't all zero.
    RecordBytes(usize),
    /// There is no memory for the plan or its pieces.
    Memory,
}

impl EmissionFault {
    /// Whether an allocation failed.
    pub fn is_memory(self) -> bool
        ensures { result ≡ emission_is_memory self }
    {
        match self {
            EmissionFault::Memory => true,
            EmissionFault::PortalLength
            | EmissionFault::StagingLength
            | EmissionFault::BatchFields(_)
            | EmissionFault::EntryFence(_)
            | EmissionFault::Entry(_, _)
            | EmissionFault::RecordBytes(_) => false,
        }
    }

    /// The number of the refusal.
    pub fn number(self) -> u8
        ensures { result ≡ emission_number self }
    {
        match self {
            EmissionFault::PortalLength => 44,
            EmissionFault::BatchFields(_) => 45,
            EmissionFault::StagingLength => 46,
            EmissionFault::Entry(_, _) => 47,
            EmissionFault::EntryFence(_) => 48,
            EmissionFault::RecordBytes(_) => 49,
            EmissionFault::Memory => 73,
        }
    }

    /// The name of the refusal.
    pub fn name(self) -> &'static str
        ensures value { result.now ≡ emission_name self }
        ensures short { length result.now ≤ 16 }
    {
        match self {
            EmissionFault::PortalLength => "PortalLength",
            EmissionFault::BatchFields(_) => "BatchFields",
            EmissionFault::StagingLength => "StagingLength",
            EmissionFault::Entry(_, _) => "Entry",
            EmissionFault::EntryFence(_) => "EntryFence",
            EmissionFault::RecordBytes(_) => "RecordBytes",
            EmissionFault::Memory => "Memory",
        }
    }

    /// The indices that the refusal names.
    pub fn indices(self) -> Indices
        ensures { result ≡ emission_indices self }
    {
        match self {
            EmissionFault::BatchFields(index)
            | EmissionFault::Entry(index, _)
            | EmissionFault::EntryFence(index)
            | EmissionFault::RecordBytes(index) => Indices::One(index as u64),
            EmissionFault::PortalLength | EmissionFault::StagingLength | EmissionFault::Memory => {
                Indices::Empty
            }
        }
    }

    /// The fault of the piece that is refused, if it is one.
    pub fn entry(self) -> Option<EntryFault>
        ensures { result ≡ emission_entry self }
    {
        match self {
            EmissionFault::Entry(_, fault) => Some(fault),
            EmissionFault::PortalLength
            | EmissionFault::StagingLength
            | EmissionFault::BatchFields(_)
            | EmissionFault::EntryFence(_)
            | EmissionFault::RecordBytes(_)
            | EmissionFault::Memory => None,
        }
    }
}

/// Its name, without what it has.
impl fmt::Debug for EmissionFault {
    fn fmt<W: fmt::Write>(&self, f: &mut fmt::Formatter<W>) -> fmt::Result {
        f.write_str(self.name())
    }
}

impl From<AllocError> for EmissionFault {
    ghost from_gives = { λ _ fault. fault ≡ Memory };

    fn from(_error: AllocError) -> EmissionFault {
        EmissionFault::Memory
    }
}

impl<T: Drop> From<AllocFailed<T>> for EmissionFault {
    ghost from_gives = { λ _ fault. fault ≡ Memory };

    fn from(_error: AllocFailed<T>) -> EmissionFault {
        EmissionFault::Memory
    }
}
