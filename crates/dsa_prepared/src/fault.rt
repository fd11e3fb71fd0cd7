//! Why a list is not prepared, and why a prepared submission is not filled.

ghost use Rattle.std.specs.Prelude.{◌≡◌, ◌≤◌, length};
ghost use Rattle.dsa_prepared.specs.Causes.{prepare_number, prepare_name, prepare_indices, fill_number, fill_name, fill_indices};

use dsa_calls::PlanFault;
use dsa_descriptor::Indices;
use std::fmt;

/// Why a list is not prepared. Regions and operations are numbered from 0.
#[derive(Clone, Copy, PartialEq, Eq)]
pub enum PrepareFault {
    /// Planning refuses the list, or an allocation failed.
    Plan(PlanFault),
    /// The region goes past 2^64.
    RegionWrap(usize),
    /// The region begins before the one before it has ended: they overlap, or are out of order.
    RegionOrder(usize),
    /// A range of the operation, or the row of its records, does not lie in one region.
    Outside(usize),
}

impl PrepareFault {
    /// The number of the refusal.
    pub fn number(self) -> u64
        ensures { result ≡ prepare_number self }
    {
        match self {
            PrepareFault::Plan(fault) => fault.number(),
            PrepareFault::RegionWrap(_) => 100,
            PrepareFault::RegionOrder(_) => 101,
            PrepareFault::Outside(_) => 102,
        }
    }

    /// The name of the refusal.
    pub fn name(self) -> &'static str
        ensures value { result.now ≡ prepare_name self }
        ensures short { length result.now ≤ 16 }
    {
        match self {
            PrepareFault::Plan(fault) => fault.name(),
            PrepareFault::RegionWrap(_) => "RegionWrap",
            PrepareFault::RegionOrder(_) => "RegionOrder",
            PrepareFault::Outside(_) => "Outside",
        }
    }

    /// The indices that the refusal names.
    pub fn indices(self) -> Indices
        ensures { result ≡ prepare_indices self }
    {
        match self {
            PrepareFault::Plan(fault) => fault.indices(),
            PrepareFault::RegionWrap(index)
            | PrepareFault::RegionOrder(index)
            | PrepareFault::Outside(index) => Indices::One(index as u64),
        }
    }
}

/// Its name, without what it has.
impl fmt::Debug for PrepareFault {
    fn fmt<W: fmt::Write>(&self, f: &mut fmt::Formatter<W>) -> fmt::Result {
        f.write_str(self.name())
    }
}

/// Why a prepared submission is not filled. Regions are numbered from 0.
#[derive(Clone, Copy, PartialEq, Eq)]
pub enum FillFault {
    /// There are not as many bases as regions.
    Bases,
    /// A buffer is too small for the bytes.
    Room,
    /// At its new base, the region goes past 2^64.
    RegionWrap(usize),
    /// A completion record or a delta's destination in the region would not be aligned.
    Misaligned(usize),
    /// The destinations of a dualcast, in these regions, would differ in their low 12 bits.
    DualcastBits(usize, usize),
    /// At their new bases, the region and this earlier one have an address in common.
    RegionsMeet(usize, usize),
    /// At its new base, the region has an address in the staging area.
    StagingMeets(usize),
    /// The staging address is no multiple of 64, or greater than 2^63.
    Staging,
}

impl FillFault {
    /// The number of the refusal.
    pub fn number(self) -> u64
        ensures { result ≡ fill_number self }
    {
        match self {
            FillFault::Bases => 103,
            FillFault::Room => 104,
            FillFault::RegionWrap(_) => 105,
            FillFault::Misaligned(_) => 106,
            FillFault::DualcastBits(_, _) => 107,
            FillFault::RegionsMeet(_, _) => 108,
            FillFault::StagingMeets(_) => 109,
            FillFault::Staging => 110,
        }
    }

    /// The name of the refusal.
    pub fn name(self) -> &'static str
        ensures value { result.now ≡ fill_name self }
        ensures short { length result.now ≤ 16 }
    {
        match self {
            FillFault::Bases => "Bases",
            FillFault::Room => "Room",
            FillFault::RegionWrap(_) => "RegionWrap",
            FillFault::Misaligned(_) => "Misaligned",
            FillFault::DualcastBits(_, _) => "DualcastBits",
            FillFault::RegionsMeet(_, _) => "RegionsMeet",
            FillFault::StagingMeets(_) => "StagingMeets",
            FillFault::Staging => "Staging",
        }
    }

    /// The regions that the refusal names.
    pub fn indices(self) -> Indices
        ensures { result ≡ fill_indices self }
    {
        match self {
            FillFault::RegionWrap(region)
            | FillFault::Misaligned(region)
            | FillFault::StagingMeets(region) => Indices::One(region as u64),
            FillFault::DualcastBits(region, other) | FillFault::RegionsMeet(region, other) => {
                Indices::Two(region as u64, other as u64)
            }
            FillFault::Bases | FillFault::Room | FillFault::Staging => Indices::Empty,
        }
    }
}

/// Its name, without what it has.
impl fmt::Debug for FillFault {
    fn fmt<W: fmt::Write>(&self, f: &mut fmt::Formatter<W>) -> fmt::Result {
        f.write_str(self.name())
    }
}
