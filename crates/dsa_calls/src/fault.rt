//! Why a call or a job is refused.

ghost use Rattle.std.specs.Prelude.{◌≡◌, ◌≤◌, length};
ghost use Rattle.dsa_calls.specs.declared.fault.PlanFault.TheVariants.{Memory, Settings, Legal, Check};
ghost use Rattle.dsa_calls.specs.Fault.{fault_number, fault_name, fault_indices, fault_inner, inner_number, inner_name, inner_indices, list_cause, split_cause, emission_cause, core_cause, room_cause};

use dsa_checker::CheckFault;
use dsa_core::CoreFault;
use dsa_descriptor::{Indices, ListFault};
use dsa_engines::RoomFault;
use dsa_plan::{EmissionFault, EntryFault, LegalFault, SettingsFault};
use dsa_splitter::SplitFault;
use std::alloc::AllocError;
use std::fmt;

/// Why a call or a job is refused. Each cause that a crate below finds is a value of that crate's
/// type, which has its number, its name and its indices. Descriptors, pieces, groups, batches and
/// events are numbered from 0.
///
/// Out of memory is a single cause: `From` makes each crate's own `Memory` a [`PlanFault::Memory`],
/// and no call returns another. (`PlanFault::List(ListFault::Memory)` and the like, which only a
/// caller can write, have the same number, name and line.)
#[derive(Clone, Copy, PartialEq, Eq)]
pub enum PlanFault {
    /// The bytes are no list of descriptors.
    List(ListFault),
    /// The operations of the list can't be split into pieces, or there are too many pieces.
    Split(SplitFault),
    /// The bytes are no emission.
    Emission(EmissionFault),
    /// The events are no complete run, or a run would have too many.
    Core(CoreFault),
    /// The engines broke off.
    Room(RoomFault),
    /// The plan is not legal.
    Legal(LegalFault),
    /// The certificate does not prove that the plan is legal and least.
    Check(CheckFault),
    /// The image lacks an address that the piece of this index reads or writes.
    OutOfImage(usize),
    /// The image has more than 16 MiB, or its last address is no 64-bit number.
    ImageSize,
    /// The descriptor of this index is longer than the greatest transfer.
    OverTransfer(usize),
    /// The value is no certificate's document.
    Shape,
    /// An allocation, or the start of a thread, failed.
    Memory,
    /// The text is no JSON.
    Json,
    /// The text is no object, or its members aren't those of the job, each of its kind.
    Member,
    /// The value of `do` is not the name of a job.
    Do,
    /// A setting is outside its limits.
    Settings,
    /// A byte field is not hexadecimal text of even length.
    Hex,
    /// There are not 1 to 64 engines.
    Engines,
    /// The text is longer than a job may be.
    JobTooLong,
}

/// The cause within a refusal, if a piece or a plan within is refused.
#[derive(Clone, Copy)]
pub enum InnerFault {
    /// The piece of an emission is refused.
    Entry(EntryFault),
    /// The plan that a certificate is for is not legal.
    Legal(LegalFault),
}

impl InnerFault {
    /// The number of the cause.
    pub fn number(self) -> u8
        ensures { result ≡ inner_number self }
    {
        match self {
            InnerFault::Entry(fault) => fault.number(),
            InnerFault::Legal(fault) => fault.number(),
        }
    }

    /// The name of the cause.
    pub fn name(self) -> &'static str
        ensures value { result.now ≡ inner_name self }
        ensures short { length result.now ≤ 16 }
    {
        match self {
            InnerFault::Entry(fault) => fault.name(),
            InnerFault::Legal(fault) => fault.name(),
        }
    }

    /// The indices that it names.
    pub fn indices(self) -> Indices
        ensures { result ≡ inner_indices self }
    {
        match self {
            InnerFault::Entry(_) => Indices::Empty,
            InnerFault::Legal(fault) => fault.indices(),
        }
    }
}

impl From<ListFault> for PlanFault {
    ghost from_gives = { λ cause fault. fault ≡ list_cause cause };

    fn from(cause: ListFault) -> PlanFault {
        if cause.is_memory() {
            PlanFault::Memory
        } else {
            PlanFault::List(cause)
        }
    }
}

impl From<SplitFault> for PlanFault {
    ghost from_gives = { λ cause fault. fault ≡ split_cause cause };

    fn from(cause: SplitFault) -> PlanFault {
        if cause.is_memory() {
            PlanFault::Memory
        } else {
            PlanFault::Split(cause)
        }
    }
}

impl From<EmissionFault> for PlanFault {
    ghost from_gives = { λ cause fault. fault ≡ emission_cause cause };

    fn from(cause: EmissionFault) -> PlanFault {
        if cause.is_memory() {
            PlanFault::Memory
        } else {
            PlanFault::Emission(cause)
        }
    }
}

impl From<CoreFault> for PlanFault {
    ghost from_gives = { λ cause fault. fault ≡ core_cause cause };

    fn from(cause: CoreFault) -> PlanFault {
        if cause.is_memory() {
            PlanFault::Memory
        } else {
            PlanFault::Core(cause)
        }
    }
}

impl From<RoomFault> for PlanFault {
    ghost from_gives = { λ cause fault. fault ≡ room_cause cause };

    fn from(cause: RoomFault) -> PlanFault {
        if cause.is_memory() {
            PlanFault::Memory
        } else {
            PlanFault::Room(cause)
        }
    }
}

impl From<CheckFault> for PlanFault {
    ghost from_gives = { λ cause fault. fault ≡ Check cause };

    fn from(cause: CheckFault) -> PlanFault {
        PlanFault::Check(cause)
    }
}

impl From<LegalFault> for PlanFault {
    ghost from_gives = { λ cause fault. fault ≡ Legal cause };

    fn from(cause: LegalFault) -> PlanFault {
        PlanFault::Legal(cause)
    }
}

impl From<SettingsFault> for PlanFault {
    ghost from_gives = { λ _ fault. fault ≡ Settings };

    fn from(_cause: SettingsFault) -> PlanFault {
        PlanFault::Settings
    }
}

impl From<AllocError> for PlanFault {
    ghost from_gives = { λ _ fault. fault ≡ Memory };

    fn from(_cause: AllocError) -> PlanFault {
        PlanFault::Memory
    }
}

impl PlanFault {
    /// The number of the cause.
    pub fn number(self) -> u64
        ensures { result ≡ fault_number self }
    {
        match self {
            PlanFault::List(fault) => u64::from(fault.number()),
            PlanFault::Split(fault) => u64::from(fault.number()),
            PlanFault::Emission(fault) => u64::from(fault.number()),
            PlanFault::Core(fault) => u64::from(fault.number()),
            PlanFault::Room(fault) => u64::from(fault.number()),
            PlanFault::Legal(fault) => u64::from(fault.number()),
            PlanFault::Check(fault) => u64::from(fault.number()),
            PlanFault::OutOfImage(_) => 20,
            PlanFault::ImageSize => 21,
            PlanFault::OverTransfer(_) => 37,
            PlanFault::Shape => 50,
            PlanFault::Memory => 73,
            PlanFault::Json => 80,
            PlanFault::Member => 81,
            PlanFault::Do => 82,
            PlanFault::Settings => 83,
            PlanFault::Hex => 84,
            PlanFault::Engines => 85,
            PlanFault::JobTooLong => 86,
        }
    }

    /// The name of the cause.
    pub fn name(self) -> &'static str
        ensures value { result.now ≡ fault_name self }
        ensures short { length result.now ≤ 16 }
    {
        match self {
            PlanFault::List(fault) => fault.name(),
            PlanFault::Split(fault) => fault.name(),
            PlanFault::Emission(fault) => fault.name(),
            PlanFault::Core(fault) => fault.name(),
            PlanFault::Room(fault) => fault.name(),
            PlanFault::Legal(fault) => fault.name(),
            PlanFault::Check(fault) => fault.name(),
            PlanFault::OutOfImage(_) => "OutOfImage",
            PlanFault::ImageSize => "ImageSize",
            PlanFault::OverTransfer(_) => "OverTransfer",
            PlanFault::Shape => "Shape",
            PlanFault::Memory => "Memory",
            PlanFault::Json => "Json",
            PlanFault::Member => "Member",
            PlanFault::Do => "Do",
            PlanFault::Settings => "Settings",
            PlanFault::Hex => "Hex",
            PlanFault::Engines => "Engines",
            PlanFault::JobTooLong => "JobTooLong",
        }
    }

    /// The indices that the refusal names.
    pub fn indices(self) -> Indices
        ensures { result ≡ fault_indices self }
    {
        match self {
            PlanFault::List(fault) => fault.indices(),
            PlanFault::Split(fault) => fault.indices(),
            PlanFault::Emission(fault) => fault.indices(),
            PlanFault::Core(fault) => fault.indices(),
            PlanFault::Room(fault) => fault.indices(),
            PlanFault::Legal(fault) => fault.indices(),
            PlanFault::Check(fault) => fault.indices(),
            PlanFault::OutOfImage(index) | PlanFault::OverTransfer(index) => {
                Indices::One(index as u64)
            }
            PlanFault::ImageSize
            | PlanFault::Shape
            | PlanFault::Memory
            | PlanFault::Json
            | PlanFault::Member
            | PlanFault::Do
            | PlanFault::Settings
            | PlanFault::Hex
            | PlanFault::Engines
            | PlanFault::JobTooLong => Indices::Empty,
        }
    }
    /// The cause within, if the refusal has one.
    pub fn inner(self) -> Option<InnerFault>
        ensures { result ≡ fault_inner self }
    {
        match self {
            PlanFault::Emission(fault) => fault.entry().map(InnerFault::Entry),
            PlanFault::Check(fault) => fault.plan_fault().map(InnerFault::Legal),
            PlanFault::List(_)
            | PlanFault::Split(_)
            | PlanFault::Core(_)
            | PlanFault::Room(_)
            | PlanFault::Legal(_)
            | PlanFault::OutOfImage(_)
            | PlanFault::ImageSize
            | PlanFault::OverTransfer(_)
            | PlanFault::Shape
            | PlanFault::Memory
            | PlanFault::Json
            | PlanFault::Member
            | PlanFault::Do
            | PlanFault::Settings
            | PlanFault::Hex
            | PlanFault::Engines
            | PlanFault::JobTooLong => None,
        }
    }
}

/// Its name, without what it has.
impl fmt::Debug for PlanFault {
    fn fmt<W: fmt::Write>(&self, f: &mut fmt::Formatter<W>) -> fmt::Result {
        f.write_str(self.name())
    }
}
