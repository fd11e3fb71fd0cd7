//! Refusals, as C lays them out.

ghost use Rattle.std.specs.Prelude.{◌≡◌, ◌<◌};
ghost use Rattle.dsa_descriptor.specs.Causes.{index_list};
ghost use Rattle.dsa_calls.specs.Fault.{fault_inner};
ghost use Rattle.dsa_c.specs.Preparing.{refusal_at};
ghost use Rattle.dsa_c.specs.Raw.{refusal_of, no_room, no_room_for_certificate, inner_of, ArePlaces, all_places};

use dsa_calls::PlanFault;
use dsa_descriptor::Indices;

/// The number of the refusal of buffers that are too small for the bytes to submit.
pub const NO_ROOM: u32 = 90;

/// The number of the refusal of arrays that are too small for the certificate or the marks.
pub const NO_ROOM_FOR_CERTIFICATE: u32 = 91;

/// `struct dsa_refusal`.
#[repr(C)]
#[derive(Clone, Copy)]
pub struct RawRefusal {
    /// The number of the cause.
    pub number: u32,
    /// The number of the cause within, if a plan or a piece within is refused, else 0.
    pub inner: u32,
    /// The first index that the cause names, else 0.
    pub first: u64,
    /// The second, else 0.
    pub second: u64,
}

/// The refusal of this cause.
pub(crate) fn refusal(fault: PlanFault) -> RawRefusal
    ensures value { result ≡ refusal_of fault }
    ensures some { 0 < result.number }
{
    let (first, second) = places(fault);
    RawRefusal {
        number: fault.number() as u32,
        inner: inner(fault),
        first,
        second,
    }
}

/// The refusal of buffers that are too small: so many bytes are needed.
pub(crate) fn no_room(portal: usize, staging: usize) -> RawRefusal
    ensures { result ≡ no_room portal staging }
{
    RawRefusal {
        number: NO_ROOM,
        inner: 0,
        first: portal as u64,
        second: staging as u64,
    }
}

/// The refusal of arrays that are too small for the certificate and the marks of so many pieces.
pub(crate) fn no_room_for_certificate(pieces: usize) -> RawRefusal
    ensures { result ≡ no_room_for_certificate pieces }
{
    RawRefusal {
        number: NO_ROOM_FOR_CERTIFICATE,
        inner: 0,
        first: pieces as u64,
        second: 0,
    }
}

/// The refusal of this number that names these places.
pub(crate) fn refusal_at(number: u32, first: u64, second: u64) -> RawRefusal
    ensures { result ≡ refusal_at number first second }
{
    RawRefusal {
        number,
        inner: 0,
        first,
        second,
    }
}

/// The number of the cause within, else 0.
fn inner(fault: PlanFault) -> u32
    ensures { result ≡ inner_of (fault_inner fault) }
{
    match fault.inner() {
        Some(cause) => u32::from(cause.number()),
        None => 0,
    }
}

/// The first two indices that the cause and the cause within name, with 0 for each that is missing.
fn places(fault: PlanFault) -> (u64, u64)
    ensures { ArePlaces (all_places fault) result }
{
    let (first, second) = match fault.inner() {
        Some(cause) => first_two(cause.indices()),
        None => (0, 0),
    };
    match fault.indices() {
        Indices::Empty => (first, second),
        Indices::One(index) => (index, first),
        Indices::Two(index, next) => (index, next),
    }
}

/// These indices, with 0 for each that is missing.
pub(crate) fn first_two(indices: Indices) -> (u64, u64)
    ensures { ArePlaces (index_list indices) result }
{
    match indices {
        Indices::Empty => (0, 0),
        Indices::One(first) => (first, 0),
        Indices::Two(first, second) => (first, second),
    }
}
