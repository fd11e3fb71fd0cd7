//! Certificates, as C lays them out.

ghost use Rattle.std.specs.Prelude.{◌≡◌, ◌≤◌, IfOk, length, map};
ghost use Rattle.dsa_plan.specs.Certificate.{contents};
ghost use Rattle.dsa_c.specs.Raw.{written};
ghost use Rattle.dsa_c.specs.Certificates.{pair_of, raw_pair_of, contents_of};

use dsa_plan::Certificate;
use std::alloc::{AllocError, Global};

/// Both numbers of a pair that means none.
pub const NONE: u32 = 0xffff_ffff;

/// `struct dsa_pair`: two pieces, or none, if both numbers are [`NONE`].
#[repr(C)]
#[derive(Clone, Copy)]
pub struct RawPair {
    /// The earlier piece.
    pub first: u32,
    /// The later piece.
    pub second: u32,
}

/// What the pair means.
fn pair_of(raw: RawPair) -> Option<(u32, u32)>
    ensures { result ≡ pair_of raw }
{
    if raw.first == NONE && raw.second == NONE {
        None
    } else {
        Some((raw.first, raw.second))
    }
}

/// How a pair is laid out.
fn raw_pair_of(pair: Option<(u32, u32)>) -> RawPair
    ensures { result ≡ raw_pair_of pair }
{
    match pair {
        Some((first, second)) => RawPair { first, second },
        None => RawPair {
            first: NONE,
            second: NONE,
        },
    }
}

/// What the pairs mean.
fn pairs_of(alloc: Global, raw: &[RawPair]) -> Result<Vec<Option<(u32, u32)>>, AllocError>
    ensures { IfOk result (λ pairs. pairs.items ≡ map pair_of raw.now) }
{
    let mut pairs = Vec::with_capacity(alloc, raw.len())?;
    for raw in raw {
        pairs.push(pair_of(*raw))?;
    }
    Ok(pairs)
}

/// The certificate of this version with these prices and pairs.
pub(crate) fn certificate_of(
    alloc: Global,
    version: u64,
    prices: &[u64],
    pairs: &[RawPair],
) -> Result<Certificate, AllocError>
    ensures { IfOk result (λ c. contents c ≡ contents_of version prices.now pairs.now) }
{
    let prices = Vec::from_slice(alloc, prices)?;
    let pairs = pairs_of(alloc, pairs)?;
    Ok(Certificate {
        version,
        prices,
        pairs,
    })
}

/// Writes how the pairs are laid out at the front of the array, and leaves the rest of it.
pub(crate) fn put_pairs(buffer: &mut [RawPair], pairs: &[Option<(u32, u32)>])
    requires { length pairs.now ≤ length buffer.old }
    ensures { buffer.new ≡ written (map raw_pair_of pairs.now) buffer.old }
{
    for (index, pair) in pairs.iter().enumerate() {
        buffer[index] = raw_pair_of(*pair);
    }
}
