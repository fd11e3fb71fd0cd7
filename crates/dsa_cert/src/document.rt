//! The document of a certificate.

ghost use Rattle.std.specs.Prelude.{◌≡◌, All, option_map, Err, IfOk, MatchResult};
ghost use Rattle.serde_json.specs.View.{view};
ghost use Rattle.dsa_plan.specs.Certificate.{Contents};
ghost use Rattle.dsa_cert.specs.Document.{Documents, PairFits, ReadsPair, ReadsPairs, ReadsPrices, pair_value, pairs_value, prices_value};
ghost use Rattle.dsa_plan.specs.Certificate.{contents};

use crate::fault::CertFault;
use crate::members::{has_names, number_at};
use dsa_plan::Certificate;
use serde_json::{Value, json};
use std::alloc::{AllocError, Global};

/// The document of the certificate: an object with the members `pairs`, `prices` and `version`.
pub fn write_json(alloc: Global, certificate: &Certificate) -> Result<Value, AllocError>
    ensures { IfOk result (λ value. Documents (view value) (contents certificate.now)) }
{
    let pairs = pairs_json(alloc, &certificate.pairs)?;
    let prices = prices_json(alloc, &certificate.prices)?;
    json!(in alloc; {"pairs": pairs, "prices": prices, "version": (certificate.version)})
}

/// The array that spells the prices.
fn prices_json(alloc: Global, prices: &[u64]) -> Result<Value, AllocError>
    ensures { IfOk result (λ value. view value ≡ prices_value prices.now) }
{
    let mut values = Vec::with_capacity(alloc, prices.len())?;
    for price in prices {
        values.push(Value::from(*price))?;
    }
    Ok(Value::Array(values))
}

/// The array that spells the pairs.
fn pairs_json(alloc: Global, pairs: &[Option<(u32, u32)>]) -> Result<Value, AllocError>
    ensures { IfOk result (λ value. (view value ≡ pairs_value pairs.now) × All PairFits pairs.now) }
{
    let mut values = Vec::with_capacity(alloc, pairs.len())?;
    for pair in pairs {
        values.push(pair_json(alloc, *pair)?)?;
    }
    Ok(Value::Array(values))
}

/// An array of two numbers, or null.
fn pair_json(alloc: Global, pair: Option<(u32, u32)>) -> Result<Value, AllocError>
    ensures { IfOk result (λ value. (view value ≡ pair_value pair) × PairFits pair) }
{
    match pair {
        Some((first, second)) => json!(in alloc; [first, second]),
        None => Ok(Value::Null),
    }
}

/// The certificate whose document the value is.
///
/// # Errors
/// [`CertFault::Shape`] if it is no such document. A document has the members `pairs`, `prices` and `version` and no
/// others: an array with null or two numbers below 2^32 for each piece, an array of whole numbers, and a whole number.
pub fn read_json(alloc: Global, value: &Value) -> Result<Certificate, CertFault>
    ensures found { IfOk result (λ c. Documents (view value.now) (contents c)) }
    ensures only { (c : Contents) → Documents (view value.now) c →
        MatchResult result (λ d. contents d ≡ c) (λ fault. fault ≡ CertFault.Memory) }
{
    if !has_names(value, &["pairs", "prices", "version"]) {
        return Err(CertFault::Shape);
    }
    let (Some(pairs), Some(prices)) = (value.get("pairs"), value.get("prices")) else {
        return Err(CertFault::Shape);
    };
    let Some(version) = number_at(value, "version") else {
        return Err(CertFault::Shape);
    };
    let Some(prices) = prices_of(alloc, prices)? else {
        return Err(CertFault::Shape);
    };
    let Some(pairs) = pairs_of(alloc, pairs)? else {
        return Err(CertFault::Shape);
    };
    Ok(Certificate {
        version,
        prices,
        pairs,
    })
}

/// The prices that a value spells, an array of whole numbers; none if it spells none.
pub fn prices_of(alloc: Global, value: &Value) -> Result<Option<Vec<u64>>, AllocError>
    ensures { IfOk result
        (λ prices. ReadsPrices (view value.now) (option_map (λ v. v.items) prices)) }
{
    let Some(items) = value.as_array() else {
        return Ok(None);
    };
    let mut prices = Vec::with_capacity(alloc, items.len())?;
    for item in items {
        let Some(price) = item.as_u64() else {
            return Ok(None);
        };
        prices.push(price)?;
    }
    Ok(Some(prices))
}

/// The pairs that a value spells, if it spells some.
fn pairs_of(alloc: Global, value: &Value) -> Result<Option<Vec<Option<(u32, u32)>>>, AllocError>
    ensures { IfOk result (λ pairs. ReadsPairs (view value.now) (option_map (λ v. v.items) pairs)) }
{
    let Some(items) = value.as_array() else {
        return Ok(None);
    };
    let mut pairs = Vec::with_capacity(alloc, items.len())?;
    for item in items {
        let Some(pair) = pair_of(item) else {
            return Ok(None);
        };
        pairs.push(pair)?;
    }
    Ok(Some(pairs))
}

/// A pair of numbers below 2^32, or none for null.
fn pair_of(value: &Value) -> Option<Option<(u32, u32)>>
    ensures { ReadsPair (view value.now) result }
{
    if value.is_null() {
        return Some(None);
    }
    let Some(items) = value.as_array() else {
        return None;
    };
    let [first, second] = items.as_slice() else {
        return None;
    };
    let (Some(first), Some(second)) = (first.as_u64(), second.as_u64()) else {
        return None;
    };
    match (u32::try_from(first), u32::try_from(second)) {
        (Ok(first), Ok(second)) => Some(Some((first, second))),
        _ => None,
    }
}
