//! The document of an explanation.

ghost use Rattle.std.specs.Prelude.{◌≡◌, false, map, IfOk, string_bytes};
ghost use Rattle.serde_json.specs.Data.{string};
ghost use Rattle.serde_json.specs.View.{view};
ghost use Rattle.serde_json.specs.Written.{has_float};
ghost use Rattle.dsa_tokens.specs.Spelled.{array_of};
ghost use Rattle.dsa_explain.specs.Document.{explanation_line, explanation_value, fence_value, group_value, optional_value, origin_value, piece_value, reason_value};
ghost use Rattle.dsa_explain.specs.Runs.{labelling};
ghost use Rattle.dsa_operations.specs.Operations.{writes_of};
ghost use Rattle.dsa_reasons.specs.Sentences.{record_of};

use crate::explanation::Explanation;
use crate::labels::{Labels, Origin};
use dsa_lines::line_of;
use dsa_operations::Operation;
use dsa_plan::GroupCost;
use dsa_reasons::{Fence, Reason, kind_text, record_of};
use serde_json::{Value, json};
use std::alloc::{AllocError, Global};

/// A number that may be missing.
fn optional_json(number: Option<u64>) -> Value
    ensures { view result ≡ optional_value number }
{
    match number {
        Some(number) => Value::from(number),
        None => Value::Null,
    }
}

/// The object of a group.
fn group_json(alloc: Global, group: &GroupCost) -> Result<Value, AllocError>
    ensures { IfOk result (λ value. view value ≡ group_value group.now) }
{
    let (cost, fences, size) = (group.cost, group.fences as u64, group.size as u64);
    json!(in alloc; {"cost": cost, "fences": fences, "size": size})
}

/// The array of the groups.
fn groups_json(alloc: Global, groups: &[GroupCost]) -> Result<Value, AllocError>
    ensures { IfOk result (λ value. view value ≡ array_of (map group_value groups.now)) }
{
    let mut values = Vec::with_capacity(alloc, groups.len())?;
    for group in groups {
        values.push(group_json(alloc, group)?)?;
    }
    Ok(Value::Array(values))
}

/// The piece of a conflict whose completion record has the address, as JSON has it.
fn record_json(pieces: &[Operation], reason: &Reason) -> Value
    ensures { view result ≡ optional_value (record_of writes_of pieces.now reason.now) }
{
    optional_json(record_of(pieces, reason).map(|piece| piece as u64))
}

/// The object of a conflict.
fn reason_json(alloc: Global, pieces: &[Operation], reason: &Reason) -> Result<Value, AllocError>
    ensures { IfOk result (λ value. view value ≡ reason_value pieces.now reason.now) }
{
    let address = reason.hazard.address;
    let address = format!(in alloc; "0x{address:x}")?;
    let hazard = kind_text(reason.hazard.kind);
    let (earlier, later) = (reason.earlier as u64, reason.later as u64);
    let record = record_json(pieces, reason);
    json!(in alloc; {
        "address": address,
        "earlier": earlier,
        "hazard": hazard,
        "later": later,
        "record_of": record
    })
}

/// The array of the conflicts of a fence.
fn reasons_json(
    alloc: Global,
    pieces: &[Operation],
    reasons: &[Reason],
) -> Result<Value, AllocError>
    ensures { IfOk result
        (λ value. view value ≡ array_of (map (reason_value pieces.now) reasons.now)) }
{
    let mut values = Vec::with_capacity(alloc, reasons.len())?;
    for reason in reasons {
        values.push(reason_json(alloc, pieces, reason)?)?;
    }
    Ok(Value::Array(values))
}

/// The object of a fence.
fn fence_json(alloc: Global, pieces: &[Operation], fence: &Fence) -> Result<Value, AllocError>
    ensures { IfOk result (λ value. view value ≡ fence_value pieces.now fence.now) }
{
    let before = fence.piece as u64;
    let conflicts = reasons_json(alloc, pieces, &fence.named)?;
    if fence.barrier {
        return json!(in alloc; {"barrier": true, "before": before, "conflicts": conflicts});
    }
    json!(in alloc; {"before": before, "conflicts": conflicts})
}

/// The array of the fences.
fn fences_json(alloc: Global, pieces: &[Operation], fences: &[Fence]) -> Result<Value, AllocError>
    ensures { IfOk result
        (λ value. view value ≡ array_of (map (fence_value pieces.now) fences.now)) }
{
    let mut values = Vec::with_capacity(alloc, fences.len())?;
    for fence in fences {
        values.push(fence_json(alloc, pieces, fence)?)?;
    }
    Ok(Value::Array(values))
}

/// The canonical line of a piece.
fn piece_json(alloc: Global, d: &Operation) -> Result<Value, AllocError>
    ensures { IfOk result (λ value. view value ≡ piece_value d.now) }
{
    Ok(Value::String(line_of(alloc, d)?))
}

/// The array of the pieces.
fn pieces_json(alloc: Global, pieces: &[Operation]) -> Result<Value, AllocError>
    ensures { IfOk result (λ value. view value ≡ array_of (map piece_value pieces.now)) }
{
    let mut values = Vec::with_capacity(alloc, pieces.len())?;
    for piece in pieces {
        values.push(piece_json(alloc, piece)?)?;
    }
    Ok(Value::Array(values))
}

/// The object of an origin.
fn origin_json(alloc: Global, origin: &Origin) -> Result<Value, AllocError>
    ensures { IfOk result (λ value. view value ≡ origin_value origin.now) }
{
    let (operation, piece) = (origin.operation as u64, origin.piece as u64);
    let pieces = origin.pieces as u64;
    json!(in alloc; {"operation": operation, "piece": piece, "pieces": pieces})
}

/// The array of the origins.
fn origins_json(alloc: Global, origins: &[Origin]) -> Result<Value, AllocError>
    ensures { IfOk result (λ value. view value ≡ array_of (map origin_value origins.now)) }
{
    let mut values = Vec::with_capacity(alloc, origins.len())?;
    for origin in origins {
        values.push(origin_json(alloc, origin)?)?;
    }
    Ok(Value::Array(values))
}

/// The array of the names of operations.
fn names_json(alloc: Global, names: &[String]) -> Result<Value, AllocError>
    ensures { IfOk result (λ value. view value ≡
        array_of (map string (map string_bytes names.now))) }
{
    let mut values = Vec::with_capacity(alloc, names.len())?;
    for name in names {
        values.push(Value::String(name.clone()?))?;
    }
    Ok(Value::Array(values))
}

/// The object of an explanation.
fn explanation_json(
    alloc: Global,
    explanation: &Explanation,
    pieces: &[Operation],
    labels: &Labels<'_>,
    least: Option<u64>,
) -> Result<Value, AllocError>
    ensures { IfOk result (λ value. view value ≡
        explanation_value explanation.now pieces.now (labelling labels.now) least) }
{
    let (cost, lone) = (explanation.costs.cost, explanation.costs.lone);
    let fences = fences_json(alloc, pieces, &explanation.fences)?;
    let groups = groups_json(alloc, &explanation.costs.groups)?;
    let least = optional_json(least);
    let names = names_json(alloc, labels.names)?;
    let origins = origins_json(alloc, labels.origins)?;
    let pieces = pieces_json(alloc, pieces)?;
    json!(in alloc; {
        "cost": cost,
        "fences": fences,
        "groups": groups,
        "least": least,
        "lone_cost": lone,
        "names": names,
        "origins": origins,
        "pieces": pieces
    })
}

/// The explanation of a plan as a line of JSON, with what a least plan costs, if that is known. docs/FORMATS.md has its
/// schema.
///
/// # Errors
/// [`AllocError`] at the first allocation that fails.
pub fn explanation_line(
    alloc: Global,
    explanation: &Explanation,
    pieces: &[Operation],
    labels: &Labels<'_>,
    least: Option<u64>,
) -> Result<String, AllocError>
    ensures { IfOk result (λ s. string_bytes s ≡
        explanation_line explanation.now pieces.now (labelling labels.now) least) }
{
    let value = explanation_json(alloc, explanation, pieces, labels, least)?;
    let mut line = value.to_string(alloc)?;
    line.push_str("\n")?;
    Ok(line)
}
