//! The parts of an answer, each written into the line as compact JSON. No JSON value of them is made: a
//! plan of 65,536 pieces would take hundreds of thousands of allocations.

ghost use Rattle.std.specs.Prelude.{◌≡◌, ◌++◌, OnOk};
ghost use Rattle.serde_json.specs.Data.{boolean};
ghost use Rattle.serde_json.specs.Written.{compact_text};
ghost use Rattle.dsa_tokens.specs.Spelled.{whole};
ghost use Rattle.dsa_cert.specs.Document.{pair_value, pairs_value, prices_value};
ghost use Rattle.dsa_report.specs.Calls.{records_value};
ghost use Rattle.dsa_report.specs.Plan.{group_value, plan_value};

use crate::line::push_bytes;
use dsa_plan::{Group, Plan};
use itoa::Buffer;
use std::alloc::AllocError;

/// Adds a number.
pub(crate) fn push_number(line: &mut Vec<u8>, number: u64) -> Result<(), AllocError>
    ensures { OnOk result (line.new.items ≡ line.old.items ++ compact_text (whole number)) }
{
    let mut buffer = Buffer::new();
    line.extend_from_slice(buffer.format(number).as_bytes())
}

/// Adds the array of the prices.
pub(crate) fn push_prices(line: &mut Vec<u8>, prices: &[u64]) -> Result<(), AllocError>
    ensures { OnOk result (line.new.items ≡ line.old.items ++
        compact_text (prices_value prices.now)) }
{
    let Some((first, rest)) = prices.split_first() else {
        return line.extend_from_slice(b"[]");
    };
    line.push(b'[')?;
    push_number(line, *first)?;
    for price in rest {
        line.push(b',')?;
        push_number(line, *price)?;
    }
    line.push(b']')?;
    Ok(())
}

/// Adds a pair as an array of its two numbers, or null.
fn push_pair(line: &mut Vec<u8>, pair: Option<(u32, u32)>) -> Result<(), AllocError>
    ensures { OnOk result (line.new.items ≡ line.old.items ++ compact_text (pair_value pair)) }
{
    let Some((first, second)) = pair else {
        return line.extend_from_slice(b"null");
    };
    line.push(b'[')?;
    push_number(line, u64::from(first))?;
    line.push(b',')?;
    push_number(line, u64::from(second))?;
    line.push(b']')?;
    Ok(())
}

/// Adds the array of the pairs.
pub(crate) fn push_pairs(line: &mut Vec<u8>, pairs: &[Option<(u32, u32)>]) -> Result<(), AllocError>
    ensures { OnOk result (line.new.items ≡ line.old.items ++
        compact_text (pairs_value pairs.now)) }
{
    let Some((first, rest)) = pairs.split_first() else {
        return line.extend_from_slice(b"[]");
    };
    line.push(b'[')?;
    push_pair(line, *first)?;
    for pair in rest {
        line.push(b',')?;
        push_pair(line, *pair)?;
    }
    line.push(b']')?;
    Ok(())
}

/// Adds a truth value.
fn push_fence(line: &mut Vec<u8>, fence: bool) -> Result<(), AllocError>
    ensures { OnOk result (line.new.items ≡ line.old.items ++ compact_text (boolean fence)) }
{
    if fence {
        line.extend_from_slice(b"true")
    } else {
        line.extend_from_slice(b"false")
    }
}

/// Adds the array of a group's truth values.
fn push_group(line: &mut Vec<u8>, group: &Group) -> Result<(), AllocError>
    ensures { OnOk result (line.new.items ≡ line.old.items ++
        compact_text (group_value group.now)) }
{
    let Some((first, rest)) = group.fences().split_first() else {
        return line.extend_from_slice(b"[]");
    };
    line.push(b'[')?;
    push_fence(line, *first)?;
    for fence in rest {
        line.push(b',')?;
        push_fence(line, *fence)?;
    }
    line.push(b']')?;
    Ok(())
}

/// Adds the array of the plan's groups.
pub(crate) fn push_plan(line: &mut Vec<u8>, plan: &Plan) -> Result<(), AllocError>
    ensures { OnOk result (line.new.items ≡ line.old.items ++ compact_text (plan_value plan.now)) }
{
    let Some((first, rest)) = plan.groups().split_first() else {
        return line.extend_from_slice(b"[]");
    };
    line.push(b'[')?;
    push_group(line, first)?;
    for group in rest {
        line.push(b',')?;
        push_group(line, group)?;
    }
    line.push(b']')?;
    Ok(())
}

/// Adds the array of batch records, each a string of its digits.
pub(crate) fn push_records(line: &mut Vec<u8>, records: &[[u8; 32]]) -> Result<(), AllocError>
    ensures { OnOk result (line.new.items ≡ line.old.items ++
        compact_text (records_value records.now)) }
{
    let Some((first, rest)) = records.split_first() else {
        return line.extend_from_slice(b"[]");
    };
    line.push(b'[')?;
    push_bytes(line, first.as_slice())?;
    for record in rest {
        line.push(b',')?;
        push_bytes(line, record.as_slice())?;
    }
    line.push(b']')?;
    Ok(())
}
