//! The line of the answer to a job to judge or to check.

ghost use Rattle.std.specs.Prelude.{◌≡◌, false, Ok, IfOk};
ghost use Rattle.serde_json.specs.View.{view};
ghost use Rattle.serde_json.specs.Written.{has_float};
ghost use Rattle.dsa_report.specs.Answer.{line_of};
ghost use Rattle.dsa_report.specs.Calls.{cost_value};
ghost use Rattle.dsa_report.specs.Line.{line_bytes};

use crate::answer_line::AnswerLine;
use serde_json::{Value, json};
use std::alloc::{AllocError, Global};

/// The line of a cost.
pub(crate) fn cost_line(alloc: Global, cost: u64) -> Result<AnswerLine, AllocError>
    ensures { IfOk result (λ line. line_bytes line ≡ line_of (Ok (cost_value cost))) }
{
    let value = cost_json(alloc, cost)?;
    let text = line_of_value(alloc, &value)?;
    Ok(AnswerLine::of_text(alloc, text))
}

/// The object of a cost.
fn cost_json(alloc: Global, cost: u64) -> Result<Value, AllocError>
    ensures { IfOk result (λ value. view value ≡ cost_value cost) }
{
    json!(in alloc; {"cost": cost})
}

// The compact text of a value with no float in it, as a line.
fn line_of_value(alloc: Global, value: &Value) -> Result<Vec<u8>, AllocError>
    requires { has_float (view value.now) ≡ false }
    ensures { IfOk result (λ line. line.items ≡ line_of (Ok (view value.now))) }
{
    let mut line = value.to_vec(alloc)?;
    line.push(b'\n')?;
    Ok(line)
}
