//! How `explain` shows a plan.

ghost use Rattle.std.specs.Prelude.{◌≡◌};
ghost use Rattle.dsa_advice.specs.Shown.{form_of};

use dsa_explain::{Detail, PieceRange};

/// How a plan is shown.
#[derive(Clone, Copy)]
pub enum Form {
    /// In words, with so many of the conflicts of each fence.
    Words(Detail),
    /// As a picture of these pieces.
    Picture(PieceRange),
    /// As a line of JSON.
    Json,
    /// By what its groups wait for.
    Waits,
}

/// The form that the flags `--svg`, `--json`, `--waits` and `--all` ask for, of these pieces.
pub fn form_of(range: PieceRange, svg: bool, json: bool, waits: bool, all: bool) -> Form
    ensures { result ≡ form_of range svg json waits all }
{
    if svg {
        Form::Picture(range)
    } else if json {
        Form::Json
    } else if waits {
        Form::Waits
    } else if all {
        Form::Words(Detail::All)
    } else {
        Form::Words(Detail::First)
    }
}
