//! The line of a refusal.

ghost use Rattle.std.specs.Prelude.{◌≡◌, ◌++◌, ◌+◌, ◌≤◌, codes, length};
ghost use Rattle.dsa_calls.specs.Fault.{indices_text, inner_text, named_text, place_text, refusal_line as line_of_refusal};

use crate::fault::{InnerFault, PlanFault};
use arrayvec::ArrayString;
use dsa_descriptor::Indices;
use itoa::Buffer;

/// The length of the longest line of a refusal, in bytes.
pub const LONGEST_LINE: usize = 192;

/// The line of a refusal: `refused`, the number, the name and the indices, and, if a plan or a piece
/// within is refused, the same of that cause. Nothing is allocated.
pub fn refusal_line(fault: PlanFault) -> ArrayString<LONGEST_LINE>
    ensures { result.bytes ≡ line_of_refusal fault }
{
    let mut line = ArrayString::new();
    line.push_str("refused");
    push_named(&mut line, fault.number(), fault.name());
    push_indices(&mut line, fault.indices());
    push_inner(&mut line, fault.inner());
    line.push_str("\n");
    line
}

/// A number and a name, with a space before each, at the end.
fn push_named(line: &mut ArrayString<LONGEST_LINE>, number: u64, name: &str)
    requires short { length name.now ≤ 16 }
    requires fits { length line.old.bytes + 38 ≤ LONGEST_LINE }
    ensures value { line.new.bytes ≡ line.old.bytes ++ named_text number name.now }
    ensures short { length line.new.bytes ≤ length line.old.bytes + 38 }
{
    push_place(line, number);
    line.push_str(" ");
    line.push_str(name);
}

/// The indices, at the end.
fn push_indices(line: &mut ArrayString<LONGEST_LINE>, indices: Indices)
    requires { length line.old.bytes + 42 ≤ LONGEST_LINE }
    ensures value { line.new.bytes ≡ line.old.bytes ++ indices_text indices }
    ensures short { length line.new.bytes ≤ length line.old.bytes + 42 }
{
    match indices {
        Indices::Empty => {}
        Indices::One(index) => push_place(line, index),
        Indices::Two(first, second) => {
            push_place(line, first);
            push_place(line, second);
        }
    }
}

/// Writes the cause within at the end, if a piece or a plan within is refused.
fn push_inner(line: &mut ArrayString<LONGEST_LINE>, cause: Option<InnerFault>)
    requires { length line.old.bytes + 80 ≤ LONGEST_LINE }
    ensures value { line.new.bytes ≡ line.old.bytes ++ inner_text cause }
    ensures short { length line.new.bytes ≤ length line.old.bytes + 80 }
{
    if let Some(cause) = cause {
        push_named(line, u64::from(cause.number()), cause.name());
        push_indices(line, cause.indices());
    }
}

/// A space and the number, at the end.
fn push_place(line: &mut ArrayString<LONGEST_LINE>, place: u64)
    requires { length line.old.bytes + 21 ≤ LONGEST_LINE }
    ensures value { line.new.bytes ≡ line.old.bytes ++ place_text place }
    ensures short { length line.new.bytes ≤ length line.old.bytes + 21 }
{
    let mut digits = Buffer::new();
    line.push_str(" ");
    line.push_str(digits.format(place));
}
