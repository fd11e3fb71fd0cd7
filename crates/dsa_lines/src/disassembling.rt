//! The canonical text of a list, from its operations or its bytes.

ghost use Rattle.std.specs.Prelude.{◌≡◌, ◌≢◌, ◌++◌, List, map, IfErr, IfOk, OnOk, MatchResult, Err, string_bytes};
ghost use Rattle.std.specs.List.{flat_map};
ghost use Rattle.dsa_descriptor.specs.declared.fault.ListFault.{ListFault};
ghost use Rattle.dsa_descriptor.specs.declared.fault.ListFault.TheVariants.{Memory};
ghost use Rattle.dsa_descriptor.specs.Fences.{seen_barriers, seen_list};
ghost use Rattle.dsa_descriptor.specs.Lists.{AreOfOneOwner, IsFirstFaultBy};
ghost use Rattle.dsa_operations.specs.declared.operation.Operation.{Operation};
ghost use Rattle.dsa_operations.specs.Faults.{OperationKeeps};
ghost use Rattle.dsa_operations.specs.OperationFields.{operation_fields};
ghost use Rattle.dsa_operations.specs.Operations.{spelling_of};
ghost use Rattle.dsa_lines.specs.Texts.{text_line};
ghost use Rattle.dsa_lines.specs.Barriers.{barrier_line, list_text};

use crate::writing::line_of;
use dsa_descriptor::{ListFault, mark_at, read_entries, read_plain};
use dsa_operations::{Operation, OperationList};
use std::alloc::{AllocError, Global};

/// Writes the canonical line of an operation and a newline.
fn push_line(alloc: Global, text: &mut String, operation: &Operation) -> Result<(), AllocError>
    ensures { OnOk result (string_bytes text.new ≡ string_bytes text.old ++
        text_line (operation_fields operation.now)) }
{
    let line = line_of(alloc, operation)?;
    text.push_str(&line)?;
    text.push_str("\n")
}

/// Writes the line of an operation, after that of a barrier if it is marked.
fn push_marked(
    alloc: Global,
    text: &mut String,
    operation: &Operation,
    mark: bool,
) -> Result<(), AllocError>
    ensures { OnOk result (string_bytes text.new ≡ string_bytes text.old ++
        (barrier_line mark ++ text_line (operation_fields operation.now))) }
{
    if mark {
        text.push_str("barrier\n")?;
    }
    push_line(alloc, text, operation)
}

/// The canonical lines of operations, with a line `barrier` before each that is marked.
pub fn text_with_barriers(
    alloc: Global,
    operations: &[Operation],
    marks: &[bool],
) -> Result<String, AllocError>
    ensures { IfOk result (λ text. string_bytes text ≡
        list_text (map operation_fields operations.now) marks.now) }
{
    let mut text = String::new(alloc);
    for index in 0..operations.len() {
        push_marked(alloc, &mut text, &operations[index], mark_at(marks, index))?;
    }
    Ok(text)
}

/// The list of the bytes, in which fences are barriers or are at fault.
fn list_of(alloc: Global, bytes: &[u8], keep_fences: bool) -> Result<OperationList, ListFault>
    ensures found { IfOk result (λ list.
        seen_list keep_fences bytes.now ≡ flat_map spelling_of list.entries.items) }
    ensures barriers { IfOk result
        (λ list. list.barriers.items ≡ seen_barriers keep_fences bytes.now) }
    ensures only { (os : List Operation) →
        seen_list keep_fences bytes.now ≡ flat_map spelling_of os →
        AreOfOneOwner spelling_of os →
        MatchResult result (λ list. list.entries.items ≡ os) (λ fault. fault ≡ Memory) }
    ensures fault { IfErr result
        (IsFirstFaultBy OperationKeeps (seen_list keep_fences bytes.now)) }
    ensures refused { (fault : ListFault) → fault ≢ Memory →
        IsFirstFaultBy OperationKeeps (seen_list keep_fences bytes.now) fault →
        result ≡ Err fault }
{
    if keep_fences {
        read_entries::<Operation>(alloc, bytes)
    } else {
        read_plain::<Operation>(alloc, bytes)
    }
}

/// The canonical text of the operations that the bytes spell, 64 for each. If fences are kept, the flag 0x0001, fence,
/// of an entry after the first is a line `barrier` before its operation; else an entry with it is at fault.
///
/// # Errors
/// Those of [`read_entries`] if fences are kept, else those of [`read_plain`]; if there is no fault of the bytes,
/// [`ListFault::Memory`] if an allocation fails.
pub fn disassemble(alloc: Global, bytes: &[u8], keep_fences: bool) -> Result<String, ListFault>
    ensures answer { IfOk result (λ text. (os : List Operation) ×
        (seen_list keep_fences bytes.now ≡ flat_map spelling_of os) ×
        AreOfOneOwner spelling_of os × (string_bytes text ≡
        list_text (map operation_fields os) (seen_barriers keep_fences bytes.now))) }
    ensures only { (os : List Operation) →
        seen_list keep_fences bytes.now ≡ flat_map spelling_of os →
        AreOfOneOwner spelling_of os → MatchResult result
        (λ text. string_bytes text ≡
        list_text (map operation_fields os) (seen_barriers keep_fences bytes.now))
        (λ fault. fault ≡ Memory) }
    ensures fault { IfErr result
        (IsFirstFaultBy OperationKeeps (seen_list keep_fences bytes.now)) }
    ensures refused { (fault : ListFault) → fault ≢ Memory →
        IsFirstFaultBy OperationKeeps (seen_list keep_fences bytes.now) fault →
        result ≡ Err fault }
{
    let list = list_of(alloc, bytes, keep_fences)?;
    match text_with_barriers(alloc, &list.entries, &list.barriers) {
        Ok(text) => Ok(text),
        Err(_) => Err(ListFault::Memory),
    }
}
