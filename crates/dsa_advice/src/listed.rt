//! Notes about what a list does not have: that it is empty, or which operations of a recording it leaves out.

use crate::comments::comment_of;
use crate::unplanned::Source;
use crate::words::line_at;
use dsa_operations::Operation;
use std::alloc::{AllocError, Global};

/// How the first line of the list of a recording begins that has no operations.
const NONE: &str = "this list is empty: ";

/// How it begins if the list leaves operations out.
const LEFT: &str = "left out: ";

/// What the first line of a text says that the list of a recording leaves out, if it is one.
fn left_in<'a>(source: Source<'a>) -> Option<&'a str> {
    let Source::Text(text, _) = source else {
        return None;
    };
    let said = comment_of(line_at(text, 1));
    if said.starts_with(NONE) || said.starts_with(LEFT) {
        Some(said)
    } else {
        None
    }
}

/// The note on a list that is empty, or that was made of a recording and leaves some of its operations out.
pub(crate) fn listed_note(
    alloc: Global,
    source: Source<'_>,
    operations: &[Operation],
) -> Result<Option<String>, AllocError> {
    let left = left_in(source);
    let mut text = String::new(alloc);
    if let Some(said) = left {
        text.push_str(&format!(in alloc; "note: {said}\n")?)?;
    }
    if operations.is_empty() && !left.is_some_and(|said| said.starts_with(NONE)) {
        text.push_str("note: the list is empty\n")?;
    }
    Ok(if text.is_empty() { None } else { Some(text) })
}
