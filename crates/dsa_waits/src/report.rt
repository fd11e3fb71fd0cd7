//! The report on missing waits as JSON, and their keys.

use crate::course::{Course, entry_at, made_at};
use crate::fitting::Found;
use crate::keys::{Keyed, Shown, shown_waits};
use crate::words::{severity_of, some_known};
use dsa_recording::{EntryObject, entry_object, hazard_name, push_json};
use serde::Serialize;
use std::alloc::{AllocError, Global};
use std::collections::BTreeSet;

/// An entry that waits, or is waited for: its number, its submission, and which member of that it is, if it is one.
#[derive(Drop, Serialize)]
struct PlaceObject {
    entry: u64,
    member: Option<u64>,
    submission: u64,
}

/// A missing wait: both entries, where they conflict and how, and whether it is accepted.
#[derive(Drop, Serialize)]
struct WaitObject<'a> {
    address: String,
    bytes: u64,
    earlier: PlaceObject,
    entries: Vec<EntryObject>,
    hazard: &'static str,
    key: &'a str,
    later: PlaceObject,
    records: Vec<u64>,
    severity: &'static str,
}

/// The place of an entry.
fn place_of(course: &Course, entry: usize) -> PlaceObject {
    let submission = entry_at(course, entry).submission;
    let first = made_at(&course.made, submission).first;
    let member = match entry.checked_sub(first) {
        Some(0) | None => None,
        Some(after) => Some((after - 1) as u64),
    };
    PlaceObject {
        entry: entry as u64,
        member,
        submission: submission as u64,
    }
}

/// Both entries: their numbers, and what they do.
fn entries_of(
    alloc: Global,
    all: &[[u8; 64]],
    earlier: usize,
    later: usize,
) -> Result<Vec<EntryObject>, AllocError> {
    let mut entries = Vec::with_capacity(alloc, 2)?;
    for number in [later, earlier] {
        if let Some(entry) = all.get(number) {
            entries.push(entry_object(alloc, number, entry)?)?;
        }
    }
    Ok(entries)
}

/// The entries in whose completion records the address lies.
fn records_of(alloc: Global, wait: &Shown) -> Result<Vec<u64>, AllocError> {
    let mut entries = Vec::new(alloc);
    if wait.records.earlier {
        entries.push(wait.earlier as u64)?;
    }
    if wait.records.later {
        entries.push(wait.later as u64)?;
    }
    Ok(entries)
}

/// Writes the object of a missing wait.
fn push_wait(
    keyed: Keyed<'_>,
    line: &mut String,
    course: &Course,
    wait: &Shown,
) -> Result<(), AllocError> {
    let (alloc, earlier, later) = (keyed.alloc, wait.earlier, wait.later);
    let address = wait.hazard.address;
    let object = WaitObject {
        address: format!(in alloc; "0x{address:x}")?,
        bytes: wait.bytes,
        earlier: place_of(course, earlier),
        entries: entries_of(alloc, keyed.all, earlier, later)?,
        hazard: hazard_name(wait.hazard.kind),
        key: wait.key.as_str(),
        later: place_of(course, later),
        records: records_of(alloc, wait)?,
        severity: severity_of(wait.is_accepted),
    };
    push_json(alloc, line, &object)
}

/// All missing waits that are shown, as JSON: the object of each, and whether the events say when the program looked at
/// records.
pub(crate) fn waits_json(keyed: Keyed<'_>, found: &Found) -> Result<String, AllocError> {
    let (alloc, looks) = (keyed.alloc, some_known(&found.course.events));
    let mut objects = String::new(alloc);
    for wait in &shown_waits(keyed, found)? {
        if !objects.is_empty() {
            objects.push_str(",")?;
        }
        push_wait(keyed, &mut objects, &found.course, wait)?;
    }
    format!(in alloc; "{{\"looks\":{looks},\"missing\":[{objects}]}}")
}

/// The keys of the missing waits that are not accepted, a line each.
pub(crate) fn waits_keys(keyed: Keyed<'_>, found: &Found) -> Result<String, AllocError> {
    let mut text = String::new(keyed.alloc);
    let mut keys: BTreeSet<String> = BTreeSet::new(keyed.alloc);
    for wait in shown_waits(keyed, found)? {
        if !wait.is_accepted && !keys.contains(wait.key.as_str()) {
            text.push_str(&wait.key)?;
            text.push_str("\n")?;
            keys.insert(wait.key)?;
        }
    }
    Ok(text)
}
