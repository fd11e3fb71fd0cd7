//! How fast the crates are, where no job of the program shows it. Standard input names the case: `move`, `overlap` (a move to
//! 32 bytes further on) and `fill` work in an image, beside a plain copy of as many bytes, and so do `compare` (of two equal
//! regions) and `pattern` (of a region that repeats it); `conflicts` finds the last conflicts of short and long lists of
//! several shapes, and searches their plans; `list` plans short lists whole, from bytes to bytes; `tracker`
//! submits lists to a tracker and completes them. Where it names none nothing is measured or printed.
#![tactic(auto)]

mod finding;
mod listing;
mod operation;
mod timing;
mod tracking;
mod working;

use crate::finding::measure_conflicts;
use crate::listing::measure_lists;
use crate::operation::operation;
use crate::tracking::measure_tracker;
use crate::working::measure_operation;
use std::io;

/// The pattern of a fill.
const PATTERN: u64 = 0x0706_0504_0302_0100;

/// The pattern that an image repeats whose bytes are all 1.
const ONES: u64 = 0x0101_0101_0101_0101;

/// Measures the case of this name.
fn measure(rt: &HostRuntime, name: &str) -> io::Result<()> {
    match name {
        "move" => measure_operation(rt, &operation(0x03, 0x7f_ffe0, 0)),
        "overlap" => measure_operation(rt, &operation(0x03, 0, 0x20)),
        "fill" => measure_operation(rt, &operation(0x04, PATTERN, 0)),
        "compare" => measure_operation(rt, &operation(0x05, 0, 0x7f_ffe0)),
        "pattern" => measure_operation(rt, &operation(0x06, 0, ONES)),
        "conflicts" => measure_conflicts(rt),
        "list" => measure_lists(rt),
        "tracker" => measure_tracker(rt),
        _ => Ok(()),
    }
}

/// Measures the case that standard input names; with none, does nothing.
fn main(rt: HostRuntime) -> io::Result<()> {
    let name = io::read_to_string(rt.alloc(), rt.reader())?;
    measure(&rt, name.trim())
}
