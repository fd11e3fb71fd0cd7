//! Reads a job on each line of standard input, and writes a line for each to standard output.
#![tactic(auto)]

pub mod laws;
mod line;
mod serving;

use dsa_report::large_block;
use serving::serve_lines;
use std::io;
use std::process::ExitCode;

/// Runs the jobs. It looks at no arguments, and writes nothing to standard error. The status is 0 if all was read and
/// the line of each job was written, whatever the answers are, and 2 if reading or writing failed.
fn main(rt: HostRuntime) -> ExitCode {
    drop(large_block(rt.alloc())); // from now on blocks of up to that size are kept, with their pages
    let mut input = rt.reader();
    let mut output = io::writer(&rt);
    let ending = serve_lines(&rt, &mut input, &mut output);
    ExitCode::from(ending.status())
}
