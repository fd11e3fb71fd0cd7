//! Reads one job from standard input, and writes its line to standard output.
#![tactic(auto)]

use dsa_report::{large_block, serve};
use std::io;
use std::process::ExitCode;

/// Runs one job. It looks at no arguments, and writes nothing to standard error. The status is 0 if the line of an answer
/// was written, 1 if the line of a refusal was, and 2 if reading or writing failed.
fn main(rt: HostRuntime) -> ExitCode {
    drop(large_block(rt.alloc())); // from now on blocks of up to that size are kept, with their pages
    let mut input = rt.reader();
    let mut output = io::writer(&rt);
    let served = serve(&rt, &mut input, &mut output);
    ExitCode::from(served.status())
}
