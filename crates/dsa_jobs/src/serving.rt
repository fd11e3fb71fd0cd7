//! The lines of a reader, each of them a job.

ghost use Rattle.std.specs.Prelude.{◌≡◌, ◌≢◌, IfSome, List, ℕ, ◌++◌, Option};
ghost use Rattle.std.specs.Bool.{OnTrue, OnFalse};
ghost use Rattle.std.specs.Io.KnownBytes.{Consumes};
ghost use Rattle.dsa_jobs.specs.Jobs.{jobs_of, ended_of};
ghost use Rattle.dsa_jobs.specs.Writes.{WritesLines, WritesPart};
ghost use Rattle.dsa_jobs.specs.Held.{HasServed};

use crate::line::Line;
use memchr::memchr;
use std::io::{Read, Write};
use std::sync::Wait;
use std::thread::Threads;

/// The most bytes that one read asks for.
const CHUNK: usize = 65_536;

/// How the lines of a reader ended.
#[derive(Clone, Copy)]
pub enum Ending {
    /// All were read, and the lines of all jobs were written.
    AllServed,
    /// Reading failed, and the lines of the jobs that were read before were written.
    ReadFault,
    /// Writing failed.
    WriteFault,
}

impl Ending {
    ghost use Rattle.dsa_jobs.specs.Ended.{ending_status};

    /// The status that a program ends with.
    pub fn status(self) -> u8
        ensures { result ≡ ending_status self }
    {
        match self {
            Ending::AllServed => 0,
            Ending::ReadFault | Ending::WriteFault => 2,
        }
    }
}

/// Reads jobs to the end of the reader, one on each line, and writes the line of each before it reads on.
///
/// The handle gives memory, starts the engines of jobs to run, and waits for them.
pub fn serve_lines<H: AllocGlobal + Threads + Wait + Sync, R: Read, W: Write>(
    rt: &H,
    reader: &mut R,
    writer: &mut W,
) -> Ending
    // The lines that answer the jobs of the reader's text were written, in order.
    ensures all { result ≡ Ending.AllServed → IfSome (R.remaining reader.old)
        (λ text. WritesLines (jobs_of text) (W.contents writer.old) (W.contents writer.new)) }
    // Those of the lines that were read before the fault, each to its newline, were written.
    ensures read_fault { result ≡ Ending.ReadFault → (seen : List ℕ)
        × Consumes (R.remaining reader.old) (R.remaining reader.new) seen
        × WritesLines (ended_of seen) (W.contents writer.old) (W.contents writer.new) }
    // A part of the lines that answer the jobs was written, from their start.
    ensures write_fault { result ≡ Ending.WriteFault → IfSome (R.remaining reader.old)
        (λ text. WritesPart (jobs_of text) (W.contents writer.old) (W.contents writer.new)) }
{
    let mut buffer = [0u8; CHUNK];
    let mut line = Line::new(rt.alloc());
    for _ in 0..u64::MAX {
        match reader.read(&mut buffer) {
            Ok(0) => return serve_last(rt, &line, writer),
            Ok(count) => {
                if !serve_chunk(rt, &mut line, &buffer[..count], writer) {
                    return Ending::WriteFault;
                }
            }
            Err(_) => return Ending::ReadFault,
        }
    }
    Ending::ReadFault
}

// Writes the lines of the jobs that end within the chunk, and keeps the start of the next.
fn serve_chunk<H: AllocGlobal + Threads + Wait + Sync, W: Write>(
    rt: &H,
    line: &mut Line,
    chunk: &[u8],
    writer: &mut W,
) -> bool
    ensures whole { OnTrue result ((seen : List ℕ) (start : Option (List ℕ)) →
        HasServed seen line.old start (W.contents writer.old) →
        HasServed (seen ++ chunk.now) line.new start (W.contents writer.new)) }
    ensures part { OnFalse result ((seen : List ℕ) (start : Option (List ℕ)) →
        HasServed seen line.old start (W.contents writer.old) →
        (more : List ℕ) →
        WritesPart (jobs_of ((seen ++ chunk.now) ++ more)) start (W.contents writer.new)) }
{
    let mut rest = chunk;
    while let Some(end) = memchr(b'\n', rest) {
        line.add(&rest[..end]);
        if !line.answer(rt, writer) {
            return false;
        }
        line.clear();
        rest = &rest[end + 1..];
    }
    line.add(rest);
    true
}

// Writes the line of the last job, which no newline ends, unless its line is empty.
fn serve_last<H: AllocGlobal + Threads + Wait + Sync, W: Write>(
    rt: &H,
    line: &Line,
    writer: &mut W,
) -> Ending
    ensures all { result ≡ Ending.AllServed → (seen : List ℕ) (start : Option (List ℕ)) →
        HasServed seen line.now start (W.contents writer.old) →
        WritesLines (jobs_of seen) start (W.contents writer.new) }
    ensures read_fault { result ≢ Ending.ReadFault }
    ensures write_fault { result ≡ Ending.WriteFault → (seen : List ℕ) (start : Option (List ℕ)) →
        HasServed seen line.now start (W.contents writer.old) →
        WritesPart (jobs_of seen) start (W.contents writer.new) }
{
    if line.is_empty() {
        return Ending::AllServed;
    }
    if line.answer(rt, writer) {
        Ending::AllServed
    } else {
        Ending::WriteFault
    }
}
