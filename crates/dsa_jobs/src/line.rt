//! The line of a job while it is read.

ghost use Rattle.std.specs.Prelude.{◌≡◌, ◌↔◌, ℕ, IsTrue, List, [], ◌++◌};
ghost use Rattle.std.specs.Bool.{OnTrue, OnFalse};
ghost use Rattle.dsa_report.specs.Gives.{WritesAnswer, WritesPrefix};
ghost use Rattle.dsa_jobs.specs.Held.{Holds};

use dsa_report::{LONGEST_TEXT, PlanFault, Served, refusal_line, serve_text, write_line};
use std::alloc::Global;
use std::io::Write;
use std::sync::Wait;
use std::thread::Threads;

/// The start of a line: its bytes, or why it is refused whatever comes after them. Of a line that is refused no further
/// byte is kept.
#[derive(Drop)]
pub(crate) struct Line {
    bytes: Vec<u8>,
    refused: Option<PlanFault>,
}

impl Line {
    /// A line of which nothing was read.
    pub(crate) fn new(alloc: Global) -> Line
        ensures { Holds result [] }
    {
        Line {
            bytes: Vec::new(alloc),
            refused: None,
        }
    }

    /// Whether nothing was read of it.
    pub(crate) fn is_empty(&self) -> bool
        ensures { (text : List ℕ) → Holds self.now text → IsTrue result ↔ (text ≡ []) }
    {
        self.refused.is_none() && self.bytes.is_empty()
    }

    /// Adds what was read next.
    pub(crate) fn add(&mut self, part: &[u8])
        ensures { (text : List ℕ) → Holds self.old text → Holds self.new (text ++ part.now) }
    {
        if part.is_empty() {
            return;
        }
        if self.refused.is_some() {
            return;
        }
        let room = LONGEST_TEXT.saturating_sub(self.bytes.len());
        if part.len() > room {
            self.refused = Some(PlanFault::JobTooLong);
            return;
        }
        if self.bytes.extend_from_slice(part).is_err() {
            self.refused = Some(PlanFault::Memory);
        }
    }

    /// Forgets the line, and keeps its memory for the next one.
    pub(crate) fn clear(&mut self)
        ensures { Holds self.new [] }
    {
        self.bytes.clear();
        self.refused = None;
    }

    /// Writes the line that answers this one as the text of a job, and answers whether all of it was taken.
    pub(crate) fn answer<H: AllocGlobal + Threads + Wait + Sync, W: Write>(
        &self,
        rt: &H,
        writer: &mut W,
    ) -> bool
        ensures whole { OnTrue result ((text : List ℕ) → Holds self.now text →
            (status : ℕ)
            × WritesAnswer text status (W.contents writer.old) (W.contents writer.new)) }
        ensures prefix { OnFalse result ((text : List ℕ) → Holds self.now text →
            WritesPrefix text (W.contents writer.old) (W.contents writer.new)) }
    {
        match self.refused {
            Some(fault) => write_line(writer, refusal_line(fault).as_str().as_bytes()),
            None => match serve_text(rt, self.bytes.as_slice(), writer) {
                Served::Answered | Served::Refused => true,
                Served::ReadFault | Served::WriteFault => false,
            },
        }
    }
}
