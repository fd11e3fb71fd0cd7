//! The report on a recording that comes in parts, each of whole submissions.

ghost use Rattle.std.specs.Prelude.{◌≡◌, ◌≢◌, ◌++◌, ◌≤◌, ℕ, List, [], IfOk, OnOk, length};
ghost use Rattle.dsa_descriptor.specs.Lists.{entries};
ghost use Rattle.dsa_recording.specs.Foreign.{AnswersEntries};
ghost use Rattle.dsa_recording.specs.declared.answer.AuditOptions.{AuditOptions};
ghost use Rattle.dsa_recording.specs.declared.stream.Submission.{Submission};
ghost use Rattle.dsa_recording.specs.Streams.{ReadsStream};
ghost use Rattle.dsa_recording.specs.Parts.{HasOutcomeAfter, IsSoFar, IsStreamed};

use crate::accepted::Accepted;
use crate::answer::{AuditAnswer, AuditFormat, AuditOptions, fault_text, status_of};
use crate::foreign::{Foreign, find_foreign, foreign_text};
use crate::report::audit_recording;
use crate::stream::{read_stream, submission_at};
use crate::uses::use_report;
use crate::written::Written;
use dsa_settings::Settings;
use std::alloc::{AllocError, Global};

/// What the parts of a recording come to so far.
#[derive(Drop)]
pub(crate) struct Parts {
    /// How many entries they have.
    entries: usize,
    /// The first entry that cannot be a member of its batch. No part after it is audited.
    foreign: Option<Foreign>,
    /// 1 if some finding is an error, else 0.
    status: u8,
    /// The accepted keys that are used.
    used: Accepted,
    written: Written,
}

/// How many bytes the whole submissions at the start of these bytes have.
pub(crate) fn whole_bytes(bytes: &[u8]) -> usize
    ensures { result ≤ length bytes.now }
{
    let (all, _) = bytes.as_chunks::<64>();
    let mut at = 0;
    while at < all.len() {
        let Some(submission) = submission_at(all, at) else {
            return 64 * at;
        };
        at = submission.first + submission.size;
    }
    64 * at
}

/// Passes over a part, of whole submissions.
fn pass(alloc: Global, part: &[u8]) -> Result<(), AllocError>
    ensures { OnOk result ((list : List Submission) × ReadsStream part.now list) }
{
    match read_stream(alloc, part) {
        Ok(_) => Ok(()),
        Err(_) => Err(AllocError),
    }
}

impl Parts {
    /// Those of a recording of which nothing is there yet.
    pub(crate) fn new(alloc: Global) -> Parts
        ensures { (options : AuditOptions) → IsSoFar options [] result }
    {
        Parts {
            entries: 0,
            foreign: None,
            status: 0,
            used: Accepted::none(alloc),
            written: Written::new(alloc),
        }
    }

    /// Adds the report on a part.
    fn add_report(
        &mut self,
        alloc: Global,
        part: &[u8],
        settings: &Settings,
        options: AuditOptions<'_>,
    ) -> Result<(), AllocError>
        ensures foreign { self.new.foreign ≡ self.old.foreign }
        ensures outcome { OnOk result (HasOutcomeAfter options.entry part.now
            self.old.status self.new.status self.old.used self.new.used) }
    {
        match audit_recording(alloc, part, options.accepted, options.assumptions) {
            Ok(report) => {
                let (all, _) = part.as_chunks::<64>();
                self.written.add(alloc, all, &report, settings, options)?;
                use_report(alloc, options, all, &report, &mut self.used)?;
                let status = status_of(alloc, options, all, &report)?;
                if status > self.status {
                    self.status = status;
                }
                Ok(())
            }
            // a part has whole submissions, so there is no other fault
            Err(_) => Err(AllocError),
        }
    }

    /// Adds a part, of whole submissions.
    pub(crate) fn add(
        &mut self,
        alloc: Global,
        part: &[u8],
        settings: &Settings,
        options: AuditOptions<'_>,
    ) -> Result<(), AllocError>
        ensures { OnOk result ((bytes : List ℕ) → IsSoFar options.entry bytes self.old →
            IsSoFar options.entry (bytes ++ part.now) self.new) }
    {
        let before = self.entries;
        self.entries = before.saturating_add(part.len() / 64);
        if self.foreign.is_some() {
            return pass(alloc, part);
        }
        match find_foreign(alloc, part)? {
            Some(found) => {
                self.foreign = Some(Foreign {
                    head: found.head.saturating_add(before),
                    entry: found.entry.saturating_add(before),
                    ..found
                });
                Ok(())
            }
            None => self.add_report(alloc, part, settings, options),
        }
    }

    /// The answer of a recording whose parts these are, and which has an entry.
    fn answer(
        self,
        alloc: Global,
        settings: &Settings,
        options: AuditOptions<'_>,
    ) -> Result<AuditAnswer, AllocError>
        requires { IsStreamed options.format }
        ensures { IfOk result (λ answer. (bytes : List ℕ) → entries bytes ≢ [] →
            IsSoFar options.entry bytes self → AnswersEntries options.entry bytes answer) }
    {
        match self.foreign {
            Some(foreign) => {
                let reason = foreign_text(alloc, foreign)?;
                Ok(AuditAnswer::refused(alloc, reason))
            }
            None => {
                let status = if options.format == AuditFormat::Keys {
                    0
                } else {
                    self.status
                };
                let used = self.used;
                let text = self.written.into_text(alloc, settings, options)?;
                Ok(AuditAnswer { text, status, used })
            }
        }
    }

    /// The answer of a recording whose parts are these and this last one, which may end within a submission. There is
    /// an entry in some of them.
    pub(crate) fn answer_with(
        self,
        alloc: Global,
        last: &[u8],
        settings: &Settings,
        options: AuditOptions<'_>,
    ) -> Result<AuditAnswer, AllocError>
        requires { IsStreamed options.format }
        ensures { IfOk result (λ answer. (bytes : List ℕ) → entries (bytes ++ last.now) ≢ [] →
            IsSoFar options.entry bytes self →
            AnswersEntries options.entry (bytes ++ last.now) answer) }
    {
        match read_stream(alloc, last) {
            Ok(_) => {
                let mut parts = self;
                parts.add(alloc, last, settings, options)?;
                parts.answer(alloc, settings, options)
            }
            Err(fault) => {
                let reason = fault_text(alloc, self.entries, last, fault)?;
                Ok(AuditAnswer::refused(alloc, reason))
            }
        }
    }
}
