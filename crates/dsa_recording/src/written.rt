//! What is written of the findings of a recording that comes in parts.

ghost use Rattle.std.specs.Prelude.{All};
ghost use Rattle.dsa_recording.specs.Freed.{HasAudits};
ghost use Rattle.dsa_recording.specs.Submissions.{IsWithin};
ghost use Rattle.dsa_recording.specs.Totals.{HasSums};

use crate::answer::{AuditFormat, AuditOptions, completeness, is_complete, severity_in};
use crate::costs::costs_text;
use crate::detail::{Detail, detail_of};
use crate::freed::{freed_text, is_needless};
use crate::keys::key_text;
use crate::report::Report;
use crate::report_json::{push_finding, report_json};
use crate::sums::Sums;
use crate::totals::{flaws_text, nothing_text, totals_text};
use crate::words::{Severity, finding_text};
use dsa_settings::Settings;
use std::alloc::{AllocError, Global};
use std::collections::{BTreeMap, BTreeSet};

/// How much of its recording comes before a part.
#[derive(Clone, Copy)]
pub(crate) struct Before {
    /// How many entries.
    pub entries: usize,
    /// How many submissions.
    pub submissions: usize,
}

impl Before {
    /// The detail of a part with the numbers of the recording.
    pub(crate) fn shown(self, detail: &Detail) -> Detail {
        let mut shown = *detail;
        shown.entry = shown.entry.saturating_add(self.entries);
        shown.first = shown.first.saturating_add(self.entries);
        shown.submission = shown.submission.saturating_add(self.submissions);
        shown
    }
}

/// The lines of a finding, and how many findings say the same.
#[derive(Drop)]
struct Lines {
    text: String,
    alike: usize,
}

/// What is written of the parts so far.
#[derive(Drop)]
pub(crate) struct Written {
    before: Before,
    /// The findings in words: each, or the first of each key.
    findings: Vec<Lines>,
    /// For each text of a finding the number of the first finding that has it.
    firsts: BTreeMap<String, usize>,
    /// The keys of the errors.
    keys: BTreeSet<String>,
    /// The findings in JSON, or the keys of the errors.
    text: String,
    sums: Sums,
}

/// What findings have in common of which only the first is written: their key, and of needless fences, whether they are
/// needless before the missing ones are set. `complete`: no fence of the submission is missing.
fn said_text(
    alloc: Global,
    all: &[[u8; 64]],
    detail: &Detail,
    complete: bool,
) -> Result<String, AllocError> {
    let mut said = key_text(alloc, all, detail)?;
    if !complete && is_needless(detail.cause) {
        said.push_str(", once the missing fences are set")?;
    }
    Ok(said)
}

/// Writes how many more findings say the same as one.
fn push_alike(alloc: Global, text: &mut String, alike: usize) -> Result<(), AllocError> {
    if alike <= 1 {
        return Ok(());
    }
    let more = alike - 1;
    text.push_str(&format!(in alloc; "  and {more} more like it (--all writes each)\n")?)
}

impl Written {
    /// That of no part.
    pub(crate) fn new(alloc: Global) -> Written {
        Written {
            before: Before {
                entries: 0,
                submissions: 0,
            },
            findings: Vec::new(alloc),
            firsts: BTreeMap::new(alloc),
            keys: BTreeSet::new(alloc),
            text: String::new(alloc),
            sums: Sums::new(alloc),
        }
    }

    /// Counts a finding at the first that says the same, and answers whether there is one.
    fn is_repeated(&mut self, said: &str) -> bool {
        let Some(first) = self.firsts.get(said) else {
            return false;
        };
        if let Some(finding) = self.findings.get_mut(*first) {
            finding.alike = finding.alike.saturating_add(1);
        }
        true
    }

    /// Adds the lines of a finding, or counts it at the first that says the same.
    fn add_lines(
        &mut self,
        alloc: Global,
        all: &[[u8; 64]],
        detail: &Detail,
        complete: bool,
        options: AuditOptions<'_>,
    ) -> Result<(), AllocError> {
        if !options.every {
            let said = said_text(alloc, all, detail, complete)?;
            if self.is_repeated(&said) {
                return Ok(());
            }
            self.firsts.insert(said, self.findings.len())?;
        }
        let severity = severity_in(alloc, options, all, detail)?;
        let shown = self.before.shown(detail);
        let text = finding_text(alloc, self.before.entries, all, &shown, complete, severity)?;
        self.findings.push(Lines { text, alike: 1 })?;
        Ok(())
    }

    /// Adds a finding in JSON.
    fn add_object(
        &mut self,
        alloc: Global,
        all: &[[u8; 64]],
        detail: &Detail,
        complete: bool,
        options: AuditOptions<'_>,
    ) -> Result<(), AllocError> {
        if !self.text.is_empty() {
            self.text.push_str(",")?;
        }
        let before = self.before;
        push_finding(
            alloc,
            &mut self.text,
            before,
            all,
            detail,
            complete,
            options,
        )
    }

    /// Adds the key of a finding that is an error, if it is not there.
    fn add_key(
        &mut self,
        alloc: Global,
        all: &[[u8; 64]],
        detail: &Detail,
        options: AuditOptions<'_>,
    ) -> Result<(), AllocError> {
        let key = key_text(alloc, all, detail)?;
        let severity = severity_in(alloc, options, all, detail)?;
        if severity == Severity::Error && !self.keys.contains(key.as_str()) {
            self.text.push_str(&key)?;
            self.text.push_str("\n")?;
            self.keys.insert(key)?;
        }
        Ok(())
    }

    /// Adds a finding of a part.
    fn add_finding(
        &mut self,
        alloc: Global,
        all: &[[u8; 64]],
        detail: &Detail,
        complete: bool,
        options: AuditOptions<'_>,
    ) -> Result<(), AllocError> {
        match options.format {
            AuditFormat::Text => self.add_lines(alloc, all, detail, complete, options),
            AuditFormat::Json => self.add_object(alloc, all, detail, complete, options),
            AuditFormat::Keys => self.add_key(alloc, all, detail, options),
            AuditFormat::Picture | AuditFormat::List => Ok(()),
        }
    }

    /// Adds the report on a part, which has these entries.
    pub(crate) fn add(
        &mut self,
        alloc: Global,
        all: &[[u8; 64]],
        report: &Report,
        settings: &Settings,
        options: AuditOptions<'_>,
    ) -> Result<(), AllocError>
        requires sums { HasSums report.now }
        requires within { All (IsWithin all.now) report.now.submissions.items }
        requires audited { HasAudits all.now report.now }
    {
        let complete = completeness(alloc, report)?;
        for finding in &report.findings {
            if let Some(detail) = detail_of(all, report, *finding) {
                let known = is_complete(&complete, detail.submission);
                self.add_finding(alloc, all, &detail, known, options)?;
            }
        }
        if options.format != AuditFormat::Keys {
            self.sums
                .add(alloc, all, report, settings, options.assumptions)?;
        }
        self.before = Before {
            entries: self.before.entries.saturating_add(all.len()),
            submissions: self
                .before
                .submissions
                .saturating_add(report.submissions.len()),
        };
        Ok(())
    }

    /// The findings in words, and what they come to.
    fn in_words(
        &self,
        alloc: Global,
        settings: &Settings,
        options: AuditOptions<'_>,
    ) -> Result<String, AllocError> {
        let mut text = String::new(alloc);
        for finding in &self.findings {
            text.push_str(&finding.text)?;
            push_alike(alloc, &mut text, finding.alike)?;
        }
        let (totals, lacks) = (self.sums.totals, self.sums.lacks);
        text.push_str(&nothing_text(alloc, &totals, options.denied.nothing)?)?;
        text.push_str(&totals_text(alloc, &totals)?)?;
        text.push_str(&flaws_text(alloc, totals.flaws)?)?;
        text.push_str(&costs_text(alloc, settings, &self.sums.costs, &totals, lacks)?)?;
        text.push_str(&freed_text(alloc, options.assumptions, &self.sums.freed)?)?;
        Ok(text)
    }

    /// The text of the answer.
    pub(crate) fn into_text(
        self,
        alloc: Global,
        settings: &Settings,
        options: AuditOptions<'_>,
    ) -> Result<String, AllocError> {
        match options.format {
            AuditFormat::Text => self.in_words(alloc, settings, options),
            AuditFormat::Json => report_json(alloc, &self.text, &self.sums, options.assumptions),
            AuditFormat::Keys | AuditFormat::Picture | AuditFormat::List => Ok(self.text),
        }
    }
}
