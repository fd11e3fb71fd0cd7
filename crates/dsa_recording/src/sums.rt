//! What the parts of a recording come to, in numbers.

ghost use Rattle.std.specs.Prelude.{All};
ghost use Rattle.dsa_recording.specs.Freed.{HasAudits};
ghost use Rattle.dsa_recording.specs.Submissions.{IsWithin};
ghost use Rattle.dsa_recording.specs.Totals.{HasSums};

use crate::assumptions::Assumptions;
use crate::costs::{Costs, costs_of};
use crate::detail::has_all_fences;
use crate::freed::{Freed, freed_by};
use crate::report::Report;
use crate::submission::Audited;
use crate::totals::{Totals, totals_of};
use dsa_settings::Settings;
use std::alloc::{AllocError, Global};

/// The numbers of all parts so far.
#[derive(Drop)]
pub(crate) struct Sums {
    /// What was submitted, and what is found.
    pub totals: Totals,
    /// Whether a fence is missing that is not accepted.
    pub lacks: bool,
    /// What it costs.
    pub costs: Costs,
    /// How many more fences would be needless under further assumptions; empty if no fence guards or signals.
    pub freed: Vec<Freed>,
}

/// The totals of two parts.
fn both_totals(one: Totals, other: Totals) -> Totals {
    Totals {
        batches: one.batches.saturating_add(other.batches),
        lone: one.lone.saturating_add(other.lone),
        descriptors: one.descriptors.saturating_add(other.descriptors),
        unseen: one.unseen.saturating_add(other.unseen),
        fences: one.fences.saturating_add(other.fences),
        missing: one.missing.saturating_add(other.missing),
        needless: one.needless.saturating_add(other.needless),
        guarding: one.guarding.saturating_add(other.guarding),
        signalling: one.signalling.saturating_add(other.signalling),
        flaws: one.flaws.saturating_add(other.flaws),
    }
}

/// Whether one of the submissions lacks a fence, once the accepted pairs are taken out.
fn lack_some(audits: &[Audited]) -> bool {
    audits.iter().any(|audited| !has_all_fences(audited))
}

/// The costs of two parts.
fn both_costs(one: Costs, other: Costs) -> Costs {
    Costs {
        recorded: one.recorded.saturating_add(other.recorded),
        corrected: one.corrected.saturating_add(other.corrected),
        reduced: one.reduced.saturating_add(other.reduced),
        unpriced: one.unpriced.saturating_add(other.unpriced),
    }
}

/// Adds what a part frees. Each part that frees fences does so under the same assumptions, in the same order.
fn add_freed(all: &mut Vec<Freed>, part: Vec<Freed>) {
    if all.is_empty() {
        *all = part;
        return;
    }
    for (sum, more) in all.iter_mut().zip(part.iter()) {
        sum.fences = sum.fences.saturating_add(more.fences);
    }
}

impl Sums {
    /// Those of no part.
    pub(crate) fn new(alloc: Global) -> Sums {
        Sums {
            totals: Totals {
                batches: 0,
                lone: 0,
                descriptors: 0,
                unseen: 0,
                fences: 0,
                missing: 0,
                needless: 0,
                guarding: 0,
                signalling: 0,
                flaws: 0,
            },
            lacks: false,
            costs: Costs {
                recorded: 0,
                corrected: 0,
                reduced: 0,
                unpriced: 0,
            },
            freed: Vec::new(alloc),
        }
    }

    /// Adds those of a part, which has these entries.
    pub(crate) fn add(
        &mut self,
        alloc: Global,
        all: &[[u8; 64]],
        report: &Report,
        settings: &Settings,
        assumptions: Assumptions,
    ) -> Result<(), AllocError>
        requires sums { HasSums report.now }
        requires within { All (IsWithin all.now) report.now.submissions.items }
        requires audited { HasAudits all.now report.now }
    {
        self.totals = both_totals(self.totals, totals_of(report));
        self.lacks = self.lacks || lack_some(&report.audits);
        self.costs = both_costs(self.costs, costs_of(settings, report));
        let freed = freed_by(alloc, all, report, assumptions)?;
        add_freed(&mut self.freed, freed);
        Ok(())
    }
}
