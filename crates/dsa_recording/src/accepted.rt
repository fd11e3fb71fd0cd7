//! Findings that are accepted.

ghost use Rattle.std.specs.Prelude.{◌≡◌, ◌↔◌, ◌⊎◌, ℕ, List, true, false, cond, IfOk, IsTrue, OnOk, string_bytes};
ghost use Rattle.std.specs.Str.{bytes_eq};
ghost use Rattle.dsa_recording.specs.Accepted.{AcceptsLines, HasLines, IsAccepted};
ghost use Rattle.dsa_recording.specs.Details.{IsPlaced};
ghost use Rattle.dsa_recording.specs.Pairs.{has_key};
ghost use Rattle.dsa_recording.specs.Reports.{reported_by};

use crate::detail::detail_of;
use crate::findings::Finding;
use crate::keys::key_text;
use crate::report::Report;
use std::alloc::{AllocError, Global};
use std::collections::BTreeSet;

/// The keys of the findings that are accepted: they are no errors.
#[derive(Drop)]
pub struct Accepted {
    /// The keys.
    pub keys: BTreeSet<String>,
    /// The lines of the file that has them, in order.
    pub lines: Vec<String>,
}

impl Accepted {
    /// None.
    pub fn none(alloc: Global) -> Accepted
        ensures { (key : List ℕ) → has_key result key ≡ false }
    {
        Accepted {
            keys: BTreeSet::new(alloc),
            lines: Vec::new(alloc),
        }
    }

    /// Those whose keys are the lines of the text. Other lines, as comments, are no keys, and change nothing.
    pub fn read(alloc: Global, text: &str) -> Result<Accepted, AllocError>
        ensures keys { IfOk result (AcceptsLines text.now) }
        ensures lines { IfOk result (HasLines text.now) }
    {
        let mut keys = BTreeSet::new(alloc);
        let mut lines = Vec::new(alloc);
        let mut rest = text;
        while let Some((line, after)) = rest.split_once('\n') {
            keys.insert(String::from_str(alloc, line)?)?;
            lines.push(String::from_str(alloc, line)?)?;
            rest = after;
        }
        keys.insert(String::from_str(alloc, rest)?)?;
        lines.push(String::from_str(alloc, rest)?)?;
        Ok(Accepted { keys, lines })
    }

    /// Adds a key that has no line.
    pub fn add(&mut self, alloc: Global, key: &str) -> Result<(), AllocError>
        ensures { OnOk result ((other : List ℕ) → has_key self.new other ≡
            cond (bytes_eq key.now other) true (has_key self.old other)) }
    {
        self.keys.insert(String::from_str(alloc, key)?)?;
        Ok(())
    }

    /// Adds the keys of another set, without their lines.
    pub fn add_all(&mut self, other: Accepted) -> Result<(), AllocError>
        ensures { OnOk result ((key : List ℕ) → (has_key self.new key ≡ true)
            ↔ ((has_key self.old key ≡ true) ⊎ (has_key other key ≡ true))) }
    {
        let mut keys = other.keys;
        self.keys.append(&mut keys)
    }

    /// Whether the key is accepted.
    pub fn has(&self, key: &str) -> bool
        ensures { result ≡ has_key self.now key.now }
    {
        self.keys.contains(key)
    }
}

/// Whether a finding of a report on these entries is accepted.
pub(crate) fn is_accepted(
    alloc: Global,
    accepted: &Accepted,
    all: &[[u8; 64]],
    report: &Report,
    finding: Finding,
) -> Result<bool, AllocError>
    requires { IsPlaced all.now (reported_by report.now) finding }
    ensures { IfOk result (λ yes. IsTrue yes ↔
        IsAccepted accepted.now all.now (reported_by report.now) finding) }
{
    match detail_of(all, report, finding) {
        Some(detail) => {
            let key = key_text(alloc, all, &detail)?;
            Ok(accepted.has(&key))
        }
        None => Ok(false),
    }
}
