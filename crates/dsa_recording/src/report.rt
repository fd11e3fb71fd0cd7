//! The report on a recording.

ghost use Rattle.std.specs.Prelude.{◌≡◌, ◌≢◌, ◌⊎◌, List, MatchResult};
ghost use Rattle.dsa_recording.specs.declared.stream.Submission.{Submission};
ghost use Rattle.dsa_recording.specs.declared.stream.StreamFault.{StreamFault};
ghost use Rattle.dsa_recording.specs.declared.stream.StreamFault.TheVariants.{Memory};
ghost use Rattle.dsa_recording.specs.Streams.{ReadsStream, IsStreamFault};
ghost use Rattle.dsa_recording.specs.Pairs.{terms};
ghost use Rattle.dsa_recording.specs.Reports.{IsReport, reported_by};

use crate::accepted::Accepted;
use crate::assumptions::Assumptions;
use crate::findings::{Finding, findings_of};
use crate::stream::{StreamFault, Submission, read_stream};
use crate::submission::{Audited, audit_submissions};
use std::alloc::Global;

/// What was submitted, and what is found.
#[derive(Drop)]
pub struct Report {
    /// The submissions, in order.
    pub submissions: Vec<Submission>,
    /// The fences of each, audited.
    pub audits: Vec<Audited>,
    /// All that is found, in order.
    pub findings: Vec<Finding>,
}

/// The submissions of a recording, an audit of each under the assumptions that accepts these keys, and what these find.
///
/// # Errors
/// Those of [`read_stream`].
pub fn audit_recording(
    alloc: Global,
    bytes: &[u8],
    accepted: &Accepted,
    assumptions: Assumptions,
) -> Result<Report, StreamFault>
    ensures answer { MatchResult result
        (λ r. IsReport (terms accepted.now assumptions) bytes.now (reported_by r))
        (IsStreamFault bytes.now) }
    ensures only { (list : List Submission) → ReadsStream bytes.now list →
        MatchResult result (λ r. r.submissions.items ≡ list) (λ fault. fault ≡ Memory) }
    ensures refused { (fault : StreamFault) → fault ≢ Memory → IsStreamFault bytes.now fault →
        MatchResult result (λ _. ⊥) (λ other. (other ≡ fault) ⊎ (other ≡ Memory)) }
{
    let submissions = match read_stream(alloc, bytes) {
        Ok(submissions) => submissions,
        Err(fault) => return Err(fault),
    };
    let (all, _) = bytes.as_chunks::<64>();
    let audits = audit_submissions(alloc, all, accepted, assumptions, &submissions)?;
    let findings = findings_of(alloc, &audits)?;
    Ok(Report {
        submissions,
        audits,
        findings,
    })
}
