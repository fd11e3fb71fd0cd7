//! What an audit assumes of the software that submitted a recording.

use serde::Serialize;

/// What software looks at to learn that a member of a batch has ended.
#[derive(Clone, Copy, PartialEq, Eq, Serialize)]
#[serde(rename_all = "lowercase")]
pub enum Await {
    /// Anything that a member writes: also data, as a ready flag that another thread polls.
    Writes,
    /// Completion records and interrupts. It looks at data only after one of these says so.
    Signals,
    /// The completion records of batches, lone descriptors and no-ops, and interrupts, alone.
    Batches,
}

/// What is assumed of the software. The less it is, the more fences an audit keeps.
#[derive(Clone, Copy, PartialEq, Eq, Serialize)]
pub struct Assumptions {
    /// What it looks at.
    #[serde(rename = "await")]
    pub awaited: Await,
    /// Whether all memory is resident, so that no member ends with a page fault.
    pub resident: bool,
}
