//! Certificates.

/// What is offered to prove that no legal plan costs less than the last of its prices. A checker says whether it does.
#[derive(Drop, PartialEq, Eq)]
pub struct Certificate {
    /// The version of the settings that it was made for.
    pub version: u64,
    /// The price of the first 0, 1, .. pieces.
    pub prices: Vec<u64>,
    /// For each piece two pieces, by their numbers, that are said to conflict, or none.
    pub pairs: Vec<Option<(u32, u32)>>,
}
