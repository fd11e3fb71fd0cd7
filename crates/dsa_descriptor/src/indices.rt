//! The indices that a refusal names.

/// The indices that a refusal names, in their order.
#[derive(Clone, Copy)]
pub enum Indices {
    /// None.
    Empty,
    /// One.
    One(u64),
    /// Two.
    Two(u64, u64),
}
