//! Where pieces come from: which piece of which operation each is, and what the operations are called.

/// The operation that a piece is of, and which of its pieces.
#[derive(Clone, Copy)]
pub struct Origin {
    /// The index of the operation.
    pub operation: usize,
    /// Which of its pieces this is, from 1 on.
    pub piece: usize,
    /// How many pieces it has.
    pub pieces: usize,
}

/// The operation that each piece is of, and the names of the operations.
#[derive(Clone, Copy)]
pub struct Labels<'a> {
    /// The origin of each piece; empty if no operations are known.
    pub origins: &'a [Origin],
    /// The name of each operation, empty if it has none.
    pub names: &'a [String],
}
