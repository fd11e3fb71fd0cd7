//! What a picture shows: operations in their groups, with the fences before them.

use dsa_ranges::Touched;

/// What is submitted at once: a batch, or an operation alone.
#[derive(Drop)]
pub struct Group {
    /// Which of all groups it is.
    pub number: usize,
    /// What a browser shows of it under the pointer.
    pub title: String,
    /// Its number, as `group 0`.
    pub name: String,
    /// What it is, as `batch of 2`.
    pub kind: String,
    /// What it costs, as `cost 14`.
    pub cost: String,
    /// How many operations it has.
    pub size: usize,
    /// Whether it begins after a barrier.
    pub has_barrier: bool,
}

/// An operation, which has a column.
#[derive(Drop)]
pub struct Column {
    /// Its number, as it is named elsewhere.
    pub number: usize,
    /// Its name.
    pub name: String,
    /// What a browser shows of it under the pointer.
    pub title: String,
    /// Its transfer size.
    pub size: u32,
    /// What it reads and writes, if it is looked at.
    pub touched: Option<Touched>,
    /// Whether the first span that it writes is its completion record.
    pub has_record: bool,
    /// Of which split operation it is a piece, if it is one.
    pub split: Option<usize>,
}

/// What is to be said of a fence.
#[derive(Clone, Copy)]
pub enum BarKind {
    /// A conflict or a barrier needs it.
    Needed,
    /// It is not there.
    Missing,
    /// It may go.
    Needless,
    /// No conflict needs it, but it guards or signals.
    Kept,
    /// It orders nothing: its operation is the first of its group.
    NoEffect {
        /// Whether that is an error.
        is_error: bool,
    },
    /// It is none: the operation is submitted before an earlier one, of another group, is known to have ended.
    MissingWait {
        /// Whether that is an error.
        is_error: bool,
    },
}

/// Two operations that a fence or a wait separates, and an address at which they conflict.
#[derive(Clone, Copy)]
pub struct Separated {
    /// The column of the earlier.
    pub earlier: usize,
    /// The column of the later.
    pub later: usize,
    /// The address.
    pub address: u64,
}

/// A fence, or the place of one or of a wait that is missing.
#[derive(Drop)]
pub struct Bar {
    /// The column that it is before.
    pub column: usize,
    /// What is to be said of it.
    pub kind: BarKind,
    /// What a browser shows of it under the pointer.
    pub title: String,
    /// What is written below it.
    pub words: String,
    /// The conflict that it is about, if it is about one.
    pub separated: Option<Separated>,
}

/// An operation that is split into pieces, each of which has a column.
#[derive(Drop)]
pub struct Split {
    /// Its number.
    pub operation: usize,
    /// Its name, without the number of a piece.
    pub name: String,
}

/// The name of the buffer that has an address.
#[derive(Drop)]
pub struct Buffer {
    /// The address.
    pub address: u64,
    /// The name.
    pub name: String,
}

/// What a picture shows.
#[derive(Drop)]
pub struct Layout<'a> {
    /// The title of the picture.
    pub title: String,
    /// The groups, in order.
    pub groups: Vec<Group>,
    /// The operations of all groups, in order.
    pub columns: Vec<Column>,
    /// The operations that are split into several columns.
    pub splits: Vec<Split>,
    /// The fences, and the missing waits, by their columns.
    pub bars: Vec<Bar>,
    /// The names of buffers.
    pub buffers: &'a [Buffer],
    /// The lines at the end.
    pub notes: Vec<String>,
}

impl Layout<'_> {
    /// The name of a split operation.
    pub(crate) fn split_name(&self, operation: usize) -> Option<&str> {
        for split in &self.splits {
            if split.operation == operation {
                return Some(&split.name);
            }
        }
        None
    }
}

impl Bar {
    /// Whether it is a missing wait that is no error.
    pub(crate) fn is_accepted_wait(&self) -> bool {
        match self.kind {
            BarKind::MissingWait { is_error } => !is_error,
            BarKind::Needed
            | BarKind::Missing
            | BarKind::Needless
            | BarKind::Kept
            | BarKind::NoEffect { .. } => false,
        }
    }

    /// Whether the fence is there.
    pub(crate) fn is_set(&self) -> bool {
        match self.kind {
            BarKind::Needed | BarKind::Needless | BarKind::Kept | BarKind::NoEffect { .. } => true,
            BarKind::Missing | BarKind::MissingWait { .. } => false,
        }
    }
}
