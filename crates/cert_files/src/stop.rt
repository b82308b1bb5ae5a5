//! Why the lines of a file can't go on.
//!
//! A source of lines answers only that it stopped. These types keep the reason beside it: a failed fetch, a file that
//! is too long, or out of memory.

/// Whether the lines of a file can go on, and why not.
#[derive(Clone, Copy, Debug, PartialEq, Eq)]
pub(crate) enum Stop {
    /// They can.
    Going,
    /// A fetch failed.
    Failed,
    /// The file has more bytes than the limit.
    TooLong,
    /// Memory is wanting.
    Memory,
}

/// What became of the next line.
#[derive(Clone, Copy, Debug, PartialEq, Eq)]
pub(crate) enum Next {
    /// It was taken.
    Line,
    /// No LF is left.
    End,
    /// A fetch failed.
    Failed,
    /// The file has more bytes than the limit.
    TooLong,
    /// Memory is wanting.
    Memory,
}

/// What became of the next piece.
#[derive(Clone, Copy, Debug, PartialEq, Eq)]
pub(crate) enum Refill {
    /// It came.
    More,
    /// The file has no more bytes.
    End,
    /// A fetch failed.
    Failed,
    /// The file has more bytes than the limit.
    TooLong,
}

/// What became of the bytes that wait.
#[derive(Clone, Copy, Debug, PartialEq, Eq)]
pub(crate) enum Part {
    /// A line ended.
    Line,
    /// All were taken, and no line ended.
    Open,
    /// Memory is wanting.
    Memory,
}

/// What stands behind what was read of a file.
#[derive(Clone, Copy, Debug, PartialEq, Eq)]
pub(crate) enum Rest {
    /// Nothing.
    Nothing,
    /// A byte at least.
    More,
    /// The file has more bytes than the limit.
    TooLong,
    /// A fetch failed.
    Failed,
}
