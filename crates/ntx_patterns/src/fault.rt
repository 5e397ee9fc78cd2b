//! Why a file of patterns is refused.

/// A word of the file is no pattern.
#[derive(Clone, Copy, Debug, PartialEq, Eq)]
pub struct PatternFault {
    /// The number of the first such word's line, from 1.
    pub line: u64,
}
