//! The list that is being built.

/// The first and the last node of a list.
#[derive(Clone, Copy, Debug, PartialEq, Eq)]
pub struct Ends {
    /// The first node.
    pub head: u64,
    /// The last node.
    pub tail: u64,
}
