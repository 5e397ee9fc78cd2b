//! The refusal of a writer of DVI files.

/// The operation would end past the limit on the file's length in bytes.
#[derive(Clone, Copy, Debug, PartialEq, Eq)]
pub struct DviFull;
