//! Why a parameter is not set.

/// The value is outside the parameter's range.
#[derive(Clone, Copy, Debug, PartialEq, Eq)]
pub struct OutOfRange;
