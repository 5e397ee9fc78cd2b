//! The size that a box is packed to ("TeX: The Program", section 644).

/// The size that a box is packed to. Any number may stand here; packing refuses a size beyond 2^30-1 in absolute value.
#[derive(Clone, Copy, Debug, PartialEq, Eq)]
pub enum PackTo {
    /// This size, in scaled points.
    Exactly(i64),
    /// The natural size and this much more, in scaled points.
    Additional(i64),
}
