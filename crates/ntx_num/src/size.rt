//! The three sizes that TeX gives to boxes, rules and characters ("TeX: The Program", section 135).

/// A width, a height above the baseline and a depth below it, each in scaled points.
#[derive(Clone, Copy, Debug, PartialEq, Eq, Default)]
pub struct Size {
    /// The width in scaled points.
    pub w: i64,
    /// The height above the baseline in scaled points.
    pub h: i64,
    /// The depth below the baseline in scaled points.
    pub d: i64,
}
