//! The ratio by which the glue in a box stretches or shrinks.

ghost use Rattle.std.specs.Prelude.{◌≤ℤ◌, ◌^◌, pos, neg_ℤ};

/// A ratio of whole numbers: the numerator is within 2^32 in absolute value, and the denominator is at least 1
/// ("TeX: The Program", section 135, has a floating-point number in its place).
#[derive(Clone, Copy, Debug, PartialEq, Eq)]
pub struct Ratio {
    /// The numerator.
    pub num: i64,
    /// The denominator.
    pub den: i64,
    pub ghost above: { neg_ℤ (pos (2 ^ 32)) ≤ℤ num },
    pub ghost below: { num ≤ℤ pos (2 ^ 32) },
    pub ghost positive: { pos 1 ≤ℤ den },
}
