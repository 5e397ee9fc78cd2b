//! What a step of a program does.

/// What a font says of two characters that stand side by side.
#[derive(Clone, Copy, Debug, PartialEq, Eq)]
pub enum Pair {
    /// Nothing.
    None,
    /// A kern between them in scaled points, from `pair` within 2^30 - 1 in absolute value.
    Kern(i64),
    /// A ligature: its operation, from `pair` one of 0 to 3, 5 to 7 and 11, and its character, from `pair` one of the
    /// font.
    Lig(u8, u8),
}
