//! The pieces of a page.

/// A character that stands on a page. Distances are in scaled points, from the upper left corner of the page.
#[derive(Clone, Copy, Debug, PartialEq, Eq)]
pub struct GlyphMark {
    /// How far to the right its reference point is.
    pub h: i32,
    /// How far down.
    pub v: i32,
    /// The number of its font.
    pub font: u8,
    /// Its code.
    pub code: u8,
    /// Its width.
    pub width: i32,
}

/// A rule that stands on a page. Distances are in scaled points, from the upper left corner of the page.
#[derive(Clone, Copy, Debug, PartialEq, Eq)]
pub struct RuleMark {
    /// How far to the right its left lower corner is.
    pub h: i32,
    /// How far down.
    pub v: i32,
    /// How far it reaches up from there, above 0.
    pub height: i32,
    /// Its width, above 0.
    pub width: i32,
}

/// A piece of a page: a mark, or the beginning or the end of a box that holds one.
#[derive(Clone, Copy, Debug, PartialEq, Eq)]
pub enum Piece {
    /// A box begins.
    Push,
    /// The box that began last ends.
    Pop,
    /// A character.
    Glyph(GlyphMark),
    /// A rule.
    Rule(RuleMark),
}
