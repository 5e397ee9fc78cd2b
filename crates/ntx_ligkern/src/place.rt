//! Where a kern goes.

use ntx_nodes::Field;

/// A place in a list, for a node that is to be made.
#[derive(Clone, Copy)]
pub struct Place {
    /// The node whose link is to lead to it.
    pub at: u64,
    /// That link.
    pub field: Field,
    /// What follows it.
    pub next: Option<u64>,
}

/// A kern between two glyphs, before it is made.
#[derive(Clone, Copy)]
pub struct Kerning {
    /// The name of the glyph on its left, from which it takes the attributes.
    pub left: u64,
    /// Its width in scaled points.
    pub width: i64,
    /// Where it goes.
    pub place: Place,
}
