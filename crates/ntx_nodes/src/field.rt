//! Names of fields, and what a field holds.

/// A field of a node. Each kind has some of them. A width, a height, a depth, a shift, a stretch, a shrink and a kern are
/// within 2^30-1 in absolute value.
#[derive(Clone, Copy, Debug, PartialEq, Eq)]
pub enum Field {
    /// Of every kind: a number from 0 to 255, of a disc from 0 to 3.
    Subtype,
    /// Of every kind: the node that follows in the list.
    Next,
    /// Of a box or a rule a width, of a glue its natural width, in scaled points.
    Width,
    /// The height of a box or a rule above the baseline, in scaled points.
    Height,
    /// The depth of a box or a rule below the baseline, in scaled points.
    Depth,
    /// How far a box is moved down, or in a vertical list to the right, in scaled points.
    Shift,
    /// The first node in a box.
    List,
    /// 0 where the glue in a box keeps its natural width, 1 where it stretches, 2 where it shrinks. `set_ratio` alone sets it.
    GlueSign,
    /// The order of the glue that stretches or shrinks, from 0 to 3. `set_ratio` alone sets it.
    GlueOrder,
    /// The numerator of the ratio by which it does, within 2^32 in absolute value. `set_ratio` alone sets it.
    GlueNum,
    /// The denominator of that ratio, at least 1. `set_ratio` alone sets it.
    GlueDen,
    /// The first node of what stands before a break at a disc.
    Pre,
    /// The first node of what stands after a break at a disc.
    Post,
    /// The first node of what stands there with no break.
    Replace,
    /// How much a glue may stretch, in scaled points or, of a higher order, in units of 2^-16.
    Stretch,
    /// The order of that, from 0 to 3.
    StretchOrder,
    /// How much a glue may shrink, as its stretch.
    Shrink,
    /// The order of that, from 0 to 3.
    ShrinkOrder,
    /// The size of a kern in scaled points.
    Kern,
    /// The cost of a break at a penalty, within 2^31-1 in absolute value.
    Penalty,
    /// The code of a glyph's character, from 0 to 255.
    Char,
    /// The number of a glyph's font, from 0 to 63.
    Font,
}

/// What a field holds.
#[derive(Clone, Copy, Debug, PartialEq, Eq)]
pub enum FieldValue {
    /// A number. `Field` states its unit and its range.
    Number(i64),
    /// The name of a node, or nothing.
    Link(Option<u64>),
}
