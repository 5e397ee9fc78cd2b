//! What a document asks for.

use ntx_item::{GlueParam, GlueSpec, PackTo, Param};
use ntx_num::Size;
use sqlite_items::Items;

/// One command of a document. A dimension is a length within 2^30-1 scaled points in absolute value. The ranges named here
/// are those of the commands that `read_doc` gives.
#[derive(Drop)]
pub enum Command {
    /// Sets a parameter that is a number, to a value that it accepts. It stands outside of boxes alone.
    Set(Param, i64),
    /// Sets a parameter that is glue. The width is a dimension. Stretch and shrink are within 2^30-1 in absolute value, in scaled points or in
    /// units of their order; the orders are from 0 to 3. It stands outside of boxes alone.
    SetGlue(GlueParam, GlueSpec),
    /// Gives the attribute of this number, from 0 to 65535, this value, from -2147483646 to 2147483647, on the nodes that are
    /// made from here on.
    Attr(i64, i64),
    /// Takes the attribute of this number, from 0 to 65535, from the nodes that are made from here on.
    NoAttr(i64),
    /// A horizontal box.
    HBox {
        /// The width that the box is packed to, or what is added to its natural width; a dimension.
        to: PackTo,
        /// The commands between `hbox` and its `end`. At most 20 boxes stand in one another, the outermost included.
        body: Items<Command>,
    },
    /// Glue, with the ranges of `SetGlue`. It stands in a box.
    Glue(GlueSpec),
    /// An explicit kern of this width, a dimension. It stands in a box.
    Kern(i64),
    /// A penalty, within 2^31-1 in absolute value. It stands in a box.
    Penalty(i64),
    /// A rule. Its width, height and depth are dimensions. It stands in a box.
    Rule(Size),
    /// A character. It stands in a box.
    Glyph {
        /// The number of its font, from 0 to 63 and below the number of fonts.
        font: u8,
        /// The character's code, from 0 to 255. Whether the font has it is not looked at.
        code: u8,
    },
    /// The space glue of a font. It stands in a box.
    Space {
        /// The number of the font, from 0 to 63 and below the number of fonts.
        font: u8,
    },
}
