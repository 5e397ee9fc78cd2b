//! The items of a list: its nodes without what packing and line breaking do not look at ("TeX: The Program", sections
//! 135 to 161).

ghost use Rattle.std.specs.Prelude.{◌≡◌};
ghost use Rattle.ntx_item.specs.Items.{PartsAreInRange};
ghost use Rattle.ntx_item.specs.Sums.{natural_width, amount_in, SumsAddOverParts, SumsAreBounded};

use crate::glue::GlueSpec;
use crate::glue_change::GlueChange;
use ntx_num::Size;

/// One item of a list. All sizes are in scaled points.
///
/// A list of items is in range where it has at most 2^18 of them, no penalty is beyond 2^31-1 in absolute value, no order
/// of glue is above 3, and the absolute values of all widths come to at most 2^48, as do those of all stretches and those
/// of all shrinks, whatever their orders. A discretionary counts with the widths of its three parts there.
#[derive(Clone, Copy, Debug, PartialEq, Eq)]
pub enum Item {
    /// An hlist or a vlist, moved down in an hlist and to the right in a vlist by `shift`.
    Box {
        size: Size,
        shift: i64,
    },
    /// A character of a font.
    Glyph {
        size: Size,
    },
    /// A black box.
    Rule {
        size: Size,
    },
    /// A space that can stretch and shrink.
    Glue {
        spec: GlueSpec,
    },
    /// A fixed space. `font` says that it comes from a font's kerning, and is not explicit.
    Kern {
        w: i64,
        font: bool,
    },
    /// What a break here costs.
    Penalty {
        p: i64,
    },
    /// A discretionary break: the size of what stands before and after the break, and of what stands here without a
    /// break, whether the first two are empty lists, and whether it comes from hyphenation.
    Disc {
        pre: Size,
        post: Size,
        replace: Size,
        pre_empty: bool,
        post_empty: bool,
        regular: bool,
    },
}

impl Item {
    /// The natural width in scaled points; of a discretionary that of what stands there without a break.
    pub fn natural_width(&self) -> i64
        ensures { result ≡ natural_width self.now }
    {
        match self {
            Item::Box { size, .. } | Item::Glyph { size } | Item::Rule { size } => size.w,
            Item::Glue { spec } => spec.width,
            Item::Kern { w, .. } => *w,
            Item::Penalty { .. } => 0,
            Item::Disc { replace, .. } => replace.w,
        }
    }

    /// How far the item stretches or shrinks as glue of this order, in scaled points or units of the order; 0 where it is
    /// no glue of the order.
    pub fn amount_in(&self, change: GlueChange, order: u8) -> i64
        ensures { result ≡ amount_in change order self.now }
    {
        match self {
            Item::Glue { spec } if spec.order(change) == order => spec.amount(change),
            _ => 0,
        }
    }
}

/// The law that of items in range the first ones and the others are in range, and each is bounded.
pub fn parts_are_in_range()
    ensures { PartsAreInRange }
{}

/// The law that a sum over a list is the sum over its parts, so that a sum between two places is the difference of two sums
/// over prefixes.
pub fn sums_add_over_parts()
    ensures { SumsAddOverParts }
{}

/// The law that a sum over items, with its signs, is no greater than the sum of the absolute values.
pub fn sums_are_bounded()
    ensures { SumsAreBounded }
{}
