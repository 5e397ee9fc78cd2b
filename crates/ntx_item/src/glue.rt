//! Glue ("TeX: The Program", sections 149 and 150).

ghost use Rattle.std.specs.Prelude.{◌≡◌, ◌↔◌, IsTrue};
ghost use Rattle.ntx_item.specs.Sums.{amount_of, order_of};
ghost use Rattle.ntx_item.specs.Parameters.{IsGlueInRange, is_glue_in_range};

use crate::glue_change::GlueChange;
use ntx_num::{MAX_ORDER, is_dimension};

/// A space that can stretch and shrink. An order is 0 for finite amounts, and 1 to 3 for ever stronger infinite ones,
/// TeX's fil, fill and filll, which are counted in units of 2^-16.
#[derive(Clone, Copy, Debug, PartialEq, Eq, Default)]
pub struct GlueSpec {
    /// The natural width in scaled points.
    pub width: i64,
    /// How far it stretches, in scaled points or units of its order.
    pub stretch: i64,
    /// The order of the stretch.
    pub stretch_order: u8,
    /// How far it shrinks, in scaled points or units of its order.
    pub shrink: i64,
    /// The order of the shrink.
    pub shrink_order: u8,
}

impl GlueSpec {
    /// How far it stretches or shrinks, in scaled points or units of its order.
    pub fn amount(&self, change: GlueChange) -> i64
        ensures { result ≡ amount_of change self.now }
    {
        match change {
            GlueChange::Stretch => self.stretch,
            GlueChange::Shrink => self.shrink,
        }
    }

    /// The order of its stretch or shrink.
    pub fn order(&self, change: GlueChange) -> u8
        ensures { result ≡ order_of change self.now }
    {
        match change {
            GlueChange::Stretch => self.stretch_order,
            GlueChange::Shrink => self.shrink_order,
        }
    }

    /// Whether a parameter may be set to this glue: its width, stretch and shrink are within 2^30-1 in absolute value,
    /// and its orders are at most 3.
    pub fn is_in_range(&self) -> bool
        ensures in_range { IsTrue result ↔ IsGlueInRange self.now }
        ensures test { result ≡ is_glue_in_range self.now }
    {
        is_dimension(self.width)
            && is_dimension(self.stretch)
            && self.stretch_order <= MAX_ORDER
            && is_dimension(self.shrink)
            && self.shrink_order <= MAX_ORDER
    }
}
