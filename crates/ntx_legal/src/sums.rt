//! What the items of a line come to together ("TeX: The Program", sections 823 and 837 to 842).

ghost use Rattle.std.specs.Prelude.{◌≡◌, ◌≤◌, ◌^◌, ◌+ℤ◌, unsigned_abs, [], ◌∷◌};
ghost use Rattle.ntx_item.specs.Items.{AreItemsInRange, max_total};
ghost use Rattle.ntx_item.specs.Sums.{natural_width};
ghost use Rattle.ntx_item.specs.Parameters.{IsGlueInRange};
ghost use Rattle.ntx_item.specs.declared.item.Item.TheVariants.{Glue};
ghost use Rattle.ntx_num.specs.Dimension.{max_dimension};
ghost use Rattle.ntx_legal.specs.LineSums.{shrink_of, sums_of, sums_with, sums_plus, sums_wider, AreSumsWithin};
ghost use Rattle.ntx_legal.specs.Totals.{sums_minus};

use crate::stretch::{GlueStretch, NO_STRETCH, difference, sum};
use ntx_item::{GlueSpec, Item};

/// What items come to together.
#[derive(Clone, Copy, Debug, PartialEq, Eq)]
pub struct Sums {
    /// The natural width, in scaled points.
    pub width: i64,
    /// How far they stretch.
    pub stretch: GlueStretch,
    /// How far they shrink, in scaled points: all shrink counts as finite.
    pub shrink: i64,
}

/// The sums of no items.
pub(crate) const EMPTY: Sums = Sums {
    width: 0,
    stretch: NO_STRETCH,
    shrink: 0,
};

/// How far an item shrinks.
fn shrink_of(item: &Item) -> i64
    ensures { result ≡ shrink_of item.now }
{
    match item {
        Item::Glue { spec } => spec.shrink,
        _ => 0,
    }
}

/// A width with one item more.
fn wider(width: i64, item: &Item) -> i64
    requires { unsigned_abs (width +ℤ natural_width item.now) ≤ max_total }
    ensures { result ≡ width +ℤ natural_width item.now }
{
    width + item.natural_width()
}

/// A shrink with one item more.
fn shrinks_more(shrink: i64, item: &Item) -> i64
    requires { unsigned_abs (shrink +ℤ shrink_of item.now) ≤ max_total }
    ensures { result ≡ shrink +ℤ shrink_of item.now }
{
    shrink + shrink_of(item)
}

impl Sums {
    /// The sums with one item more.
    pub(crate) fn with(self, item: &Item) -> Sums
        requires { AreSumsWithin max_total (sums_with self item.now) }
        ensures { result ≡ sums_with self item.now }
    {
        Sums {
            width: wider(self.width, item),
            stretch: self.stretch.with(item),
            shrink: shrinks_more(self.shrink, item),
        }
    }

    /// The sums of both together.
    pub(crate) fn plus(self, other: Sums) -> Sums
        requires { AreSumsWithin (2 ^ 62) (sums_plus self other) }
        ensures { result ≡ sums_plus self other }
    {
        Sums {
            width: sum(self.width, other.width),
            stretch: self.stretch.plus(other.stretch),
            shrink: sum(self.shrink, other.shrink),
        }
    }

    /// The sums without others.
    pub(crate) fn minus(self, other: Sums) -> Sums
        requires { AreSumsWithin (2 ^ 62) (sums_minus self other) }
        ensures { result ≡ sums_minus self other }
    {
        Sums {
            width: difference(self.width, other.width),
            stretch: self.stretch.minus(other.stretch),
            shrink: difference(self.shrink, other.shrink),
        }
    }

    /// The sums with a further width.
    pub(crate) fn wider_by(self, width: i64) -> Sums
        requires { unsigned_abs (self.width +ℤ width) ≤ 2 ^ 62 }
        ensures { result ≡ sums_wider self width }
    {
        Sums {
            width: sum(self.width, width),
            ..self
        }
    }

    /// The sums of one glue.
    pub(crate) fn of_glue(spec: GlueSpec) -> Sums
        requires { IsGlueInRange spec }
        ensures value { result ≡ sums_of (Glue spec ∷ []) }
        ensures bound { AreSumsWithin max_dimension result }
    {
        EMPTY.with(&Item::Glue { spec })
    }
}

/// What these items come to together.
pub(crate) fn sums_of(items: &[Item]) -> Sums
    requires { AreItemsInRange items.now }
    ensures value { result ≡ sums_of items.now }
    ensures in_range { AreSumsWithin max_total result }
{
    let mut sums = EMPTY;
    for item in items {
        sums = sums.with(item);
    }
    sums
}
