//! How far the glue of a line stretches ("TeX: The Program", sections 150 and 838).

ghost use Rattle.std.specs.Prelude.{◌≡◌, ◌≤◌, ◌^◌, ◌+ℤ◌, ◌-ℤ◌, unsigned_abs};
ghost use Rattle.ntx_item.specs.Items.{max_total};
ghost use Rattle.ntx_item.specs.Sums.{amount_in};
ghost use Rattle.ntx_item.specs.declared.glue_change.GlueChange.TheVariants.{Stretch};
ghost use Rattle.ntx_legal.specs.LineSums.{stretch_with, stretch_plus};
ghost use Rattle.ntx_legal.specs.Totals.{stretch_minus};

use ntx_item::{GlueChange, Item};

/// How far items stretch together, order by order.
#[derive(Clone, Copy, Debug, PartialEq, Eq)]
pub struct GlueStretch {
    /// The finite stretch, in scaled points.
    pub normal: i64,
    /// The stretch of order 1, in units of 2^-16 fil.
    pub fil: i64,
    /// The stretch of order 2.
    pub fill: i64,
    /// The stretch of order 3.
    pub filll: i64,
}

/// No stretch.
pub(crate) const NO_STRETCH: GlueStretch = GlueStretch {
    normal: 0,
    fil: 0,
    fill: 0,
    filll: 0,
};

/// The sum of two numbers.
pub(crate) fn sum(a: i64, b: i64) -> i64
    requires { unsigned_abs (a +ℤ b) ≤ 2 ^ 62 }
    ensures { result ≡ a +ℤ b }
{
    a + b
}

/// The difference of two numbers.
pub(crate) fn difference(a: i64, b: i64) -> i64
    requires { unsigned_abs (a -ℤ b) ≤ 2 ^ 62 }
    ensures { result ≡ a -ℤ b }
{
    a - b
}

/// The stretch of one order with one item more.
fn more(total: i64, order: u8, item: &Item) -> i64
    requires { unsigned_abs (total +ℤ amount_in Stretch order item.now) ≤ max_total }
    ensures { result ≡ total +ℤ amount_in Stretch order item.now }
{
    total + item.amount_in(GlueChange::Stretch, order)
}

impl GlueStretch {
    /// The stretch with one item more.
    pub(crate) fn with(self, item: &Item) -> GlueStretch
        requires normal { unsigned_abs (self.normal +ℤ amount_in Stretch 0 item.now) ≤ max_total }
        requires fil { unsigned_abs (self.fil +ℤ amount_in Stretch 1 item.now) ≤ max_total }
        requires fill { unsigned_abs (self.fill +ℤ amount_in Stretch 2 item.now) ≤ max_total }
        requires filll { unsigned_abs (self.filll +ℤ amount_in Stretch 3 item.now) ≤ max_total }
        ensures { result ≡ stretch_with self item.now }
    {
        GlueStretch {
            normal: more(self.normal, 0, item),
            fil: more(self.fil, 1, item),
            fill: more(self.fill, 2, item),
            filll: more(self.filll, 3, item),
        }
    }

    /// The stretch of both together.
    pub(crate) fn plus(self, other: GlueStretch) -> GlueStretch
        requires normal { unsigned_abs (self.normal +ℤ other.normal) ≤ 2 ^ 62 }
        requires fil { unsigned_abs (self.fil +ℤ other.fil) ≤ 2 ^ 62 }
        requires fill { unsigned_abs (self.fill +ℤ other.fill) ≤ 2 ^ 62 }
        requires filll { unsigned_abs (self.filll +ℤ other.filll) ≤ 2 ^ 62 }
        ensures { result ≡ stretch_plus self other }
    {
        GlueStretch {
            normal: sum(self.normal, other.normal),
            fil: sum(self.fil, other.fil),
            fill: sum(self.fill, other.fill),
            filll: sum(self.filll, other.filll),
        }
    }

    /// The stretch without another.
    pub(crate) fn minus(self, other: GlueStretch) -> GlueStretch
        requires normal { unsigned_abs (self.normal -ℤ other.normal) ≤ 2 ^ 62 }
        requires fil { unsigned_abs (self.fil -ℤ other.fil) ≤ 2 ^ 62 }
        requires fill { unsigned_abs (self.fill -ℤ other.fill) ≤ 2 ^ 62 }
        requires filll { unsigned_abs (self.filll -ℤ other.filll) ≤ 2 ^ 62 }
        ensures { result ≡ stretch_minus self other }
    {
        GlueStretch {
            normal: difference(self.normal, other.normal),
            fil: difference(self.fil, other.fil),
            fill: difference(self.fill, other.fill),
            filll: difference(self.filll, other.filll),
        }
    }
}
