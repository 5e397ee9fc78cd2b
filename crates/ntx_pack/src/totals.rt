//! How much the glue of a list stretches and shrinks ("TeX: The Program", sections 150, 650, 656 and 659).

ghost use Rattle.std.specs.Prelude.{◌≡◌, ◌≤◌, ◌+ℤ◌, unsigned_abs};
ghost use Rattle.ntx_item.specs.Items.{AreItemsInRange, max_total};
ghost use Rattle.ntx_item.specs.Sums.{amount_in, glue_total};
ghost use Rattle.ntx_pack.specs.Totals.{highest_order, totals_of, totals_with, AreTotalsInRange};

use ntx_item::{GlueChange, Item};

/// The totals of a list's stretch or shrink, one for each order.
#[derive(Clone, Copy, Debug, PartialEq, Eq)]
pub(crate) struct GlueTotals {
    /// Of order 0, in scaled points.
    pub normal: i64,
    /// Of order 1.
    pub fil: i64,
    /// Of order 2.
    pub fill: i64,
    /// Of order 3.
    pub filll: i64,
}

/// The glue that can make up for a shortfall.
#[derive(Clone, Copy, Debug, PartialEq, Eq)]
pub(crate) struct Available {
    /// Its order of infinity, from 0 to 3.
    pub order: u8,
    /// How far it can change, all together.
    pub total: i64,
}

/// The total of one order with one item more.
fn more(total: i64, change: GlueChange, order: u8, item: &Item) -> i64
    requires { unsigned_abs (total +ℤ amount_in change order item.now) ≤ max_total }
    ensures { result ≡ total +ℤ amount_in change order item.now }
{
    total + item.amount_in(change, order)
}

impl GlueTotals {
    /// The totals of a list with one item more.
    fn with(self, change: GlueChange, item: &Item) -> GlueTotals
        requires normal { unsigned_abs (self.normal +ℤ amount_in change 0 item.now) ≤ max_total }
        requires fil { unsigned_abs (self.fil +ℤ amount_in change 1 item.now) ≤ max_total }
        requires fill { unsigned_abs (self.fill +ℤ amount_in change 2 item.now) ≤ max_total }
        requires filll { unsigned_abs (self.filll +ℤ amount_in change 3 item.now) ≤ max_total }
        ensures { result ≡ totals_with change self item.now }
    {
        GlueTotals {
            normal: more(self.normal, change, 0, item),
            fil: more(self.fil, change, 1, item),
            fill: more(self.fill, change, 2, item),
            filll: more(self.filll, change, 3, item),
        }
    }
}

/// How far the glue of these items can change in one way, in each order.
fn totals_of(change: GlueChange, items: &[Item]) -> GlueTotals
    requires { AreItemsInRange items.now }
    ensures value { result ≡ totals_of change items.now }
    ensures in_range { AreTotalsInRange result }
{
    let mut totals = GlueTotals {
        normal: 0,
        fil: 0,
        fill: 0,
        filll: 0,
    };
    for item in items {
        totals = totals.with(change, item);
    }
    totals
}

/// The glue that can change in one way: that of the highest order in which the total is not 0, or else that of order 0.
pub(crate) fn available_glue(change: GlueChange, items: &[Item]) -> Available
    requires { AreItemsInRange items.now }
    ensures order { result.order ≡ highest_order change items.now }
    ensures total { result.total ≡ glue_total change result.order items.now }
    ensures order_in_range { result.order ≤ 3 }
    ensures total_in_range { unsigned_abs result.total ≤ max_total }
{
    let totals = totals_of(change, items);
    if totals.filll != 0 {
        Available {
            order: 3,
            total: totals.filll,
        }
    } else if totals.fill != 0 {
        Available {
            order: 2,
            total: totals.fill,
        }
    } else if totals.fil != 0 {
        Available {
            order: 1,
            total: totals.fil,
        }
    } else {
        Available {
            order: 0,
            total: totals.normal,
        }
    }
}
