//! The numbers of a line between two places ("TeX: The Program", sections 823 to 827 and 837 to 853).

ghost use Rattle.std.specs.Prelude.{◌≡◌, ◌<◌, ◌≤◌, ◌+◌, ◌*◌, ◌^◌, ◌≤ℤ◌, ◌<ℤ◌, [], ◌∷◌, ◌++◌, ℤ, ◌+ℤ◌, pos, unsigned_abs, length};
ghost use Rattle.ntx_item.specs.Items.{AreItemsInRange, max_total};
ghost use Rattle.ntx_item.specs.Sums.{natural_width, signed_sum};
ghost use Rattle.ntx_item.specs.declared.item.Item.TheVariants.{Glue};
ghost use Rattle.ntx_num.specs.Dimension.{max_dimension};
ghost use Rattle.ntx_legal.specs.LineSums.{AreSumsWithin, sums_of};
ghost use Rattle.ntx_legal.specs.Places.{item_at};
ghost use Rattle.ntx_legal.specs.Kept.{kept_items};
ghost use Rattle.ntx_legal.specs.Totals.{AreTotalsOf};
ghost use Rattle.ntx_legal.specs.Lines.{shown_after, shown_before, parts_of, is_infinite, fit_of, line_of};

use crate::fit::{Line, fitted};
use crate::kept::kept_items;
use crate::stretch::{GlueStretch, difference, sum};
use crate::sums::{Sums, sums_of};
use crate::totals::LineTotals;
use ntx_item::{GlueParam, Item, Param, Params};

/// The width of what a discretionary at this place shows after a break.
fn width_after(items: &[Item], place: usize) -> i64
    requires in_range { AreItemsInRange items.now }
    requires place { place ≤ length items.now }
    ensures value { result ≡ signed_sum natural_width (shown_after (item_at items.now place)) }
    ensures bound { unsigned_abs result ≤ max_total }
{
    if place == 0 {
        return 0;
    }
    match &items[place - 1] {
        Item::Disc { post, .. } => post.w,
        _ => 0,
    }
}

/// The width of what a discretionary at this place shows before a break.
fn width_before(items: &[Item], place: usize) -> i64
    requires in_range { AreItemsInRange items.now }
    requires place { 0 < place }
    ensures value { result ≡ signed_sum natural_width (shown_before (item_at items.now place)) }
    ensures bound { unsigned_abs result ≤ max_total }
{
    if items.len() < place {
        return 0;
    }
    match &items[place - 1] {
        Item::Disc { pre, .. } => pre.w,
        _ => 0,
    }
}

/// What leftskip and rightskip come to together.
fn background(params: &Params) -> Sums
    ensures value { result ≡ sums_of (Glue params.now.leftskip ∷ Glue params.now.rightskip ∷ []) }
    ensures bound { AreSumsWithin (2 * max_dimension) result }
{
    Sums::of_glue(params.get_glue(GlueParam::Leftskip)).plus(Sums::of_glue(params.get_glue(
        GlueParam::Rightskip,
    )))
}

/// Whether the total stretch of some infinite order is not 0.
fn is_infinite(stretch: GlueStretch) -> bool
    ensures { result ≡ is_infinite stretch }
{
    stretch.fil != 0 || stretch.fill != 0 || stretch.filll != 0
}

/// A line of this width whose parts come to these sums.
fn fit_of(hsize: i64, sums: Sums, extra: i64) -> Line
    requires hsize { unsigned_abs hsize ≤ max_dimension }
    requires sums { AreSumsWithin (2 ^ 52) sums }
    requires extra { (pos 0 ≤ℤ extra) × (extra <ℤ pos (2 ^ 30)) }
    ensures { result ≡ fit_of hsize sums extra }
{
    let shortfall = difference(hsize, sums.width);
    let stretch = sum(sums.stretch.normal, extra);
    fitted(shortfall, is_infinite(sums.stretch), stretch, sums.shrink)
}

/// The widths of what discretionaries at both ends of a line show.
fn shown_width(items: &[Item], from: usize, to: usize) -> i64
    requires in_range { AreItemsInRange items.now }
    requires from { from ≤ length items.now }
    requires to { 0 < to }
    ensures value { result ≡ signed_sum natural_width (shown_after (item_at items.now from)) +ℤ signed_sum natural_width (shown_before (item_at items.now to)) }
    ensures bound { unsigned_abs result ≤ 2 * max_total }
{
    sum(width_after(items, from), width_before(items, to))
}

/// What the parts of a line come to together, if the items that count come to `kept`.
fn parts_sums(items: &[Item], params: &Params, from: usize, to: usize, kept: Sums) -> Sums
    requires in_range { AreItemsInRange items.now }
    requires order { from < to }
    requires to { to ≤ length items.now + 1 }
    requires kept { kept ≡ sums_of (kept_items items.now from to) }
    ensures value { result ≡ sums_of (parts_of params.now items.now from to) }
    ensures bound { AreSumsWithin (2 ^ 52) result }
{
    background(params)
        .plus(kept)
        .wider_by(shown_width(items, from, to))
}

/// The numbers of the line between two places, if the items that count come to `kept`.
fn line_of_sums(
    items: &[Item],
    params: &Params,
    from: usize,
    to: usize,
    kept: Sums,
    extra: i64,
) -> Line
    requires in_range { AreItemsInRange items.now }
    requires order { from < to }
    requires to { to ≤ length items.now + 1 }
    requires kept { kept ≡ sums_of (kept_items items.now from to) }
    requires extra { (pos 0 ≤ℤ extra) × (extra <ℤ pos (2 ^ 30)) }
    ensures { result ≡ line_of params.now items.now from to extra }
{
    fit_of(
        params.get(Param::Hsize),
        parts_sums(items, params, from, to, kept),
        extra,
    )
}

/// The numbers of the line between two places: those that [`places`](crate::places) gives, or 0 as the first of them. `extra` is further finite stretch in
/// scaled points, from 0 to 2^30-1.
pub fn line(items: &[Item], params: &Params, from: u64, to: u64, extra: i64) -> Line
    requires in_range { AreItemsInRange items.now }
    requires order { from < to }
    requires to { to ≤ length items.now + 1 }
    requires extra { (pos 0 ≤ℤ extra) × (extra <ℤ pos (2 ^ 30)) }
    ensures { result ≡ line_of params.now items.now from to extra }
{
    let (from, to) = (from as usize, to as usize);
    line_of_sums(
        items,
        params,
        from,
        to,
        sums_of(kept_items(items, from, to)),
        extra,
    )
}

impl LineTotals {
    /// The same numbers as [`line`](crate::line) gives, in constant time. The totals are those of `items`.
    pub fn line(&self, items: &[Item], params: &Params, from: u64, to: u64, extra: i64) -> Line
        requires in_range { AreItemsInRange items.now }
        requires totals { AreTotalsOf items.now self.now }
        requires order { from < to }
        requires to { to ≤ length items.now + 1 }
        requires extra { (pos 0 ≤ℤ extra) × (extra <ℤ pos (2 ^ 30)) }
        ensures { result ≡ line_of params.now items.now from to extra }
    {
        let (from, to) = (from as usize, to as usize);
        line_of_sums(
            items,
            params,
            from,
            to,
            self.between(items, from, to),
            extra,
        )
    }
}
