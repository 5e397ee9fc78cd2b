//! The natural size of a horizontal list ("TeX: The Program", sections 649 to 656).

ghost use Rattle.std.specs.Prelude.{◌≡◌, ◌≤◌, ◌+ℤ◌, All, sum_by, unsigned_abs};
ghost use Rattle.std.specs.Int.{int_max};
ghost use Rattle.ntx_item.specs.Items.{AreItemsInRange, absolute_width, max_total};
ghost use Rattle.ntx_item.specs.Sums.{natural_width};
ghost use Rattle.ntx_view.specs.Natural.{hlist_size, size_with, reach_above, reach_below, max_reach, IsReaching};

use ntx_item::Item;
use ntx_num::Size;

/// How far an item reaches above the baseline in scaled points.
fn reach_above(item: &Item) -> i64
    requires { IsReaching item.now }
    ensures { result ≡ reach_above item.now }
{
    match item {
        Item::Box { size, shift } => size.h - *shift,
        Item::Glyph { size } | Item::Rule { size } => size.h,
        Item::Disc { replace, .. } => replace.h,
        _ => 0,
    }
}

/// How far an item reaches below the baseline in scaled points.
fn reach_below(item: &Item) -> i64
    requires { IsReaching item.now }
    ensures { result ≡ reach_below item.now }
{
    match item {
        Item::Box { size, shift } => size.d + *shift,
        Item::Glyph { size } | Item::Rule { size } => size.d,
        Item::Disc { replace, .. } => replace.d,
        _ => 0,
    }
}

/// The sum of two widths that stay in range.
fn sum(a: i64, b: i64) -> i64
    requires { unsigned_abs (a +ℤ b) ≤ max_total }
    ensures { result ≡ a +ℤ b }
{
    a + b
}

/// The greater of two reaches.
fn greater(a: i64, b: i64) -> i64
    ensures { result ≡ int_max a b }
{
    a.max(b)
}

/// The size of a list with one item more.
fn with_item(size: Size, item: &Item) -> Size
    requires width { unsigned_abs (size.w +ℤ natural_width item.now) ≤ max_total }
    requires reaching { IsReaching item.now }
    ensures { result ≡ size_with size item.now }
{
    Size {
        w: sum(size.w, item.natural_width()),
        h: greater(size.h, reach_above(item)),
        d: greater(size.d, reach_below(item)),
    }
}

/// The size of the items one after another.
fn size_of_all(items: &[Item]) -> Size
    requires in_range { AreItemsInRange items.now }
    requires reaching { All IsReaching items.now }
    ensures { result ≡ hlist_size items.now }
{
    let mut size = Size { w: 0, h: 0, d: 0 };
    for item in items {
        size = with_item(size, item);
    }
    size
}

/// The natural size of a horizontal list of these items: the sum of their widths, and the greatest of 0 and of how far
/// they reach above and below the baseline. All in scaled points; a discretionary counts with what stands there without
/// a break.
///
/// The items have to be in range, as [`Item`] tells, and none may reach farther than 2^31 scaled points above or below the
/// baseline, in absolute value. Then the width is within 2^48 in absolute value, and the height and the depth are at most
/// 2^31.
pub fn hlist_size(items: &[Item]) -> Size
    requires in_range { AreItemsInRange items.now }
    requires reaching { All IsReaching items.now }
    ensures size { result ≡ hlist_size items.now }
    ensures width { unsigned_abs result.w ≤ sum_by absolute_width items.now }
    ensures height { unsigned_abs result.h ≤ max_reach }
    ensures depth { unsigned_abs result.d ≤ max_reach }
{
    size_of_all(items)
}
