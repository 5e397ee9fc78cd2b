//! The natural size of a vertical list ("TeX: The Program", sections 668 to 671).

ghost use Rattle.std.specs.Prelude.{◌≡◌, ◌≤◌, ◌^◌, ◌*◌, ◌+ℤ◌, ◌-ℤ◌, All, length, unsigned_abs};
ghost use Rattle.std.specs.Int.{int_max};
ghost use Rattle.ntx_item.specs.Items.{max_items};
ghost use Rattle.ntx_pack.specs.Vertical.{vlist_size, stacked, interline_glue};
ghost use Rattle.ntx_view.specs.Measured.{IsMeasured};
ghost use Rattle.ntx_num.specs.Dimension.{max_dimension, IsDimension};

use ntx_item::{GlueParam, GlueSpec, Item, Param, Params};
use ntx_num::Size;

/// The greater of two widths.
fn greater(a: i64, b: i64) -> i64
    ensures { result ≡ int_max a b }
{
    a.max(b)
}

/// The sum of two sizes that stay in range.
fn sum(a: i64, b: i64) -> i64
    requires { unsigned_abs (a +ℤ b) ≤ 2 ^ 53 }
    ensures { result ≡ a +ℤ b }
{
    a + b
}

/// A list with one item more, of which this is the width, the size from top to bottom above its depth, and the depth.
fn with_part(size: Size, width: i64, height: i64, depth: i64) -> Size
    requires stacked { unsigned_abs (size.h +ℤ size.d) ≤ 2 ^ 52 }
    requires height { unsigned_abs height ≤ 2 ^ 32 }
    ensures { result ≡ record { w = int_max size.w width; h = (size.h +ℤ size.d) +ℤ height; d = depth } }
{
    Size {
        w: greater(size.w, width),
        h: sum(sum(size.h, size.d), height),
        d: depth,
    }
}

/// The size of a vertical list of this size with one item more at its end, all in scaled points: a box or a rule adds the
/// depth so far and its height to the height, and its depth is the depth then; glue and kerns add the depth so far and their
/// size, and leave no depth; the width is the greater one of that so far and that of a rule, or of a box with its shift.
///
/// The height and depth so far have to be within 2^52 together, in absolute value, and a box, rule, glue or kern measured as
/// the items of a heap are.
pub fn stacked(size: Size, item: &Item) -> Size
    requires stacked { unsigned_abs (size.h +ℤ size.d) ≤ 2 ^ 52 }
    requires measured { IsMeasured item.now }
    ensures { result ≡ stacked size item.now }
{
    match item {
        Item::Box { size: part, shift } => with_part(size, sum(part.w, *shift), part.h, part.d),
        Item::Rule { size: part } => with_part(size, part.w, part.h, part.d),
        Item::Glue { spec } => with_part(size, size.w, spec.width, 0),
        Item::Kern { w, .. } => with_part(size, size.w, *w, 0),
        _ => size,
    }
}

/// The size of the items one below another.
fn size_of_all(items: &[Item]) -> Size
    requires few { length items.now ≤ max_items }
    requires measured { All IsMeasured items.now }
    ensures { result ≡ vlist_size items.now }
{
    let mut size = Size { w: 0, h: 0, d: 0 };
    for item in items {
        size = stacked(size, item);
    }
    size
}

/// The natural size of a vertical list of these items. Its height and depth together are the heights and depths of its
/// boxes and rules and the sizes of its glue and kerns; its depth is that of the last box or rule, or 0 where there is none or
/// where glue or a kern stands after it; its width is the greatest of 0, the widths of rules, and the widths of boxes, each
/// with its shift. All in scaled points.
///
/// There may be at most 2^18 items. The widths, heights, depths and shifts of boxes and rules, the widths of glue, and kerns
/// have to be within 2^30-1 in absolute value. Then the width is at most 2^31, and in absolute value the height is within
/// 2^51 and the depth within 2^31.
pub fn vlist_size(items: &[Item]) -> Size
    requires few { length items.now ≤ max_items }
    requires measured { All IsMeasured items.now }
    ensures size { result ≡ vlist_size items.now }
    ensures width { unsigned_abs result.w ≤ 2 ^ 31 }
    ensures height { unsigned_abs result.h ≤ 2 ^ 51 }
    ensures depth { unsigned_abs result.d ≤ 2 ^ 31 }
{
    size_of_all(items)
}

/// How far it is from the bottom of a box to the top of the box below it, where their baselines are this far apart.
fn gap(baselines: i64, depth: i64, height: i64) -> i64
    requires baselines { IsDimension baselines }
    requires depth { IsDimension depth }
    requires height { IsDimension height }
    ensures { result ≡ (baselines -ℤ depth) -ℤ height }
{
    baselines - depth - height
}

/// A glue with another width.
fn with_width(glue: GlueSpec, width: i64) -> GlueSpec
    ensures { result ≡ record glue { width = width } }
{
    GlueSpec { width, ..glue }
}

/// The glue between a box of this depth and a box of this height below it, in scaled points ("TeX: The Program", section
/// 679): that of `baselineskip`, with the width that makes the distance of the baselines that of `baselineskip`; or that of
/// `lineskip`, if this width is below `lineskiplimit`.
///
/// The depth and the height have to be within 2^30-1 in absolute value, as those of all boxes of a heap are.
pub fn interline_glue(params: &Params, depth: i64, height: i64) -> GlueSpec
    requires depth { IsDimension depth }
    requires height { IsDimension height }
    ensures value { result ≡ interline_glue params.now depth height }
    ensures width { unsigned_abs result.width ≤ 3 * max_dimension }
{
    let baselineskip = params.get_glue(GlueParam::Baselineskip);
    let gap = gap(baselineskip.width, depth, height);
    if gap < params.get(Param::Lineskiplimit) {
        params.get_glue(GlueParam::Lineskip)
    } else {
        with_width(baselineskip, gap)
    }
}
