//! What packing decides of the items of a list.

ghost use Rattle.std.specs.Prelude.{◌≡◌, ◌≤◌, ◌^◌, ◌-ℤ◌, false, IfOk, IfSome, IfNone, All, unsigned_abs};
ghost use Rattle.ntx_item.specs.Items.{AreItemsInRange};
ghost use Rattle.ntx_view.specs.Natural.{IsReaching};
ghost use Rattle.ntx_tfm.specs.Font.{IsSized};
ghost use Rattle.ntx_num.specs.Dimension.{IsDimension, is_dimension};
ghost use Rattle.ntx_view.specs.Measured.{IsMeasured};
ghost use Rattle.ntx_pack.specs.Pack.{checked_size, natural_size, along, with_along, target_size, packed_into, packed};
ghost use Rattle.ntx_pack.specs.Made.{IsMakable};

use crate::direction::Direction;
use crate::glue_set::{GlueSet, set_glue};
use crate::vertical::vlist_size;
use ntx_item::{Item, PackTo};
use ntx_nodes::Trouble;
use ntx_num::{Size, is_dimension};
use ntx_view::hlist_size;

/// What items are packed into: a box, and its badness.
#[derive(Clone, Copy, Debug, PartialEq, Eq)]
pub struct Packed {
    /// Its size in scaled points.
    pub size: Size,
    /// How its glue is set.
    pub glue: GlueSet,
    /// The badness of the box, from 0 to 10000, or 1000000 where its glue cannot shrink enough.
    pub badness: i64,
}

/// A size, where no part of it is beyond TeX's largest dimension; else it refuses with Dimension.
pub(crate) fn checked_size(size: Size) -> Result<Size, Trouble>
    ensures value { result ≡ checked_size size }
    ensures measured { IfOk result IsSized }
{
    if is_dimension(size.w) && is_dimension(size.h) && is_dimension(size.d) {
        Ok(size)
    } else {
        Err(Trouble::Dimension)
    }
}

/// The natural size of a list of these items.
fn natural_size(direction: Direction, items: &[Item]) -> Size
    requires in_range { AreItemsInRange items.now }
    requires reaching { All IsReaching items.now }
    requires measured { All IsMeasured items.now }
    ensures { result ≡ natural_size direction items.now }
{
    match direction {
        Direction::Horizontal => hlist_size(items),
        Direction::Vertical => vlist_size(items),
    }
}

/// The size that a list of this natural size is packed to; none where it does not fit a number of 64 bits.
fn target_size(to: PackTo, natural: i64) -> Option<i64>
    ensures found { IfSome result (λ x. x ≡ target_size to natural) }
    ensures none { IfNone result (is_dimension (target_size to natural) ≡ false) }
{
    match to {
        PackTo::Exactly(size) => Some(size),
        PackTo::Additional(more) => natural.checked_add(more),
    }
}

/// The size of a box over a list of this natural size.
fn box_size(direction: Direction, to: PackTo, natural: Size) -> Result<Size, Trouble>
    ensures value { result ≡ checked_size (with_along direction (target_size to (along direction natural)) natural) }
    ensures measured { IfOk result IsSized }
{
    match target_size(to, direction.along(natural)) {
        Some(x) => checked_size(direction.with_along(x, natural)),
        None => Err(Trouble::Dimension),
    }
}

/// The part of a size within TeX's largest dimension that lies in the direction of its list.
fn dimension_along(direction: Direction, size: Size) -> i64
    requires { IsSized size }
    ensures value { result ≡ along direction size }
    ensures dimension { IsDimension result }
{
    match direction {
        Direction::Horizontal => size.w,
        Direction::Vertical => size.h,
    }
}

/// How much larger one dimension is than another.
#[tactic(auto, using(crate::proofs::CodeNumbers::difference_le))]
fn difference(a: i64, b: i64) -> i64
    requires first { IsDimension a }
    requires second { IsDimension b }
    ensures value { result ≡ a -ℤ b }
    ensures bound { unsigned_abs result ≤ 2 ^ 32 }
{
    a - b
}

/// How much larger a box is than its list.
fn shortfall(direction: Direction, size: Size, natural: Size) -> i64
    requires size { IsSized size }
    requires natural { IsSized natural }
    ensures value { result ≡ along direction size -ℤ along direction natural }
    ensures bound { unsigned_abs result ≤ 2 ^ 32 }
{
    let wanted = dimension_along(direction, size);
    difference(wanted, dimension_along(direction, natural))
}

/// Items packed into a box of this size, where their natural size is this.
fn pack_into(direction: Direction, items: &[Item], natural: Size, size: Size) -> Packed
    requires in_range { AreItemsInRange items.now }
    requires natural { IsSized natural }
    requires size { IsSized size }
    ensures value { result ≡ packed_into direction items.now natural size }
    ensures makable { IsMakable result }
{
    let (glue, badness) = set_glue(items, shortfall(direction, size, natural));
    Packed {
        size,
        glue,
        badness,
    }
}

/// What items are packed into. Refuses with Dimension where their natural size, or that of the box, is beyond TeX's
/// largest dimension in some part.
pub(crate) fn pack_items(
    direction: Direction,
    to: PackTo,
    items: &[Item],
) -> Result<Packed, Trouble>
    requires in_range { AreItemsInRange items.now }
    requires reaching { All IsReaching items.now }
    requires measured { All IsMeasured items.now }
    ensures value { result ≡ packed direction to items.now }
    ensures makable { IfOk result IsMakable }
{
    let natural = checked_size(natural_size(direction, items))?;
    let size = box_size(direction, to, natural)?;
    Ok(pack_into(direction, items, natural, size))
}
