//! Packing lists of a heap ("TeX: The Program", sections 644 to 679).

ghost use Rattle.std.specs.Prelude.{◌≡◌};
ghost use Rattle.ntx_num.specs.Answer.{Steps, Answers};
ghost use Rattle.ntx_pack.specs.Pack.{pack_step, hpack_step, vpack_step, dimensions_answer};

use crate::direction::Direction;
use crate::make::make_box;
use crate::packed::{checked_size, pack_items};
use ntx_item::PackTo;
use ntx_nodes::{ListKind, Nodes, Trouble};
use ntx_num::{Fail, Size};
use ntx_tfm::Font;
use ntx_view::{hlist_size, items};
use std::alloc::Global;

/// Makes a box over the list at a head, in the direction in which the list runs: its name and its badness.
fn pack<N: Nodes>(
    alloc: Global,
    nodes: &mut N,
    fonts: &[Font],
    direction: Direction,
    head: Option<u64>,
    to: PackTo,
) -> Result<(u64, i64), Fail<Trouble>>
    ensures { Steps result (N.heap nodes.old) (N.heap nodes.new) (pack_step direction fonts.now head to (N.heap nodes.old)) }
{
    let list = items(alloc, nodes, fonts, head, direction.list_kind())?;
    match pack_items(direction, to, &list) {
        Ok(decided) => {
            let n = make_box(nodes, direction, head, &decided)?;
            Ok((n, decided.badness))
        }
        Err(why) => Err(Fail::Is(why)),
    }
}

/// Packs the horizontal list at a head into an hlist: the box's name, and its badness.
///
/// The box has subtype 0, no attributes and no shift, and the list itself is in it. It is as wide as `to` says, in scaled
/// points, as high and deep as its list, and its glue is set as [`set_glue`](crate::set_glue) says. The badness is from 0 to
/// 10000, or 1000000 where even all that the glue can shrink is too little, and 0 of an empty list.
///
/// # Refusals
///
/// In this order: those of `ntx_view::items` for a list of kind H; `Dimension` where the natural width, the width that it is
/// packed to, the height or the depth is beyond 2^30-1 in absolute value; `NodesFull`; `NamesOut`. After each, and where
/// memory runs out, the heap is as it was.
pub fn hpack<N: Nodes>(
    alloc: Global,
    nodes: &mut N,
    fonts: &[Font],
    head: Option<u64>,
    to: PackTo,
) -> Result<(u64, i64), Fail<Trouble>>
    ensures { Steps result (N.heap nodes.old) (N.heap nodes.new) (hpack_step fonts.now head to (N.heap nodes.old)) }
{
    pack(alloc, nodes, fonts, Direction::Horizontal, head, to)
}

/// Packs the vertical list at a head into a vlist: the box's name, and its badness.
///
/// As [`hpack`], from the top down: the box is as high as `to` says, and as wide and deep as its list.
///
/// # Refusals
///
/// In this order: those of `ntx_view::items` for a list of kind V; `Dimension` where the natural height, the height that it
/// is packed to, the width or the depth is beyond 2^30-1 in absolute value; `NodesFull`; `NamesOut`. After each, and where
/// memory runs out, the heap is as it was.
pub fn vpack<N: Nodes>(
    alloc: Global,
    nodes: &mut N,
    fonts: &[Font],
    head: Option<u64>,
    to: PackTo,
) -> Result<(u64, i64), Fail<Trouble>>
    ensures { Steps result (N.heap nodes.old) (N.heap nodes.new) (vpack_step fonts.now head to (N.heap nodes.old)) }
{
    pack(alloc, nodes, fonts, Direction::Vertical, head, to)
}

/// The natural size of the list at a head as an hlist, in scaled points. The heap stays as it was.
///
/// # Refusals
///
/// In this order: those of `ntx_view::items` for a list of kind H; `Dimension` where the width, the height or the depth is
/// beyond 2^30-1 in absolute value.
pub fn dimensions<N: Nodes>(
    alloc: Global,
    nodes: &mut N,
    fonts: &[Font],
    head: Option<u64>,
) -> Result<Size, Fail<Trouble>>
    ensures same { N.heap nodes.new ≡ N.heap nodes.old }
    ensures answer { Answers result (dimensions_answer (N.heap nodes.old) fonts.now head) }
{
    let list = items(alloc, nodes, fonts, head, ListKind::H)?;
    match checked_size(hlist_size(&list)) {
        Ok(size) => Ok(size),
        Err(why) => Err(Fail::Is(why)),
    }
}
