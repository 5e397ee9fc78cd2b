//! Boxes as nodes of a heap.

ghost use Rattle.std.specs.Prelude.{◌≡◌};
ghost use Rattle.ntx_num.specs.Answer.{Steps};
ghost use Rattle.ntx_nodes.specs.Steps.{making};
ghost use Rattle.ntx_pack.specs.Pack.{box_fields, node_fields, box_node};
ghost use Rattle.ntx_pack.specs.Made.{IsMakable, IsLiveHead};

use crate::direction::Direction;
use crate::packed::Packed;
use ntx_nodes::{BoxFields, Fields, Nodes, Trouble, make_filled};
use ntx_num::Fail;

/// The fields of a box over the list at a head.
fn box_fields(head: Option<u64>, packed: &Packed) -> BoxFields
    ensures { result ≡ box_fields head packed.now }
{
    BoxFields {
        width: packed.size.w,
        height: packed.size.h,
        depth: packed.size.d,
        shift: 0,
        list: head,
        glue_sign: packed.glue.sign,
        glue_order: packed.glue.order,
        glue_num: packed.glue.num,
        glue_den: packed.glue.den,
    }
}

/// All the fields of its node.
fn node_fields(direction: Direction, head: Option<u64>, packed: &Packed) -> Fields
    ensures { result ≡ node_fields direction head packed.now }
{
    Fields {
        subtype: 0,
        next: None,
        contents: direction.contents(box_fields(head, packed)),
    }
}

/// Makes a box of subtype 0 without attributes over the list at a head. Refuses as the making of a node.
pub(crate) fn make_box<N: Nodes>(
    nodes: &mut N,
    direction: Direction,
    head: Option<u64>,
    packed: &Packed,
) -> Result<u64, Fail<Trouble>>
    requires makable { IsMakable packed.now }
    requires live { IsLiveHead (N.heap nodes.old) head }
    ensures { Steps result (N.heap nodes.old) (N.heap nodes.new) (making (box_node direction head packed.now) (N.heap nodes.old)) }
{
    make_filled(nodes, node_fields(direction, head, packed))
}
