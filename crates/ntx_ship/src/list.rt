//! Lists that stand in boxes.

ghost use Rattle.std.specs.Prelude.{◌≡◌};
ghost use Rattle.ntx_pack.specs.GlueSet.{glue_set_in};
ghost use Rattle.ntx_ship.specs.Placed.{hlist_inside, vlist_inside, part_inside};

use ntx_nodes::{BoxFields, ListKind};
use ntx_pack::{Direction, GlueSet};

/// The list in a box, or the part of a discretionary that stands where there is no break.
#[derive(Clone, Copy)]
pub struct Inside {
    /// What the list may hold.
    pub kind: ListKind,
    /// Where its nodes go.
    pub direction: Direction,
    /// How its glue is set.
    pub glue: GlueSet,
    /// Its first node.
    pub head: Option<u64>,
}

/// How the glue of a box is set.
fn glue_of(b: BoxFields) -> GlueSet
    ensures { result ≡ glue_set_in b }
{
    GlueSet {
        sign: b.glue_sign,
        order: b.glue_order,
        num: b.glue_num,
        den: b.glue_den,
    }
}

/// The list in an hlist.
pub fn in_hlist(b: BoxFields) -> Inside
    ensures { result ≡ hlist_inside b }
{
    Inside {
        kind: ListKind::H,
        direction: Direction::Horizontal,
        glue: glue_of(b),
        head: b.list,
    }
}

/// The list in a vlist.
pub fn in_vlist(b: BoxFields) -> Inside
    ensures { result ≡ vlist_inside b }
{
    Inside {
        kind: ListKind::V,
        direction: Direction::Vertical,
        glue: glue_of(b),
        head: b.list,
    }
}

/// The part of a discretionary.
pub fn in_part(head: Option<u64>) -> Inside
    ensures { result ≡ part_inside head }
{
    Inside {
        kind: ListKind::Part,
        direction: Direction::Horizontal,
        glue: GlueSet {
            sign: 0,
            order: 0,
            num: 0,
            den: 1,
        },
        head,
    }
}
