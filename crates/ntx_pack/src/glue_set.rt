//! How the glue of a box is set ("TeX: The Program", sections 658 to 667 and 672 to 677).

ghost use Rattle.std.specs.Prelude.{◌≡◌, ◌≤◌, ◌^◌, pos, unsigned_abs, IfOk};
ghost use Rattle.ntx_item.specs.Items.{AreItemsInRange, max_total};
ghost use Rattle.ntx_pack.specs.Output.{IsRatio};
ghost use Rattle.ntx_pack.specs.GlueSet.{sign_of, glue_set_in, box_glue, glue_set_answer, order_for, total_for, glue_set, badness_for, shared, fully, is_overfull_by, glue_set_by, badness_by};

use crate::totals::{Available, available_glue};
use ntx_item::{GlueChange, Item};
use ntx_nodes::{BoxFields, Contents, Nodes, Trouble};
use ntx_num::badness;

/// The badness of a box that is too small for what is in it.
const OVERFULL: i64 = 1_000_000;

/// How the glue of a box is set, as the box says it ("TeX: The Program", section 135). The size of all glue of the order
/// changes by the ratio `num / den` of its stretch or shrink. [`set_glue`] and [`GlueSet::read`] give numbers in the ranges that are stated here.
#[derive(Clone, Copy, Debug, PartialEq, Eq)]
pub struct GlueSet {
    /// 0 where the glue keeps its natural size, 1 where it stretches, 2 where it shrinks.
    pub sign: u8,
    /// The order of the glue that changes, from 0 to 3; 0 where none does.
    pub order: u8,
    /// The numerator of the ratio, within 2^32 in absolute value.
    pub num: i64,
    /// The denominator of the ratio, at least 1.
    pub den: i64,
}

/// The number by which a box says how its glue changes.
fn sign_of(change: GlueChange) -> u8
    ensures { result ≡ sign_of change }
{
    match change {
        GlueChange::Stretch => 1,
        GlueChange::Shrink => 2,
    }
}

/// Glue that keeps its natural size.
const UNSET: GlueSet = GlueSet {
    sign: 0,
    order: 0,
    num: 0,
    den: 1,
};

/// Whether all glue shrinks by all that it can, and that is too little.
fn is_overfull(shortfall: i64, glue: Available) -> bool
    requires { unsigned_abs shortfall ≤ 2 ^ 32 }
    ensures { result ≡ is_overfull_by shortfall glue.order glue.total }
{
    shortfall < 0 && glue.order == 0 && glue.total < -shortfall
}

/// Glue that changes by the ratio of a shortfall to its total.
fn share(change: GlueChange, shortfall: i64, glue: Available) -> GlueSet
    requires shortfall { unsigned_abs shortfall ≤ 2 ^ 32 }
    requires order { glue.order ≤ 3 }
    requires total { unsigned_abs glue.total ≤ max_total }
    ensures value { result ≡ shared change glue.order (unsigned_abs shortfall) glue.total }
    ensures ratio { IsRatio result }
{
    if glue.total == 0 {
        return UNSET;
    }
    let size = shortfall.abs();
    GlueSet {
        sign: sign_of(change),
        order: glue.order,
        num: if glue.total < 0 { -size } else { size },
        den: glue.total.abs(),
    }
}

/// Glue that shrinks by all that it can.
fn shrink_fully(total: i64) -> GlueSet
    ensures value { result ≡ fully total }
    ensures ratio { IsRatio result }
{
    if total == 0 {
        return UNSET;
    }
    GlueSet {
        sign: sign_of(GlueChange::Shrink),
        order: 0,
        num: 1,
        den: 1,
    }
}

/// How this glue makes up for a shortfall.
fn set_by(shortfall: i64, glue: Available) -> GlueSet
    requires shortfall { unsigned_abs shortfall ≤ 2 ^ 32 }
    requires order { glue.order ≤ 3 }
    requires total { unsigned_abs glue.total ≤ max_total }
    ensures value { result ≡ glue_set_by shortfall glue.order glue.total }
    ensures ratio { IsRatio result }
{
    if shortfall == 0 {
        UNSET
    } else if is_overfull(shortfall, glue) {
        shrink_fully(glue.total)
    } else {
        share(GlueChange::for_shortfall(shortfall), shortfall, glue)
    }
}

/// How bad it is that this glue makes up for a shortfall.
fn badness_by(shortfall: i64, glue: Available) -> i64
    requires shortfall { unsigned_abs shortfall ≤ 2 ^ 32 }
    ensures { result ≡ pos (badness_by shortfall glue.order glue.total) }
{
    if is_overfull(shortfall, glue) {
        OVERFULL
    } else if glue.order == 0 {
        badness(shortfall.abs(), glue.total)
    } else {
        0
    }
}

/// The glue of these items that can make up for a shortfall.
fn glue_for(items: &[Item], shortfall: i64) -> Available
    requires { AreItemsInRange items.now }
    ensures order { result.order ≡ order_for items.now shortfall }
    ensures total { result.total ≡ total_for items.now shortfall }
    ensures order_in_range { result.order ≤ 3 }
    ensures total_in_range { unsigned_abs result.total ≤ max_total }
{
    available_glue(GlueChange::for_shortfall(shortfall), items)
}

/// How bad it is that this glue makes up for the shortfall of these items.
fn badness_of(items: &[Item], shortfall: i64, glue: Available) -> i64
    requires shortfall { unsigned_abs shortfall ≤ 2 ^ 32 }
    requires order { glue.order ≡ order_for items.now shortfall }
    requires total { glue.total ≡ total_for items.now shortfall }
    ensures { result ≡ pos (badness_for items.now shortfall) }
{
    if items.is_empty() {
        0
    } else {
        badness_by(shortfall, glue)
    }
}

/// How the glue of these items makes up for a shortfall in scaled points, which is the size that a box is to have less
/// their natural size, and the box's badness: 0 where there are no items, or where the total of some infinite order is not
/// 0; else that of the shortfall and the finite glue for it, from 0 to 10000, or 1000000 where that glue shrinks by less
/// than is needed.
///
/// The items have to be in range, as [`Item`] states, and the shortfall within 2^32 in absolute value.
pub fn set_glue(items: &[Item], shortfall: i64) -> (GlueSet, i64)
    requires in_range { AreItemsInRange items.now }
    requires shortfall { unsigned_abs shortfall ≤ 2 ^ 32 }
    ensures glue { result.0 ≡ glue_set items.now shortfall }
    ensures badness { result.1 ≡ pos (badness_for items.now shortfall) }
    ensures ratio { IsRatio result.0 }
    ensures sign { result.0.sign ≤ 2 }
    ensures order { result.0.order ≤ 3 }
{
    let glue = glue_for(items, shortfall);
    (set_by(shortfall, glue), badness_of(items, shortfall, glue))
}

impl GlueSet {
    /// How the glue of a box is set, as its fields say it.
    fn of_box(b: BoxFields) -> GlueSet
        ensures { result ≡ glue_set_in b }
    {
        GlueSet {
            sign: b.glue_sign,
            order: b.glue_order,
            num: b.glue_num,
            den: b.glue_den,
        }
    }

    /// How the glue of a box of a heap is set.
    fn found<N: Nodes>(nodes: &N, n: u64) -> Result<GlueSet, Trouble>
        ensures { result ≡ glue_set_answer n (N.heap nodes.now) }
    {
        match nodes.fields(n)?.contents {
            Contents::Hlist(b) | Contents::Vlist(b) => Ok(GlueSet::of_box(b)),
            _ => Err(Trouble::WrongKind(n)),
        }
    }

    /// How the glue of the box `n` is set, with numbers in the ranges that are stated here.
    ///
    /// # Refusals
    ///
    /// `Stale` if `n` is dead, and `WrongKind` if it is no box.
    pub fn read<N: Nodes>(nodes: &N, n: u64) -> Result<GlueSet, Trouble>
        ensures value { result ≡ glue_set_answer n (N.heap nodes.now) }
        ensures ratio { IfOk result IsRatio }
        ensures sign { IfOk result (λ glue. glue.sign ≤ 2) }
        ensures order { IfOk result (λ glue. glue.order ≤ 3) }
    {
        nodes.lawful();
        GlueSet::found(nodes, n)
    }
}
