//! The sizes of nodes in the direction of their list.

ghost use Rattle.std.specs.Prelude.{◌≡◌, ◌≤◌, ◌+◌, ◌^◌, ◌+ℤ◌, unsigned_abs};
ghost use Rattle.ntx_item.specs.Items.{absolute_width, IsBounded, max_total};
ghost use Rattle.ntx_pack.specs.Output.{move, set_size};
ghost use Rattle.ntx_pack.specs.Vertical.{extent};
ghost use Rattle.ntx_view.specs.Measured.{IsMeasured};
ghost use Rattle.ntx_ship.specs.Placed.{own_size};

use ntx_item::Item;
use ntx_pack::{Direction, GlueSetter};

/// How far an item reaches from its top to its bottom.
fn extent(item: &Item) -> i64
    requires { IsMeasured item.now }
    ensures value { result ≡ extent item.now }
    ensures bounded { unsigned_abs result ≤ 2 ^ 31 }
{
    match item {
        Item::Box { size, .. } | Item::Rule { size } => size.h + size.d,
        Item::Glue { spec } => spec.width,
        Item::Kern { w, .. } => *w,
        _ => 0,
    }
}

/// The size of an item in the direction of its list.
fn own_size(direction: Direction, item: &Item) -> i64
    requires { IsMeasured item.now }
    ensures value { result ≡ own_size direction item.now }
    ensures bounded { unsigned_abs result ≤ absolute_width item.now + 2 ^ 31 }
{
    match direction {
        Direction::Horizontal => item.natural_width(),
        Direction::Vertical => extent(item),
    }
}

/// The size of the next item in output, in the direction of its list.
pub fn set_size(setter: &mut GlueSetter, direction: Direction, item: &Item) -> i64
    requires measured { IsMeasured item.now }
    requires bounded { IsBounded item.now }
    requires total { unsigned_abs (setter.old.total +ℤ move setter.old.glue item.now) ≤ max_total }
    ensures size { result ≡ set_size setter.old.glue setter.old.total (own_size direction item.now) item.now }
    ensures total { setter.new.total ≡ setter.old.total +ℤ move setter.old.glue item.now }
    ensures glue { setter.new.glue ≡ setter.old.glue }
    ensures bounded { unsigned_abs result ≤ absolute_width item.now + 2 ^ 32 }
{
    match item {
        Item::Glue { spec } => setter.next_size(spec),
        _ => own_size(direction, item),
    }
}
