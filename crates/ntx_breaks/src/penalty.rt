//! What a break costs, and which breaks are forced or hyphenated ("TeX: The Program", sections 829 to 831, 859 and 866 to 869).

ghost use Rattle.std.specs.Prelude.{◌≡◌, ◌<◌, ◌≤◌, ◌^◌, length, unsigned_abs};
ghost use Rattle.ntx_item.specs.Items.{AreItemsInRange};
ghost use Rattle.ntx_legal.specs.Places.{item_at, disc_penalty};
ghost use Rattle.ntx_breaks.specs.Penalties as penalties;

use ntx_item::{Item, Param, Params};

/// A penalty of this much or less forces a break.
const FORCING: i64 = -10_000;

/// What a break at a discretionary costs: `exhyphenpenalty` if it shows nothing before the break.
fn disc_penalty(params: &Params, pre_empty: bool) -> i64
    ensures value { result ≡ disc_penalty params.now pre_empty }
    ensures bound { unsigned_abs result ≤ 2 ^ 31 }
{
    if pre_empty {
        params.get(Param::Exhyphenpenalty)
    } else {
        params.get(Param::Hyphenpenalty)
    }
}

/// The penalty of a break at a place.
fn penalty_of(items: &[Item], params: &Params, place: u64) -> i64
    requires in_range { AreItemsInRange items.now }
    requires place { 0 < place }
    ensures value { result ≡ penalties.penalty_of params.now (item_at items.now place) }
    ensures bound { unsigned_abs result ≤ 2 ^ 31 }
{
    let place = place as usize;
    if items.len() < place {
        return FORCING;
    }
    match &items[place - 1] {
        Item::Penalty { p } => *p,
        Item::Disc { pre_empty, .. } => disc_penalty(params, *pre_empty),
        _ => 0,
    }
}

/// The penalty of a break at a place, never below -10000.
pub(crate) fn penalty_at(items: &[Item], params: &Params, place: u64) -> i64
    requires in_range { AreItemsInRange items.now }
    requires place { 0 < place }
    ensures { result ≡ penalties.penalty_at params.now items.now place }
{
    let p = penalty_of(items, params, place);
    if p < FORCING { FORCING } else { p }
}

/// Whether a line has to end at a place.
pub(crate) fn is_forced(items: &[Item], params: &Params, place: u64) -> bool
    requires in_range { AreItemsInRange items.now }
    requires place { 0 < place }
    ensures { result ≡ penalties.is_forced params.now items.now place }
{
    penalty_of(items, params, place) <= FORCING
}

/// Whether a place is the end of the paragraph.
pub(crate) fn is_end(items: &[Item], place: u64) -> bool
    ensures { result ≡ penalties.is_end items.now place }
{
    (items.len() as u64) < place
}

/// Whether a break at a place counts as one at a hyphen: at a discretionary, and at the end.
pub(crate) fn is_hyphenated(items: &[Item], place: u64) -> bool
    ensures { result ≡ penalties.is_hyphenated items.now place }
{
    if place == 0 {
        return false;
    }
    if is_end(items, place) {
        return true;
    }
    matches!(&items[place as usize - 1], Item::Disc { .. })
}
