//! What a line costs, in demerits ("TeX: The Program", section 859).

ghost use Rattle.std.specs.Prelude.{◌≡◌, ◌<◌, ◌≤◌, ◌≤ℤ◌, ◌<ℤ◌, pos, unsigned_abs};
ghost use Rattle.ntx_num.specs.Demerits.{demerits_of};
ghost use Rattle.ntx_item.specs.Items.{AreItemsInRange};
ghost use Rattle.ntx_legal.specs.Places.{item_at};
ghost use Rattle.ntx_breaks.specs.Cost as costs;
ghost use Rattle.ntx_breaks.specs.Penalties as penalties;
ghost use Rattle.ntx_breaks.specs.inner.Bounds.{IsLineInRange, most_cost};

use crate::penalty::{is_end, is_hyphenated, penalty_at};
use ntx_item::{Item, Param, Params};
use ntx_legal::Line;
use ntx_num::demerits;

/// Demerits of two hyphenated lines in a row, and of a hyphenated last line but one.
fn hyphen_demerits(items: &[Item], params: &Params, from: u64, to: u64) -> i64
    ensures value { result ≡ costs.hyphen_demerits params.now items.now from to }
    ensures bound { unsigned_abs result ≤ 100000000 }
{
    if !(is_hyphenated(items, from) && is_hyphenated(items, to)) {
        0
    } else if is_end(items, to) {
        params.get(Param::Finalhyphendemerits)
    } else {
        params.get(Param::Doublehyphendemerits)
    }
}

/// Whether two fitness classes differ by more than one.
fn are_far_apart(a: u8, b: u8) -> bool
    ensures { result ≡ costs.are_far_apart a b }
{
    u16::from(a) + 1 < u16::from(b) || u16::from(b) + 1 < u16::from(a)
}

/// Demerits of two lines in a row if one is much looser than the other.
fn class_demerits(params: &Params, before: u8, class: u8) -> i64
    ensures value { result ≡ costs.class_demerits params.now before class }
    ensures bound { unsigned_abs result ≤ 100000000 }
{
    if are_far_apart(before, class) {
        params.get(Param::Adjdemerits)
    } else {
        0
    }
}

/// Demerits of the line itself and of its break.
fn own_demerits(items: &[Item], params: &Params, to: u64, b: i64) -> i64
    requires in_range { AreItemsInRange items.now }
    requires to { 0 < to }
    requires legal { penalties.penalty_of params.now (item_at items.now to) <ℤ pos 10000 }
    requires b_low { pos 0 ≤ℤ b }
    requires b_high { b ≤ℤ pos 10001 }
    ensures value { result ≡ demerits_of params.now.linepenalty b (penalties.penalty_at params.now items.now to) }
    ensures bound { unsigned_abs result ≤ 200000000 }
{
    demerits(
        params.get(Param::Linepenalty),
        b,
        penalty_at(items, params, to),
    )
}

/// The demerits of a line between two places, after a line of class `before`. A line may end at the second place.
pub(crate) fn line_cost(
    items: &[Item],
    params: &Params,
    from: u64,
    before: u8,
    to: u64,
    line: Line,
) -> i64
    requires in_range { AreItemsInRange items.now }
    requires to { 0 < to }
    requires legal { penalties.penalty_of params.now (item_at items.now to) <ℤ pos 10000 }
    requires line { IsLineInRange line }
    ensures value { result ≡ costs.line_cost params.now items.now from before to line }
    ensures bound { unsigned_abs result ≤ most_cost }
{
    own_demerits(items, params, to, line.b)
        + hyphen_demerits(items, params, from, to)
        + class_demerits(params, before, line.class)
}
