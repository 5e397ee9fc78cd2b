//! The lines from states to a place ("TeX: The Program", sections 829 and 851 to 855).

ghost use Rattle.std.specs.Prelude.{◌≡◌, ◌≤◌, ◌+◌, map, not, length, IfOk};
ghost use Rattle.std.specs.List.{All, filter, list_all, list_any};
ghost use Rattle.ntx_num.specs.Answer.{Gives, result_map};
ghost use Rattle.ntx_item.specs.Items.{AreItemsInRange};
ghost use Rattle.ntx_legal.specs.Totals.{AreTotalsOf};
ghost use Rattle.ntx_breaks.specs.States as states;
ghost use Rattle.ntx_breaks.specs.Making as making;
ghost use Rattle.ntx_breaks.specs.inner.Bounds.{IsBefore, IsWay, IsPassInRange};

use crate::pass::Pass;
use crate::state::State;
use ntx_item::{Item, Params};
use ntx_legal::{Line, LineTotals};
use ntx_num::NoMemory;
use std::alloc::Global;

/// The greatest badness of a line that is not too wide.
const GREATEST_BADNESS: i64 = 10_000;

/// A line from a state to a place.
#[derive(Clone, Copy, Debug, PartialEq, Eq)]
pub(crate) struct Way {
    /// The state.
    pub(crate) from: State,
    /// How the line fits.
    pub(crate) line: Line,
}

/// Whether the state ends with this line: the place is forced, or the line is too wide.
pub(crate) fn falls(forced: bool, way: &Way) -> bool
    ensures { result ≡ states.falls forced way.now }
{
    forced || way.line.b > GREATEST_BADNESS
}

/// Whether the line is within the threshold.
pub(crate) fn is_wanted(pass: Pass, way: &Way) -> bool
    ensures { result ≡ states.is_wanted pass way.now }
{
    way.line.b <= pass.threshold
}

/// The line from a state to a place.
fn way_to(
    items: &[Item],
    params: &Params,
    totals: &LineTotals,
    pass: Pass,
    to: u64,
    from: State,
) -> Way
    requires in_range { AreItemsInRange items.now }
    requires totals { AreTotalsOf items.now totals.now }
    requires before { IsBefore to from }
    requires to { to ≤ length items.now + 1 }
    requires pass { IsPassInRange pass }
    ensures value { result ≡ states.way_to params.now items.now pass to from }
    ensures way { IsWay to result }
{
    let line = totals.line(items, params, from.place, to, pass.extra);
    Way { from, line }
}

/// The lines from live states to a place, in the order of the states.
pub(crate) fn ways_to(
    alloc: Global,
    items: &[Item],
    params: &Params,
    totals: &LineTotals,
    pass: Pass,
    to: u64,
    live: &[State],
) -> Result<Vec<Way>, NoMemory>
    requires in_range { AreItemsInRange items.now }
    requires totals { AreTotalsOf items.now totals.now }
    requires before { All (IsBefore to) live.now }
    requires to { to ≤ length items.now + 1 }
    requires pass { IsPassInRange pass }
    ensures value { Gives (result_map (λ ways. ways.items) result) (map (states.way_to params.now items.now pass to) live.now) }
    ensures in_range { IfOk result (λ ways. All (IsWay to) ways.items) }
{
    let mut ways = Vec::new(alloc);
    for from in live {
        ways.push(way_to(items, params, totals, pass, to, *from))?;
    }
    Ok(ways)
}

/// Whether each state falls.
fn all_fall(forced: bool, ways: &[Way]) -> bool
    ensures { result ≡ list_all (states.falls forced) ways.now }
{
    for way in ways {
        if !falls(forced, way) {
            return false;
        }
    }
    true
}

/// Whether some line is wanted.
pub(crate) fn some_wanted(pass: Pass, ways: &[Way]) -> bool
    ensures { result ≡ list_any (states.is_wanted pass) ways.now }
{
    for way in ways {
        if is_wanted(pass, way) {
            return true;
        }
    }
    false
}

/// The artificial rule: in the final pass, whether each state falls, and none but the last has a line that is wanted.
pub(crate) fn is_rescued(pass: Pass, forced: bool, ways: &[Way]) -> bool
    ensures { result ≡ making.is_rescued pass forced ways.now }
{
    pass.is_final
        && !ways.is_empty()
        && all_fall(forced, ways)
        && !some_wanted(pass, &ways[..ways.len() - 1])
}

/// The states that do not fall.
pub(crate) fn survivors(alloc: Global, forced: bool, ways: &[Way]) -> Result<Vec<State>, NoMemory>
    ensures { Gives (result_map (λ live. live.items) result) (map (λ way. way.from) (filter (λ way. not (states.falls forced way)) ways.now)) }
{
    let mut live = Vec::new(alloc);
    for way in ways {
        if !falls(forced, way) {
            live.push(way.from)?;
        }
    }
    Ok(live)
}
