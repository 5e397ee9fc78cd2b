//! The states of a pass, place by place ("TeX: The Program", sections 819 to 855 and 863).

ghost use Rattle.std.specs.Prelude.{◌≡◌, ◌<◌, ◌≤◌, ◌+◌, ◌<ℤ◌, pos, IfOk, OnOk, length, ◌++◌, map, not, drop};
ghost use Rattle.std.specs.List.{All, filter};
ghost use Rattle.ntx_num.specs.Answer.{Gives, result_map};
ghost use Rattle.ntx_item.specs.Items.{AreItemsInRange};
ghost use Rattle.ntx_legal.specs.Places.{item_at, places_of};
ghost use Rattle.ntx_legal.specs.Totals.{AreTotalsOf};
ghost use Rattle.ntx_breaks.specs.States.{falls, way_to};
ghost use Rattle.ntx_breaks.specs.Penalties.{penalty_of};
ghost use Rattle.ntx_breaks.specs.Making as making;
ghost use Rattle.ntx_breaks.specs.Chosen as chosen;
ghost use Rattle.ntx_breaks.specs.inner.Bounds.{IsPassInRange, IsWay, IsMade, most_place};
ghost use Rattle.ntx_breaks.specs.inner.Search.{ArePlaces, IsSound, Extends, found_seen};

use crate::making::{add_states, candidates_at, last_way};
use crate::pass::Pass;
use crate::penalty::is_forced;
use crate::state::{START, State};
use crate::way::{Way, is_rescued, some_wanted, survivors, ways_to};
use ntx_item::{Item, Params};
use ntx_legal::LineTotals;
use ntx_num::NoMemory;
use std::alloc::Global;

/// The states of a pass up to a place.
#[derive(Drop)]
pub(crate) struct Search {
    /// All states, in the order of places and then of classes.
    pub(crate) states: Vec<State>,
    /// Those from which a line may end at a later place.
    pub(crate) live: Vec<State>,
    /// Whether the artificial rule gave a line.
    pub(crate) artificial: bool,
    /// Whether it gave one that is beyond the threshold.
    pub(crate) last_resort: bool,
}

/// Whether the line that the artificial rule gave is beyond the threshold.
fn is_last_resort(pass: Pass, rescued: bool, ways: &[Way]) -> bool
    ensures { result ≡ chosen.is_last_resort pass rescued ways.now }
{
    rescued && !some_wanted(pass, last_way(ways))
}

/// The states that do not fall, and those that were made, which are all but the first `count`.
fn live_after(
    alloc: Global,
    forced: bool,
    ways: &[Way],
    states: &[State],
    count: usize,
) -> Result<Vec<State>, NoMemory>
    requires { count ≤ length states.now }
    ensures { Gives (result_map (λ live. live.items) result) (map (λ way. way.from) (filter (λ way. not (falls forced way)) ways.now) ++ drop count states.now) }
{
    let mut live = survivors(alloc, forced, ways)?;
    live.extend_from_slice(&states[count..])?;
    Ok(live)
}

impl Search {
    /// The states at the start.
    fn new(
        alloc: Global,
        items: &[Item],
        params: &Params,
        pass: Pass,
        places: &[u64],
    ) -> Result<Search, NoMemory>
        requires { ArePlaces params.now items.now places.now }
        ensures { IfOk result (IsSound params.now items.now pass places.now 0) }
    {
        let mut states = Vec::new(alloc);
        states.push(START)?;
        let mut live = Vec::new(alloc);
        live.push(START)?;
        Ok(Search {
            states,
            live,
            artificial: false,
            last_resort: false,
        })
    }

    /// Adds the states that lines to a place make.
    fn add(
        &mut self,
        alloc: Global,
        items: &[Item],
        params: &Params,
        pass: Pass,
        to: u64,
        forced: bool,
        ways: &[Way],
    ) -> Result<(), NoMemory>
        requires in_range { AreItemsInRange items.now }
        requires to { to ≤ most_place }
        requires legal { penalty_of params.now (item_at items.now to) <ℤ pos 10000 }
        requires ways { All (IsWay to) ways.now }
        ensures seen { OnOk result (found_seen self.new ≡ chosen.found_with params.now items.now pass to ways.now (making.is_rescued pass forced ways.now) (found_seen self.old)) }
        ensures made { OnOk result (Extends (IsMade to) self.old.states.items self.new.states.items) }
        ensures live { OnOk result (self.new.live.items ≡ map (λ way. way.from) (filter (λ way. not (falls forced way)) ways.now) ++ drop (length self.old.states.items) self.new.states.items) }
    {
        let rescued = is_rescued(pass, forced, ways);
        let candidates = candidates_at(alloc, items, params, pass, to, rescued, ways)?;
        let count = self.states.len();
        add_states(params, &candidates, &mut self.states)?;
        self.live = live_after(alloc, forced, ways, &self.states, count)?;
        self.artificial = self.artificial || rescued;
        self.last_resort = self.last_resort || is_last_resort(pass, rescued, ways);
        Ok(())
    }

    /// Goes on to the next place, which is the one with index `n`.
    fn go_to(
        &mut self,
        alloc: Global,
        items: &[Item],
        params: &Params,
        totals: &LineTotals,
        pass: Pass,
        places: &[u64],
        n: usize,
    ) -> Result<(), NoMemory>
        requires in_range { AreItemsInRange items.now }
        requires totals { AreTotalsOf items.now totals.now }
        requires pass { IsPassInRange pass }
        requires places { ArePlaces params.now items.now places.now }
        requires n { n < length places.now }
        requires sound { IsSound params.now items.now pass places.now n self.old }
        ensures { OnOk result (IsSound params.now items.now pass places.now (n + 1) self.new) }
    {
        let to = places[n];
        let ways = ways_to(alloc, items, params, totals, pass, to, &self.live)?;
        let forced = is_forced(items, params, to);
        self.add(alloc, items, params, pass, to, forced, &ways)
    }
}

/// The states of a pass.
pub(crate) fn found_in(
    alloc: Global,
    items: &[Item],
    params: &Params,
    totals: &LineTotals,
    pass: Pass,
    places: &[u64],
) -> Result<Search, NoMemory>
    requires in_range { AreItemsInRange items.now }
    requires totals { AreTotalsOf items.now totals.now }
    requires pass { IsPassInRange pass }
    requires places { places.now ≡ places_of params.now pass.discs items.now }
    ensures { IfOk result (λ found. found_seen found ≡ chosen.found_in params.now items.now pass) }
{
    let mut search = Search::new(alloc, items, params, pass, places)?;
    for n in 0..places.len() {
        search.go_to(alloc, items, params, totals, pass, places, n)?;
    }
    Ok(search)
}
