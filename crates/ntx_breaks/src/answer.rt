//! The breaks that are chosen ("TeX: The Program", sections 863, 864 and 873 to 875).

ghost use Rattle.std.specs.Prelude.{◌≡◌, length, slice_index_or};
ghost use Rattle.std.specs.Option.{option_map};
ghost use Rattle.ntx_num.specs.Answer.{Gives, result_map};
ghost use Rattle.ntx_item.specs.Items.{AreItemsInRange};
ghost use Rattle.ntx_legal.specs.Totals.{AreTotalsOf};
ghost use Rattle.ntx_breaks.specs.Passes.{early_passes, last_passes, passes_of};
ghost use Rattle.ntx_breaks.specs.States.{start_state};
ghost use Rattle.ntx_breaks.specs.Chosen.{breaks_seen};
ghost use Rattle.ntx_breaks.specs.Chosen as choice;
ghost use Rattle.ntx_breaks.specs.inner.Bounds.{IsPassInRange};
ghost use Rattle.ntx_breaks.specs.inner.Search.{found_seen};

use crate::pass::Pass;
use crate::search::{Search, found_in};
use crate::state::{START, State};
use ntx_item::{Item, Param, Params};
use ntx_legal::{LineTotals, places};
use ntx_num::NoMemory;
use std::alloc::Global;

/// Where the lines of a paragraph end.
#[derive(Debug, PartialEq, Eq, Drop)]
pub struct Breaks {
    /// The places where the lines end, from the first line to the last.
    pub places: Vec<u64>,
    /// The pass that found them: 1 without regular discretionaries, which come from hyphenation, 2 with them, 3 with emergency
    /// stretch.
    pub pass: u8,
    /// The demerits of all lines, without those of the lines that the artificial rule gave.
    pub demerits: i64,
    /// Whether the artificial rule gave a line in that pass, for lack of another.
    pub artificial: bool,
    /// Whether it gave one whose badness is above the threshold of the pass, which is `tolerance`, or 10000 if that is less.
    pub last_resort: bool,
}

impl Breaks {
    /// No lines.
    fn none(alloc: Global) -> Breaks
        ensures { breaks_seen result ≡ choice.no_lines }
    {
        Breaks {
            places: Vec::new(alloc),
            pass: 0,
            demerits: 0,
            artificial: false,
            last_resort: false,
        }
    }
}

/// The one with the lesser total, the earlier one of equal ones.
fn first_lesser(best: Option<State>, state: State) -> Option<State>
    ensures { result ≡ choice.first_lesser best state }
{
    match best {
        Some(best) if best.total <= state.total => Some(best),
        _ => Some(state),
    }
}

/// The state at a place with the least total, the first of equal ones.
fn chosen(states: &[State], end: u64) -> Option<State>
    ensures { result ≡ choice.chosen end states.now }
{
    let mut best = None;
    for state in states {
        if state.place == end {
            best = first_lesser(best, *state);
        }
    }
    best
}

/// The state with a number, or the start if there is none.
fn state_at(states: &[State], number: u64) -> State
    ensures { result ≡ slice_index_or states.now number start_state }
{
    let number = number as usize;
    if number < states.len() {
        states[number]
    } else {
        START
    }
}

/// Where the lines that lead to a state end.
fn chain_of(alloc: Global, states: &[State], last: State) -> Result<Vec<u64>, NoMemory>
    ensures { Gives (result_map (λ places. places.items) result) (choice.chain_of states.now last) }
{
    let mut state = last;
    let mut places = Vec::new(alloc);
    let mut steps = states.len();
    while steps > 0 && state.place != 0 {
        places.push(state.place)?;
        state = state_at(states, state.before);
        steps -= 1;
    }
    places.reverse();
    Ok(places)
}

/// What a pass with these states comes to, if one of them is at the end.
fn answer_with(
    alloc: Global,
    pass: Pass,
    found: &Search,
    end: u64,
) -> Result<Option<Breaks>, NoMemory>
    ensures { Gives (result_map (option_map breaks_seen) result) (choice.answer_with pass (found_seen found.now) (choice.chosen end found.now.states.items)) }
{
    let Some(state) = chosen(&found.states, end) else {
        return Ok(None);
    };
    let places = chain_of(alloc, &found.states, state)?;
    Ok(Some(Breaks {
        places,
        pass: pass.number,
        demerits: state.total,
        artificial: found.artificial,
        last_resort: found.last_resort,
    }))
}

/// What a pass comes to, if it has a state at the end.
fn answer_of(
    alloc: Global,
    items: &[Item],
    params: &Params,
    totals: &LineTotals,
    pass: Pass,
) -> Result<Option<Breaks>, NoMemory>
    requires in_range { AreItemsInRange items.now }
    requires totals { AreTotalsOf items.now totals.now }
    requires pass { IsPassInRange pass }
    ensures { Gives (result_map (option_map breaks_seen) result) (choice.answer_of params.now items.now pass) }
{
    let places = places(alloc, items, params, pass.discs)?;
    let found = found_in(alloc, items, params, totals, pass, &places)?;
    answer_with(alloc, pass, &found, items.len() as u64 + 1)
}

/// What the first pass comes to, if there is one and it has a state at the end.
fn early_answer(
    alloc: Global,
    items: &[Item],
    params: &Params,
    totals: &LineTotals,
) -> Result<Option<Breaks>, NoMemory>
    requires in_range { AreItemsInRange items.now }
    requires totals { AreTotalsOf items.now totals.now }
    ensures { Gives (result_map (option_map breaks_seen) result) (choice.first_answer params.now items.now (early_passes params.now)) }
{
    if params.get(Param::Pretolerance) < 0 {
        return Ok(None);
    }
    answer_of(alloc, items, params, totals, Pass::first(params))
}

/// What the third pass comes to, if there is one and it has a state at the end.
fn last_answer(
    alloc: Global,
    items: &[Item],
    params: &Params,
    totals: &LineTotals,
) -> Result<Option<Breaks>, NoMemory>
    requires in_range { AreItemsInRange items.now }
    requires totals { AreTotalsOf items.now totals.now }
    ensures { Gives (result_map (option_map breaks_seen) result) (choice.first_answer params.now items.now (last_passes params.now)) }
{
    if params.get(Param::Emergencystretch) <= 0 {
        return Ok(None);
    }
    answer_of(alloc, items, params, totals, Pass::third(params))
}

/// What the first pass with a state at the end comes to.
fn first_answer(
    alloc: Global,
    items: &[Item],
    params: &Params,
    totals: &LineTotals,
) -> Result<Option<Breaks>, NoMemory>
    requires in_range { AreItemsInRange items.now }
    requires totals { AreTotalsOf items.now totals.now }
    ensures { Gives (result_map (option_map breaks_seen) result) (choice.first_answer params.now items.now (passes_of params.now)) }
{
    let first = early_answer(alloc, items, params, totals)?;
    if first.is_some() {
        return Ok(first);
    }
    let second = answer_of(alloc, items, params, totals, Pass::second(params))?;
    if second.is_some() {
        return Ok(second);
    }
    last_answer(alloc, items, params, totals)
}

/// Where the lines of a paragraph end, as `breaks_of` says: TeX's search for few demerits ("TeX: The Program", sections 813 to 890). That
/// no other breaks have fewer is not proved. It refuses nothing. In order, it tries a pass without regular discretionaries, whose lines
/// have a badness of at most `pretolerance`, unless that is below 0; one with them and `tolerance`; and one that stretches each line by
/// `emergencystretch` as well, unless that is 0 or less. The first pass in which lines lead to the end
/// decides.
pub fn break_items(alloc: Global, items: &[Item], params: &Params) -> Result<Breaks, NoMemory>
    requires { AreItemsInRange items.now }
    ensures { Gives (result_map breaks_seen result) (choice.breaks_of params.now items.now) }
{
    let totals = LineTotals::new(alloc, items)?;
    match first_answer(alloc, items, params, &totals)? {
        Some(breaks) => Ok(breaks),
        None => Ok(Breaks::none(alloc)),
    }
}
