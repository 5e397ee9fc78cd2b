//! How states are made at a place ("TeX: The Program", sections 835 to 855).

ghost use Rattle.std.specs.Prelude.{◌≡◌, ◌≤◌, ◌^◌, ◌+ℤ◌, ◌<ℤ◌, pos, unsigned_abs, map, IfOk, OnOk};
ghost use Rattle.std.specs.List.{All, filter};
ghost use Rattle.ntx_num.specs.Answer.{Gives, result_map};
ghost use Rattle.ntx_item.specs.Items.{AreItemsInRange};
ghost use Rattle.ntx_legal.specs.Places.{item_at};
ghost use Rattle.ntx_breaks.specs.Penalties.{penalty_of};
ghost use Rattle.ntx_breaks.specs.Making as making;
ghost use Rattle.ntx_breaks.specs.States.{is_wanted};
ghost use Rattle.ntx_breaks.specs.inner.Bounds.{most_place, IsWay, IsMade};

use crate::cost::line_cost;
use crate::pass::Pass;
use crate::state::State;
use crate::way::{Way, is_wanted};
use ntx_item::{Item, Param, Params};
use ntx_num::NoMemory;
use std::alloc::Global;

/// The state at the end of a line that adds these demerits. It has no number yet.
fn candidate(to: u64, way: &Way, demerits: i64) -> State
    requires { unsigned_abs (way.now.from.total +ℤ demerits) ≤ 2 ^ 62 }
    ensures { result ≡ making.candidate to way.now demerits }
{
    State {
        number: 0,
        place: to,
        class: way.line.class,
        total: way.from.total + demerits,
        before: way.from.number,
    }
}

/// The state at the end of a line.
fn paid(items: &[Item], params: &Params, to: u64, way: &Way) -> State
    requires in_range { AreItemsInRange items.now }
    requires to { to ≤ most_place }
    requires legal { penalty_of params.now (item_at items.now to) <ℤ pos 10000 }
    requires way { IsWay to way.now }
    ensures value { result ≡ making.paid params.now items.now to way.now }
    ensures made { IsMade to result }
{
    let from = way.from;
    candidate(
        to,
        way,
        line_cost(items, params, from.place, from.class, to, way.line),
    )
}

/// The state at the end of each line that is wanted.
fn all_paid(
    alloc: Global,
    items: &[Item],
    params: &Params,
    pass: Pass,
    to: u64,
    ways: &[Way],
) -> Result<Vec<State>, NoMemory>
    requires in_range { AreItemsInRange items.now }
    requires to { to ≤ most_place }
    requires legal { penalty_of params.now (item_at items.now to) <ℤ pos 10000 }
    requires ways { All (IsWay to) ways.now }
    ensures value { Gives (result_map (λ candidates. candidates.items) result) (map (making.paid params.now items.now to) (filter (is_wanted pass) ways.now)) }
    ensures made { IfOk result (λ candidates. All (IsMade to) candidates.items) }
{
    let mut candidates = Vec::new(alloc);
    for way in ways {
        if is_wanted(pass, way) {
            candidates.push(paid(items, params, to, way))?;
        }
    }
    Ok(candidates)
}

/// The state at the end of a line, without demerits for it.
fn free(to: u64, way: &Way) -> State
    requires to { to ≤ most_place }
    requires way { IsWay to way.now }
    ensures value { result ≡ making.free to way.now }
    ensures made { IsMade to result }
{
    candidate(to, way, 0)
}

/// The state at the end of each of these lines, without demerits for it.
fn all_free(alloc: Global, to: u64, ways: &[Way]) -> Result<Vec<State>, NoMemory>
    requires to { to ≤ most_place }
    requires ways { All (IsWay to) ways.now }
    ensures value { Gives (result_map (λ candidates. candidates.items) result) (map (making.free to) ways.now) }
    ensures made { IfOk result (λ candidates. All (IsMade to) candidates.items) }
{
    let mut candidates = Vec::new(alloc);
    for way in ways {
        candidates.push(free(to, way))?;
    }
    Ok(candidates)
}

/// The last of the lines.
pub(crate) fn last_way<'a>(ways: &'a [Way]) -> &'a [Way]
    ensures { result.now ≡ making.last_way ways.now }
{
    if ways.is_empty() {
        return ways;
    }
    &ways[ways.len() - 1..]
}

/// The states that may be made.
pub(crate) fn candidates_at(
    alloc: Global,
    items: &[Item],
    params: &Params,
    pass: Pass,
    to: u64,
    rescued: bool,
    ways: &[Way],
) -> Result<Vec<State>, NoMemory>
    requires in_range { AreItemsInRange items.now }
    requires to { to ≤ most_place }
    requires legal { penalty_of params.now (item_at items.now to) <ℤ pos 10000 }
    requires ways { All (IsWay to) ways.now }
    ensures value { Gives (result_map (λ candidates. candidates.items) result) (making.candidates_at params.now items.now pass to rescued ways.now) }
    ensures made { IfOk result (λ candidates. All (IsMade to) candidates.items) }
{
    if rescued {
        all_free(alloc, to, last_way(ways))
    } else {
        all_paid(alloc, items, params, pass, to, ways)
    }
}

/// The one with the lesser total, the later one of equal ones.
fn lesser(best: Option<State>, state: State) -> Option<State>
    ensures { result ≡ making.lesser best state }
{
    match best {
        Some(best) if best.total < state.total => Some(best),
        _ => Some(state),
    }
}

/// The one with the least total, the last of equal ones.
fn least_of(candidates: &[State]) -> Option<State>
    ensures { result ≡ making.least_of candidates.now }
{
    let mut best = None;
    for state in candidates {
        best = lesser(best, *state);
    }
    best
}

/// The one with the least total of a class, the last of equal ones.
fn least_of_class(candidates: &[State], class: u8) -> Option<State>
    ensures { result ≡ making.least_of (making.of_class class candidates.now) }
{
    let mut best = None;
    for state in candidates {
        if state.class == class {
            best = lesser(best, *state);
        }
    }
    best
}

/// Adds the least candidate of a class if its total is not too great.
fn add_class(
    states: &mut Vec<State>,
    most: i64,
    candidates: &[State],
    class: u8,
) -> Result<(), NoMemory>
    ensures { OnOk result (states.new.items ≡ making.add_class most candidates.now class states.old.items) }
{
    if let Some(state) = least_of_class(candidates, class) {
        if state.total <= most {
            let number = states.len() as u64;
            states.push(State { number, ..state })?;
        }
    }
    Ok(())
}

/// The greatest total of a state that is made, if this is the least one.
fn most_total(params: &Params, least: State) -> i64
    requires { unsigned_abs least.total ≤ 2 ^ 60 }
    ensures { result ≡ making.most_total params.now least }
{
    least.total + params.get(Param::Adjdemerits).abs()
}

/// Adds the least candidate of each class, if it is not worse than the least of all by more than `adjdemerits`.
pub(crate) fn add_states(
    params: &Params,
    candidates: &[State],
    states: &mut Vec<State>,
) -> Result<(), NoMemory>
    requires { All (λ state. unsigned_abs state.total ≤ 2 ^ 60) candidates.now }
    ensures { OnOk result (states.new.items ≡ making.add_states params.now candidates.now states.old.items) }
{
    if let Some(least) = least_of(candidates) {
        let most = most_total(params, least);
        add_class(states, most, candidates, 0)?;
        add_class(states, most, candidates, 1)?;
        add_class(states, most, candidates, 2)?;
        add_class(states, most, candidates, 3)?;
    }
    Ok(())
}
