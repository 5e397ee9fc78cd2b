//! One table of a script.

ghost use Rattle.std.specs.Prelude.{◌≡◌, ℕ, false, ◌+◌, ◌<◌, ◌≤◌, ◌^◌, [], length, drop, not};
ghost use Rattle.ntx_num.specs.Answer.{Steps};
ghost use Rattle.ntx_num.specs.Answer.{result_map};
ghost use Rattle.indexmap.specs.IndexMap.{index_map_len};
ghost use Rattle.ntx_values.specs.Value.{is_nil};
ghost use Rattle.ntx_values.specs.Table.{value_at, written, item_at, border_of, first_held, next_of};
ghost use Rattle.ntx_values.specs.inner.Border.{border_start};
ghost use Rattle.ntx_values.specs.inner.Walk.{held_at};

use crate::{BadKey, LuaWhy, Value};
use indexmap::IndexMap;
use ntx_num::Fail;
use std::alloc::Global;
use std::marker::Model;

/// The most keys that one table may hold.
const MAX_KEYS: usize = 1 << 16;

/// Pairs of a key and a value in order of first insertion, with the border, the least n with nothing at n + 1. It is seen
/// as the list of the pairs.
#[derive(Drop)]
pub(crate) struct Table {
    entries: IndexMap<Value, Value>,
    border: usize,
}

impl Model for Table {
    ghost use Rattle.std.specs.Prelude.{◌≡◌};
    ghost use Rattle.ntx_values.specs.Table.{Entries, border_of};

    ghost Value = { Entries };

    ghost view = { λ a. a.entries.entries };

    ghost invariant = { λ a. a.border ≡ border_of a.entries.entries };
}

impl Table {
    /// An empty table.
    pub fn new(alloc: Global) -> Table
        ensures { result ≡ [] }
    {
        Table {
            entries: IndexMap::new(alloc),
            border: 0,
        }
    }

    /// What it holds at a key, nil where nothing.
    pub fn get(&self, key: Value) -> Value
        ensures { result ≡ value_at self.now key }
    {
        self.entries.get(&key).copied().unwrap_or(Value::Nil)
    }

    /// The least n with nothing at n + 1.
    pub fn border(&self) -> usize
        ensures value { result ≡ border_of self.now }
        ensures within { result ≤ length self.now }
    {
        self.border
    }

    /// Sets it at a key. Refuses with NilKey where the key is nil, and with TablesFull where it would hold a 65537th key.
    /// After a refusal, and after running out of memory, nothing has changed.
    pub fn set(&mut self, key: Value, v: Value) -> Result<(), Fail<LuaWhy>>
        ensures { Steps result self.old self.new (result_map (λ entries. (tt, entries)) (written self.old key v)) }
    {
        if key.is_nil() {
            return Err(Fail::Is(LuaWhy::NilKey));
        }
        if !self.entries.contains_key(&key) {
            if v.is_nil() {
                return Ok(());
            }
            if self.entries.len() >= MAX_KEYS {
                return Err(Fail::Is(LuaWhy::TablesFull));
            }
        }
        self.entries.insert(key, v)?;
        self.border = border_from(&self.entries, border_start(self.border, key, v));
        Ok(())
    }

    /// The first pair after a key that holds a value other than nil, and from nil the first of all. Refuses a key that is
    /// not nil and was never held.
    pub fn next(&self, key: Value) -> Result<Option<(Value, Value)>, BadKey>
        ensures { result ≡ next_of self.now key }
    {
        let end = self.entries.len();
        if key.is_nil() {
            return Ok(first_held(&self.entries, 0, end));
        }
        match self.entries.get_index_of(&key) {
            Some(place) => Ok(first_held(&self.entries, place + 1, end)),
            None => Err(BadKey),
        }
    }
}

/// The pair at a place, where it holds a value other than nil.
fn held_at(entries: &IndexMap<Value, Value>, place: usize) -> Option<(Value, Value)>
    ensures { result ≡ held_at entries.now.entries place }
{
    let (key, value) = entries.get_index(place)?;
    if value.is_nil() {
        None
    } else {
        Some((*key, *value))
    }
}

/// The first pair from a place on that holds a value other than nil. `end` is how many pairs there are.
fn first_held(entries: &IndexMap<Value, Value>, from: usize, end: usize) -> Option<(Value, Value)>
    requires { end ≡ index_map_len entries.now }
    ensures { result ≡ first_held (drop from entries.now.entries) }
{
    for place in from..end {
        if let Some(pair) = held_at(entries, place) {
            return Some(pair);
        }
    }
    None
}

/// Where the search for the border goes on after a set: below it every number is still held.
fn border_start(border: usize, key: Value, v: Value) -> usize
    ensures { result ≡ border_start border key v }
{
    match key {
        Value::Int(place) if place >= 1 && v.is_nil() => border.min((place - 1) as usize),
        _ => border,
    }
}

/// Whether a value other than nil is held at a number.
fn holds(entries: &IndexMap<Value, Value>, n: usize) -> bool
    requires { n < 2 ^ 63 }
    ensures { result ≡ not (is_nil (item_at entries.now.entries n)) }
{
    match entries.get(&Value::Int(n as i64)) {
        Some(value) => !value.is_nil(),
        None => false,
    }
}

/// The border, where every number from 1 to `start` is held.
fn border_from(entries: &IndexMap<Value, Value>, start: usize) -> usize
    requires within { start ≤ index_map_len entries.now }
    requires held { (k : ℕ) → k < start → is_nil (item_at entries.now.entries (k + 1)) ≡ false }
    ensures { result ≡ border_of entries.now.entries }
{
    let keys = entries.len();
    let mut border = start;
    while border < keys && holds(entries, border + 1) {
        border += 1;
    }
    border
}
