//! Lists in tables: putting in and taking out.

ghost use Rattle.std.specs.Prelude.{◌≡◌, ◌≤◌, ◌<◌, ◌+◌, ◌^◌, ℕ, true, pos, IfOk, Ok};
ghost use Rattle.ntx_num.specs.Answer.{result_map, result_and_then, Answers};
ghost use Rattle.ntx_values.specs.Table.{Entries, has_key, border_of};
ghost use Rattle.ntx_values.specs.State.{IsOf, AreOf, Grows, table_of};
ghost use Rattle.ntx_lualib.specs.Arguments.{argument, integer_of};
ghost use Rattle.ntx_lualib.specs.Lists.{insert_at, remove_at, place_in, inserted, removal_place, table_insert, table_remove};
ghost use Rattle.ntx_lualib.specs.inner.Moves.{raised, lowered, Moves, Changes};
ghost use Rattle.ntx_lualib.specs.inner.StoreCalls.{StoreCalls};

use crate::arguments::{BAD, argument, integer_at, table_at};
use crate::items::{border, item, set_item};
use ntx_num::Fail;
use ntx_values::{LuaWhy, Store, TableId, Value};
use std::alloc::Global;

/// Moves what is at each place from `p` to `m - 1` to the place after it.
fn raise(store: &mut Store, table: TableId, p: usize, m: usize) -> Result<(), Fail<LuaWhy>>
    requires table { IsOf store.old (Value.Table table) }
    requires held { (k : ℕ) → p ≤ k → k ≤ m → has_key (table_of store.old table) (Value.Int (pos k)) ≡ true }
    requires order { p ≤ m }
    requires small { m ≤ 2 ^ 16 + 1 }
    ensures moves { Moves result store.old store.new table (raised (table_of store.old table) p m) }
    ensures grows { Grows store.old store.new }
{
    store.lawful();
    let mut k = m;
    while k > p {
        let value = item(store, table, k - 1);
        set_item(store, table, k, value)?;
        k -= 1;
    }
    Ok(())
}

/// Moves what is at each place from `p + 1` to `m` to the place before it.
fn lower(store: &mut Store, table: TableId, p: usize, m: usize) -> Result<(), Fail<LuaWhy>>
    requires table { IsOf store.old (Value.Table table) }
    requires held { (k : ℕ) → p ≤ k → k < m → has_key (table_of store.old table) (Value.Int (pos k)) ≡ true }
    requires order { p ≤ m }
    requires small { m ≤ 2 ^ 16 + 1 }
    ensures moves { Moves result store.old store.new table (lowered (table_of store.old table) p m) }
    ensures grows { Grows store.old store.new }
{
    store.lawful();
    let mut k = p;
    while k < m {
        let value = item(store, table, k + 1);
        set_item(store, table, k, value)?;
        k += 1;
    }
    Ok(())
}

/// Puts a value in at a place, from 1 to the one after the border.
fn insert_at(store: &mut Store, table: TableId, p: usize, value: Value) -> Result<(), Fail<LuaWhy>>
    requires table { IsOf store.old (Value.Table table) }
    requires value { IsOf store.old value }
    requires low { 1 ≤ p }
    requires high { p ≤ border_of (table_of store.old table) + 1 }
    ensures changes { Changes result store.old store.new table (insert_at (table_of store.old table) p value) }
    ensures grows { Grows store.old store.new }
{
    let count = border(store, table);
    if p == count + 1 {
        return set_item(store, table, p, value);
    }
    let last = item(store, table, count);
    set_item(store, table, count + 1, last)?;
    store.lawful();
    raise(store, table, p, count)?;
    set_item(store, table, p, value)
}

/// Takes the value out at a place, from 1 to the one after the border.
fn remove_at(store: &mut Store, table: TableId, p: usize) -> Result<(), Fail<LuaWhy>>
    requires table { IsOf store.old (Value.Table table) }
    requires low { 1 ≤ p }
    requires high { p ≤ border_of (table_of store.old table) + 1 }
    ensures changes { Changes result store.old store.new table (Ok (remove_at (table_of store.old table) p)) }
    ensures grows { Grows store.old store.new }
{
    let count = border(store, table);
    lower(store, table, p, count + 1)
}

/// The place that an argument names, from 1 to the one after the border.
fn place_at(store: &Store, table: TableId, args: &[Value]) -> Result<usize, Fail<LuaWhy>>
    requires { IsOf store.now (Value.Table table) }
    ensures place { Answers result (result_and_then (integer_of (argument args.now 1)) (place_in (table_of store.now table))) }
    ensures low { IfOk result (λ p. 1 ≤ p) }
    ensures high { IfOk result (λ p. p ≤ border_of (table_of store.now table) + 1) }
    ensures small { IfOk result (λ p. p ≤ 2 ^ 16 + 1) }
{
    let p = integer_at(args, 1)?;
    let count = border(store, table);
    if p < 1 || p as usize > count + 1 {
        return Err(BAD);
    }
    Ok(p as usize)
}

/// Puts a value in: the second argument at the end, or with more than two arguments the third at a place.
fn insert(store: &mut Store, table: TableId, args: &[Value]) -> Result<(), Fail<LuaWhy>>
    requires table { IsOf store.old (Value.Table table) }
    requires of { AreOf store.old args.now }
    ensures changes { Changes result store.old store.new table (inserted (table_of store.old table) args.now) }
    ensures grows { Grows store.old store.new }
{
    if args.len() <= 2 {
        let place = border(store, table) + 1;
        return set_item(store, table, place, argument(args, 1));
    }
    let place = place_at(store, table, args)?;
    insert_at(store, table, place, argument(args, 2))
}

/// `table.insert`
///
/// # Refusals
///
/// BadArgument if the first argument is no table, or with more than two arguments the second is no integer from 1 to the one after
/// the border. Then TablesFull if the table would hold a 65537th key.
pub(crate) fn table_insert(
    alloc: Global,
    store: &mut Store,
    args: &[Value],
) -> Result<Vec<Value>, Fail<LuaWhy>>
    requires { AreOf store.old args.now }
    ensures calls { StoreCalls (result_map (λ values. values.items) result) store.old store.new (table_insert args.now store.old) }
    ensures grows { Grows store.old store.new }
    ensures of { IfOk result (λ values. AreOf store.new values.items) }
{
    let table = table_at(args, 0)?;
    insert(store, table, args)?;
    Ok(Vec::new(alloc))
}

/// The place at which a value is taken out, 0 if there is none.
fn removal_place(store: &Store, table: TableId, args: &[Value]) -> Result<usize, Fail<LuaWhy>>
    requires { IsOf store.now (Value.Table table) }
    ensures place { Answers result (removal_place (table_of store.now table) (argument args.now 1)) }
    ensures high { IfOk result (λ p. p ≤ border_of (table_of store.now table) + 1) }
    ensures small { IfOk result (λ p. p ≤ 2 ^ 16 + 1) }
{
    match argument(args, 1) {
        Value::Nil => Ok(border(store, table)),
        _ => place_at(store, table, args),
    }
}

/// `table.remove`
///
/// # Refusals
///
/// BadArgument if the first argument is no table, or the second is neither nil nor an integer from 1 to the one after the border.
pub(crate) fn table_remove(
    alloc: Global,
    store: &mut Store,
    args: &[Value],
) -> Result<Vec<Value>, Fail<LuaWhy>>
    requires { AreOf store.old args.now }
    ensures calls { StoreCalls (result_map (λ values. values.items) result) store.old store.new (table_remove args.now store.old) }
    ensures grows { Grows store.old store.new }
    ensures of { IfOk result (λ values. AreOf store.new values.items) }
{
    let table = table_at(args, 0)?;
    let place = removal_place(store, table, args)?;
    if place == 0 {
        return Ok(vec![in alloc; Value::Nil]?);
    }
    let values = vec![in alloc; item(store, table, place)]?;
    remove_at(store, table, place)?;
    Ok(values)
}
