//! Walks over tables.

ghost use Rattle.std.specs.Prelude.{◌≡◌, IfOk};
ghost use Rattle.ntx_num.specs.Answer.{result_map, Answers};
ghost use Rattle.ntx_values.specs.State.{StoreState, AreOf};
ghost use Rattle.ntx_lualib.specs.Walks.{after, pairs, ipairs, ipairs_next, next};

use crate::arguments::{BAD, argument, integer_at, table_at};
use ntx_num::Fail;
use ntx_values::{BadKey, LibFn, LuaWhy, Primitive, Store, Value};
use std::alloc::Global;

/// `pairs`
///
/// # Refusals
///
/// BadArgument if the first argument is no table.
pub(crate) fn pairs(alloc: Global, args: &[Value]) -> Result<Vec<Value>, Fail<LuaWhy>>
    ensures value { Answers (result_map (λ values. values.items) result) (pairs args.now) }
    ensures of { (store : StoreState) → AreOf store args.now → IfOk result (λ values. AreOf store values.items) }
{
    let table = table_at(args, 0)?;
    let walk = Value::Prim(Primitive::Lib(LibFn::Next));
    Ok(vec![in alloc; walk, Value::Table(table), Value::Nil]?)
}

/// `ipairs`
///
/// # Refusals
///
/// BadArgument if the first argument is no table.
pub(crate) fn ipairs(alloc: Global, args: &[Value]) -> Result<Vec<Value>, Fail<LuaWhy>>
    ensures value { Answers (result_map (λ values. values.items) result) (ipairs args.now) }
    ensures of { (store : StoreState) → AreOf store args.now → IfOk result (λ values. AreOf store values.items) }
{
    let table = table_at(args, 0)?;
    let walk = Value::Prim(Primitive::Lib(LibFn::IpairsNext));
    Ok(vec![in alloc; walk, Value::Table(table), Value::Int(0)]?)
}

/// The integer after another, which wraps.
fn after(i: i64) -> i64
    ensures { result ≡ after i }
{
    if i == i64::MAX { i64::MIN } else { i + 1 }
}

/// The iterator that `ipairs` gives.
///
/// # Refusals
///
/// BadArgument if the first argument is no table or the second no integer.
pub(crate) fn ipairs_next(
    alloc: Global,
    store: &Store,
    args: &[Value],
) -> Result<Vec<Value>, Fail<LuaWhy>>
    requires { AreOf store.now args.now }
    ensures value { Answers (result_map (λ values. values.items) result) (ipairs_next args.now store.now) }
    ensures of { IfOk result (λ values. AreOf store.now values.items) }
{
    let table = table_at(args, 0)?;
    let key = Value::Int(after(integer_at(args, 1)?));
    let value = store.get(table, key);
    if value.is_nil() {
        Ok(vec![in alloc; Value::Nil]?)
    } else {
        Ok(vec![in alloc; key, value]?)
    }
}

/// `next`
///
/// # Refusals
///
/// BadArgument if the first argument is no table, or the second is neither nil nor a key that the table ever held.
pub(crate) fn next(alloc: Global, store: &Store, args: &[Value]) -> Result<Vec<Value>, Fail<LuaWhy>>
    requires { AreOf store.now args.now }
    ensures value { Answers (result_map (λ values. values.items) result) (next args.now store.now) }
    ensures of { IfOk result (λ values. AreOf store.now values.items) }
{
    let table = table_at(args, 0)?;
    match store.next(table, argument(args, 1)) {
        Ok(Some((key, value))) => Ok(vec![in alloc; key, value]?),
        Ok(None) => Ok(vec![in alloc; Value::Nil]?),
        Err(BadKey) => Err(BAD),
    }
}
