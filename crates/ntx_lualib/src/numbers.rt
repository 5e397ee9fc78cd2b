//! Functions on integers.

ghost use Rattle.std.specs.Prelude.{◌≡◌, IfOk};
ghost use Rattle.ntx_num.specs.Answer.{result_map, Answers};
ghost use Rattle.ntx_values.specs.State.{StoreState, AreOf};
ghost use Rattle.ntx_lualib.specs.Arguments.{each_of, integer_of};
ghost use Rattle.ntx_lualib.specs.Numbers.{absolute, greatest, least, math_abs, math_max, math_min};

use crate::arguments::{BAD, integer_at, integer_of};
use ntx_num::Fail;
use ntx_values::{LuaWhy, Value};
use std::alloc::Global;

/// The absolute value, which wraps: -2^63 stays as it is.
fn absolute(n: i64) -> i64
    ensures { result ≡ absolute n }
{
    if n >= 0 || n == i64::MIN { n } else { -n }
}

/// `math.abs`
///
/// # Refusals
///
/// BadArgument if the first argument is no integer.
pub(crate) fn math_abs(alloc: Global, args: &[Value]) -> Result<Vec<Value>, Fail<LuaWhy>>
    ensures value { Answers (result_map (λ values. values.items) result) (math_abs args.now) }
    ensures of { (store : StoreState) → IfOk result (λ values. AreOf store values.items) }
{
    let n = integer_at(args, 0)?;
    Ok(vec![in alloc; Value::Int(absolute(n))]?)
}

/// The arguments, if all are integers.
fn integers(alloc: Global, args: &[Value]) -> Result<Vec<i64>, Fail<LuaWhy>>
    ensures { Answers (result_map (λ values. values.items) result) (each_of integer_of args.now) }
{
    let mut integers = Vec::new(alloc);
    for value in args {
        integers.push(integer_of(*value)?)?;
    }
    Ok(integers)
}

/// The greatest of one or more.
fn greatest(first: i64, others: &[i64]) -> i64
    ensures { result ≡ greatest first others.now }
{
    let mut most = first;
    for n in others {
        most = most.max(*n);
    }
    most
}

/// The least of one or more.
fn least(first: i64, others: &[i64]) -> i64
    ensures { result ≡ least first others.now }
{
    let mut most = first;
    for n in others {
        most = most.min(*n);
    }
    most
}

/// `math.max`
///
/// # Refusals
///
/// BadArgument if there is no argument, or one is no integer.
pub(crate) fn math_max(alloc: Global, args: &[Value]) -> Result<Vec<Value>, Fail<LuaWhy>>
    ensures value { Answers (result_map (λ values. values.items) result) (math_max args.now) }
    ensures of { (store : StoreState) → IfOk result (λ values. AreOf store values.items) }
{
    let integers = integers(alloc, args)?;
    match integers.as_slice().split_first() {
        Some((first, others)) => Ok(vec![in alloc; Value::Int(greatest(*first, others))]?),
        None => Err(BAD),
    }
}

/// `math.min`
///
/// # Refusals
///
/// BadArgument if there is no argument, or one is no integer.
pub(crate) fn math_min(alloc: Global, args: &[Value]) -> Result<Vec<Value>, Fail<LuaWhy>>
    ensures value { Answers (result_map (λ values. values.items) result) (math_min args.now) }
    ensures of { (store : StoreState) → IfOk result (λ values. AreOf store values.items) }
{
    let integers = integers(alloc, args)?;
    match integers.as_slice().split_first() {
        Some((first, others)) => Ok(vec![in alloc; Value::Int(least(*first, others))]?),
        None => Err(BAD),
    }
}
