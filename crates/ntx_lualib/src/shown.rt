//! Values as texts.

ghost use Rattle.std.specs.Prelude.{◌≡◌, ◌++◌, Ok, codes, decimal};
ghost use Rattle.std.specs.Fmt.{signed_decimal};
ghost use Rattle.ntx_num.specs.Answer.{result_map, Gives, Answers};
ghost use Rattle.ntx_values.specs.State.{IsOf, AreOf};
ghost use Rattle.ntx_lualib.specs.Arguments.{argument};
ghost use Rattle.ntx_lualib.specs.Shown.{shown, type_name};
ghost use Rattle.ntx_lualib.specs.Lists.{element_text};

use crate::arguments::{BAD, argument};
use ntx_num::{Fail, NoMemory};
use ntx_values::{LuaWhy, Store, Value};
use std::alloc::Global;

/// The decimal digits of an integer, with a minus sign if it is negative.
pub(crate) fn digits(alloc: Global, n: i64) -> Result<Vec<u8>, NoMemory>
    ensures { Gives (result_map (λ bytes. bytes.items) result) (signed_decimal n) }
{
    let text = format!(in alloc; "{n}")?;
    Ok(Vec::from_slice(alloc, text.as_bytes())?)
}

/// The name of a node as it is shown.
fn node_name(alloc: Global, name: u64) -> Result<Vec<u8>, NoMemory>
    ensures { Gives (result_map (λ bytes. bytes.items) result) (codes "node " ++ decimal name) }
{
    let text = format!(in alloc; "node {name}")?;
    Ok(Vec::from_slice(alloc, text.as_bytes())?)
}

/// A value as `tostring` gives it.
pub(crate) fn shown(alloc: Global, store: &Store, value: Value) -> Result<Vec<u8>, NoMemory>
    requires { IsOf store.now value }
    ensures { Gives (result_map (λ bytes. bytes.items) result) (shown store.now value) }
{
    match value {
        Value::Nil => Ok(Vec::from_slice(alloc, b"nil")?),
        Value::Bool(true) => Ok(Vec::from_slice(alloc, b"true")?),
        Value::Bool(false) => Ok(Vec::from_slice(alloc, b"false")?),
        Value::Int(n) => digits(alloc, n),
        Value::Text(text) => Ok(Vec::from_slice(alloc, store.bytes_of(text))?),
        Value::Table(_) => Ok(Vec::from_slice(alloc, b"table")?),
        Value::Function(_) | Value::Prim(_) => Ok(Vec::from_slice(alloc, b"function")?),
        Value::Node(name) => node_name(alloc, name),
    }
}

/// The name of a value's type.
fn type_name(value: Value) -> &'static [u8]
    ensures { result.now ≡ type_name value }
{
    match value {
        Value::Nil => b"nil",
        Value::Bool(_) => b"boolean",
        Value::Int(_) => b"number",
        Value::Text(_) => b"string",
        Value::Table(_) => b"table",
        Value::Function(_) | Value::Prim(_) => b"function",
        Value::Node(_) => b"userdata",
    }
}

/// `tostring`
pub(crate) fn tostring(
    alloc: Global,
    store: &Store,
    args: &[Value],
) -> Result<Vec<u8>, Fail<LuaWhy>>
    requires { AreOf store.now args.now }
    ensures { Answers (result_map (λ bytes. bytes.items) result) (Ok (shown store.now (argument args.now 0))) }
{
    Ok(shown(alloc, store, argument(args, 0))?)
}

/// `type`
pub(crate) fn type_of(alloc: Global, args: &[Value]) -> Result<Vec<u8>, Fail<LuaWhy>>
    ensures { Answers (result_map (λ bytes. bytes.items) result) (Ok (type_name (argument args.now 0))) }
{
    Ok(Vec::from_slice(alloc, type_name(argument(args, 0)))?)
}

/// A text, or an integer by its digits, as an element of a list that is joined.
///
/// # Refusals
///
/// BadArgument if it is neither a text nor an integer.
pub(crate) fn element(alloc: Global, store: &Store, value: Value) -> Result<Vec<u8>, Fail<LuaWhy>>
    requires { IsOf store.now value }
    ensures { Answers (result_map (λ bytes. bytes.items) result) (element_text store.now value) }
{
    match value {
        Value::Text(text) => Ok(Vec::from_slice(alloc, store.bytes_of(text))?),
        Value::Int(n) => Ok(digits(alloc, n)?),
        _ => Err(BAD),
    }
}
