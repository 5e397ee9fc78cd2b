//! Arguments of library functions.

ghost use Rattle.std.specs.Prelude.{◌≡◌, Ok, Err, IfOk};
ghost use Rattle.ntx_num.specs.Answer.{result_map, Answers};
ghost use Rattle.ntx_values.specs.State.{StoreState, IsOf, AreOf, bytes_of};
ghost use Rattle.ntx_lualib.specs.Arguments.{argument, text_of, integer_of, integer_or, table_of};

use ntx_num::Fail;
use ntx_values::{LuaWhy, Store, TableId, TextId, Value};

/// An argument of a wrong sort or value.
pub(crate) const BAD: Fail<LuaWhy> = Fail::Is(LuaWhy::BadArgument);

/// The argument after `n` others, nil if it is missing.
pub(crate) fn argument(args: &[Value], n: usize) -> Value
    ensures value { result ≡ argument args.now n }
    ensures of { (store : StoreState) → AreOf store args.now → IsOf store result }
{
    match args.get(n) {
        Some(value) => *value,
        None => Value::Nil,
    }
}

/// The text after `n` other arguments.
///
/// # Refusals
///
/// BadArgument if it is no text.
pub(crate) fn text_at(store: &Store, args: &[Value], n: usize) -> Result<TextId, Fail<LuaWhy>>
    requires { AreOf store.now args.now }
    ensures value { Answers (result_map (bytes_of store.now) result) (text_of store.now (argument args.now n)) }
    ensures of { IfOk result (λ t. IsOf store.now (Value.Text t)) }
{
    match argument(args, n) {
        Value::Text(text) => Ok(text),
        _ => Err(BAD),
    }
}

/// The integer that a value is.
///
/// # Refusals
///
/// BadArgument if it is no integer.
pub(crate) fn integer_of(value: Value) -> Result<i64, Fail<LuaWhy>>
    ensures { Answers result (integer_of value) }
{
    match value {
        Value::Int(integer) => Ok(integer),
        _ => Err(BAD),
    }
}

/// The integer after `n` other arguments.
///
/// # Refusals
///
/// BadArgument if it is no integer.
pub(crate) fn integer_at(args: &[Value], n: usize) -> Result<i64, Fail<LuaWhy>>
    ensures { Answers result (integer_of (argument args.now n)) }
{
    integer_of(argument(args, n))
}

/// The integer after `n` other arguments, or what nil means there.
///
/// # Refusals
///
/// BadArgument if it is neither an integer nor nil.
pub(crate) fn integer_or(default: i64, args: &[Value], n: usize) -> Result<i64, Fail<LuaWhy>>
    ensures { Answers result (integer_or default (argument args.now n)) }
{
    match argument(args, n) {
        Value::Nil => Ok(default),
        Value::Int(integer) => Ok(integer),
        _ => Err(BAD),
    }
}

/// The table after `n` other arguments.
///
/// # Refusals
///
/// BadArgument if it is no table.
pub(crate) fn table_at(args: &[Value], n: usize) -> Result<TableId, Fail<LuaWhy>>
    ensures value { Answers result (table_of (argument args.now n)) }
    ensures of { (store : StoreState) → AreOf store args.now → IfOk result (λ t. IsOf store (Value.Table t)) }
{
    match argument(args, n) {
        Value::Table(table) => Ok(table),
        _ => Err(BAD),
    }
}
