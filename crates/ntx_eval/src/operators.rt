//! Operators on values (Lua 5.3 Reference Manual, sections 3.4.1 to 3.4.7).

ghost use Rattle.std.specs.Prelude.{◌≡◌, ◌++◌, length, pos, IfOk};
ghost use Rattle.ntx_num.specs.Answer.{Answers, Steps, result_map};
ghost use Rattle.ntx_values.specs.State.{Grows, IsOf, bytes_of};
ghost use Rattle.ntx_eval.specs.Operators as spec;

use crate::integers::{quotient, remainder, shift_left, shift_right};
use itoa::Buffer;
use ntx_num::Fail;
use ntx_syntax::{BinaryOp, UnaryOp};
use ntx_values::{LuaWhy, Store, TextId, Value};
use std::alloc::Global;
use std::cmp::Ordering;

/// Whether a condition with this value holds: it does unless the value is nil or false.
pub fn is_true(v: Value) -> bool
    ensures { result ≡ spec.is_true v }
{
    match v {
        Value::Nil => false,
        Value::Bool(b) => b,
        _ => true,
    }
}

/// Whether an operator gives its first operand, whatever the second is: `and` if the first does not hold, `or` if it does.
pub fn is_decided(op: BinaryOp, a: Value) -> bool
    ensures { result ≡ spec.is_decided op a }
{
    match op {
        BinaryOp::And => !is_true(a),
        BinaryOp::Or => is_true(a),
        _ => false,
    }
}

/// The integer that a value is.
///
/// # Refusals
///
/// WrongType of a value that is no integer.
fn integer(v: Value) -> Result<i64, LuaWhy>
    ensures { result ≡ spec.integer_of v }
{
    match v {
        Value::Int(n) => Ok(n),
        _ => Err(LuaWhy::WrongType),
    }
}

/// How two integers or two texts stand to each other, texts by their bytes.
///
/// # Refusals
///
/// WrongType of other values.
fn order(store: &Store, a: Value, b: Value) -> Result<Ordering, LuaWhy>
    requires first { IsOf store.now a }
    requires second { IsOf store.now b }
    ensures { result ≡ spec.order_of store.now a b }
{
    match (a, b) {
        (Value::Int(x), Value::Int(y)) => Ok(x.cmp(&y)),
        (Value::Text(x), Value::Text(y)) => Ok(store.bytes_of(x).cmp(store.bytes_of(y))),
        _ => Err(LuaWhy::WrongType),
    }
}

/// Writes what `..` takes of a value after the bytes: those of a text, and an integer in decimal digits.
///
/// # Refusals
///
/// WrongType of another value. The bytes stay as they were.
fn append(store: &Store, v: Value, bytes: &mut Vec<u8>) -> Result<(), Fail<LuaWhy>>
    requires { IsOf store.now v }
    ensures { Steps result bytes.old.items bytes.new.items (result_map (λ xs. (tt, bytes.old.items ++ xs)) (spec.written store.now v)) }
{
    match v {
        Value::Int(n) => bytes.extend_from_slice(Buffer::new().format(n).as_bytes())?,
        Value::Text(t) => bytes.extend_from_slice(store.bytes_of(t))?,
        _ => return Err(Fail::Is(LuaWhy::WrongType)),
    }
    Ok(())
}

/// The bytes that `a .. b` has.
///
/// # Refusals
///
/// WrongType of a value that is neither a text nor an integer.
fn joined(alloc: Global, store: &Store, a: Value, b: Value) -> Result<Vec<u8>, Fail<LuaWhy>>
    requires first { IsOf store.now a }
    requires second { IsOf store.now b }
    ensures { Answers (result_map (λ bytes. bytes.items) result) (spec.joined a b store.now) }
{
    let mut bytes = Vec::new(alloc);
    append(store, a, &mut bytes)?;
    append(store, b, &mut bytes)?;
    Ok(bytes)
}

/// `a .. b`
///
/// # Refusals
///
/// WrongType of a value that is neither a text nor an integer. TextsFull if the store cannot hold the text.
fn concat(alloc: Global, store: &mut Store, a: Value, b: Value) -> Result<Value, Fail<LuaWhy>>
    requires first { IsOf store.old a }
    requires second { IsOf store.old b }
    ensures step { Steps result store.old store.new (spec.text_of_bytes (spec.joined a b store.old) store.old) }
    ensures grows { Grows store.old store.new }
    ensures of { IfOk result (λ v. IsOf store.new v) }
{
    let bytes = joined(alloc, store, a, b)?;
    let t = store.text(bytes.as_slice())?;
    Ok(Value::Text(t))
}

/// How many bytes a text has.
fn text_len(store: &Store, t: TextId) -> i64
    requires { IsOf store.now (Value.Text t) }
    ensures { result ≡ pos (length (bytes_of store.now t)) }
{
    store.lawful();
    store.bytes_of(t).len() as i64
}

/// `#a`: the bytes of a text, or the border of a table.
///
/// # Refusals
///
/// WrongType of another value.
fn length_of(store: &Store, a: Value) -> Result<Value, LuaWhy>
    requires { IsOf store.now a }
    ensures { result ≡ spec.length_of a store.now }
{
    match a {
        Value::Text(t) => Ok(Value::Int(text_len(store, t))),
        Value::Table(t) => Ok(Value::Int(store.border(t))),
        _ => Err(LuaWhy::WrongType),
    }
}

/// An operator before its operand.
///
/// # Refusals
///
/// WrongType of an operand of another sort than the operator takes.
pub fn unary(store: &Store, op: UnaryOp, a: Value) -> Result<Value, LuaWhy>
    requires { IsOf store.now a }
    ensures value { result ≡ spec.unary_of op a store.now }
    ensures of { IfOk result (λ v. IsOf store.now v) }
{
    match op {
        UnaryOp::Not => Ok(Value::Bool(!is_true(a))),
        UnaryOp::Length => length_of(store, a),
        UnaryOp::Minus => Ok(Value::Int(integer(a)?.wrapping_neg())),
        UnaryOp::BitNot => Ok(Value::Int(!integer(a)?)),
    }
}

/// The value of two integers and an operator that takes integers alone.
///
/// # Refusals
///
/// ZeroDivisor of `//` and `%` if the second is 0. WrongType of another operator.
fn arithmetic(op: BinaryOp, x: i64, y: i64) -> Result<i64, LuaWhy>
    ensures { result ≡ spec.arithmetic op x y }
{
    match op {
        BinaryOp::BitOr => Ok(x | y),
        BinaryOp::BitXor => Ok(x ^ y),
        BinaryOp::BitAnd => Ok(x & y),
        BinaryOp::ShiftLeft => Ok(shift_left(x, y)),
        BinaryOp::ShiftRight => Ok(shift_right(x, y)),
        BinaryOp::Add => Ok(x.wrapping_add(y)),
        BinaryOp::Subtract => Ok(x.wrapping_sub(y)),
        BinaryOp::Multiply => Ok(x.wrapping_mul(y)),
        BinaryOp::FloorDivide => quotient(x, y),
        BinaryOp::Modulo => remainder(x, y),
        _ => Err(LuaWhy::WrongType),
    }
}

/// The same of two values.
///
/// # Refusals
///
/// WrongType of a value that is no integer, and those of the operator.
fn on_integers(op: BinaryOp, a: Value, b: Value) -> Result<Value, LuaWhy>
    ensures { result ≡ spec.on_integers op a b }
{
    let x = integer(a)?;
    let y = integer(b)?;
    Ok(Value::Int(arithmetic(op, x, y)?))
}

/// Whether a comparison holds of two values that stand so to each other.
fn holds(op: BinaryOp, o: Ordering) -> bool
    ensures { result ≡ spec.holds op o }
{
    match op {
        BinaryOp::Less => o.is_lt(),
        BinaryOp::Greater => o.is_gt(),
        BinaryOp::LessEqual => o.is_le(),
        BinaryOp::GreaterEqual => o.is_ge(),
        _ => false,
    }
}

/// An order of two integers or of two texts.
///
/// # Refusals
///
/// WrongType of other values.
fn compare(store: &Store, op: BinaryOp, a: Value, b: Value) -> Result<Value, LuaWhy>
    requires first { IsOf store.now a }
    requires second { IsOf store.now b }
    ensures { result ≡ spec.compared op a b store.now }
{
    let o = order(store, a, b)?;
    Ok(Value::Bool(holds(op, o)))
}

/// An operator between two operands, unless it is `..`.
fn value_of(store: &Store, op: BinaryOp, a: Value, b: Value) -> Result<Value, LuaWhy>
    requires first { IsOf store.now a }
    requires second { IsOf store.now b }
    ensures value { result ≡ spec.value_of op a b store.now }
    ensures of { IfOk result (λ v. IsOf store.now v) }
{
    match op {
        BinaryOp::Or => Ok(if is_true(a) { a } else { b }),
        BinaryOp::And => Ok(if is_true(a) { b } else { a }),
        BinaryOp::Equal => Ok(Value::Bool(a == b)),
        BinaryOp::NotEqual => Ok(Value::Bool(a != b)),
        BinaryOp::Less | BinaryOp::Greater | BinaryOp::LessEqual | BinaryOp::GreaterEqual => {
            compare(store, op, a, b)
        }
        _ => on_integers(op, a, b),
    }
}

/// An operator between two operands. Of `and` and `or` it gives the operand that decides.
///
/// # Refusals
///
/// WrongType of operands of another sort than the operator takes; ZeroDivisor of `//` and `%` by 0; TextsFull if the
/// store cannot hold the text of `..`.
pub fn binary(
    alloc: Global,
    store: &mut Store,
    op: BinaryOp,
    a: Value,
    b: Value,
) -> Result<Value, Fail<LuaWhy>>
    requires first { IsOf store.old a }
    requires second { IsOf store.old b }
    ensures step { Steps result store.old store.new (spec.binary_step op a b store.old) }
    ensures grows { Grows store.old store.new }
    ensures of { IfOk result (λ v. IsOf store.new v) }
{
    match op {
        BinaryOp::Concat => concat(alloc, store, a, b),
        _ => match value_of(store, op, a, b) {
            Ok(v) => Ok(v),
            Err(why) => Err(Fail::Is(why)),
        },
    }
}
