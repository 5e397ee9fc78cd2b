//! Functions on texts.

ghost use Rattle.std.specs.Prelude.{◌≡◌, ◌^◌, ◌<◌, length, take, drop, Ok, Err, IfOk, IfSome};
ghost use Rattle.ntx_num.specs.Answer.{result_map, Answers};
ghost use Rattle.ntx_values.specs.State.{StoreState, IsOf, AreOf};
ghost use Rattle.std.specs.List.{repeat};
ghost use Rattle.ntx_lualib.specs.Strings.{place, substring, byte_at, byte_of, times, string_len, string_sub, string_byte, string_char, string_rep};
ghost use Rattle.ntx_lualib.specs.inner.Lines.{limited};

use crate::arguments::{BAD, integer_at, integer_or, text_at};
use crate::line::MAX_TEXT;
use ntx_num::Fail;
use ntx_values::{LuaWhy, Store, Value};
use std::alloc::Global;

/// The place that a number names in a text of a length, from 1; 0 if it is before the first.
fn place(len: usize, i: i64) -> usize
    ensures { result ≡ place len i }
{
    if i >= 0 {
        i as usize
    } else {
        len.saturating_sub((-(i + 1)) as usize)
    }
}

/// The first `j` bytes without the first `i`.
fn cut(bytes: &[u8], i: usize, j: usize) -> &[u8]
    ensures { result.now ≡ drop i (take j bytes.now) }
{
    let to = j.min(bytes.len());
    let before = i.min(to);
    &bytes[before..to]
}

/// The bytes from place `i` to place `j`.
fn substring(bytes: &[u8], i: i64, j: i64) -> &[u8]
    ensures { result.now ≡ substring bytes.now i j }
{
    let len = bytes.len();
    cut(bytes, place(len, i).saturating_sub(1), place(len, j))
}

/// The byte at a place as an integer, nil outside.
fn byte_at(bytes: &[u8], place: usize) -> Value
    ensures { result ≡ byte_at bytes.now place }
{
    if place == 0 {
        return Value::Nil;
    }
    match bytes.get(place - 1) {
        Some(byte) => Value::Int(i64::from(*byte)),
        None => Value::Nil,
    }
}

/// `string.len`
///
/// # Refusals
///
/// BadArgument if the first argument is no text.
pub(crate) fn string_len(
    alloc: Global,
    store: &Store,
    args: &[Value],
) -> Result<Vec<Value>, Fail<LuaWhy>>
    requires { AreOf store.now args.now }
    ensures value { Answers (result_map (λ values. values.items) result) (string_len args.now store.now) }
    ensures of { IfOk result (λ values. AreOf store.now values.items) }
{
    let text = text_at(store, args, 0)?;
    let len = store.bytes_of(text).len();
    Ok(vec![in alloc; Value::Int(len as i64)]?)
}

/// `string.sub`
///
/// # Refusals
///
/// BadArgument if the first argument is no text, the second no integer, or the third neither an integer nor nil.
pub(crate) fn string_sub(
    alloc: Global,
    store: &Store,
    args: &[Value],
) -> Result<Vec<u8>, Fail<LuaWhy>>
    requires { AreOf store.now args.now }
    ensures { Answers (result_map (λ bytes. bytes.items) result) (string_sub args.now store.now) }
{
    let text = text_at(store, args, 0)?;
    let i = integer_at(args, 1)?;
    let j = integer_or(-1, args, 2)?;
    Ok(Vec::from_slice(alloc, substring(store.bytes_of(text), i, j))?)
}

/// `string.byte`
///
/// # Refusals
///
/// BadArgument if the first argument is no text, or the second neither an integer nor nil.
pub(crate) fn string_byte(
    alloc: Global,
    store: &Store,
    args: &[Value],
) -> Result<Vec<Value>, Fail<LuaWhy>>
    requires { AreOf store.now args.now }
    ensures value { Answers (result_map (λ values. values.items) result) (string_byte args.now store.now) }
    ensures of { IfOk result (λ values. AreOf store.now values.items) }
{
    let text = text_at(store, args, 0)?;
    let i = integer_or(1, args, 1)?;
    let bytes = store.bytes_of(text);
    let value = byte_at(bytes, place(bytes.len(), i));
    Ok(vec![in alloc; value]?)
}

/// The byte with a code.
fn byte_of(value: Value) -> Result<u8, Fail<LuaWhy>>
    ensures { Answers result (byte_of value) }
{
    match value {
        Value::Int(code) if (0..256).contains(&code) => Ok(code as u8),
        _ => Err(BAD),
    }
}

/// `string.char`
///
/// # Refusals
///
/// BadArgument if an argument is no integer from 0 to 255.
pub(crate) fn string_char(alloc: Global, args: &[Value]) -> Result<Vec<u8>, Fail<LuaWhy>>
    ensures { Answers (result_map (λ bytes. bytes.items) result) (string_char args.now) }
{
    let mut bytes = Vec::new(alloc);
    for value in args {
        bytes.push(byte_of(*value)?)?;
    }
    Ok(bytes)
}

/// How many times a text is repeated.
fn times(n: i64) -> usize
    ensures { result ≡ times n }
{
    if n < 0 { 0 } else { n as usize }
}

/// Bytes repeated, if they are not too many for a text.
fn repeated(alloc: Global, bytes: &[u8], n: usize) -> Result<Vec<u8>, Fail<LuaWhy>>
    ensures { Answers (result_map (λ bytes. bytes.items) result) (limited (Ok (repeat n bytes.now))) }
{
    let mut all = Vec::new(alloc);
    if bytes.is_empty() {
        return Ok(all);
    }
    if n > MAX_TEXT / bytes.len() {
        return Err(Fail::Is(LuaWhy::TextsFull));
    }
    for _k in 0..n {
        all.extend_from_slice(bytes)?;
    }
    Ok(all)
}

/// `string.rep`
///
/// # Refusals
///
/// BadArgument if the first argument is no text or the second no integer. Then TextsFull if the text would have more than 2^20
/// bytes.
pub(crate) fn string_rep(
    alloc: Global,
    store: &Store,
    args: &[Value],
) -> Result<Vec<u8>, Fail<LuaWhy>>
    requires { AreOf store.now args.now }
    ensures { Answers (result_map (λ bytes. bytes.items) result) (limited (string_rep args.now store.now)) }
{
    let text = text_at(store, args, 0)?;
    let n = integer_at(args, 1)?;
    repeated(alloc, store.bytes_of(text), times(n))
}
