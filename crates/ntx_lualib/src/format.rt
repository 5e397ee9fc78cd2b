//! Formats.

ghost use Rattle.std.specs.Prelude.{◌≡◌, ◌≢◌, ◌<◌, ◌≤◌, ◌+◌, ◌^◌, List, ℕ, length, drop, nat_eq, if◌then◌else◌, Ok, Err, []};
ghost use Rattle.ntx_num.specs.Answer.{result_map, Answers};
ghost use Rattle.ntx_values.specs.State.{IsOf, AreOf};
ghost use Rattle.ntx_lualib.specs.Formats.{directive, values_taken, formatted, string_format};
ghost use Rattle.ntx_lualib.specs.inner.Lines.{added, limited};
ghost use Rattle.ntx_lualib.specs.inner.Pieces.{Takes};

use crate::arguments::{BAD, argument, integer_of, text_at};
use crate::line::{Line, MAX_TEXT};
use crate::shown::{digits, shown};
use ntx_num::Fail;
use ntx_values::{LuaWhy, Store, Value};
use std::alloc::Global;

/// How much was read of a format: bytes of the format, and values.
#[derive(Clone, Copy)]
struct Taken {
    bytes: usize,
    values: usize,
}

/// What `%` and a byte give for a value.
fn directive(alloc: Global, store: &Store, code: u8, value: Value) -> Result<Vec<u8>, Fail<LuaWhy>>
    requires { IsOf store.now value }
    ensures { Answers (result_map (λ bytes. bytes.items) result) (directive store.now code value) }
{
    if code == b'%' {
        return Ok(Vec::from_slice(alloc, b"%")?);
    }
    if code == b'd' {
        return Ok(digits(alloc, integer_of(value)?)?);
    }
    if code == b's' {
        return Ok(shown(alloc, store, value)?);
    }
    Err(BAD)
}

/// How many values `%` and a byte take.
fn values_taken(code: u8) -> usize
    ensures { result ≡ values_taken code }
{
    if code == b'%' { 0 } else { 1 }
}

/// The values after the first `n`.
fn after(values: &[Value], n: usize) -> &[Value]
    ensures { result.now ≡ drop n values.now }
{
    if n < values.len() { &values[n..] } else { &[] }
}

/// The bytes after the first `n`.
fn skip(bytes: &[u8], n: usize) -> &[u8]
    requires { n ≤ length bytes.now }
    ensures { result.now ≡ drop n bytes.now }
{
    &bytes[n..]
}

/// Adds the next piece of a format to a line.
fn take_piece(
    alloc: Global,
    store: &Store,
    line: &mut Line,
    format: &[u8],
    values: &[Value],
) -> Result<Taken, Fail<LuaWhy>>
    requires of { AreOf store.now values.now }
    requires more { format.now ≢ [] }
    ensures { Takes (result_map (λ taken. (taken.bytes, taken.values)) result) line.old line.new store.now format.now values.now }
{
    let head = format[0];
    if head != b'%' {
        line.add(MAX_TEXT, &format[..1])?;
        return Ok(Taken {
            bytes: 1,
            values: 0,
        });
    }
    if format.len() < 2 {
        return Err(BAD);
    }
    let code = format[1];
    let piece = directive(alloc, store, code, argument(values, 0))?;
    line.add(MAX_TEXT, &piece)?;
    Ok(Taken {
        bytes: 2,
        values: values_taken(code),
    })
}

/// The bytes of a format with its values.
fn formatted(
    alloc: Global,
    store: &Store,
    format: &[u8],
    values: &[Value],
) -> Result<Vec<u8>, Fail<LuaWhy>>
    requires { AreOf store.now values.now }
    ensures { Answers (result_map (λ bytes. bytes.items) result) (limited (formatted store.now format.now values.now)) }
{
    let mut line = Line::new(alloc);
    let mut rest = format;
    let mut left = values;
    while !rest.is_empty() {
        let taken = take_piece(alloc, store, &mut line, rest, left)?;
        rest = skip(rest, taken.bytes);
        left = after(left, taken.values);
    }
    line.finish(LuaWhy::TextsFull)
}

/// `string.format`
///
/// # Refusals
///
/// BadArgument if the first argument is no text, a `%` is not followed by `%`, `d` or `s`, or a `%d` has no integer. Then TextsFull
/// if the text would have more than 2^20 bytes.
pub(crate) fn string_format(
    alloc: Global,
    store: &Store,
    args: &[Value],
) -> Result<Vec<u8>, Fail<LuaWhy>>
    requires { AreOf store.now args.now }
    ensures { Answers (result_map (λ bytes. bytes.items) result) (limited (string_format args.now store.now)) }
{
    let text = text_at(store, args, 0)?;
    formatted(alloc, store, store.bytes_of(text), after(args, 1))
}
