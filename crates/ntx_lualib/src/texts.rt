//! The functions that give a text: from the bytes that they represent to the text with these bytes.

ghost use Rattle.std.specs.Prelude.{◌≡◌, List, ℕ, Ok, IfOk, Result};
ghost use Rattle.ntx_num.specs.Answer.{result_map};
ghost use Rattle.ntx_values.specs.State.{AreOf, Grows};
ghost use Rattle.ntx_values.specs.declared.why.LuaWhy as why;
ghost use Rattle.ntx_lualib.specs.Arguments.{argument};
ghost use Rattle.ntx_lualib.specs.Shown.{shown, type_name};
ghost use Rattle.ntx_lualib.specs.Strings.{string_sub, string_char, string_rep};
ghost use Rattle.ntx_lualib.specs.Formats.{string_format};
ghost use Rattle.ntx_lualib.specs.Lists.{table_concat};
ghost use Rattle.ntx_lualib.specs.Library.{gives_text};
ghost use Rattle.ntx_lualib.specs.inner.StoreCalls.{StoreCalls, GivesBytes};

use crate::format::string_format;
use crate::print::table_concat;
use crate::shown::{tostring, type_of};
use crate::strings::{string_char, string_rep, string_sub};
use ntx_num::Fail;
use ntx_values::{LuaWhy, Store, Value};
use std::alloc::Global;

/// The text with these bytes as the only value.
fn give_text(
    alloc: Global,
    store: &mut Store,
    bytes: Result<Vec<u8>, Fail<LuaWhy>>,
) -> Result<Vec<Value>, Fail<LuaWhy>>
    ensures calls { (answer : Result (List ℕ) why.LuaWhy) → GivesBytes (result_map (λ bytes. bytes.items) bytes) answer → StoreCalls (result_map (λ values. values.items) result) store.old store.new (gives_text (λ _. answer) store.old) }
    ensures grows { Grows store.old store.new }
    ensures of { IfOk result (λ values. AreOf store.new values.items) }
{
    store.lawful();
    let bytes = bytes?;
    let text = store.text(&bytes)?;
    Ok(vec![in alloc; Value::Text(text)]?)
}

/// `tostring`
///
/// # Refusals
///
/// TextsFull if the text does not fit the store.
pub(crate) fn give_shown(
    alloc: Global,
    store: &mut Store,
    args: &[Value],
) -> Result<Vec<Value>, Fail<LuaWhy>>
    requires { AreOf store.old args.now }
    ensures calls { StoreCalls (result_map (λ values. values.items) result) store.old store.new (gives_text (λ store. Ok (shown store (argument args.now 0))) store.old) }
    ensures grows { Grows store.old store.new }
    ensures of { IfOk result (λ values. AreOf store.new values.items) }
{
    let bytes = tostring(alloc, store, args);
    give_text(alloc, store, bytes)
}

/// `type`
///
/// # Refusals
///
/// TextsFull if the text does not fit the store.
pub(crate) fn give_type(
    alloc: Global,
    store: &mut Store,
    args: &[Value],
) -> Result<Vec<Value>, Fail<LuaWhy>>
    ensures calls { StoreCalls (result_map (λ values. values.items) result) store.old store.new (gives_text (λ _. Ok (type_name (argument args.now 0))) store.old) }
    ensures grows { Grows store.old store.new }
    ensures of { IfOk result (λ values. AreOf store.new values.items) }
{
    give_text(alloc, store, type_of(alloc, args))
}

/// `string.sub`
///
/// # Refusals
///
/// BadArgument if the first argument is no text, the second no integer, or the third neither an integer nor nil. Then TextsFull if
/// the text does not fit the store.
pub(crate) fn give_sub(
    alloc: Global,
    store: &mut Store,
    args: &[Value],
) -> Result<Vec<Value>, Fail<LuaWhy>>
    requires { AreOf store.old args.now }
    ensures calls { StoreCalls (result_map (λ values. values.items) result) store.old store.new (gives_text (string_sub args.now) store.old) }
    ensures grows { Grows store.old store.new }
    ensures of { IfOk result (λ values. AreOf store.new values.items) }
{
    let bytes = string_sub(alloc, store, args);
    give_text(alloc, store, bytes)
}

/// `string.char`
///
/// # Refusals
///
/// BadArgument if an argument is no integer from 0 to 255. Then TextsFull if the text does not fit the store.
pub(crate) fn give_char(
    alloc: Global,
    store: &mut Store,
    args: &[Value],
) -> Result<Vec<Value>, Fail<LuaWhy>>
    ensures calls { StoreCalls (result_map (λ values. values.items) result) store.old store.new (gives_text (λ _. string_char args.now) store.old) }
    ensures grows { Grows store.old store.new }
    ensures of { IfOk result (λ values. AreOf store.new values.items) }
{
    give_text(alloc, store, string_char(alloc, args))
}

/// `string.rep`
///
/// # Refusals
///
/// BadArgument if the first argument is no text or the second no integer. Then TextsFull if the text does not fit the store.
pub(crate) fn give_rep(
    alloc: Global,
    store: &mut Store,
    args: &[Value],
) -> Result<Vec<Value>, Fail<LuaWhy>>
    requires { AreOf store.old args.now }
    ensures calls { StoreCalls (result_map (λ values. values.items) result) store.old store.new (gives_text (string_rep args.now) store.old) }
    ensures grows { Grows store.old store.new }
    ensures of { IfOk result (λ values. AreOf store.new values.items) }
{
    let bytes = string_rep(alloc, store, args);
    give_text(alloc, store, bytes)
}

/// `string.format`
///
/// # Refusals
///
/// BadArgument if the first argument is no text, a `%` is not followed by `%`, `d` or `s`, or a `%d` has no integer. Then TextsFull
/// if the text does not fit the store.
pub(crate) fn give_format(
    alloc: Global,
    store: &mut Store,
    args: &[Value],
) -> Result<Vec<Value>, Fail<LuaWhy>>
    requires { AreOf store.old args.now }
    ensures calls { StoreCalls (result_map (λ values. values.items) result) store.old store.new (gives_text (string_format args.now) store.old) }
    ensures grows { Grows store.old store.new }
    ensures of { IfOk result (λ values. AreOf store.new values.items) }
{
    let bytes = string_format(alloc, store, args);
    give_text(alloc, store, bytes)
}

/// `table.concat`
///
/// # Refusals
///
/// BadArgument if the first argument is no table, the second is neither a text nor nil, or an element is neither a text nor an
/// integer. Then TextsFull if the text does not fit the store.
pub(crate) fn give_concat(
    alloc: Global,
    store: &mut Store,
    args: &[Value],
) -> Result<Vec<Value>, Fail<LuaWhy>>
    requires { AreOf store.old args.now }
    ensures calls { StoreCalls (result_map (λ values. values.items) result) store.old store.new (gives_text (table_concat args.now) store.old) }
    ensures grows { Grows store.old store.new }
    ensures of { IfOk result (λ values. AreOf store.new values.items) }
{
    let bytes = table_concat(alloc, store, args);
    give_text(alloc, store, bytes)
}
