//! `print`, and the joining of lists.

ghost use Rattle.std.specs.Prelude.{◌≡◌, IfOk, Ok, Err};
ghost use Rattle.ntx_num.specs.Answer.{result_map, Answers};
ghost use Rattle.ntx_values.specs.State.{IsOf, AreOf, table_of};
ghost use Rattle.ntx_lualib.specs.Arguments.{each_of, argument};
ghost use Rattle.ntx_lualib.specs.Shown.{joined};
ghost use Rattle.ntx_lualib.specs.Lists.{element_text, elements, separator, table_concat};
ghost use Rattle.ntx_lualib.specs.Output.{PrintedState, max_printed, printed_line, print_step};
ghost use Rattle.ntx_lualib.specs.inner.Lines.{bounded, limited};
ghost use Rattle.ntx_lualib.specs.inner.Prints.{Prints};

use crate::arguments::{argument, table_at, text_at};
use crate::items::{border, item};
use crate::line::{Line, MAX_TEXT};
use crate::printed::{MAX_PRINTED, Printed};
use crate::shown::{element, shown};
use ntx_num::{Fail, NoMemory};
use ntx_values::{LuaWhy, Store, TableId, Value};
use std::alloc::Global;

/// The line that `print` prints.
fn line_of(alloc: Global, store: &Store, args: &[Value]) -> Result<Line, NoMemory>
    requires { AreOf store.now args.now }
    ensures { IfOk result (λ line. line ≡ bounded max_printed (printed_line store.now args.now)) }
{
    let mut line = Line::new(alloc);
    for (i, value) in args.iter().enumerate() {
        let part = shown(alloc, store, *value)?;
        line.add_part(MAX_PRINTED, i == 0, b"\t", &part)?;
    }
    line.add(MAX_PRINTED, b"\n")?;
    Ok(line)
}

/// `print`
///
/// # Refusals
///
/// PrintFull if more than 2^24 bytes would be printed in all.
pub(crate) fn print(
    alloc: Global,
    store: &Store,
    out: &mut Printed,
    args: &[Value],
) -> Result<Vec<Value>, Fail<LuaWhy>>
    requires { AreOf store.now args.now }
    ensures prints { Prints (result_map (λ values. values.items) result) out.old out.new (print_step (printed_line store.now args.now) out.old) }
    ensures of { IfOk result (λ values. AreOf store.now values.items) }
{
    let line = line_of(alloc, store, args)?.finish(LuaWhy::PrintFull)?;
    out.print(&line)?;
    Ok(Vec::new(alloc))
}

/// What a table holds from 1 to its border, with the bytes between each two.
fn joined(
    alloc: Global,
    store: &Store,
    table: TableId,
    between: &[u8],
) -> Result<Vec<u8>, Fail<LuaWhy>>
    requires { IsOf store.now (Value.Table table) }
    ensures { Answers (result_map (λ bytes. bytes.items) result) (limited (result_map (joined between.now) (each_of (element_text store.now) (elements (table_of store.now table))))) }
{
    let mut line = Line::new(alloc);
    let count = border(store, table);
    for k in 0..count {
        let part = element(alloc, store, item(store, table, k + 1))?;
        line.add_part(MAX_TEXT, k == 0, between, &part)?;
    }
    line.finish(LuaWhy::TextsFull)
}

/// The bytes between elements, none if the value is nil.
fn separator(alloc: Global, store: &Store, args: &[Value]) -> Result<Vec<u8>, Fail<LuaWhy>>
    requires { AreOf store.now args.now }
    ensures { Answers (result_map (λ bytes. bytes.items) result) (separator store.now (argument args.now 1)) }
{
    match argument(args, 1) {
        Value::Nil => Ok(Vec::new(alloc)),
        _ => {
            let text = text_at(store, args, 1)?;
            Ok(Vec::from_slice(alloc, store.bytes_of(text))?)
        }
    }
}

/// `table.concat`
///
/// # Refusals
///
/// BadArgument if the first argument is no table, the second is neither a text nor nil, or an element is neither a text nor an
/// integer. Then TextsFull if the text would have more than 2^20 bytes.
pub(crate) fn table_concat(
    alloc: Global,
    store: &Store,
    args: &[Value],
) -> Result<Vec<u8>, Fail<LuaWhy>>
    requires { AreOf store.now args.now }
    ensures { Answers (result_map (λ bytes. bytes.items) result) (limited (table_concat args.now store.now)) }
{
    let table = table_at(args, 0)?;
    let between = separator(alloc, store, args)?;
    joined(alloc, store, table, &between)
}
