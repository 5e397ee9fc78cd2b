//! Worked calls of the library. Each table of rows is plain data, and one loop runs them.

ghost use Rattle.std.specs.Prelude.{IfOk};
ghost use Rattle.ntx_values.specs.State.{IsOf, AreOf, Grows};

mod limits;
mod lists;
mod numbers;
mod strings;
mod walks;

use crate::{Printed, call_lib};
use ntx_num::Fail;
use ntx_values::{LibFn, LuaWhy, Store, TableId, Value};
use std::alloc::Global;
use std::process::Abort;
use std::test;

/// An argument as plain data.
#[derive(Clone, Copy)]
enum Arg {
    /// nil
    Nil,
    /// A truth value.
    Bool(bool),
    /// An integer.
    Int(i64),
    /// A text.
    Text(&'static [u8]),
    /// A table with these integers from 1 on; 0 is left out.
    List(&'static [u8]),
    /// A table with these integers from 1 on, from which what is at a place was then removed.
    Holed(&'static [u8], i64),
    /// A table with these texts of one byte from 1 on.
    Letters(&'static [u8]),
    /// A function that a script wrote.
    Function,
    /// A function of the library.
    Lib(LibFn),
    /// A node by its name.
    Node(u64),
}

/// What a call has to answer.
#[derive(Clone, Copy)]
enum Want {
    /// No value.
    Nothing,
    /// nil alone.
    Nil,
    /// An integer alone.
    Int(i64),
    /// An integer and another.
    Pair(i64, i64),
    /// A text alone.
    Text(&'static [u8]),
    /// A refusal.
    Refused(LuaWhy),
}

/// The refusal of an argument.
const BAD: Want = Want::Refused(LuaWhy::BadArgument);

/// A call: the function, its arguments, and what it has to answer.
type Row = (LibFn, &'static [Arg], Want);

/// A table with integers from 1 on, 0 left out.
fn list_of(store: &mut Store, integers: &[u8]) -> Result<TableId, Fail<LuaWhy>>
    ensures grows { Grows store.old store.new }
    ensures of { IfOk result (λ t. IsOf store.new (Value.Table t)) }
{
    let table = store.new_table()?;
    for (i, integer) in integers.iter().enumerate() {
        if *integer != 0 {
            store.set(
                table,
                Value::Int(i as i64 + 1),
                Value::Int(i64::from(*integer)),
            )?;
        }
    }
    Ok(table)
}

/// A table with integers from 1 on, from which what is at a place was then removed.
fn holed_of(store: &mut Store, integers: &[u8], place: i64) -> Result<TableId, Fail<LuaWhy>>
    ensures grows { Grows store.old store.new }
    ensures of { IfOk result (λ t. IsOf store.new (Value.Table t)) }
{
    let table = list_of(store, integers)?;
    store.set(table, Value::Int(place), Value::Nil)?;
    Ok(table)
}

/// Sets a table at a number to a text of one byte.
fn set_letter(store: &mut Store, table: TableId, place: i64, letter: u8) -> Result<(), Fail<LuaWhy>>
    requires { IsOf store.old (Value.Table table) }
    ensures grows { Grows store.old store.new }
{
    let text = store.text(&[letter])?;
    store.set(table, Value::Int(place), Value::Text(text))
}

/// A table with texts of one byte from 1 on.
fn letters_of(store: &mut Store, letters: &[u8]) -> Result<TableId, Fail<LuaWhy>>
    ensures grows { Grows store.old store.new }
    ensures of { IfOk result (λ t. IsOf store.new (Value.Table t)) }
{
    let table = store.new_table()?;
    for (i, letter) in letters.iter().enumerate() {
        set_letter(store, table, i as i64 + 1, *letter)?;
    }
    Ok(table)
}

/// The value of an argument.
fn value_of(store: &mut Store, arg: Arg) -> Result<Value, Fail<LuaWhy>>
    ensures grows { Grows store.old store.new }
    ensures of { IfOk result (λ v. IsOf store.new v) }
{
    match arg {
        Arg::Nil => Ok(Value::Nil),
        Arg::Bool(b) => Ok(Value::Bool(b)),
        Arg::Int(n) => Ok(Value::Int(n)),
        Arg::Text(bytes) => Ok(Value::Text(store.text(bytes)?)),
        Arg::List(integers) => Ok(Value::Table(list_of(store, integers)?)),
        Arg::Holed(integers, place) => Ok(Value::Table(holed_of(store, integers, place)?)),
        Arg::Letters(letters) => Ok(Value::Table(letters_of(store, letters)?)),
        Arg::Function => Ok(Value::Function(store.new_function()?)),
        Arg::Lib(f) => Ok(Value::Prim(ntx_values::Primitive::Lib(f))),
        Arg::Node(name) => Ok(Value::Node(name)),
    }
}

/// The values of arguments.
fn values_of(alloc: Global, store: &mut Store, args: &[Arg]) -> Result<Vec<Value>, Fail<LuaWhy>>
    ensures grows { Grows store.old store.new }
    ensures of { IfOk result (λ values. AreOf store.new values.items) }
{
    let mut values = Vec::new(alloc);
    for arg in args {
        let value = value_of(store, *arg)?;
        values.push(value)?;
    }
    Ok(values)
}

/// Whether a value is the only one.
fn is_one(values: &[Value], value: Value) -> bool {
    values.len() == 1 && values[0] == value
}

/// Whether these two integers are the values.
fn is_pair(values: &[Value], first: i64, second: i64) -> bool {
    values.len() == 2 && values[0] == Value::Int(first) && values[1] == Value::Int(second)
}

/// Whether an answer is as wanted.
fn is_wanted(store: &Store, answer: &Result<Vec<Value>, Fail<LuaWhy>>, want: Want) -> bool {
    match (answer, want) {
        (Ok(values), Want::Nothing) => values.is_empty(),
        (Ok(values), Want::Nil) => is_one(values, Value::Nil),
        (Ok(values), Want::Int(n)) => is_one(values, Value::Int(n)),
        (Ok(values), Want::Pair(first, second)) => is_pair(values, first, second),
        (Ok(values), Want::Text(bytes)) => match store.find_text(bytes) {
            Some(text) => is_one(values, Value::Text(text)),
            None => false,
        },
        (Err(Fail::Is(why)), Want::Refused(wanted)) => *why == wanted,
        _ => false,
    }
}

/// Makes the arguments of a call and calls it.
fn call(
    alloc: Global,
    store: &mut Store,
    out: &mut Printed,
    f: LibFn,
    args: &[Arg],
) -> Result<Vec<Value>, Fail<LuaWhy>>
    ensures { IfOk result (λ values. AreOf store.new values.items) }
{
    let values = values_of(alloc, store, args)?;
    call_lib(alloc, store, out, f, &values)
}

/// Calls each row on this store and compares its answer.
fn run_on(
    rt: &impl Abort,
    alloc: Global,
    store: &mut Store,
    out: &mut Printed,
    rows: &[Row],
) -> Result<(), test::Fail> {
    for (i, row) in rows.iter().enumerate() {
        let result = call(alloc, store, out, row.0, row.1);
        let same = is_wanted(store, &result, row.2);
        assert!(rt; same, "row {i}");
    }
    Ok(())
}

/// Calls each row and compares its answer.
fn run(rt: &impl Abort, alloc: Global, rows: &[Row]) -> Result<(), test::Fail> {
    let mut store = Store::new(alloc)?;
    let mut out = Printed::new(alloc)?;
    run_on(rt, alloc, &mut store, &mut out, rows)
}
