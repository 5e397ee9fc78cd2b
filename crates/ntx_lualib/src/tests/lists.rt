//! Calls on lists.

ghost use Rattle.ntx_values.specs.State.{IsOf, AreOf};

use super::Arg::{Bool, Int, Letters, List, Nil, Text};
use super::{Arg, BAD, Row, Want, is_wanted, run, values_of};
use crate::{Printed, call_lib};
use ntx_num::Fail;
use ntx_values::{LibFn, LuaWhy, Store, TableId, Value};
use std::alloc::Global;
use std::process::Abort;
use std::test;

static JOINED: [Row; 22] = [
    (LibFn::TableConcat, &[List(b"")], Want::Text(b"")),
    (
        LibFn::TableConcat,
        &[List(b""), Text(b",")],
        Want::Text(b""),
    ),
    (LibFn::TableConcat, &[Letters(b"abc")], Want::Text(b"abc")),
    (
        LibFn::TableConcat,
        &[Letters(b"abc"), Nil],
        Want::Text(b"abc"),
    ),
    (
        LibFn::TableConcat,
        &[Letters(b"abc"), Text(b"")],
        Want::Text(b"abc"),
    ),
    (
        LibFn::TableConcat,
        &[Letters(b"abc"), Text(b", ")],
        Want::Text(b"a, b, c"),
    ),
    (
        LibFn::TableConcat,
        &[Letters(b"a"), Text(b", ")],
        Want::Text(b"a"),
    ),
    (
        LibFn::TableConcat,
        &[List(b"\x01\x02\x0c"), Text(b"-")],
        Want::Text(b"1-2-12"),
    ),
    (
        LibFn::TableConcat,
        &[List(b"\x01\0\x03"), Text(b"-")],
        Want::Text(b"1"),
    ),
    (
        LibFn::TableConcat,
        &[List(b"\0\x02\x03"), Text(b"-")],
        Want::Text(b""),
    ),
    (
        LibFn::TableConcat,
        &[Letters(b"ab"), Text(b"-"), Int(2)],
        Want::Text(b"a-b"),
    ),
    (LibFn::TableConcat, &[Letters(b"ab"), Int(1)], BAD),
    (LibFn::TableConcat, &[Letters(b"ab"), Bool(false)], BAD),
    (LibFn::TableConcat, &[Text(b"ab"), Text(b"-")], BAD),
    (LibFn::TableConcat, &[], BAD),
    (LibFn::TableInsert, &[], BAD),
    (LibFn::TableInsert, &[Text(b"a"), Int(1)], BAD),
    (LibFn::TableInsert, &[Nil, Int(1), Int(2)], BAD),
    (LibFn::TableRemove, &[], BAD),
    (LibFn::TableRemove, &[Int(1), Int(1)], BAD),
    (LibFn::TableRemove, &[Text(b"")], BAD),
    (LibFn::TableRemove, &[Nil], BAD),
];

/// A change: the function, its arguments with a list first, the answer, and the list afterwards.
type Change = (LibFn, &'static [Arg], Want, &'static [u8]);

static CHANGES: [Change; 30] = [
    (
        LibFn::TableInsert,
        &[List(b""), Int(7)],
        Want::Nothing,
        b"\x07",
    ),
    (
        LibFn::TableInsert,
        &[List(b"\x01\x02"), Int(7)],
        Want::Nothing,
        b"\x01\x02\x07",
    ),
    (
        LibFn::TableInsert,
        &[List(b"\x01\x02")],
        Want::Nothing,
        b"\x01\x02",
    ),
    (
        LibFn::TableInsert,
        &[List(b"\x01\x02"), Nil],
        Want::Nothing,
        b"\x01\x02",
    ),
    (
        LibFn::TableInsert,
        &[List(b"\x01\0\x03"), Int(7)],
        Want::Nothing,
        b"\x01\x07\x03",
    ),
    (
        LibFn::TableInsert,
        &[List(b""), Int(1), Int(7)],
        Want::Nothing,
        b"\x07",
    ),
    (
        LibFn::TableInsert,
        &[List(b"\x01\x02\x03"), Int(1), Int(7)],
        Want::Nothing,
        b"\x07\x01\x02\x03",
    ),
    (
        LibFn::TableInsert,
        &[List(b"\x01\x02\x03"), Int(2), Int(7)],
        Want::Nothing,
        b"\x01\x07\x02\x03",
    ),
    (
        LibFn::TableInsert,
        &[List(b"\x01\x02\x03"), Int(3), Int(7)],
        Want::Nothing,
        b"\x01\x02\x07\x03",
    ),
    (
        LibFn::TableInsert,
        &[List(b"\x01\x02\x03"), Int(4), Int(7)],
        Want::Nothing,
        b"\x01\x02\x03\x07",
    ),
    (
        LibFn::TableInsert,
        &[List(b"\x01\x02\x03"), Int(2), Nil],
        Want::Nothing,
        b"\x01\0\x02\x03",
    ),
    (
        LibFn::TableInsert,
        &[List(b"\x01\x02\x03"), Int(4), Nil],
        Want::Nothing,
        b"\x01\x02\x03",
    ),
    (
        LibFn::TableInsert,
        &[List(b"\x01\x02\0\x04"), Int(1), Int(7)],
        Want::Nothing,
        b"\x07\x01\x02\x04",
    ),
    (
        LibFn::TableInsert,
        &[List(b"\x01\x02\x03"), Int(0), Int(7)],
        BAD,
        b"\x01\x02\x03",
    ),
    (
        LibFn::TableInsert,
        &[List(b"\x01\x02\x03"), Int(5), Int(7)],
        BAD,
        b"\x01\x02\x03",
    ),
    (
        LibFn::TableInsert,
        &[List(b"\x01\x02\x03"), Int(-1), Int(7)],
        BAD,
        b"\x01\x02\x03",
    ),
    (
        LibFn::TableInsert,
        &[List(b"\x01\x02\x03"), Int(i64::MIN), Int(7)],
        BAD,
        b"\x01\x02\x03",
    ),
    (
        LibFn::TableInsert,
        &[List(b"\x01\x02\x03"), Nil, Int(7)],
        BAD,
        b"\x01\x02\x03",
    ),
    (LibFn::TableRemove, &[List(b"")], Want::Nil, b""),
    (LibFn::TableRemove, &[List(b""), Nil], Want::Nil, b""),
    (LibFn::TableRemove, &[List(b""), Int(1)], Want::Nil, b""),
    (
        LibFn::TableRemove,
        &[List(b"\x05\x06\x07")],
        Want::Int(7),
        b"\x05\x06",
    ),
    (
        LibFn::TableRemove,
        &[List(b"\x05\x06\x07"), Nil],
        Want::Int(7),
        b"\x05\x06",
    ),
    (
        LibFn::TableRemove,
        &[List(b"\x05\x06\x07"), Int(1)],
        Want::Int(5),
        b"\x06\x07",
    ),
    (
        LibFn::TableRemove,
        &[List(b"\x05\x06\x07"), Int(2)],
        Want::Int(6),
        b"\x05\x07",
    ),
    (
        LibFn::TableRemove,
        &[List(b"\x05\x06\x07"), Int(4)],
        Want::Nil,
        b"\x05\x06\x07",
    ),
    (
        LibFn::TableRemove,
        &[List(b"\x05\x06\0\x08"), Int(1)],
        Want::Int(5),
        b"\x06\0\0\x08",
    ),
    (LibFn::TableRemove, &[List(b"\x05")], Want::Int(5), b""),
    (
        LibFn::TableRemove,
        &[List(b"\x05\x06"), Int(0)],
        BAD,
        b"\x05\x06",
    ),
    (
        LibFn::TableRemove,
        &[List(b"\x05\x06"), Int(4)],
        BAD,
        b"\x05\x06",
    ),
];

/// What a table has to hold at a number.
fn item(list: &[u8], i: usize) -> Value {
    match list.get(i) {
        Some(integer) if *integer != 0 => Value::Int(i64::from(*integer)),
        _ => Value::Nil,
    }
}

/// Whether a table holds a list at 1 to 8.
fn holds_list(store: &Store, table: TableId, list: &[u8]) -> bool
    requires { IsOf store.now (Value.Table table) }
{
    for i in 0..8usize {
        if store.get(table, Value::Int(i as i64 + 1)) != item(list, i) {
            return false;
        }
    }
    true
}

/// Whether the first of these values is a table that holds a list.
fn holds(store: &Store, values: &[Value], list: &[u8]) -> bool
    requires { AreOf store.now values.now }
{
    match values.first() {
        Some(Value::Table(table)) => holds_list(store, *table, list),
        _ => false,
    }
}

/// Whether a change answers as wanted and leaves the wanted list.
fn is_done(
    alloc: Global,
    store: &mut Store,
    out: &mut Printed,
    change: &Change,
) -> Result<bool, Fail<LuaWhy>> {
    let values = values_of(alloc, store, change.1)?;
    let result = call_lib(alloc, store, out, change.0, &values);
    let answers = is_wanted(store, &result, change.2);
    Ok(answers && holds(store, &values, change.3))
}

/// Makes each change and compares what it leaves.
fn run_changes(rt: &impl Abort, alloc: Global, changes: &[Change]) -> Result<(), test::Fail> {
    let mut store = Store::new(alloc)?;
    let mut out = Printed::new(alloc)?;
    for (i, change) in changes.iter().enumerate() {
        let same = is_done(alloc, &mut store, &mut out, change)?;
        assert!(rt; same, "change {i}");
    }
    Ok(())
}

#[test]
fn lists_are_joined(rt: HostRuntime) -> Result<(), test::Fail> {
    run(&rt, rt.alloc(), &JOINED)
}

#[test]
fn lists_are_changed(rt: HostRuntime) -> Result<(), test::Fail> {
    run_changes(&rt, rt.alloc(), &CHANGES)
}
