//! Walks over tables.

use super::Arg::{Holed, Int, List, Nil, Text};
use super::{Arg, BAD, Row, Want, call, run};
use crate::Printed;
use ntx_values::{LibFn, Primitive, Store, Value};
use std::test::Fail;

static ENDS: [Row; 20] = [
    (LibFn::Next, &[List(b"")], Want::Nil),
    (LibFn::Next, &[List(b""), Nil], Want::Nil),
    (LibFn::Next, &[List(b"\x05"), Int(1)], Want::Nil),
    (LibFn::Next, &[List(b"\x05"), Int(2)], BAD),
    (LibFn::Next, &[List(b"\x05\0\x07"), Int(2)], BAD),
    (LibFn::Next, &[List(b"\x05"), Text(b"x")], BAD),
    (LibFn::Next, &[], BAD),
    (LibFn::Next, &[Text(b"x")], BAD),
    (LibFn::Pairs, &[], BAD),
    (LibFn::Pairs, &[Text(b"x")], BAD),
    (LibFn::Ipairs, &[Nil], BAD),
    (LibFn::Ipairs, &[Int(1)], BAD),
    (LibFn::IpairsNext, &[List(b""), Int(0)], Want::Nil),
    (LibFn::IpairsNext, &[List(b"\x05"), Int(1)], Want::Nil),
    (LibFn::IpairsNext, &[List(b"\x05\0\x07"), Int(1)], Want::Nil),
    (
        LibFn::IpairsNext,
        &[List(b"\x05"), Int(i64::MAX)],
        Want::Nil,
    ),
    (
        LibFn::IpairsNext,
        &[List(b"\x05"), Int(i64::MIN)],
        Want::Nil,
    ),
    (LibFn::IpairsNext, &[List(b"\x05")], BAD),
    (LibFn::IpairsNext, &[List(b"\x05"), Text(b"1")], BAD),
    (LibFn::IpairsNext, &[Nil, Int(0)], BAD),
];

#[test]
fn walks_end(rt: HostRuntime) -> Result<(), Fail> {
    run(&rt, rt.alloc(), &ENDS)
}

static STEPS: [Row; 13] = [
    (LibFn::Next, &[List(b"\x05\x06")], Want::Pair(1, 5)),
    (LibFn::Next, &[List(b"\x05\x06"), Nil], Want::Pair(1, 5)),
    (LibFn::Next, &[List(b"\x05\x06"), Int(1)], Want::Pair(2, 6)),
    (LibFn::Next, &[List(b"\0\0\x07")], Want::Pair(3, 7)),
    (LibFn::Next, &[Holed(b"\x05\x06\x07", 2)], Want::Pair(1, 5)),
    (
        LibFn::Next,
        &[Holed(b"\x05\x06\x07", 2), Int(1)],
        Want::Pair(3, 7),
    ),
    (
        LibFn::Next,
        &[Holed(b"\x05\x06\x07", 2), Int(2)],
        Want::Pair(3, 7),
    ),
    (LibFn::Next, &[Holed(b"\x05\x06\x07", 3), Int(2)], Want::Nil),
    (LibFn::Next, &[Holed(b"\x05", 1)], Want::Nil),
    (
        LibFn::IpairsNext,
        &[List(b"\x05\x06"), Int(0)],
        Want::Pair(1, 5),
    ),
    (
        LibFn::IpairsNext,
        &[List(b"\x05\x06"), Int(1)],
        Want::Pair(2, 6),
    ),
    (
        LibFn::IpairsNext,
        &[Holed(b"\x05\x06\x07", 2), Int(2)],
        Want::Pair(3, 7),
    ),
    (
        LibFn::IpairsNext,
        &[Holed(b"\x05\x06\x07", 2), Int(1)],
        Want::Nil,
    ),
];

#[test]
fn walks_go_on(rt: HostRuntime) -> Result<(), Fail> {
    run(&rt, rt.alloc(), &STEPS)
}

/// Whether a walk begins: its iterator, a table, and the value before the first.
fn begins(values: &[Value], walk: LibFn, start: Value) -> bool {
    values.len() == 3
        && values[0] == Value::Prim(Primitive::Lib(walk))
        && matches!(values[1], Value::Table(_))
        && values[2] == start
}

static ONE: [Arg; 1] = [List(b"\x05")];

#[test]
fn walks_begin(rt: HostRuntime) -> Result<(), Fail> {
    let mut store = Store::new(rt.alloc())?;
    let mut out = Printed::new(rt.alloc())?;
    let pairs = call(rt.alloc(), &mut store, &mut out, LibFn::Pairs, &ONE)?;
    assert!(rt; begins(&pairs, LibFn::Next, Value::Nil));
    let ipairs = call(rt.alloc(), &mut store, &mut out, LibFn::Ipairs, &ONE)?;
    assert!(rt; begins(&ipairs, LibFn::IpairsNext, Value::Int(0)));
    Ok(())
}
