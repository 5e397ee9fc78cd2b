//! Calls on integers, and values as texts.

use super::Arg::{Bool, Function, Int, Lib, List, Nil, Node, Text};
use super::{BAD, Row, Want, run};
use ntx_values::LibFn;
use std::test::Fail;

static INTEGERS: [Row; 26] = [
    (LibFn::MathAbs, &[Int(5)], Want::Int(5)),
    (LibFn::MathAbs, &[Int(-5)], Want::Int(5)),
    (LibFn::MathAbs, &[Int(0)], Want::Int(0)),
    (LibFn::MathAbs, &[Int(i64::MAX)], Want::Int(i64::MAX)),
    (LibFn::MathAbs, &[Int(-i64::MAX)], Want::Int(i64::MAX)),
    (LibFn::MathAbs, &[Int(i64::MIN)], Want::Int(i64::MIN)),
    (LibFn::MathAbs, &[], BAD),
    (LibFn::MathAbs, &[Nil], BAD),
    (LibFn::MathAbs, &[Text(b"5")], BAD),
    (LibFn::MathMax, &[Int(3)], Want::Int(3)),
    (LibFn::MathMax, &[Int(3), Int(9), Int(4)], Want::Int(9)),
    (LibFn::MathMax, &[Int(-3), Int(-9), Int(-4)], Want::Int(-3)),
    (LibFn::MathMax, &[Int(1), Int(2), Int(3)], Want::Int(3)),
    (
        LibFn::MathMax,
        &[Int(i64::MIN), Int(i64::MAX)],
        Want::Int(i64::MAX),
    ),
    (LibFn::MathMax, &[Int(i64::MIN)], Want::Int(i64::MIN)),
    (LibFn::MathMax, &[], BAD),
    (LibFn::MathMax, &[Int(1), Nil], BAD),
    (LibFn::MathMax, &[Nil, Int(1)], BAD),
    (LibFn::MathMin, &[Int(3)], Want::Int(3)),
    (LibFn::MathMin, &[Int(3), Int(9), Int(4)], Want::Int(3)),
    (LibFn::MathMin, &[Int(-3), Int(-9), Int(-4)], Want::Int(-9)),
    (LibFn::MathMin, &[Int(3), Int(2), Int(1)], Want::Int(1)),
    (
        LibFn::MathMin,
        &[Int(i64::MIN), Int(i64::MAX)],
        Want::Int(i64::MIN),
    ),
    (LibFn::MathMin, &[], BAD),
    (LibFn::MathMin, &[Int(1), Text(b"0")], BAD),
    (LibFn::MathMin, &[Bool(true)], BAD),
];

static SHOWN: [Row; 27] = [
    (LibFn::ToString, &[], Want::Text(b"nil")),
    (LibFn::ToString, &[Nil], Want::Text(b"nil")),
    (LibFn::ToString, &[Bool(true)], Want::Text(b"true")),
    (LibFn::ToString, &[Bool(false)], Want::Text(b"false")),
    (LibFn::ToString, &[Int(0)], Want::Text(b"0")),
    (LibFn::ToString, &[Int(-15)], Want::Text(b"-15")),
    (
        LibFn::ToString,
        &[Int(i64::MIN)],
        Want::Text(b"-9223372036854775808"),
    ),
    (
        LibFn::ToString,
        &[Int(i64::MAX)],
        Want::Text(b"9223372036854775807"),
    ),
    (LibFn::ToString, &[Text(b"")], Want::Text(b"")),
    (LibFn::ToString, &[Text(b"a b"), Int(1)], Want::Text(b"a b")),
    (LibFn::ToString, &[List(b"")], Want::Text(b"table")),
    (LibFn::ToString, &[Function], Want::Text(b"function")),
    (
        LibFn::ToString,
        &[Lib(LibFn::Print)],
        Want::Text(b"function"),
    ),
    (LibFn::ToString, &[Node(0)], Want::Text(b"node 0")),
    (
        LibFn::ToString,
        &[Node(281474976710655)],
        Want::Text(b"node 281474976710655"),
    ),
    (LibFn::TypeOf, &[], Want::Text(b"nil")),
    (LibFn::TypeOf, &[Nil], Want::Text(b"nil")),
    (LibFn::TypeOf, &[Bool(false)], Want::Text(b"boolean")),
    (LibFn::TypeOf, &[Int(1)], Want::Text(b"number")),
    (LibFn::TypeOf, &[Text(b"1")], Want::Text(b"string")),
    (LibFn::TypeOf, &[List(b"abc")], Want::Text(b"table")),
    (LibFn::TypeOf, &[Function], Want::Text(b"function")),
    (
        LibFn::TypeOf,
        &[Lib(LibFn::IpairsNext)],
        Want::Text(b"function"),
    ),
    (LibFn::TypeOf, &[Node(3)], Want::Text(b"userdata")),
    (LibFn::Print, &[], Want::Nothing),
    (LibFn::Print, &[Nil, Int(1), Text(b"x")], Want::Nothing),
    (LibFn::Print, &[Node(1)], Want::Nothing),
];

#[test]
fn integers(rt: HostRuntime) -> Result<(), Fail> {
    run(&rt, rt.alloc(), &INTEGERS)
}

#[test]
fn values_are_shown(rt: HostRuntime) -> Result<(), Fail> {
    run(&rt, rt.alloc(), &SHOWN)
}
