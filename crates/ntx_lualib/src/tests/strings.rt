//! Calls on texts.

use super::Arg::{Bool, Int, List, Nil, Text};
use super::{BAD, Row, Want, run};
use ntx_values::{LibFn, LuaWhy};
use std::test::Fail;

static LENGTHS_AND_BYTES: [Row; 20] = [
    (LibFn::StringLen, &[Text(b"")], Want::Int(0)),
    (LibFn::StringLen, &[Text(b"abc")], Want::Int(3)),
    (LibFn::StringLen, &[Text(b"a\0b"), Int(7)], Want::Int(3)),
    (LibFn::StringLen, &[], BAD),
    (LibFn::StringLen, &[Nil], BAD),
    (LibFn::StringLen, &[Int(12)], BAD),
    (LibFn::StringLen, &[List(b"ab")], BAD),
    (LibFn::StringByte, &[Text(b"abc")], Want::Int(97)),
    (LibFn::StringByte, &[Text(b"abc"), Nil], Want::Int(97)),
    (
        LibFn::StringByte,
        &[Text(b"abc"), Int(2), Int(3)],
        Want::Int(98),
    ),
    (LibFn::StringByte, &[Text(b"abc"), Int(3)], Want::Int(99)),
    (LibFn::StringByte, &[Text(b"abc"), Int(4)], Want::Nil),
    (LibFn::StringByte, &[Text(b"abc"), Int(0)], Want::Nil),
    (LibFn::StringByte, &[Text(b"abc"), Int(-1)], Want::Int(99)),
    (LibFn::StringByte, &[Text(b"abc"), Int(-3)], Want::Int(97)),
    (LibFn::StringByte, &[Text(b"abc"), Int(-4)], Want::Nil),
    (
        LibFn::StringByte,
        &[Text(b"\xff"), Int(i64::MIN)],
        Want::Nil,
    ),
    (
        LibFn::StringByte,
        &[Text(b"\xff"), Int(i64::MAX)],
        Want::Nil,
    ),
    (LibFn::StringByte, &[Text(b"")], Want::Nil),
    (LibFn::StringByte, &[Text(b"abc"), Text(b"1")], BAD),
];

static PARTS: [Row; 26] = [
    (
        LibFn::StringSub,
        &[Text(b"hello"), Int(1), Int(5)],
        Want::Text(b"hello"),
    ),
    (
        LibFn::StringSub,
        &[Text(b"hello"), Int(2), Int(4)],
        Want::Text(b"ell"),
    ),
    (
        LibFn::StringSub,
        &[Text(b"hello"), Int(2)],
        Want::Text(b"ello"),
    ),
    (
        LibFn::StringSub,
        &[Text(b"hello"), Int(2), Nil],
        Want::Text(b"ello"),
    ),
    (
        LibFn::StringSub,
        &[Text(b"hello"), Int(-3)],
        Want::Text(b"llo"),
    ),
    (
        LibFn::StringSub,
        &[Text(b"hello"), Int(-3), Int(-2)],
        Want::Text(b"ll"),
    ),
    (
        LibFn::StringSub,
        &[Text(b"hello"), Int(1), Int(-1)],
        Want::Text(b"hello"),
    ),
    (
        LibFn::StringSub,
        &[Text(b"hello"), Int(1), Int(-5)],
        Want::Text(b"h"),
    ),
    (
        LibFn::StringSub,
        &[Text(b"hello"), Int(1), Int(-6)],
        Want::Text(b""),
    ),
    (
        LibFn::StringSub,
        &[Text(b"hello"), Int(0), Int(2)],
        Want::Text(b"he"),
    ),
    (
        LibFn::StringSub,
        &[Text(b"hello"), Int(-9), Int(2)],
        Want::Text(b"he"),
    ),
    (
        LibFn::StringSub,
        &[Text(b"hello"), Int(3), Int(3)],
        Want::Text(b"l"),
    ),
    (
        LibFn::StringSub,
        &[Text(b"hello"), Int(4), Int(3)],
        Want::Text(b""),
    ),
    (
        LibFn::StringSub,
        &[Text(b"hello"), Int(5), Int(99)],
        Want::Text(b"o"),
    ),
    (
        LibFn::StringSub,
        &[Text(b"hello"), Int(6), Int(99)],
        Want::Text(b""),
    ),
    (
        LibFn::StringSub,
        &[Text(b"hello"), Int(1), Int(0)],
        Want::Text(b""),
    ),
    (
        LibFn::StringSub,
        &[Text(b"hello"), Int(i64::MIN), Int(i64::MAX)],
        Want::Text(b"hello"),
    ),
    (
        LibFn::StringSub,
        &[Text(b"hello"), Int(i64::MAX), Int(i64::MIN)],
        Want::Text(b""),
    ),
    (
        LibFn::StringSub,
        &[Text(b"hello"), Int(2), Int(i64::MIN)],
        Want::Text(b""),
    ),
    (
        LibFn::StringSub,
        &[Text(b""), Int(1), Int(1)],
        Want::Text(b""),
    ),
    (LibFn::StringSub, &[Text(b""), Int(-1)], Want::Text(b"")),
    (LibFn::StringSub, &[Text(b"hello")], BAD),
    (LibFn::StringSub, &[Text(b"hello"), Nil, Int(2)], BAD),
    (
        LibFn::StringSub,
        &[Text(b"hello"), Int(1), Bool(false)],
        BAD,
    ),
    (LibFn::StringSub, &[Int(5), Int(1)], BAD),
    (LibFn::StringSub, &[], BAD),
];

static MADE: [Row; 22] = [
    (LibFn::StringChar, &[], Want::Text(b"")),
    (LibFn::StringChar, &[Int(72), Int(105)], Want::Text(b"Hi")),
    (
        LibFn::StringChar,
        &[Int(0), Int(255), Int(10)],
        Want::Text(b"\0\xff\n"),
    ),
    (LibFn::StringChar, &[Int(256)], BAD),
    (LibFn::StringChar, &[Int(-1)], BAD),
    (LibFn::StringChar, &[Int(65), Int(i64::MIN)], BAD),
    (LibFn::StringChar, &[Int(65), Nil], BAD),
    (LibFn::StringChar, &[Text(b"A")], BAD),
    (
        LibFn::StringRep,
        &[Text(b"ab"), Int(2)],
        Want::Text(b"abab"),
    ),
    (LibFn::StringRep, &[Text(b"ab"), Int(1)], Want::Text(b"ab")),
    (LibFn::StringRep, &[Text(b"ab"), Int(0)], Want::Text(b"")),
    (LibFn::StringRep, &[Text(b"ab"), Int(-1)], Want::Text(b"")),
    (
        LibFn::StringRep,
        &[Text(b"ab"), Int(i64::MIN)],
        Want::Text(b""),
    ),
    (
        LibFn::StringRep,
        &[Text(b""), Int(i64::MAX)],
        Want::Text(b""),
    ),
    (
        LibFn::StringRep,
        &[Text(b"ab"), Int(i64::MAX)],
        Want::Refused(LuaWhy::TextsFull),
    ),
    (
        LibFn::StringRep,
        &[Text(b"ab"), Int(3), Text(b",")],
        Want::Text(b"ababab"),
    ),
    (LibFn::StringRep, &[Text(b"ab")], BAD),
    (LibFn::StringRep, &[Text(b"ab"), Nil], BAD),
    (LibFn::StringRep, &[Text(b"ab"), Text(b"2")], BAD),
    (LibFn::StringRep, &[Nil, Int(2)], BAD),
    (LibFn::StringRep, &[Int(1), Int(2)], BAD),
    (LibFn::StringRep, &[], BAD),
];

static FORMATS: [Row; 24] = [
    (LibFn::StringFormat, &[Text(b"")], Want::Text(b"")),
    (
        LibFn::StringFormat,
        &[Text(b"plain"), Int(1)],
        Want::Text(b"plain"),
    ),
    (
        LibFn::StringFormat,
        &[Text(b"%d"), Int(42)],
        Want::Text(b"42"),
    ),
    (
        LibFn::StringFormat,
        &[Text(b"%d"), Int(-7)],
        Want::Text(b"-7"),
    ),
    (
        LibFn::StringFormat,
        &[Text(b"%d"), Int(i64::MIN)],
        Want::Text(b"-9223372036854775808"),
    ),
    (
        LibFn::StringFormat,
        &[Text(b"%d"), Int(i64::MAX)],
        Want::Text(b"9223372036854775807"),
    ),
    (
        LibFn::StringFormat,
        &[Text(b"%d"), Int(0)],
        Want::Text(b"0"),
    ),
    (
        LibFn::StringFormat,
        &[Text(b"<%s|%s>"), Text(b"a"), Int(3)],
        Want::Text(b"<a|3>"),
    ),
    (
        LibFn::StringFormat,
        &[Text(b"%s%s"), Bool(true), Bool(false)],
        Want::Text(b"truefalse"),
    ),
    (
        LibFn::StringFormat,
        &[Text(b"%s%s"), Nil, List(b"a")],
        Want::Text(b"niltable"),
    ),
    (LibFn::StringFormat, &[Text(b"%s")], Want::Text(b"nil")),
    (
        LibFn::StringFormat,
        &[Text(b"%s %s"), Text(b"x")],
        Want::Text(b"x nil"),
    ),
    (LibFn::StringFormat, &[Text(b"100%%")], Want::Text(b"100%")),
    (
        LibFn::StringFormat,
        &[Text(b"%%%d%%"), Int(5)],
        Want::Text(b"%5%"),
    ),
    (
        LibFn::StringFormat,
        &[Text(b"%%d"), Int(5)],
        Want::Text(b"%d"),
    ),
    (
        LibFn::StringFormat,
        &[Text(b"%s"), Text(b"%d")],
        Want::Text(b"%d"),
    ),
    (LibFn::StringFormat, &[Text(b"%")], BAD),
    (LibFn::StringFormat, &[Text(b"abc%"), Int(1)], BAD),
    (LibFn::StringFormat, &[Text(b"%d")], BAD),
    (LibFn::StringFormat, &[Text(b"%d"), Text(b"1")], BAD),
    (LibFn::StringFormat, &[Text(b"%5d"), Int(1)], BAD),
    (LibFn::StringFormat, &[Text(b"%q"), Text(b"1")], BAD),
    (LibFn::StringFormat, &[Int(1)], BAD),
    (LibFn::StringFormat, &[], BAD),
];

#[test]
fn lengths_and_bytes(rt: HostRuntime) -> Result<(), Fail> {
    run(&rt, rt.alloc(), &LENGTHS_AND_BYTES)
}

#[test]
fn parts(rt: HostRuntime) -> Result<(), Fail> {
    run(&rt, rt.alloc(), &PARTS)
}

#[test]
fn texts_that_are_made(rt: HostRuntime) -> Result<(), Fail> {
    run(&rt, rt.alloc(), &MADE)
}

#[test]
fn formats(rt: HostRuntime) -> Result<(), Fail> {
    run(&rt, rt.alloc(), &FORMATS)
}
