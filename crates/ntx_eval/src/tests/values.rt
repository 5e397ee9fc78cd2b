//! Operators on other values (Lua 5.3 Reference Manual, sections 3.4.3 to 3.4.7), worked by hand.

use crate::{binary, is_decided, is_true, unary};
use ntx_num::Fail;
use ntx_syntax::{BinaryOp, UnaryOp};
use ntx_values::{LuaWhy, Store, Value};
use std::alloc::Global;
use std::test;

#[test]
fn integers_stand_in_order(rt: HostRuntime) -> Result<(), test::Fail> {
    let mut store = Store::new(rt.alloc())?;
    for (op, a, b, holds) in [
        (BinaryOp::Less, -1, 0, true),
        (BinaryOp::Less, 2, 2, false),
        (BinaryOp::Less, i64::MIN, i64::MAX, true),
        (BinaryOp::LessEqual, 2, 2, true),
        (BinaryOp::LessEqual, 3, 2, false),
        (BinaryOp::Greater, 3, 2, true),
        (BinaryOp::Greater, 2, 2, false),
        (BinaryOp::GreaterEqual, 2, 2, true),
        (BinaryOp::GreaterEqual, 1, 2, false),
        (BinaryOp::Equal, 5, 5, true),
        (BinaryOp::Equal, 5, 6, false),
        (BinaryOp::NotEqual, 5, 6, true),
    ] {
        let result = binary(rt.alloc(), &mut store, op, Value::Int(a), Value::Int(b));
        assert_eq!(rt; result, Ok(Value::Bool(holds)));
    }
    Ok(())
}

/// An operator between two texts of a new store.
fn between_texts(alloc: Global, op: BinaryOp, a: &[u8], b: &[u8]) -> Result<Value, Fail<LuaWhy>> {
    let mut store = Store::new(alloc)?;
    let x = store.text(a)?;
    let y = store.text(b)?;
    binary(alloc, &mut store, op, Value::Text(x), Value::Text(y))
}

#[test]
fn texts_stand_in_the_order_of_their_bytes(rt: HostRuntime) -> Result<(), test::Fail> {
    for (op, a, b, holds) in [
        (BinaryOp::Less, b"a".as_slice(), b"b".as_slice(), true),
        (BinaryOp::Less, b"a".as_slice(), b"ab".as_slice(), true),
        (BinaryOp::Less, b"".as_slice(), b"a".as_slice(), true),
        (BinaryOp::Less, b"B".as_slice(), b"a".as_slice(), true),
        (BinaryOp::Less, b"10".as_slice(), b"9".as_slice(), true),
        (BinaryOp::Less, b"\xff".as_slice(), b"a".as_slice(), false),
        (BinaryOp::Less, b"ab".as_slice(), b"ab".as_slice(), false),
        (
            BinaryOp::LessEqual,
            b"ab".as_slice(),
            b"ab".as_slice(),
            true,
        ),
        (BinaryOp::Greater, b"b".as_slice(), b"ab".as_slice(), true),
        (
            BinaryOp::GreaterEqual,
            b"a".as_slice(),
            b"b".as_slice(),
            false,
        ),
        (BinaryOp::Equal, b"ab".as_slice(), b"ab".as_slice(), true),
        (
            BinaryOp::NotEqual,
            b"ab".as_slice(),
            b"ab".as_slice(),
            false,
        ),
    ] {
        let result = between_texts(rt.alloc(), op, a, b);
        assert_eq!(rt; result, Ok(Value::Bool(holds)));
    }
    Ok(())
}

#[test]
fn integers_are_joined_by_their_digits(rt: HostRuntime) -> Result<(), test::Fail> {
    for (a, b, bytes) in [
        (1, 2, b"12".as_slice()),
        (0, 0, b"00".as_slice()),
        (-5, 7, b"-57".as_slice()),
        (i64::MIN, -1, b"-9223372036854775808-1".as_slice()),
    ] {
        let mut store = Store::new(rt.alloc())?;
        let result = binary(
            rt.alloc(),
            &mut store,
            BinaryOp::Concat,
            Value::Int(a),
            Value::Int(b),
        );
        let made = store.find_text(bytes);
        assert!(rt; made.is_some());
        assert_eq!(rt; result.ok(), made.map(Value::Text));
    }
    let mut store = Store::new(rt.alloc())?;
    let t = store.text(b"a")?;
    let joined = binary(
        rt.alloc(),
        &mut store,
        BinaryOp::Concat,
        Value::Text(t),
        Value::Int(1),
    );
    assert_eq!(rt; joined.ok(), store.find_text(b"a1").map(Value::Text));
    Ok(())
}

#[test]
fn other_sorts_are_refused(rt: HostRuntime) -> Result<(), test::Fail> {
    let mut store = Store::new(rt.alloc())?;
    let sum = binary(
        rt.alloc(),
        &mut store,
        BinaryOp::Add,
        Value::Int(1),
        Value::Nil,
    );
    assert_eq!(rt; sum, Err(Fail::Is(LuaWhy::WrongType)));
    let quotient = binary(
        rt.alloc(),
        &mut store,
        BinaryOp::FloorDivide,
        Value::Node(1),
        Value::Int(0),
    );
    assert_eq!(rt; quotient, Err(Fail::Is(LuaWhy::WrongType)));
    let order = binary(
        rt.alloc(),
        &mut store,
        BinaryOp::LessEqual,
        Value::Nil,
        Value::Nil,
    );
    assert_eq!(rt; order, Err(Fail::Is(LuaWhy::WrongType)));
    let joined = binary(
        rt.alloc(),
        &mut store,
        BinaryOp::Concat,
        Value::Int(1),
        Value::Bool(true),
    );
    assert_eq!(rt; joined, Err(Fail::Is(LuaWhy::WrongType)));
    let t = store.text(b"10")?;
    let mixed = binary(
        rt.alloc(),
        &mut store,
        BinaryOp::Less,
        Value::Text(t),
        Value::Int(11),
    );
    assert_eq!(rt; mixed, Err(Fail::Is(LuaWhy::WrongType)));
    assert_eq!(rt;
        unary(&store, UnaryOp::Minus, Value::Nil),
        Err(LuaWhy::WrongType)
    );
    assert_eq!(rt;
        unary(&store, UnaryOp::Length, Value::Node(3)),
        Err(LuaWhy::WrongType)
    );
    Ok(())
}

#[test]
fn tables_are_equal_to_themselves_alone(rt: HostRuntime) -> Result<(), test::Fail> {
    let mut store = Store::new(rt.alloc())?;
    let t = store.new_table()?;
    let same = binary(
        rt.alloc(),
        &mut store,
        BinaryOp::Equal,
        Value::Table(t),
        Value::Table(t),
    );
    assert_eq!(rt; same, Ok(Value::Bool(true)));
    let u = store.new_table()?;
    let other = binary(
        rt.alloc(),
        &mut store,
        BinaryOp::Equal,
        Value::Table(u),
        Value::Int(1),
    );
    assert_eq!(rt; other, Ok(Value::Bool(false)));
    Ok(())
}

#[test]
fn and_and_or_give_an_operand(rt: HostRuntime) -> Result<(), test::Fail> {
    for (a, holds) in [
        (Value::Nil, false),
        (Value::Bool(false), false),
        (Value::Bool(true), true),
        (Value::Int(0), true),
        (Value::Node(0), true),
    ] {
        assert_eq!(rt; is_true(a), holds);
        assert_eq!(rt; is_decided(BinaryOp::And, a), !holds);
        assert_eq!(rt; is_decided(BinaryOp::Or, a), holds);
        assert_eq!(rt; is_decided(BinaryOp::Add, a), false);
    }
    let mut store = Store::new(rt.alloc())?;
    let first = binary(
        rt.alloc(),
        &mut store,
        BinaryOp::And,
        Value::Nil,
        Value::Int(2),
    );
    assert_eq!(rt; first, Ok(Value::Nil));
    let second = binary(
        rt.alloc(),
        &mut store,
        BinaryOp::And,
        Value::Int(0),
        Value::Int(2),
    );
    assert_eq!(rt; second, Ok(Value::Int(2)));
    let either = binary(
        rt.alloc(),
        &mut store,
        BinaryOp::Or,
        Value::Bool(false),
        Value::Nil,
    );
    assert_eq!(rt; either, Ok(Value::Nil));
    assert_eq!(rt;
        unary(&store, UnaryOp::Not, Value::Int(0)),
        Ok(Value::Bool(false))
    );
    Ok(())
}

#[test]
fn texts_and_tables_have_lengths(rt: HostRuntime) -> Result<(), test::Fail> {
    let mut store = Store::new(rt.alloc())?;
    for (bytes, len) in [
        (b"".as_slice(), 0),
        (b"abc".as_slice(), 3),
        (b"\xff\x00".as_slice(), 2),
    ] {
        let t = store.text(bytes)?;
        assert_eq!(rt;
            unary(&store, UnaryOp::Length, Value::Text(t)),
            Ok(Value::Int(len))
        );
    }
    let t = store.new_table()?;
    store.set(t, Value::Int(1), Value::Bool(true))?;
    assert_eq!(rt;
        unary(&store, UnaryOp::Length, Value::Table(t)),
        Ok(Value::Int(1))
    );
    Ok(())
}
