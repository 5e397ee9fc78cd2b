//! Operators on two integers (Lua 5.3 Reference Manual, sections 3.4.1 and 3.4.2), worked by hand.

use crate::{binary, unary};
use ntx_num::Fail;
use ntx_syntax::{BinaryOp, UnaryOp};
use ntx_values::{LuaWhy, Store, Value};
use std::test;

#[test]
fn sums_and_products_wrap(rt: HostRuntime) -> Result<(), test::Fail> {
    let mut store = Store::new(rt.alloc())?;
    for (op, a, b, value) in [
        (BinaryOp::Add, 2, 3, 5),
        (BinaryOp::Add, i64::MAX, 1, i64::MIN),
        (BinaryOp::Add, -1, 1, 0),
        (BinaryOp::Subtract, 3, 5, -2),
        (BinaryOp::Subtract, i64::MIN, 1, i64::MAX),
        (BinaryOp::Multiply, -7, 6, -42),
        (BinaryOp::Multiply, i64::MAX, 2, -2),
        (BinaryOp::Multiply, i64::MIN, -1, i64::MIN),
        (
            BinaryOp::Multiply,
            3037000500,
            3037000500,
            -9223372036709301616,
        ),
        (BinaryOp::BitAnd, 12, 10, 8),
        (BinaryOp::BitAnd, -1, 255, 255),
        (BinaryOp::BitOr, 12, 10, 14),
        (BinaryOp::BitOr, i64::MIN, 1, -9223372036854775807),
        (BinaryOp::BitXor, 12, 10, 6),
        (BinaryOp::BitXor, -1, 0, -1),
    ] {
        let result = binary(rt.alloc(), &mut store, op, Value::Int(a), Value::Int(b));
        assert_eq!(rt; result, Ok(Value::Int(value)));
    }
    Ok(())
}

#[test]
fn division_rounds_toward_minus_infinity(rt: HostRuntime) -> Result<(), test::Fail> {
    let mut store = Store::new(rt.alloc())?;
    for (a, b, quotient, remainder) in [
        (7, 2, 3, 1),
        (7, -2, -4, -1),
        (-7, 2, -4, 1),
        (-7, -2, 3, -1),
        (6, -2, -3, 0),
        (-6, 2, -3, 0),
        (0, -5, 0, 0),
        (-1, 2, -1, 1),
        (1, -2, -1, -1),
        (5, 3, 1, 2),
        (-5, 3, -2, 1),
        (5, -3, -2, -1),
        (i64::MIN, -1, i64::MIN, 0),
        (i64::MIN, 1, i64::MIN, 0),
        (i64::MAX, -1, -9223372036854775807, 0),
        (i64::MIN, i64::MIN, 1, 0),
        (i64::MAX, i64::MIN, -1, -1),
        (i64::MIN, i64::MAX, -2, 9223372036854775806),
        (1, i64::MIN, -1, -9223372036854775807),
        (-1, i64::MIN, 0, -1),
    ] {
        let divided = binary(
            rt.alloc(),
            &mut store,
            BinaryOp::FloorDivide,
            Value::Int(a),
            Value::Int(b),
        );
        assert_eq!(rt; divided, Ok(Value::Int(quotient)));
        let left = binary(
            rt.alloc(),
            &mut store,
            BinaryOp::Modulo,
            Value::Int(a),
            Value::Int(b),
        );
        assert_eq!(rt; left, Ok(Value::Int(remainder)));
    }
    for a in [0, 1, -1, i64::MIN] {
        for op in [BinaryOp::FloorDivide, BinaryOp::Modulo] {
            let result = binary(rt.alloc(), &mut store, op, Value::Int(a), Value::Int(0));
            assert_eq!(rt; result, Err(Fail::Is(LuaWhy::ZeroDivisor)));
        }
    }
    Ok(())
}

#[test]
fn shifts_are_logical(rt: HostRuntime) -> Result<(), test::Fail> {
    let mut store = Store::new(rt.alloc())?;
    for (a, count, left, right) in [
        (1, 0, 1, 1),
        (1, 3, 8, 0),
        (8, 3, 64, 1),
        (1, 63, i64::MIN, 0),
        (3, 63, i64::MIN, 0),
        (-1, 4, -16, 1152921504606846975),
        (-1, 1, -2, i64::MAX),
        (-1, 63, i64::MIN, 1),
        (-1, 64, 0, 0),
        (1, 64, 0, 0),
        (-1, i64::MAX, 0, 0),
        (8, -2, 2, 32),
        (1, -1, 0, 2),
        (-1, -63, 1, i64::MIN),
        (-1, -64, 0, 0),
        (-1, i64::MIN, 0, 0),
    ] {
        let lefts = binary(
            rt.alloc(),
            &mut store,
            BinaryOp::ShiftLeft,
            Value::Int(a),
            Value::Int(count),
        );
        assert_eq!(rt; lefts, Ok(Value::Int(left)));
        let rights = binary(
            rt.alloc(),
            &mut store,
            BinaryOp::ShiftRight,
            Value::Int(a),
            Value::Int(count),
        );
        assert_eq!(rt; rights, Ok(Value::Int(right)));
    }
    Ok(())
}

#[test]
fn one_integer_has_a_value(rt: HostRuntime) -> Result<(), test::Fail> {
    let store = Store::new(rt.alloc())?;
    for (op, a, value) in [
        (UnaryOp::Minus, 7, -7),
        (UnaryOp::Minus, 0, 0),
        (UnaryOp::Minus, i64::MIN, i64::MIN),
        (UnaryOp::BitNot, 0, -1),
        (UnaryOp::BitNot, -1, 0),
        (UnaryOp::BitNot, i64::MAX, i64::MIN),
    ] {
        assert_eq!(rt; unary(&store, op, Value::Int(a)), Ok(Value::Int(value)));
    }
    Ok(())
}
