//! Worked examples of texts, tables and the limits of a store.

use crate::table::Table;
use crate::{
    BadKey, LuaWhy, Store, TextId, Value, borders_are_least, same_values_are_equal,
    sets_are_read_back,
};
use ntx_num::Fail;
use std::test;

/// Keys that are texts. A table takes them as they are.
const A: Value = Value::Text(TextId { number: 0 });

const B: Value = Value::Text(TextId { number: 1 });

#[test]
fn texts_are_made_once(rt: HostRuntime) -> Result<(), test::Fail> {
    let mut store = Store::new(rt.alloc())?;
    assert!(rt; store.find_text(b"ab").is_none());
    let ab = store.text(b"ab")?;
    let empty = store.text(b"")?;
    let again = store.text(b"ab")?;
    assert_eq!(rt; ab, again);
    assert!(rt; ab != empty);
    assert_eq!(rt; store.find_text(b"ab"), Some(ab));
    assert_eq!(rt; store.bytes_of(ab), b"ab".as_slice());
    assert_eq!(rt; store.bytes_of(empty), b"".as_slice());
    Ok(())
}

#[test]
fn each_call_of_a_store_has_its_value(rt: HostRuntime) -> Result<(), test::Fail> {
    let mut store = Store::new(rt.alloc())?;
    let f = store.new_function()?;
    let g = store.new_function()?;
    assert!(rt; f != g);
    let t = store.new_table()?;
    let nil_key = store.set(t, Value::Nil, Value::Nil);
    assert_eq!(rt; nil_key, Err(Fail::Is(LuaWhy::NilKey)));
    store.set(t, Value::Int(1), Value::Function(g))?;
    assert_eq!(rt; store.get(t, Value::Int(1)), Value::Function(g));
    assert_eq!(rt; store.get(t, Value::Nil), Value::Nil);
    assert_eq!(rt; store.border(t), 1);
    let first = store.next(t, Value::Nil);
    assert_eq!(rt; first, Ok(Some((Value::Int(1), Value::Function(g)))));
    assert_eq!(rt; store.next(t, Value::Int(2)), Err(BadKey));
    store.lawful();
    same_values_are_equal();
    borders_are_least();
    sets_are_read_back();
    Ok(())
}

#[test]
fn keys_keep_their_places(rt: HostRuntime) -> Result<(), test::Fail> {
    let mut table = Table::new(rt.alloc());
    for (key, v) in [
        (Value::Int(1), Value::Int(1)),
        (A, Value::Int(2)),
        (Value::Int(1), Value::Nil),
        (B, Value::Int(3)),
        (Value::Bool(true), Value::Nil),
        (Value::Int(1), Value::Int(4)),
    ] {
        table.set(key, v)?;
    }
    let mut key = Value::Nil;
    for pair in [
        (Value::Int(1), Value::Int(4)),
        (A, Value::Int(2)),
        (B, Value::Int(3)),
    ] {
        assert_eq!(rt; table.next(key), Ok(Some(pair)));
        assert_eq!(rt; table.get(pair.0), pair.1);
        key = pair.0;
    }
    assert_eq!(rt; table.next(key), Ok(None));
    assert_eq!(rt; table.next(Value::Bool(true)), Err(BadKey));
    assert_eq!(rt; table.get(Value::Bool(true)), Value::Nil);
    table.set(A, Value::Nil)?;
    for before in [Value::Int(1), A] {
        assert_eq!(rt; table.next(before), Ok(Some((B, Value::Int(3)))));
    }
    table.set(B, Value::Nil)?;
    assert_eq!(rt; table.next(A), Ok(None));
    Ok(())
}

#[test]
fn a_border_is_the_least(rt: HostRuntime) -> Result<(), test::Fail> {
    let mut table = Table::new(rt.alloc());
    assert_eq!(rt; table.border(), 0);
    for (key, v, border) in [
        (1, Value::Int(7), 1),
        (2, Value::Int(7), 2),
        (4, Value::Int(7), 2),
        (0, Value::Int(7), 2),
        (-1, Value::Int(7), 2),
        (3, Value::Int(7), 4),
        (6, Value::Int(7), 4),
        (2, Value::Nil, 1),
        (4, Value::Nil, 1),
        (2, Value::Bool(false), 3),
        (4, Value::Int(7), 4),
        (5, Value::Nil, 4),
        (5, Value::Int(7), 6),
        (6, Value::Nil, 5),
        (9, Value::Nil, 5),
        (1, Value::Nil, 0),
        (1, Value::Int(7), 5),
    ] {
        table.set(Value::Int(key), v)?;
        assert_eq!(rt; table.border(), border, "after {key}");
    }
    Ok(())
}

#[test]
fn a_table_holds_as_many_keys_as_may_be(rt: HostRuntime) -> Result<(), test::Fail> {
    let most: i64 = 1 << 16;
    let mut table = Table::new(rt.alloc());
    for key in 1..most {
        table.set(Value::Int(key), Value::Int(key))?;
    }
    assert_eq!(rt; table.set(Value::Int(0), Value::Nil), Ok(()));
    assert_eq!(rt; table.set(Value::Int(most), A), Ok(()));
    assert_eq!(rt; table.border(), 1 << 16);
    assert_eq!(rt; table.set(Value::Int(1), Value::Nil), Ok(()));
    assert_eq!(rt; table.border(), 0);
    let full = Err(Fail::Is(LuaWhy::TablesFull));
    assert_eq!(rt; table.set(Value::Int(0), A), full);
    assert_eq!(rt; table.next(Value::Int(0)), Err(BadKey));
    assert_eq!(rt; table.set(Value::Int(0), Value::Nil), Ok(()));
    assert_eq!(rt; table.set(Value::Nil, A), Err(Fail::Is(LuaWhy::NilKey)));
    assert_eq!(rt; table.set(Value::Int(1), B), Ok(()));
    assert_eq!(rt; table.next(Value::Nil), Ok(Some((Value::Int(1), B))));
    assert_eq!(rt; table.border(), 1 << 16);
    Ok(())
}

#[test]
fn a_store_holds_as_many_tables_as_may_be(rt: HostRuntime) -> Result<(), test::Fail> {
    let mut store = Store::new(rt.alloc())?;
    for _ in 0..1u64 << 16 {
        store.new_table()?;
    }
    assert!(rt; store.new_table() == Err(Fail::Is(LuaWhy::TablesFull)));
    Ok(())
}

#[test]
fn a_store_holds_as_many_bytes_as_may_be(rt: HostRuntime) -> Result<(), test::Fail> {
    let mut store = Store::new(rt.alloc())?;
    let full = Err(Fail::Is(LuaWhy::TextsFull));
    let long = vec![in rt.alloc(); 0u8; (1 << 20) + 1]?;
    assert!(rt; store.text(long.as_slice()) == full);
    for byte in 0..16u8 {
        let bytes = vec![in rt.alloc(); byte; 1 << 20]?;
        store.text(bytes.as_slice())?;
        store.text(bytes.as_slice())?;
    }
    assert!(rt; store.text(b"x") == full);
    assert!(rt; store.find_text(b"x").is_none());
    let empty = store.text(b"")?;
    assert_eq!(rt; store.text(b""), Ok(empty));
    Ok(())
}
