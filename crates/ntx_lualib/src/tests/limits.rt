//! Printed lines, and the limits at their last values.

ghost use Rattle.ntx_values.specs.State.{IsOf};

use super::Arg::{Bool, Int, Nil, Text};
use super::{Arg, BAD, Row, Want, call, is_one, run_on};
use crate::{Printed, call_lib};
use ntx_num::Fail;
use ntx_values::{LibFn, LuaWhy, Store, TextId, Value};
use std::alloc::Global;
use std::test;

static LINES: [Row; 4] = [
    (LibFn::Print, &[], Want::Nothing),
    (LibFn::Print, &[Text(b"a"), Int(-2), Nil], Want::Nothing),
    (LibFn::Print, &[Bool(true)], Want::Nothing),
    (LibFn::Print, &[Text(b""), Text(b"")], Want::Nothing),
];

#[test]
fn lines_are_printed(rt: HostRuntime) -> Result<(), test::Fail> {
    let mut store = Store::new(rt.alloc())?;
    let mut out = Printed::new(rt.alloc())?;
    run_on(&rt, rt.alloc(), &mut store, &mut out, &LINES)?;
    let printed = out.take();
    assert_eq!(rt; printed.as_slice(), b"\na\t-2\tnil\ntrue\n\t\n".as_slice());
    assert!(rt; out.take().is_empty());
    Ok(())
}

/// Prints a text so many times, and says whether 2^20 bytes were printed each time.
fn print_times(
    alloc: Global,
    store: &mut Store,
    out: &mut Printed,
    text: TextId,
    times: u8,
) -> Result<bool, Fail<LuaWhy>>
    requires { IsOf store.old (Value.Text text) }
{
    for k in 0..times {
        call_lib(alloc, store, out, LibFn::Print, &[Value::Text(text)])?;
        if out.take().len() != 1 << 20 {
            return Ok(false);
        }
    }
    Ok(true)
}

static NO_MORE_LINES: [Row; 1] = [(LibFn::Print, &[], Want::Refused(LuaWhy::PrintFull))];

#[test]
fn as_many_bytes_are_printed_as_may_be(rt: HostRuntime) -> Result<(), test::Fail> {
    let mut store = Store::new(rt.alloc())?;
    let mut out = Printed::new(rt.alloc())?;
    let bytes = vec![in rt.alloc(); 97u8; (1 << 20) - 1]?;
    let text = store.text(&bytes)?;
    assert!(rt; print_times(rt.alloc(), &mut store, &mut out, text, 16)?);
    run_on(&rt, rt.alloc(), &mut store, &mut out, &NO_MORE_LINES)?;
    assert!(rt; out.take().is_empty());
    Ok(())
}

static LONGEST: [Arg; 2] = [Text(b"a"), Int(1 << 20)];

static TOO_LONG: [Row; 1] = [(
    LibFn::StringRep,
    &[Text(b"a"), Int((1 << 20) + 1)],
    Want::Refused(LuaWhy::TextsFull),
)];

#[test]
fn one_text_has_as_many_bytes_as_may_be(rt: HostRuntime) -> Result<(), test::Fail> {
    let mut store = Store::new(rt.alloc())?;
    let mut out = Printed::new(rt.alloc())?;
    let most = call(rt.alloc(), &mut store, &mut out, LibFn::StringRep, &LONGEST)?;
    let len = call_lib(rt.alloc(), &mut store, &mut out, LibFn::StringLen, &most)?;
    assert!(rt; is_one(&len, Value::Int(1 << 20)));
    run_on(&rt, rt.alloc(), &mut store, &mut out, &TOO_LONG)
}

static NO_MORE_TEXTS: [Row; 3] = [
    (LibFn::StringChar, &[], Want::Text(b"")),
    (LibFn::ToString, &[Int(1)], Want::Refused(LuaWhy::TextsFull)),
    (LibFn::StringFormat, &[Int(1)], BAD),
];

#[test]
fn all_texts_have_as_many_bytes_as_may_be(rt: HostRuntime) -> Result<(), test::Fail> {
    let mut store = Store::new(rt.alloc())?;
    let mut out = Printed::new(rt.alloc())?;
    for byte in 0..16u8 {
        let bytes = vec![in rt.alloc(); byte; 1 << 20]?;
        store.text(&bytes)?;
    }
    run_on(&rt, rt.alloc(), &mut store, &mut out, &NO_MORE_TEXTS)
}
