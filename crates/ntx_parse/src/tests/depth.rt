//! Scripts that nest deep, and long flat ones.

use super::{parsed, refuses};
use ntx_syntax::SyntaxWhy;
use std::alloc::{AllocError, Global};
use std::process::Abort;

/// `front`, `open` so many times, `middle`, `close` so many times, and `back`.
fn nested(alloc: Global, times: u64, parts: [&[u8]; 5]) -> Result<Vec<u8>, AllocError> {
    let [front, open, middle, close, back] = parts;
    let mut text = Vec::new(alloc);
    text.extend_from_slice(front)?;
    for _ in 0..times {
        text.extend_from_slice(open)?;
    }
    text.extend_from_slice(middle)?;
    for _ in 0..times {
        text.extend_from_slice(close)?;
    }
    text.extend_from_slice(back)?;
    Ok(text)
}

/// Asserts that a script of so many parts is accepted.
fn accepts(rt: &(impl Abort + AllocGlobal), times: u64, parts: [&[u8]; 5]) {
    match nested(rt.alloc(), times, parts) {
        Err(_) => panic!(rt; "no memory"),
        Ok(text) => match parsed(rt.alloc(), text.as_slice()) {
            Ok(_) => {}
            Err(_) => panic!(rt; "refused"),
        },
    }
}

/// Asserts that one of so many parts is too deep.
fn too_deep(rt: &(impl Abort + AllocGlobal), times: u64, parts: [&[u8]; 5]) {
    match nested(rt.alloc(), times, parts) {
        Err(_) => panic!(rt; "no memory"),
        Ok(text) => refuses(rt, text.as_slice(), 1, SyntaxWhy::Depth),
    }
}

/// Asserts that such parts may nest 200 deep.
fn at_most_200(rt: &(impl Abort + AllocGlobal), parts: [&[u8]; 5]) {
    accepts(rt, 200, parts);
    too_deep(rt, 201, parts);
}

#[test]
fn blocks(rt: HostRuntime) {
    at_most_200(&rt, [b"", b"do ", b";", b" end", b""]);
    at_most_200(&rt, [b"", b"while a do ", b";", b" end", b""]);
    at_most_200(&rt, [b"", b"repeat ", b";", b" until a", b""]);
    at_most_200(&rt, [b"", b"if a then ", b";", b" end", b""]);
    at_most_200(&rt, [b"", b"if a then else ", b";", b" end", b""]);
    at_most_200(&rt, [b"", b"for i=1,2 do ", b";", b" end", b""]);
    at_most_200(&rt, [b"", b"for i in a do ", b";", b" end", b""]);
}

#[test]
fn brackets(rt: HostRuntime) {
    at_most_200(&rt, [b"x=", b"(", b"a", b")", b""]);
    at_most_200(&rt, [b"x=", b"a[", b"a", b"]", b""]);
    at_most_200(&rt, [b"x=", b"f(", b"a", b")", b""]);
    at_most_200(&rt, [b"", b"(", b"a", b")", b"()"]);
    at_most_200(&rt, [b"x=", b"{", b"", b"}", b""]);
}

#[test]
fn operands(rt: HostRuntime) {
    at_most_200(&rt, [b"x=", b"not ", b"a", b"", b""]);
    at_most_200(&rt, [b"x=", b"- ", b"a", b"", b""]);
    at_most_200(&rt, [b"x=", b"a..", b"a", b"", b""]);
    accepts(&rt, 100, [b"x=", b"a+(", b"a", b")", b""]);
    too_deep(&rt, 101, [b"x=", b"a+(", b"a", b")", b""]);
}

#[test]
fn functions(rt: HostRuntime) {
    let nested: [&[u8]; 5] = [b"", b"return function() ", b"", b" end", b""];
    accepts(&rt, 100, nested);
    too_deep(&rt, 101, nested);
    let named: [&[u8]; 5] = [b"", b"function f() ", b"", b" end", b""];
    accepts(&rt, 100, named);
    too_deep(&rt, 101, named);
    let local: [&[u8]; 5] = [b"", b"local function f() ", b"", b" end", b""];
    accepts(&rt, 100, local);
    too_deep(&rt, 101, local);
}

#[test]
fn keys(rt: HostRuntime) {
    let keyed: [&[u8]; 5] = [b"x=", b"{[a]=", b"a", b"}", b""];
    accepts(&rt, 199, keyed);
    too_deep(&rt, 200, keyed);
    let named: [&[u8]; 5] = [b"x=", b"{a=", b"a", b"}", b""];
    accepts(&rt, 200, named);
    too_deep(&rt, 201, named);
}

#[test]
fn flat(rt: HostRuntime) {
    accepts(&rt, 4_000, [b"x=a", b" or a", b"", b"", b""]);
    accepts(&rt, 4_000, [b"a", b"()", b"", b"", b""]);
    accepts(&rt, 4_000, [b"a", b"[a]", b"=a", b"", b""]);
    accepts(&rt, 4_000, [b"", b"a=a ", b"", b"", b""]);
    accepts(
        &rt,
        4_000,
        [b"if a then", b" elseif a then", b" end", b"", b""],
    );
    accepts(&rt, 4_000, [b"local a", b",a", b"", b"", b""]);
    accepts(&rt, 4_000, [b"f(a", b",a", b")", b"", b""]);
}

#[test]
fn long(rt: HostRuntime) {
    accepts(&rt, 400_000, [b"x=a", b"+a", b"", b"", b""]);
    accepts(&rt, 400_000, [b"x=a", b".a", b"", b"", b""]);
    accepts(&rt, 400_000, [b"x={", b"a,", b"}", b"", b""]);
    accepts(&rt, 1 << 18, [b"", b";", b"", b"", b""]);
}
