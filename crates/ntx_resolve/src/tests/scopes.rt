//! Which variables names are.

use super::build::{
    block, body, chunk, counting, do_block, function, generic, local, local_function, one, repeat,
    returning, two,
};
use super::show::text_of;
use crate::resolve;
use ntx_num::Fail;
use ntx_syntax::{Block, Chunk, StatKind, SyntaxFault};
use std::alloc::{AllocError, Global};
use std::process::Abort;
use std::test;

/// The variables of a script.
fn variables(alloc: Global, chunk: &Chunk) -> Result<Vec<u8>, Fail<SyntaxFault>> {
    let code = resolve(alloc, chunk)?;
    Ok(text_of(alloc, &code)?)
}

/// Asserts which variables the names of a script are.
fn shows(rt: &(impl Abort + AllocGlobal), chunk: &Chunk, wanted: &[u8]) {
    match variables(rt.alloc(), chunk) {
        Ok(found) => assert_eq!(rt; found.as_slice(), wanted),
        Err(_) => panic!(rt; "refused"),
    }
}

/// `local x = x; return x`
fn local_of_itself(alloc: Global) -> Result<Chunk, AllocError> {
    chunk(alloc, one(alloc, local(alloc, b"x", b"x")?)?, b"x")
}

/// `local x, x = x, y; return x, y`
fn the_same_name_twice(alloc: Global) -> Result<Chunk, AllocError> {
    chunk(alloc, one(alloc, local(alloc, b"xx", b"xy")?)?, b"xy")
}

/// `local x; local x = x; return x`
fn local_of_an_older_one(alloc: Global) -> Result<Chunk, AllocError> {
    let older = local(alloc, b"x", b"")?;
    let newer = local(alloc, b"x", b"x")?;
    chunk(alloc, two(alloc, older, newer)?, b"x")
}

#[test]
fn locals(rt: HostRuntime) -> Result<(), test::Fail> {
    shows(&rt, &local_of_itself(rt.alloc())?, b"GL0");
    shows(&rt, &the_same_name_twice(rt.alloc())?, b"GGL1G");
    shows(&rt, &local_of_an_older_one(rt.alloc())?, b"L0L1");
    Ok(())
}

/// `local a; return a`
fn with_a(alloc: Global) -> Result<Block, AllocError> {
    block(alloc, one(alloc, local(alloc, b"a", b"")?)?, b"a")
}

/// `local a; do local a; return a end; return a`
fn hidden_in_a_block(alloc: Global) -> Result<Chunk, AllocError> {
    let older = local(alloc, b"a", b"")?;
    let inner = do_block(alloc, with_a(alloc)?)?;
    chunk(alloc, two(alloc, older, inner)?, b"a")
}

/// `repeat local a; return a until a; return a`
fn until_a_local(alloc: Global) -> Result<Chunk, AllocError> {
    let turn = repeat(alloc, with_a(alloc)?, b'a')?;
    chunk(alloc, one(alloc, turn)?, b"a")
}

#[test]
fn blocks(rt: HostRuntime) -> Result<(), test::Fail> {
    shows(&rt, &hidden_in_a_block(rt.alloc())?, b"L1L0");
    shows(&rt, &until_a_local(rt.alloc())?, b"L0L0G");
    Ok(())
}

/// `for i = i, i do return i end; return i`
fn over_numbers(alloc: Global) -> Result<Chunk, AllocError> {
    let turn = counting(alloc, b'i', returning(alloc, b"i")?)?;
    chunk(alloc, one(alloc, turn)?, b"i")
}

/// `for k, v in k, v do return v, k end; return v`
fn over_pairs(alloc: Global) -> Result<Chunk, AllocError> {
    let turn = generic(alloc, b"kv", returning(alloc, b"vk")?)?;
    chunk(alloc, one(alloc, turn)?, b"v")
}

#[test]
fn loops(rt: HostRuntime) -> Result<(), test::Fail> {
    shows(&rt, &over_numbers(rt.alloc())?, b"GGL0G");
    shows(&rt, &over_pairs(rt.alloc())?, b"GGL1L0G");
    Ok(())
}

/// `local function f() return f end; return f`
fn recursive(alloc: Global) -> Result<Chunk, AllocError> {
    let made = body(alloc, b"", returning(alloc, b"f")?)?;
    let made = local_function(alloc, b'f', made)?;
    chunk(alloc, one(alloc, made)?, b"f")
}

/// `function f(a, b) return b, a, f end; return a`
fn global(alloc: Global) -> Result<Chunk, AllocError> {
    let made = body(alloc, b"ab", returning(alloc, b"baf")?)?;
    let made = function(alloc, b'f', made)?;
    chunk(alloc, one(alloc, made)?, b"a")
}

#[test]
fn functions(rt: HostRuntime) -> Result<(), test::Fail> {
    shows(&rt, &recursive(rt.alloc())?, b"L0U0");
    shows(&rt, &global(rt.alloc())?, b"GGL1L0G");
    Ok(())
}

/// `local function h(d) return a, b, c, d, e, h end`
fn innermost(alloc: Global) -> Result<StatKind, AllocError> {
    let made = body(alloc, b"d", returning(alloc, b"abcdeh")?)?;
    local_function(alloc, b'h', made)
}

/// `local function name(parameter)`, a statement in it, `return` with these names, and `end`
fn around(
    alloc: Global,
    letter: u8,
    parameter: &[u8],
    inner: StatKind,
    returned: &[u8],
) -> Result<StatKind, AllocError> {
    let inner = one(alloc, inner)?;
    let inner = block(alloc, inner, returned)?;
    let made = body(alloc, parameter, inner)?;
    local_function(alloc, letter, made)
}

/// `local function g(c)`, with the innermost in it, and `return c, h end`
fn middle(alloc: Global) -> Result<StatKind, AllocError> {
    let inner = innermost(alloc)?;
    around(alloc, b'g', b"c", inner, b"ch")
}

/// `local function f(b)`, with the middle one in it, and `return b, g end`
fn outer(alloc: Global) -> Result<StatKind, AllocError> {
    let inner = middle(alloc)?;
    around(alloc, b'f', b"b", inner, b"bg")
}

/// `local a`, the outer one, and `return a, f`
fn three_functions(alloc: Global) -> Result<Chunk, AllocError> {
    let outer = outer(alloc)?;
    let older = local(alloc, b"a", b"")?;
    let stats = two(alloc, older, outer)?;
    chunk(alloc, stats, b"af")
}

#[test]
fn upvalues(rt: HostRuntime) -> Result<(), test::Fail> {
    shows(
        &rt,
        &three_functions(rt.alloc())?,
        b"L0L1U0U2U4L0GU5L0L1L0L1",
    );
    Ok(())
}
