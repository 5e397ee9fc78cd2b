//! Where a name is one too many.

use super::build::{
    block, body, chunk, counting, do_block, function, local, many, one, returning, two,
};
use crate::resolve;
use ntx_num::Fail;
use ntx_syntax::{Chunk, StatKind, SyntaxWhy};
use std::alloc::{AllocError, Global};
use std::process::Abort;
use std::test;

/// Asserts that a script is refused at this line, or accepted where it is 0.
fn refuses(rt: &(impl Abort + AllocGlobal), chunk: &Chunk, line: u64) {
    match resolve(rt.alloc(), chunk) {
        Ok(_) => assert_eq!(rt; 0, line),
        Err(Fail::NoMemory) => panic!(rt; "no memory"),
        Err(Fail::Is(fault)) => {
            assert_eq!(rt; fault.line, line);
            assert!(rt; fault.why == SyntaxWhy::Locals);
        }
    }
}

/// `local` with so many names, each in a line of its own
fn declaring(alloc: Global, count: u64) -> Result<Chunk, AllocError> {
    let names = many(alloc, b'a', count)?;
    chunk(alloc, one(alloc, local(alloc, &names, b"")?)?, b"")
}

/// `local` with so many names, and a loop that declares one in line 7. What it counts with has no name.
fn before_a_loop(alloc: Global, count: u64) -> Result<Chunk, AllocError> {
    let names = many(alloc, b'a', count)?;
    let turn = counting(alloc, b'i', returning(alloc, b"i")?)?;
    chunk(alloc, two(alloc, local(alloc, &names, b"")?, turn)?, b"")
}

#[test]
fn one_function(rt: HostRuntime) -> Result<(), test::Fail> {
    refuses(&rt, &declaring(rt.alloc(), 200)?, 0);
    refuses(&rt, &declaring(rt.alloc(), 201)?, 201);
    refuses(&rt, &before_a_loop(rt.alloc(), 199)?, 0);
    refuses(&rt, &before_a_loop(rt.alloc(), 200)?, 7);
    Ok(())
}

/// `do local` with these names `end`
fn inner(alloc: Global, names: &[u8]) -> Result<StatKind, AllocError> {
    let stats = one(alloc, local(alloc, names, b"")?)?;
    let inner = block(alloc, stats, b"")?;
    do_block(alloc, inner)
}

/// `do local` with so many names `end`, and `local` with 200 names
fn after_a_block(alloc: Global, count: u64) -> Result<Chunk, AllocError> {
    let first = many(alloc, b'a', count)?;
    let inner = inner(alloc, &first)?;
    let names = many(alloc, b'b', 200)?;
    let later = local(alloc, &names, b"")?;
    let stats = two(alloc, inner, later)?;
    chunk(alloc, stats, b"")
}

/// `local` with 198 names, and `do local` with these `end`
fn in_a_block(alloc: Global, names: &[u8]) -> Result<Chunk, AllocError> {
    let inner = inner(alloc, names)?;
    let first = many(alloc, b'a', 198)?;
    let older = local(alloc, &first, b"")?;
    let stats = two(alloc, older, inner)?;
    chunk(alloc, stats, b"")
}

#[test]
fn blocks_that_end(rt: HostRuntime) -> Result<(), test::Fail> {
    refuses(&rt, &after_a_block(rt.alloc(), 200)?, 0);
    refuses(&rt, &in_a_block(rt.alloc(), b"bc")?, 0);
    refuses(&rt, &in_a_block(rt.alloc(), b"bcd")?, 3);
    Ok(())
}

/// A function with so many parameters that declares these names
fn with_parameters(alloc: Global, count: u64, names: &[u8]) -> Result<StatKind, AllocError> {
    let parameters = many(alloc, b'p', count)?;
    let stats = one(alloc, local(alloc, names, b"")?)?;
    let inner = block(alloc, stats, b"")?;
    let made = body(alloc, &parameters, inner)?;
    function(alloc, b'f', made)
}

/// `local` with so many names, and such a function
fn in_a_function(
    alloc: Global,
    count: u64,
    parameters: u64,
    names: &[u8],
) -> Result<Chunk, AllocError> {
    let made = with_parameters(alloc, parameters, names)?;
    let first = many(alloc, b'a', count)?;
    let older = local(alloc, &first, b"")?;
    let stats = two(alloc, older, made)?;
    chunk(alloc, stats, b"")
}

#[test]
fn functions_count_their_own(rt: HostRuntime) -> Result<(), test::Fail> {
    refuses(&rt, &in_a_function(rt.alloc(), 200, 200, b"")?, 0);
    refuses(&rt, &in_a_function(rt.alloc(), 0, 201, b"")?, 201);
    refuses(&rt, &in_a_function(rt.alloc(), 0, 199, b"ab")?, 2);
    Ok(())
}
