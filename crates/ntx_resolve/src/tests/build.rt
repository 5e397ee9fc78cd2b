//! Trees of short scripts.

use ntx_syntax::{
    Block, Chunk, Exp, FunctionBody, Head, LocalName, Name, Prefix, Return, Stat, StatKind,
};
use sqlite_items::{Boxed, Items};
use std::alloc::{AllocError, Global};

/// A name of one letter.
pub fn name(alloc: Global, letter: u8) -> Result<Name, AllocError> {
    Items::from_slice(alloc, &[letter])
}

/// The same letter, so many times.
pub fn many(alloc: Global, letter: u8, count: u64) -> Result<Vec<u8>, AllocError> {
    let mut letters = Vec::new(alloc);
    for _ in 0..count {
        letters.push(letter)?;
    }
    Ok(letters)
}

/// A name that is declared in this line.
pub fn local_name(alloc: Global, letter: u8, line: u64) -> Result<LocalName, AllocError> {
    Ok(LocalName {
        name: name(alloc, letter)?,
        line,
    })
}

/// Names that are declared, each in a line of its own.
pub fn names(alloc: Global, letters: &[u8]) -> Result<Items<LocalName>, AllocError> {
    let mut names = Items::new(alloc);
    let mut line = 0u64;
    for letter in letters {
        line = line.wrapping_add(1);
        names.push(local_name(alloc, *letter, line)?)?;
    }
    Ok(names)
}

/// The use of a name.
pub fn exp(alloc: Global, letter: u8) -> Result<Exp, AllocError> {
    Ok(Exp::Prefix(Prefix {
        head: Head::Name(name(alloc, letter)?),
        suffixes: Items::new(alloc),
    }))
}

/// The uses of names.
pub fn exps(alloc: Global, letters: &[u8]) -> Result<Items<Exp>, AllocError> {
    let mut exps = Items::new(alloc);
    for letter in letters {
        exps.push(exp(alloc, *letter)?)?;
    }
    Ok(exps)
}

/// A block of these statements, and `return` with these names.
pub fn block(alloc: Global, stats: Items<Stat>, letters: &[u8]) -> Result<Block, AllocError> {
    Ok(Block {
        stats,
        last: Some(Return {
            line: 1,
            values: exps(alloc, letters)?,
        }),
    })
}

/// `return` with these names, in a block of its own.
pub fn returning(alloc: Global, letters: &[u8]) -> Result<Block, AllocError> {
    block(alloc, Items::new(alloc), letters)
}

/// A script of these statements, and `return` with these names.
pub fn chunk(alloc: Global, stats: Items<Stat>, letters: &[u8]) -> Result<Chunk, AllocError> {
    Ok(Chunk {
        block: block(alloc, stats, letters)?,
    })
}

/// One statement.
pub fn one(alloc: Global, kind: StatKind) -> Result<Items<Stat>, AllocError> {
    let mut stats = Items::new(alloc);
    stats.push(Stat { line: 1, kind })?;
    Ok(stats)
}

/// Two statements.
pub fn two(alloc: Global, first: StatKind, second: StatKind) -> Result<Items<Stat>, AllocError> {
    let mut stats = one(alloc, first)?;
    stats.push(Stat {
        line: 1,
        kind: second,
    })?;
    Ok(stats)
}

/// `local` with these names and the values of those.
pub fn local(alloc: Global, declared: &[u8], values: &[u8]) -> Result<StatKind, AllocError> {
    Ok(StatKind::Local(names(alloc, declared)?, exps(alloc, values)?))
}

/// `do block end`
pub fn do_block(alloc: Global, block: Block) -> Result<StatKind, AllocError> {
    Ok(StatKind::Do(Boxed::new(alloc, block)?))
}

/// `repeat block until name`
pub fn repeat(alloc: Global, block: Block, letter: u8) -> Result<StatKind, AllocError> {
    let condition = Boxed::new(alloc, exp(alloc, letter)?)?;
    Ok(StatKind::Repeat(Boxed::new(alloc, block)?, condition))
}

/// `for name = name, name do block end`
pub fn counting(alloc: Global, letter: u8, block: Block) -> Result<StatKind, AllocError> {
    let declared = Boxed::new(alloc, local_name(alloc, letter, 7)?)?;
    let from = Boxed::new(alloc, exp(alloc, letter)?)?;
    let limit = Boxed::new(alloc, exp(alloc, letter)?)?;
    let block = Boxed::new(alloc, block)?;
    Ok(StatKind::NumericFor(declared, from, limit, None, block))
}

/// `for names in names do block end`
pub fn generic(alloc: Global, letters: &[u8], block: Block) -> Result<StatKind, AllocError> {
    let declared = names(alloc, letters)?;
    let values = exps(alloc, letters)?;
    Ok(StatKind::GenericFor(declared, values, Boxed::new(alloc, block)?))
}

/// The body of a function.
pub fn body(
    alloc: Global,
    parameters: &[u8],
    block: Block,
) -> Result<Boxed<FunctionBody>, AllocError> {
    let parameters = names(alloc, parameters)?;
    Boxed::new(alloc, FunctionBody { parameters, block })
}

/// `local function name body`
pub fn local_function(
    alloc: Global,
    letter: u8,
    body: Boxed<FunctionBody>,
) -> Result<StatKind, AllocError> {
    Ok(StatKind::LocalFunction(local_name(alloc, letter, 5)?, body))
}

/// `function name body`
pub fn function(
    alloc: Global,
    letter: u8,
    body: Boxed<FunctionBody>,
) -> Result<StatKind, AllocError> {
    Ok(StatKind::Function(name(alloc, letter)?, Items::new(alloc), body))
}
