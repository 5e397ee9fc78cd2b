//! Scripts whose tree or whose fault is written out by hand.

mod accepted;
mod depth;
mod operators;
mod refused;
mod show;

use crate::parse;
use ntx_num::Fail;
use ntx_syntax::{Chunk, SyntaxFault, SyntaxWhy, tokens};
use show::shown;
use std::alloc::Global;
use std::process::Abort;

/// The tree of a script, or its fault.
fn parsed(alloc: Global, text: &[u8]) -> Result<Chunk, Fail<SyntaxFault>> {
    let tokens = tokens(alloc, text)?;
    parse(alloc, text, tokens.as_slice())
}

/// The tree of a script as a text, or its fault.
fn read(alloc: Global, text: &[u8]) -> Result<Vec<u8>, Fail<SyntaxFault>> {
    let chunk = parsed(alloc, text)?;
    Ok(shown(alloc, &chunk)?)
}

/// Asserts that a script has this tree.
fn reads(rt: &(impl Abort + AllocGlobal), text: &[u8], tree: &[u8]) {
    match read(rt.alloc(), text) {
        Ok(found) => assert_eq!(rt; found.as_slice(), tree),
        Err(_) => panic!(rt; "refused"),
    }
}

/// Asserts that a script is refused at this line, for this reason.
fn refuses(rt: &(impl Abort + AllocGlobal), text: &[u8], line: u64, why: SyntaxWhy) {
    match read(rt.alloc(), text) {
        Ok(_) => panic!(rt; "accepted"),
        Err(Fail::NoMemory) => panic!(rt; "no memory"),
        Err(Fail::Is(fault)) => assert_eq!(rt; fault, SyntaxFault { line, why }),
    }
}
