//! Prefixes while they are read.

ghost use Rattle.std.specs.Prelude.{◌≡◌, IfOk};
ghost use Rattle.ntx_parse.specs.Grammar as grammar;
ghost use Rattle.ntx_parse.specs.inner.Reading as reading;
ghost use Rattle.ntx_parse.specs.inner.Steps as steps;

use crate::list::push;
use ntx_syntax::{Exp, Head, Name, Prefix, Suffix, Var};
use sqlite_items::{Boxed, Items};
use std::alloc::{AllocError, Global};

/// A name, a parenthesized expression, or what its last suffix makes of a prefix.
#[derive(Drop)]
pub enum Part {
    /// `Name`
    Name(Name),
    /// `( exp )`
    Parenthesized(Boxed<Exp>),
    /// `prefix [ exp ]`
    Index(Prefix, Boxed<Exp>),
    /// `prefix . Name`
    Field(Prefix, Name),
    /// `prefix ( [explist] )`
    Call(Prefix, Items<Exp>),
}

/// One suffix.
#[derive(Drop)]
pub enum Tail {
    /// `[ exp ]`
    Index(Boxed<Exp>),
    /// `. Name`
    Field(Name),
    /// `( [explist] )`
    Call(Items<Exp>),
}

/// What a suffix makes of what stands before it.
pub fn extended(alloc: Global, before: Part, tail: Tail) -> Result<Part, AllocError>
    ensures { IfOk result (λ p. p ≡ steps.extended before tail) }
{
    let prefix = joined(alloc, before)?;
    match tail {
        Tail::Index(key) => Ok(Part::Index(prefix, key)),
        Tail::Field(name) => Ok(Part::Field(prefix, name)),
        Tail::Call(arguments) => Ok(Part::Call(prefix, arguments)),
    }
}

/// A prefix, and one more suffix after it.
fn with_suffix(alloc: Global, prefix: Prefix, suffix: Suffix) -> Result<Prefix, AllocError>
    ensures { IfOk result (λ p. p ≡ grammar.with_suffix prefix suffix) }
{
    let Prefix { head, mut suffixes } = prefix;
    push(alloc, &mut suffixes, suffix)?;
    Ok(Prefix { head, suffixes })
}

/// The prefix that was read.
pub fn joined(alloc: Global, part: Part) -> Result<Prefix, AllocError>
    ensures { IfOk result (λ p. p ≡ reading.joined part) }
{
    match part {
        Part::Name(name) => Ok(Prefix {
            head: Head::Name(name),
            suffixes: Items::new(alloc),
        }),
        Part::Parenthesized(exp) => Ok(Prefix {
            head: Head::Parenthesized(exp),
            suffixes: Items::new(alloc),
        }),
        Part::Index(before, key) => with_suffix(alloc, before, Suffix::Index(key)),
        Part::Field(before, name) => with_suffix(alloc, before, Suffix::Field(name)),
        Part::Call(before, arguments) => with_suffix(alloc, before, Suffix::Call(arguments)),
    }
}

/// What can be assigned to, if the prefix is that.
pub fn var_of(alloc: Global, part: Part) -> Result<Option<Var>, AllocError>
    ensures { IfOk result (λ var. var ≡ reading.var_of part) }
{
    match part {
        Part::Name(name) => Ok(Some(Var::Name(name))),
        Part::Index(before, key) => Ok(Some(Var::Index(Boxed::new(alloc, before)?, key))),
        Part::Field(before, name) => Ok(Some(Var::Field(Boxed::new(alloc, before)?, name))),
        Part::Parenthesized(_) | Part::Call(_, _) => Ok(None),
    }
}
