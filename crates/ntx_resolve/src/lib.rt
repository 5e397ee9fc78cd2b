//! Names resolved: the code of a script, in which each use of a name says which variable it is.
//!
//! `specs/Scopes.antt` says which variable a name is, by Lua's rules of scope (Lua 5.3 Reference Manual, section 3.5).
//! `specs/HasCode.antt` says what code a script has: its tree, in which each use of a name says which variable it is.
//! `specs/Limit.antt` says where a function has more local variables than it may.
//!
//! The crate stands on `ntx_syntax` for faults and the types of trees, on `ntx_num` for answers, and on `sqlite_items` for the
//! lists and boxes in trees.
#![tactic(auto)]

mod assignments;
mod bindings;
mod blocks;
mod code;
mod conditions;
mod exps;
mod loops;
mod names;
mod prefixes;
mod resolver;
mod scope;
mod script;
mod state;
mod tables;

pub use code::{
    Block, Call, Code, Exp, Field, Function, Head, IfArm, Operation, Prefix, Return, Stat,
    StatKind, Suffix, Var, Variable,
};
pub use script::resolve;

#[cfg(test)]
mod tests;
