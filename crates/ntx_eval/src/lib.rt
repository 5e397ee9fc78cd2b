//! What scripts mean, and what an evaluator of them stands on. Scripts are written in a profile of Lua 5.3 (Lua 5.3 Reference
//! Manual, chapter 3).
//!
//! `specs/` defines the meaning of a script over its tree: scopes with cells, calls, loops, the steps that are charged, the line
//! of each fault, and a host that is begun and resumed. The crate has the operators on values that an evaluator calls, and the
//! trait of hosts. It runs no script yet.
//!
//! It stands on `ntx_syntax` for trees and on `ntx_values` for values and their store.
#![tactic(auto)]

mod host;
mod integers;
mod laws;
mod operators;
mod stop;
#[cfg(test)]
mod tests;

pub use host::{Host, HostStep, NoHost};
pub use laws::{more_steps_are_the_same, steps_never_rise, worked_examples};
pub use operators::{binary, is_decided, is_true, unary};
pub use stop::{ScriptFault, ScriptStop};
