//! The library of scripts (Lua 5.3 Reference Manual, sections 6.1, 6.4, 6.6 and 6.7), in a profile with integers as the only
//! numbers.
//!
//! Each function is a step of a store and the printed bytes; `called` of `specs/Library.antt` says which.
//!
//! It stands on `ntx_num` and `ntx_values`.
#![tactic(auto)]

mod arguments;
mod call;
mod format;
mod items;
mod line;
mod lists;
mod numbers;
mod print;
mod printed;
mod shown;
mod strings;
#[cfg(test)]
mod tests;
mod texts;
mod walks;

pub use call::call_lib;
pub use printed::Printed;
