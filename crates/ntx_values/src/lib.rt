//! Values of scripts, and the store of their texts, tables and function numbers (Lua 5.3 Reference Manual, sections 2.1
//! and 3.4; `next` of section 6.1).
//!
//! A [`Value`] is small and is copied: a text, a table or a function is a number of the [`Store`] that made it. What a
//! store holds is a plain value, `StoreState` of `specs/State.antt`, and each call on a store is one step over it.
//!
//! It stands on `ntx_num` and `ntx_nodes`, and keeps texts and tables with `indexmap`.
#![tactic(auto)]

mod laws;
mod primitive;
mod store;
mod table;
#[cfg(test)]
mod tests;
mod texts;
mod value;
mod why;

pub use laws::{borders_are_least, same_values_are_equal, sets_are_read_back};
pub use primitive::{LibFn, Primitive};
pub use store::Store;
pub use value::{FuncId, TableId, TextId, Value};
pub use why::{BadKey, LuaWhy};
