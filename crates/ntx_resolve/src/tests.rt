//! Which variables the names of scripts are, and where a name is one too many. A name here is one letter.
//!
//! Expected values follow from the rules of scope (Lua 5.3 Reference Manual, section 3.5).

mod build;
mod limit;
mod scopes;
mod show;
