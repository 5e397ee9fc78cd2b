//! Surgery on TeX's node lists, and freeing and copying them, over any heap of nodes (LuaTeX Reference Manual, chapter
//! "Nodes"; "TeX: The Program", sections 199 to 206).
//!
//! Each call is one step of the heap: `specs/Lists.antt` states those along one list, `specs/Trees.antt` freeing, and
//! `specs/Copies.antt` copying. A call that refuses leaves the heap as it was, except that names once given to copies stay
//! given. [`make_linked`], which is a part of passes, takes several steps, which `specs/MadeNodes.antt` states.
//!
//! It stands on `ntx_num` and `ntx_nodes`.
#![tactic(auto)]

mod copy;
mod copy_laws;
mod free;
mod insert;
mod links;
mod make;
mod survey;
#[cfg(test)]
mod tests;

pub use copy::{copy_list, copy_tree};
pub use copy_laws::{copies_are_lists, copies_are_trees, copies_stop_rightly};
pub use free::{flush_list, free_tree};
pub use insert::{insert_after, insert_before, length, remove, slide, tail};
pub use make::make_linked;
