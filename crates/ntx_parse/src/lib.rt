//! The grammar of scripts: the tree of a script's tokens, or the first token that cannot stand where it does.
//!
//! `specs/Grammar.antt` says which words spell which tree, in a profile of the Lua 5.3 Reference Manual, section 9, and
//! `specs/Faults.antt` where a script is refused and why. The crate stands on `ntx_syntax` for tokens, faults and the types
//! of trees, on `ntx_num` for answers, and on `sqlite_items` for the lists and boxes in trees.
//!
//! The code reads by descent: [`parse`] goes through the words from the left, and looks one word ahead, but for fields of
//! tables, where a name and the word after it tell what the field is.
#![tactic(auto)]

mod bindings;
mod blocks;
mod expressions;
mod laws;
mod list;
mod loops;
mod names;
mod operator;
mod parser;
mod part;
mod place;
mod precedence;
mod prefixes;
mod rules;
mod script;
mod starts;
mod statements;
mod tables;
mod word;

pub use laws::{
    each_script_is_decided, refused_scripts_have_no_tree, scripts_have_one_fault,
    scripts_have_one_tree,
};
pub use place::Place;
pub use precedence::Precedence;
pub use script::parse;

#[cfg(test)]
mod tests;
