//! Hyphenation of TeX's node lists ("TeX: The Program", sections 891 to 918; LuaTeX Reference Manual, chapter "Languages,
//! characters, fonts and glyphs").
//!
//! [`hyphenate`] puts a discretionary with a hyphen into each gap between letters at which patterns allow a break. It is
//! stated as a trace of heaps, in `specs/Hyphenation.antt`, since it may stop in the middle.
//!
//! It stands on `ntx_patterns` for the points of a word, on `ntx_lists` and `ntx_nodes` for lists, on `ntx_item` for the
//! parameters, and on `ntx_num` for answers.
#![tactic(auto)]

mod insertion;
mod laws;
mod letter;
mod pass;
mod reading;

pub use laws::hyphenated_lists_are_whole;
pub use pass::hyphenate;

#[cfg(test)]
mod tests;
