//! Ligatures and kerns between two characters of a font: the first step of the left character's program that applies
//! to the right one ("TeX: The Program", sections 545, 741 and 1039).
//!
//! It stands on `ntx_tfm`.
#![tactic(auto)]

mod command;
mod program;

pub use command::Pair;
pub use program::pair;

#[cfg(test)]
mod tests;
