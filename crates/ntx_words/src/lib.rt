//! The words of the command line `ntx [--steps N] DOC SCRIPT PATTERNS DVI [FONT...]`, read with the kit's crate `clap`.
//!
//! Options, `--` and `-` are those of the POSIX Utility Syntax Guidelines (IEEE Std 1003.1, section 12.2), with a long name as in the GNU Coding
//! Standards. [`read_words`] gives what the words ask for, or refuses them. The crate stands on `ntx_num` for answers and on `clap`.
#![tactic(auto)]

mod font;
mod laws;
mod number;
mod parse;
mod read;
mod words;

pub use laws::parts_have_their_form;
pub use read::read_words;
pub use words::{BadWords, Words};

#[cfg(test)]
mod tests;
