//! Hyphenation patterns: a file of patterns read into a trie, and the points at which patterns allow a word to be divided
//! (F. M. Liang, "Word Hy-phen-a-tion by Com-put-er", 1983; "TeX: The Program", sections 919 to 966).
//!
//! It stands on `ntx_num` alone. The patterns are those of TeX's `\patterns` with the letters `a` to `z`; exceptions, as those of
//! TeX's `\hyphenation`, and other alphabets are not here.
#![tactic(auto)]

mod fault;
mod gaps;
mod patterns;
mod read;
mod trie;
mod word;

pub use fault::PatternFault;
pub use gaps::points;
pub use patterns::Patterns;
pub use read::read_patterns;

#[cfg(test)]
mod tests;
