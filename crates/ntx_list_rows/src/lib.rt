//! Tests of lists of nodes that go through the passes over words: hyphens, ligatures, kerns. The crate holds nothing else.
#![tactic(auto)]

#[cfg(test)]
mod font;
#[cfg(test)]
mod lists;
#[cfg(test)]
mod passes;
