//! Tests of pages: where their marks stand, and their bytes, worked out by hand. The crate holds nothing else.
#![tactic(auto)]

#[cfg(test)]
mod boxes;
#[cfg(test)]
mod pages;
#[cfg(test)]
mod places;
