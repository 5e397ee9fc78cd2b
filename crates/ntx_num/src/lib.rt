//! Numbers and answers that every crate of `ntx` uses: out of memory and refusals as values, sizes in scaled
//! points, tests of ranges, and the arithmetic of glue and lines: badness, rounded ratios and demerits.
//!
//! It stands on `std` alone. Badness and demerits are those of "TeX: The Program", and rounded ratios take the place of
//! its floating point glue ratios.
#![tactic(auto)]

mod answer;
mod dimension;
mod range;
mod ratio;
mod shortfall;
mod size;
mod squares;

pub use answer::{Fail, NoMemory};
pub use dimension::{MAX_DIMENSION, MAX_NODES, MAX_ORDER, MAX_PENALTY, is_dimension};
pub use range::in_range;
pub use ratio::{round_ratio, round_ratio_is_odd};
pub use shortfall::{badness, badness_grows};
pub use size::Size;
pub use squares::demerits;

#[cfg(test)]
mod tests;
