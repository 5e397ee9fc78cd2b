//! A broken paragraph as a vertical list of lines ("TeX: The Program", sections 876 to 890).
//!
//! [`lines`] parts a list at its breaks, and makes of each part a box between interline glue and penalties. It is stated as a
//! trace of heaps, in `specs/Lines.antt`, since it may stop in the middle.
//!
//! It stands on `ntx_breaks` for the breaks and on `ntx_legal` for what a break discards, on `ntx_pack` for boxes and interline
//! glue, on `ntx_lists` and `ntx_nodes` for lists, on `ntx_view`, `ntx_tfm` and `ntx_item` for items, fonts and parameters, and
//! on `ntx_num` for answers.
#![tactic(auto)]

mod above;
mod ends;
mod line_box;
mod line_end;
mod making;
mod paragraph;
mod part;
mod skips;

pub use paragraph::lines;

#[cfg(test)]
mod tests;
