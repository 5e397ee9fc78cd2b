//! Writes DVI files, the device-independent output of TeX: the operations of a file as bytes, under a limit on its length.
//!
//! The format is that of "TeX: The Program", sections 583 to 591. The bytes come out in pieces, by [`Dvi::take`]. The crate stands on
//! `ntx_num` for answers, on `ntx_tfm` for the definitions of fonts and on the kit's `byteorder`.
#![tactic(auto)]

mod dvi;
mod encode;
mod fonts;
mod full;
mod movement;
mod opcode;
mod output;
mod part;
#[cfg(test)]
mod tests;

pub use dvi::Dvi;
pub use full::DviFull;
