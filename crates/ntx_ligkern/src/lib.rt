//! Ligatures and kerns of TeX's node lists ("TeX: The Program", sections 545 and 1029 to 1040; LuaTeX Reference Manual,
//! chapter "Languages, characters, fonts and glyphs").
//!
//! [`ligature`] makes the ligatures of their fonts of the glyphs of a list, and takes glyphs into its discretionaries.
//! [`kern`] puts the kerns of their fonts between them. Each is stated as a trace of heaps, in `specs/Ligaturing.antt` and
//! `specs/Kerning.antt`, since it may stop in the middle.
//!
//! They stand on `ntx_pairs` for what a font says of two characters, on `ntx_lists` and `ntx_nodes` for lists, on `ntx_tfm`
//! for fonts, and on `ntx_num` for answers.
#![tactic(auto)]

mod cursor;
mod discs;
mod finding;
mod glyph;
mod insertion;
mod kern_pass;
mod lig;
mod ligature_pass;
mod ligaturing;
mod linking;
mod listing;
mod parts;
mod place;

pub use kern_pass::kern;
pub use ligature_pass::ligature;
pub use listing::lists_are_walked;

#[cfg(test)]
mod tests;
