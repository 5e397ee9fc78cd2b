//! TeX font metric (TFM) files: a font as a function of the file's bytes, a name and a size, or the first fault of the
//! file ("TeX: The Program", sections 539 to 546 and 560 to 576).
//!
//! It stands on `ntx_num` and on the kit's `byteorder`. Italic corrections are tested and not kept; extensible recipes,
//! larger characters and the boundary character are read over: no part of a `Font` speaks of any of them.
#![tactic(auto)]

mod checks;
mod def;
mod fault;
mod font;
mod layout;
mod scaling;
mod step;
mod tables;
mod words;

pub use def::{FontDef, FontName};
pub use fault::FontFault;
pub use font::{Font, read_font};
pub use scaling::scaling_rounds_down;
pub use step::LigStep;

#[cfg(test)]
mod tests;
