//! Where the marks of a page stand, and how a page is written into a DVI file ("TeX: The Program", sections 619 to 641).
//!
//! It stands on `ntx_view` for the items of lists, on `ntx_pack` for the glue of boxes, on `ntx_nodes` for nodes, on `ntx_item`, on
//! `ntx_tfm` for fonts, on `ntx_dvi` for DVI files, on `ntx_lists` for the freeing of pages, and on `ntx_num` for answers.
#![tactic(auto)]

mod fault;
mod list;
mod mark;
mod page;
mod pen;
mod piece;
mod place;
mod placing;
mod shipout;
mod size;
mod station;
mod write;

pub use fault::ShipFault;
pub use page::{PlacedPage, placed};
pub use piece::{GlyphMark, Piece, RuleMark};
pub use shipout::ship;
