//! Packing of lists into boxes ("TeX: The Program", sections 644 to 679), with exact fractions as glue ratios.
//!
//! [`hpack`] and [`vpack`] make a box over a list, [`dimensions`] measures one. What they decide of the items alone stands
//! apart: [`vlist_size`], [`stacked`], [`interline_glue`] and [`set_glue`]. [`GlueSetter`] says what glue comes to in
//! output, from what [`GlueSet::read`] finds in a box. `specs/Laws.antt` has laws of all that, each the contract of a
//! function that does nothing.
//!
//! It stands on `ntx_view` for the items of lists, on `ntx_nodes` for boxes, on `ntx_item`, on `ntx_tfm` for fonts, and on
//! `ntx_num` for badness and ratios.
#![tactic(auto)]

mod direction;
mod glue_set;
mod laws;
mod make;
mod pack;
mod packed;
mod setter;
mod totals;
mod vertical;

pub use direction::Direction;
pub use glue_set::{GlueSet, set_glue};
pub use laws::{
    boxes_are_filled, boxes_are_sized, boxes_hold_their_lists, natural_boxes_are_unset,
    other_sizes_stay, overfull_boxes_shrink_fully, set_sizes_add_up, set_sizes_grow,
    totals_stay_bounded, vertical_lists_stack,
};
pub use pack::{dimensions, hpack, vpack};
pub use packed::Packed;
pub use setter::GlueSetter;
pub use vertical::{interline_glue, stacked, vlist_size};

#[cfg(test)]
mod tests;
