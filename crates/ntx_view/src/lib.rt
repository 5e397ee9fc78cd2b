//! Lists of nodes as the items that packing and line breaking look at ("TeX: The Program", sections 651 and 866).
//!
//! It stands on `ntx_nodes` for lists, on `ntx_tfm` for the sizes of characters, on `ntx_item`, and on `ntx_num` for sizes
//! and answers.
#![tactic(auto)]

mod fields;
mod natural;
mod view;

pub use fields::{char_size, glue_of};
pub use natural::hlist_size;
pub use view::{heaps_are_measured, item_at, items};

#[cfg(test)]
mod tests;
