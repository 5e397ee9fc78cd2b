//! What packing and line breaking look at: the items of a list, glue, and the parameters of paragraphs and pages.
//!
//! Items are the nodes of a list without their names, links and attributes ("TeX: The Program", sections 135 to 161). The
//! parameters are those of TeX of the same names (sections 224, 236, 247 and 549). The crate stands on `ntx_num` for sizes.
#![tactic(auto)]

mod glue;
mod glue_change;
mod glue_param;
mod item;
mod out_of_range;
mod pack_to;
mod param;
mod params;

pub use glue::GlueSpec;
pub use glue_change::GlueChange;
pub use glue_param::GlueParam;
pub use item::{Item, parts_are_in_range, sums_add_over_parts, sums_are_bounded};
pub use out_of_range::OutOfRange;
pub use pack_to::PackTo;
pub use param::Param;
pub use params::{Params, changes_stand_alone};

#[cfg(test)]
mod tests;
