//! Where the lines of a paragraph may end, and how badly each fits.
//!
//! Items are counted from 1; place 0 is the start of the paragraph, and the place after the last item is its end ("TeX: The
//! Program", sections 813 to 879). The crate stands on `ntx_item` for items and parameters, and on `ntx_num` for badness.
#![tactic(auto)]

mod between;
mod fit;
mod kept;
mod place;
mod stretch;
mod sums;
mod totals;

pub use between::line;
pub use fit::Line;
pub use place::places;
pub use totals::LineTotals;

#[cfg(test)]
mod tests;
