//! Where the lines of a paragraph end, by TeX's search for few demerits ("TeX: The Program", sections 813 to 890).
//!
//! Items are counted from 1; place 0 is the start of the paragraph, and the place after the last item is its end. The crate stands on
//! `ntx_legal` for the places and for the badness of lines, on `ntx_item` for items and parameters, and on `ntx_num` for demerits.
#![tactic(auto)]

mod answer;
mod cost;
mod law;
mod making;
mod pass;
mod penalty;
mod search;
mod state;
mod way;

pub use answer::{Breaks, break_items};
pub use law::each_paragraph_breaks;

#[cfg(test)]
mod tests;
