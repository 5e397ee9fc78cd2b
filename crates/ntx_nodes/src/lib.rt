//! Nodes, the records that TeX's lists are made of: their kinds and fields, a heap of them under names, and walks
//! through their lists (LuaTeX Reference Manual, chapter "Nodes").
//!
//! [`Nodes`] is a heap, whichever way it is kept; [`PlainHeap`] keeps each node as a record of its own. Each call on a
//! heap is one step of a machine over the value that the heap represents, which `specs/Steps.antt` states.
//!
//! It stands on `ntx_num` alone.
#![tactic(auto)]

mod attributes;
mod contents;
mod field;
mod fields;
mod inner;
mod kind;
mod laws;
mod node;
mod nodes;
mod plain;
mod ratio;
mod reached;
mod table;
#[cfg(test)]
mod tests;
mod trouble;
mod value;
mod walk;
mod writing;

pub use attributes::{Attributes, is_attribute};
pub use contents::{BoxFields, DiscFields, GlueFields, GlyphFields, RuleFields};
pub use field::{Field, FieldValue};
pub use fields::{Contents, Fields};
pub use inner::InnerLists;
pub use kind::{Kind, ListKind, MAX_DEPTH, Way};
pub use laws::{fields_follow_the_table, fuel_is_enough, steps_keep_heaps_lawful, walks_are_sound};
pub use node::Node;
pub use nodes::Nodes;
pub use plain::PlainHeap;
pub use ratio::Ratio;
pub use trouble::{Phase, Trouble};
pub use walk::{check, names_on, names_reached, visit_list, visit_on};
pub use writing::{make_current, make_filled, make_like, write, write_all};
