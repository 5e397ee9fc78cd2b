//! The boxes that are open while a document is read.

use crate::command::Command;
use ntx_item::PackTo;
use sqlite_items::Items;

/// An open box.
#[derive(Drop)]
pub struct Group {
    /// The width that it is packed to.
    pub to: PackTo,
    /// The commands in it so far.
    pub body: Items<Command>,
}
