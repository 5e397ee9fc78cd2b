//! The lists of trees.

ghost use Rattle.std.specs.Prelude.{◌≡◌, ◌++◌, [], ◌∷◌, OnOk};

use sqlite_items::Items;
use std::alloc::{AllocError, Global};

/// Puts an item at the end of a list. An empty list gets room for this item alone, since most lists of a tree have one.
pub fn push<T: Drop>(alloc: Global, items: &mut Items<T>, item: T) -> Result<(), AllocError>
    ensures ok { OnOk result (items.new ≡ items.old ++ item ∷ []) }
{
    if items.is_empty() {
        *items = Items::from_vec(Vec::with_capacity(alloc, 1)?);
    }
    items.push(item)
}
