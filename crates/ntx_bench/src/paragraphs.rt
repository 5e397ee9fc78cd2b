//! Paragraphs that are broken into lines.

ghost use Rattle.std.specs.Prelude.{◌≤◌, ◌^◌, IfOk};
ghost use Rattle.ntx_item.specs.Items.{IsItemInRange, absolute_width, absolute_stretch, absolute_shrink, AreItemsInRange};

use crate::fault::Fault;
use ntx_breaks::break_items;
use ntx_item::{GlueSpec, Item, Params};
use ntx_num::Size;
use std::alloc::{AllocError, Global};

/// The most items of a paragraph.
const MAX_ITEMS: u64 = 1 << 18;

/// The item at a place: words of five characters with glue after each.
fn item(place: u64) -> Item
    ensures in_range { IsItemInRange result }
    ensures width { absolute_width result ≤ 2 ^ 30 }
    ensures stretch { absolute_stretch result ≤ 2 ^ 30 }
    ensures shrink { absolute_shrink result ≤ 2 ^ 30 }
{
    if place % 6 == 5 {
        return Item::Glue {
            spec: GlueSpec {
                width: 218_453,
                stretch: 109_226,
                stretch_order: 0,
                shrink: 72_818,
                shrink_order: 0,
            },
        };
    }
    Item::Glyph {
        size: Size {
            w: 327_680,
            h: 286_720,
            d: 0,
        },
    }
}

/// A paragraph of `n` items.
fn items(alloc: Global, n: u64) -> Result<Vec<Item>, AllocError>
    requires { n ≤ 2 ^ 18 }
    ensures { IfOk result (λ items. AreItemsInRange items.items) }
{
    let mut items = Vec::new(alloc);
    for place in 0..n {
        items.push(item(place))?;
    }
    Ok(items)
}

/// Breaks a paragraph of `n` items, at most 2^18, into lines.
pub fn break_into_lines(alloc: Global, n: u64) -> Result<(), Fault> {
    if n > MAX_ITEMS {
        return Err(Fault::Words);
    }
    let items = items(alloc, n)?;
    break_items(alloc, items.as_slice(), &Params::plain())?;
    Ok(())
}
