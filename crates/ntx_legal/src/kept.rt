//! Which items of a line count ("TeX: The Program", sections 148, 837 and 879).

ghost use Rattle.std.specs.Prelude.{◌≡◌, ◌<◌, ◌≤◌, ◌+◌, length};
ghost use Rattle.std.specs.List.{prefix_len};
ghost use Rattle.ntx_legal.specs.Places.{item_at};
ghost use Rattle.ntx_legal.specs.Kept.{is_discardable, keeps_all, without_discardable, kept_items};

use ntx_item::Item;

/// Whether a break discards this item if the item follows it.
pub(crate) fn is_discardable(item: &Item) -> bool
    ensures { result ≡ is_discardable item.now }
{
    match item {
        Item::Glue { .. } | Item::Penalty { .. } => true,
        Item::Kern { font, .. } => !*font,
        Item::Box { .. } | Item::Glyph { .. } | Item::Rule { .. } | Item::Disc { .. } => false,
    }
}

/// How many of the first items are discarded after a break.
pub(crate) fn discarded(items: &[Item]) -> usize
    ensures value { result ≡ prefix_len is_discardable items.now }
    ensures bound { result ≤ length items.now }
{
    for i in 0..items.len() {
        if !is_discardable(&items[i]) {
            return i;
        }
    }
    items.len()
}

/// Whether a line that begins at this place keeps all items: at the start of the paragraph, and after a discretionary that shows
/// something after the break.
pub(crate) fn keeps_all(items: &[Item], from: usize) -> bool
    requires { from ≤ length items.now }
    ensures { result ≡ keeps_all items.now from }
{
    if from == 0 {
        return true;
    }
    match &items[from - 1] {
        Item::Disc { post_empty, .. } => !*post_empty,
        _ => false,
    }
}

/// The items without the first ones that a break discards.
fn without_discardable<'a>(items: &'a [Item]) -> &'a [Item]
    ensures { result.now ≡ without_discardable items.now }
{
    &items[discarded(items)..]
}

/// The items of the line between two places that count.
pub(crate) fn kept_items<'a>(items: &'a [Item], from: usize, to: usize) -> &'a [Item]
    requires order { from < to }
    requires to { to ≤ length items.now + 1 }
    ensures { result.now ≡ kept_items items.now from to }
{
    let between = &items[from..to - 1];
    if keeps_all(items, from) {
        between
    } else {
        without_discardable(between)
    }
}
