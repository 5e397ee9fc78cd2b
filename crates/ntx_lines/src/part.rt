//! What the lines of a paragraph are made of.

ghost use Rattle.std.specs.Prelude.{◌≡◌, ◌≤◌, length, take, drop, Some};
ghost use Rattle.std.specs.List.{prefix_len};
ghost use Rattle.ntx_legal.specs.Kept.{is_discardable, has_post, keeps_all};
ghost use Rattle.ntx_lines.specs.Parts.{between, body_of, discarded_at, discarded_count, name_at, part_of};
ghost use Rattle.ntx_lines.specs.inner.Seen.{part_seen};

use ntx_item::Item;

/// What one line is made of, beside what a discretionary before it shows in it.
#[derive(Clone, Copy)]
pub(crate) struct Part<'a> {
    /// The nodes before the break, without those that the break before this line discards.
    pub body: &'a [u64],
    /// The node at the break, or nothing at the end of the paragraph.
    pub at: Option<u64>,
    /// The node after the break.
    pub after: Option<u64>,
    /// The nodes that the break discards, up to the next break.
    pub discarded: &'a [u64],
}

/// Whether a break discards this item if the item follows it.
fn is_discardable(item: &Item) -> bool
    ensures { result ≡ is_discardable item.now }
{
    match item {
        Item::Glue { .. } | Item::Penalty { .. } => true,
        Item::Kern { font, .. } => !*font,
        Item::Box { .. } | Item::Glyph { .. } | Item::Rule { .. } | Item::Disc { .. } => false,
    }
}

/// How many of the first items a break discards if they follow it.
fn discarded(items: &[Item]) -> usize
    ensures value { result ≡ prefix_len is_discardable items.now }
    ensures bound { result ≤ length items.now }
{
    for i in 0..items.len() {
        if !is_discardable(&items[i]) {
            return i;
        }
    }
    items.len()
}

/// Whether a discretionary shows something after a break.
fn has_post(item: &Item) -> bool
    ensures { result ≡ has_post (Some item.now) }
{
    match item {
        Item::Disc { post_empty, .. } => !*post_empty,
        _ => false,
    }
}

/// Whether the line after this place keeps all items: at the start of the paragraph, and after a discretionary that shows
/// something after the break.
fn keeps_all(items: &[Item], from: usize) -> bool
    ensures { result ≡ keeps_all items.now from }
{
    if from == 0 {
        return true;
    }
    if from > items.len() {
        return false;
    }
    has_post(&items[from - 1])
}

/// The first elements, as far as there are so many.
fn taken<T>(list: &[T], count: usize) -> &[T]
    ensures { result.now ≡ take count list.now }
{
    &list[..count.min(list.len())]
}

/// All but the first elements.
fn dropped<T>(list: &[T], count: usize) -> &[T]
    ensures { result.now ≡ drop count list.now }
{
    &list[count.min(list.len())..]
}

/// The elements between two places, as far as there are any.
fn between<T>(list: &[T], from: usize, to: usize) -> &[T]
    ensures { result.now ≡ between list.now from to }
{
    taken(
        dropped(list, from),
        to.saturating_sub(from).saturating_sub(1),
    )
}

/// How many nodes the break at `from` discards, where the next break is at `to`.
fn discarded_count(items: &[Item], from: usize, to: usize) -> usize
    ensures { result ≡ discarded_count items.now from to }
{
    if keeps_all(items, from) {
        return 0;
    }
    discarded(between(items, from, to))
}

/// The nodes before a break, without those that the break before discards.
fn body<'a>(items: &[Item], names: &'a [u64], from: usize, to: usize) -> &'a [u64]
    ensures { result.now ≡ body_of items.now names.now from to }
{
    dropped(between(names, from, to), discarded_count(items, from, to))
}

/// What the break at a place discards, up to the next one. The last one discards nothing.
fn discarded_at<'a>(items: &[Item], names: &'a [u64], to: usize, next: Option<u64>) -> &'a [u64]
    ensures { result.now ≡ discarded_at items.now names.now to next }
{
    match next {
        None => &names[..0],
        Some(next) => taken(
            between(names, to, next as usize),
            discarded_count(items, to, next as usize),
        ),
    }
}

/// The name at a place.
fn name_at(names: &[u64], place: usize) -> Option<u64>
    ensures { result ≡ name_at names.now place }
{
    if place == 0 {
        return None;
    }
    names.get(place - 1).copied()
}

impl<'a> Part<'a> {
    /// What the line between two places is made of, before the break at the next one.
    pub fn new(
        items: &[Item],
        names: &'a [u64],
        from: usize,
        to: usize,
        next: Option<u64>,
    ) -> Part<'a>
        ensures { part_seen result ≡ part_of items.now names.now from to next }
    {
        Part {
            body: body(items, names, from, to),
            at: name_at(names, to),
            after: names.get(to).copied(),
            discarded: discarded_at(items, names, to, next),
        }
    }
}
