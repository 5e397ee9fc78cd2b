//! Where a line of a paragraph may end ("TeX: The Program", sections 148 and 866 to 869).

ghost use Rattle.std.specs.Prelude.{◌≡◌, ◌<◌, ◌+◌, length};
ghost use Rattle.ntx_num.specs.Answer.{Gives, result_map};
ghost use Rattle.ntx_item.specs.Items.{AreItemsInRange};
ghost use Rattle.ntx_legal.specs.Places.{item_at, is_there_with, disc_penalty, places_of};
ghost use Rattle.ntx_legal.specs.Places as Places;

use ntx_item::{Item, Params};
use ntx_num::NoMemory;
use std::alloc::Global;

/// A penalty of this much or more forbids a break.
const FORBIDDING: i64 = 10_000;

/// Whether a line may end at glue directly after this item.
fn precedes_break(item: &Item) -> bool
    ensures { result ≡ Places.precedes_break item.now }
{
    match item {
        Item::Box { .. } | Item::Glyph { .. } | Item::Rule { .. } | Item::Disc { .. } => true,
        Item::Kern { font, .. } => *font,
        Item::Glue { .. } | Item::Penalty { .. } => false,
    }
}

/// Whether the item is glue.
fn is_glue(item: &Item) -> bool
    ensures { result ≡ Places.is_glue item.now }
{
    matches!(item, Item::Glue { .. })
}

/// What a break at a discretionary costs: `exhyphenpenalty` if it shows nothing before the break.
fn disc_penalty(params: &Params, pre_empty: bool) -> i64
    ensures { result ≡ disc_penalty params.now pre_empty }
{
    if pre_empty {
        params.exhyphenpenalty
    } else {
        params.hyphenpenalty
    }
}

/// Whether a line may end at glue with this index: a box, a glyph, a rule, a discretionary or a font's kern stands directly before it.
fn follows_matter(items: &[Item], i: usize) -> bool
    requires { i < length items.now }
    ensures { result ≡ is_there_with Places.precedes_break (item_at items.now i) }
{
    i > 0 && precedes_break(&items[i - 1])
}

/// Whether glue stands after the item with this index.
fn precedes_glue(items: &[Item], i: usize) -> bool
    requires { i < length items.now }
    ensures { result ≡ is_there_with Places.is_glue (item_at items.now (i + 2)) }
{
    i + 1 < items.len() && is_glue(&items[i + 1])
}

/// Whether a line may end at this item, whose index is `i`, counted from 0.
fn may_break(items: &[Item], params: &Params, discs: bool, i: usize, item: &Item) -> bool
    requires { i < length items.now }
    ensures { result ≡ Places.may_break params.now discs (item_at items.now i) item.now (item_at items.now (i + 2)) }
{
    match item {
        Item::Glue { .. } => follows_matter(items, i),
        Item::Kern { font, .. } => !*font && precedes_glue(items, i),
        Item::Penalty { p } => *p < FORBIDDING,
        Item::Disc {
            pre_empty,
            regular,
            ..
        } => (discs || !*regular) && disc_penalty(params, *pre_empty) < FORBIDDING,
        Item::Box { .. } | Item::Glyph { .. } | Item::Rule { .. } => false,
    }
}

/// The places where a line may end, in ascending order, counted from 1; the last is the end of the paragraph. They are glue directly
/// after a glyph, a box, a rule, a discretionary or a kern of a font; an explicit kern directly before glue; a penalty below
/// 10000; and a discretionary whose cost is below 10000, which is `hyphenpenalty` if it shows something before the break, and
/// `exhyphenpenalty` if it does not. A discretionary that comes from hyphenation is a place only if `discs` is true.
pub fn places(
    alloc: Global,
    items: &[Item],
    params: &Params,
    discs: bool,
) -> Result<Vec<u64>, NoMemory>
    requires { AreItemsInRange items.now }
    ensures { Gives (result_map (λ places. places.items) result) (places_of params.now discs items.now) }
{
    let mut places = Vec::new(alloc);
    for i in 0..items.len() {
        if may_break(items, params, discs, i, &items[i]) {
            places.push(i as u64 + 1)?;
        }
    }
    places.push(items.len() as u64 + 1)?;
    Ok(places)
}
