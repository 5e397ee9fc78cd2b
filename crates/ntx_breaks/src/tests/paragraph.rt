//! Short paragraphs written as letters, one for each item.

ghost use Rattle.std.specs.Prelude.{◌≤◌, ◌^◌, IsTrue, unsigned_abs};
ghost use Rattle.ntx_item.specs.Items.{IsItemInRange, absolute_width, absolute_stretch, absolute_shrink, AreItemsInRange};

use ntx_item::{GlueSpec, Item};
use ntx_num::Size;
use std::alloc::{AllocError, Global};

/// A size of this width alone.
fn wide(w: i64) -> Size {
    Size { w, h: 0, d: 0 }
}

/// A glue of this width.
fn glue(width: i64, stretch: i64, stretch_order: u8, shrink: i64) -> Item {
    Item::Glue {
        spec: GlueSpec {
            width,
            stretch,
            stretch_order,
            shrink,
            shrink_order: 0,
        },
    }
}

/// A discretionary that hyphenation makes, if `regular` is true, and nothing without a break.
fn disc(pre: i64, post: i64, regular: bool) -> Item {
    Item::Disc {
        pre: wide(pre),
        post: wide(post),
        replace: wide(0),
        pre_empty: pre == 0,
        post_empty: post == 0,
        regular,
    }
}

/// A discretionary with all three parts.
fn full_disc() -> Item {
    Item::Disc {
        pre: wide(65_536),
        post: wide(131_072),
        replace: wide(196_608),
        pre_empty: false,
        post_empty: false,
        regular: false,
    }
}

/// What does not stretch or shrink.
fn rigid(letter: u8) -> Item {
    match letter {
        b'a' => Item::Glyph {
            size: wide(327_680),
        },
        b'b' => Item::Box {
            size: wide(655_360),
            shift: 7,
        },
        b'r' => Item::Rule { size: wide(65_536) },
        b'k' => Item::Kern {
            w: 131_072,
            font: false,
        },
        b'n' => Item::Kern {
            w: -18_205,
            font: true,
        },
        b'p' => Item::Penalty { p: 50 },
        b'q' => Item::Penalty { p: 9_999 },
        b'P' => Item::Penalty { p: 10_000 },
        _ => Item::Penalty { p: -10_000 },
    }
}

/// The item that a letter is written for: `a` a glyph, `b` a box, `r` a rule, `k` an explicit kern, `n` a font kern, `p`, `q`, `P` and `F` penalties of 50,
/// 9999, 10000 and -10000; a space, `i`, `j` and `s` glue that stretches and shrinks, stretches infinitely by 1, by -1, and
/// shrinks; `-`, `=`, `e` and `d` discretionaries: hyphenation's, one that shows something only after the break, an explicit hyphen without a
/// list, and one with three lists.
fn item_of(letter: u8) -> Item {
    match letter {
        b' ' => glue(163_840, 81_920, 0, 40_960),
        b'i' => glue(0, 65_536, 1, 0),
        b'j' => glue(0, -65_536, 1, 0),
        b's' => glue(0, 0, 0, 65_536),
        b'-' => disc(327_680, 0, true),
        b'=' => disc(0, 327_680, true),
        b'e' => disc(0, 0, false),
        b'd' => full_disc(),
        _ => rigid(letter),
    }
}

/// A list of items, one for each letter.
pub(crate) fn paragraph(alloc: Global, text: &str) -> Result<Vec<Item>, AllocError> {
    let mut items = Vec::new(alloc);
    for letter in text.bytes() {
        items.push(item_of(letter))?;
    }
    Ok(items)
}

/// Whether a number is at most 2^40 in absolute value.
fn is_short(w: i64) -> bool
    ensures { IsTrue result → unsigned_abs w ≤ 2 ^ 40 }
{
    -1_099_511_627_776 <= w && w <= 1_099_511_627_776
}

/// Whether the numbers of an item are small.
fn is_small(item: &Item) -> bool
    ensures in_range { IsTrue result → IsItemInRange item.now }
    ensures width { IsTrue result → absolute_width item.now ≤ 2 ^ 42 }
    ensures stretch { IsTrue result → absolute_stretch item.now ≤ 2 ^ 42 }
    ensures shrink { IsTrue result → absolute_shrink item.now ≤ 2 ^ 42 }
{
    match item {
        Item::Box { size, .. } | Item::Glyph { size } | Item::Rule { size } => is_short(size.w),
        Item::Glue { spec } => {
            is_short(spec.width)
                && is_short(spec.stretch)
                && is_short(spec.shrink)
                && spec.stretch_order <= 3
                && spec.shrink_order <= 3
        }
        Item::Kern { w, .. } => is_short(*w),
        Item::Penalty { p } => -10_000 <= *p && *p <= 10_000,
        Item::Disc {
            pre,
            post,
            replace,
            ..
        } => is_short(pre.w) && is_short(post.w) && is_short(replace.w),
    }
}

/// Whether a list is short and its items are small, so that it is in range.
pub(crate) fn is_in_range(items: &[Item]) -> bool
    ensures { IsTrue result → AreItemsInRange items.now }
{
    if items.len() > 60 {
        return false;
    }
    for item in items {
        if !is_small(item) {
            return false;
        }
    }
    true
}
