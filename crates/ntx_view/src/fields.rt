//! What the fields of a node say of its item.

ghost use Rattle.std.specs.Prelude.{◌≡◌, slice_get, IfSome};
ghost use Rattle.std.specs.FinMap as fin;
ghost use Rattle.ntx_view.specs.Bounds.{IsBoundedBy};
ghost use Rattle.ntx_view.specs.Measured.{HasMeasures};
ghost use Rattle.ntx_view.specs.View.{size_in_font, is_missing_char, is_missing_char_at, box_size, rule_size, glue_of, no_size, item_with};
ghost use Rattle.ntx_tfm.specs.Font.{IsSized};

use ntx_item::{GlueSpec, Item};
use ntx_nodes::{BoxFields, Contents, Fields, GlueFields, GlyphFields, Nodes, RuleFields};
use ntx_num::Size;
use ntx_tfm::Font;

/// No size at all.
const NO_SIZE: Size = Size { w: 0, h: 0, d: 0 };

/// The size of a character of a font in scaled points, each part within 2^30 - 1 in absolute value; `None` where the font
/// or the character is not there. The number of a font is its place in `fonts`, counted from 0.
pub fn char_size(fonts: &[Font], font: u8, char: u8) -> Option<Size>
    ensures value { result ≡ size_in_font char (slice_get fonts.now font) }
    ensures sized { IfSome result IsSized }
{
    match fonts.get(usize::from(font)) {
        Some(font) => font.char_size(char),
        None => None,
    }
}

/// The glue of a node.
pub fn glue_of(fields: GlueFields) -> GlueSpec
    ensures { result ≡ glue_of fields }
{
    GlueSpec {
        width: fields.width,
        stretch: fields.stretch,
        stretch_order: fields.stretch_order,
        shrink: fields.shrink,
        shrink_order: fields.shrink_order,
    }
}

/// Whether these are the fields of a glyph whose font or character is not there.
fn is_missing_char(fonts: &[Font], contents: Contents) -> bool
    ensures { result ≡ is_missing_char fonts.now contents }
{
    match contents {
        Contents::Glyph(g) => char_size(fonts, g.font, g.char).is_none(),
        _ => false,
    }
}

/// Whether a node is a glyph whose font or character is not there.
pub(crate) fn is_missing_char_at<N: Nodes>(nodes: &N, fonts: &[Font], n: u64) -> bool
    ensures { result ≡ is_missing_char_at fonts.now (fin.get (N.heap nodes.now).nodes n) }
{
    match nodes.fields(n) {
        Ok(fields) => is_missing_char(fonts, fields.contents),
        Err(_) => false,
    }
}

/// The size of a box.
fn box_size(b: BoxFields) -> Size
    ensures { result ≡ box_size b }
{
    Size {
        w: b.width,
        h: b.height,
        d: b.depth,
    }
}

/// The size of a rule.
fn rule_size(r: RuleFields) -> Size
    ensures { result ≡ rule_size r }
{
    Size {
        w: r.width,
        h: r.height,
        d: r.depth,
    }
}

/// The size of a glyph, and no size where its character is not there.
fn glyph_size(fonts: &[Font], g: GlyphFields) -> Size
    ensures value { Item.Glyph result ≡ item_with (λ _. no_size) fonts.now 0 (Contents.Glyph g) }
    ensures sized { IsSized result }
{
    char_size(fonts, g.font, g.char).unwrap_or(NO_SIZE)
}

/// A node as an item, with no size for the parts of a discretionary.
pub(crate) fn bare_item(fonts: &[Font], fields: Fields) -> Item
    requires { HasMeasures fields.contents }
    ensures item { result ≡ item_with (λ _. no_size) fonts.now fields.subtype fields.contents }
    ensures bounded { IsBoundedBy 1 result }
{
    match fields.contents {
        Contents::Hlist(b) | Contents::Vlist(b) => Item::Box {
            size: box_size(b),
            shift: b.shift,
        },
        Contents::Rule(r) => Item::Rule { size: rule_size(r) },
        Contents::Glyph(g) => Item::Glyph {
            size: glyph_size(fonts, g),
        },
        Contents::Glue(g) => Item::Glue { spec: glue_of(g) },
        Contents::Kern(w) => Item::Kern {
            w,
            font: fields.subtype == 0,
        },
        Contents::Penalty(p) => Item::Penalty { p },
        Contents::Disc(d) => Item::Disc {
            pre: NO_SIZE,
            post: NO_SIZE,
            replace: NO_SIZE,
            pre_empty: d.pre.is_none(),
            post_empty: d.post.is_none(),
            regular: fields.subtype == 3,
        },
    }
}
