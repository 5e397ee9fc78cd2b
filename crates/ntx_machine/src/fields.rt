//! The nodes that a machine makes, each with no node after it.

ghost use Rattle.std.specs.Prelude.{◌≡◌, ◌≤◌, slice_get};
ghost use Rattle.ntx_num.specs.Dimension.{IsDimension, IsWithin, max_penalty};
ghost use Rattle.ntx_item.specs.Parameters.{IsGlueInRange};
ghost use Rattle.ntx_machine.specs.Nodes.{made_as, glue_node, kern_node, penalty_node, rule_node, glyph_node, space_in, space_node};
ghost use Rattle.ntx_machine.specs.inner.Parts.{AreAlwaysMakable};

use ntx_item::GlueSpec;
use ntx_nodes::{Contents, Fields, GlueFields, GlyphFields, RuleFields};
use ntx_num::Size;
use ntx_tfm::Font;

/// The subtype of an explicit kern.
const USER_KERN: u8 = 1;

/// The subtype of the glue between words.
const SPACE_GLUE: u8 = 13;

/// The subtype of the glue at the top of a page.
pub const TOPSKIP_GLUE: u8 = 10;

/// The subtype of a box that a document opens.
pub const DOCUMENT_BOX: i64 = 2;

/// A node of this subtype, with no node after it.
fn made_as(subtype: u8, contents: Contents) -> Fields
    ensures { result ≡ made_as subtype contents }
{
    Fields {
        subtype,
        next: None,
        contents,
    }
}

/// Glue.
pub fn glue_node(subtype: u8, glue: GlueSpec) -> Fields
    requires { IsGlueInRange glue }
    ensures fields { result ≡ glue_node subtype glue }
    ensures makable { AreAlwaysMakable result }
{
    made_as(
        subtype,
        Contents::Glue(GlueFields {
            width: glue.width,
            stretch: glue.stretch,
            stretch_order: glue.stretch_order,
            shrink: glue.shrink,
            shrink_order: glue.shrink_order,
        }),
    )
}

/// An explicit kern.
pub fn kern_node(w: i64) -> Fields
    requires { IsDimension w }
    ensures fields { result ≡ kern_node w }
    ensures makable { AreAlwaysMakable result }
{
    made_as(USER_KERN, Contents::Kern(w))
}

/// A penalty.
pub fn penalty_node(p: i64) -> Fields
    requires { IsWithin max_penalty p }
    ensures fields { result ≡ penalty_node p }
    ensures makable { AreAlwaysMakable result }
{
    made_as(0, Contents::Penalty(p))
}

/// A rule.
pub fn rule_node(size: Size) -> Fields
    requires width { IsDimension size.w }
    requires height { IsDimension size.h }
    requires depth { IsDimension size.d }
    ensures fields { result ≡ rule_node size }
    ensures makable { AreAlwaysMakable result }
{
    made_as(
        0,
        Contents::Rule(RuleFields {
            width: size.w,
            height: size.h,
            depth: size.d,
        }),
    )
}

/// A character.
pub fn glyph_node(font: u8, code: u8) -> Fields
    requires { font ≤ 63 }
    ensures fields { result ≡ glyph_node font code }
    ensures makable { AreAlwaysMakable result }
{
    made_as(0, Contents::Glyph(GlyphFields { char: code, font }))
}

/// The space, stretch and shrink of a font, and none if the font is not there.
fn space_in(fonts: &[Font], font: u8) -> GlueSpec
    ensures space { result ≡ space_in (slice_get fonts.now font) }
    ensures in_range { IsGlueInRange result }
{
    match fonts.get(usize::from(font)) {
        None => GlueSpec::default(),
        Some(font) => GlueSpec {
            width: font.param(2),
            stretch: font.param(3),
            stretch_order: 0,
            shrink: font.param(4),
            shrink_order: 0,
        },
    }
}

/// The space between words of a font.
pub fn space_node(fonts: &[Font], font: u8) -> Fields
    ensures fields { result ≡ space_node fonts.now font }
    ensures makable { AreAlwaysMakable result }
{
    glue_node(SPACE_GLUE, space_in(fonts, font))
}
