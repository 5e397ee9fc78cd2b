//! The fields that the nodes of one kind have, beside their subtype and their next node.

ghost use Rattle.std.specs.Prelude.{◌≡◌};
ghost use Rattle.ntx_nodes.specs.Fields.{box_field, box_with, rule_field, rule_with, disc_field, disc_with};
ghost use Rattle.ntx_nodes.specs.Fields.{glue_field, glue_with, glyph_field, glyph_with};

use crate::value::{dimension, link, number_to, order};
use crate::{Field, FieldValue, Trouble};

/// The fields of a box. In a heap the width, the height, the depth and the shift are within 2^30-1 in absolute value.
#[derive(Clone, Copy, Debug, PartialEq, Eq)]
pub struct BoxFields {
    /// The width in scaled points.
    pub width: i64,
    /// The height above the baseline in scaled points.
    pub height: i64,
    /// The depth below the baseline in scaled points.
    pub depth: i64,
    /// How far the box is moved down, or in a vertical list to the right, in scaled points.
    pub shift: i64,
    /// The first node in the box.
    pub list: Option<u64>,
    /// 0 where the glue keeps its natural width, 1 where it stretches, 2 where it shrinks.
    pub glue_sign: u8,
    /// The order of the glue that does, in a heap from 0 to 3.
    pub glue_order: u8,
    /// The numerator of the ratio by which it does, in a heap within 2^32 in absolute value.
    pub glue_num: i64,
    /// The denominator of that ratio, in a heap at least 1.
    pub glue_den: i64,
}

impl BoxFields {
    /// What a field holds. Refuses with NoField where there is no such field.
    pub fn field(&self, f: Field) -> Result<FieldValue, Trouble>
        ensures { result ≡ box_field self.now f }
    {
        match f {
            Field::Width => Ok(FieldValue::Number(self.width)),
            Field::Height => Ok(FieldValue::Number(self.height)),
            Field::Depth => Ok(FieldValue::Number(self.depth)),
            Field::Shift => Ok(FieldValue::Number(self.shift)),
            Field::List => Ok(FieldValue::Link(self.list)),
            Field::GlueSign => Ok(FieldValue::Number(i64::from(self.glue_sign))),
            Field::GlueOrder => Ok(FieldValue::Number(i64::from(self.glue_order))),
            Field::GlueNum => Ok(FieldValue::Number(self.glue_num)),
            Field::GlueDen => Ok(FieldValue::Number(self.glue_den)),
            _ => Err(Trouble::NoField),
        }
    }

    /// The same with a value in a field. Refuses with NoField where there is no such field, and else with BadValue where it
    /// does not take the value.
    pub fn with(self, f: Field, v: FieldValue) -> Result<BoxFields, Trouble>
        ensures { result ≡ box_with self f v }
    {
        match f {
            Field::Width => Ok(BoxFields {
                width: dimension(v)?,
                ..self
            }),
            Field::Height => Ok(BoxFields {
                height: dimension(v)?,
                ..self
            }),
            Field::Depth => Ok(BoxFields {
                depth: dimension(v)?,
                ..self
            }),
            Field::Shift => Ok(BoxFields {
                shift: dimension(v)?,
                ..self
            }),
            Field::List => Ok(BoxFields {
                list: link(v)?,
                ..self
            }),
            Field::GlueSign | Field::GlueOrder | Field::GlueNum | Field::GlueDen => Err(
                Trouble::BadValue,
            ),
            _ => Err(Trouble::NoField),
        }
    }
}

/// The fields of a rule. In a heap its sizes are within 2^30-1 in absolute value.
#[derive(Clone, Copy, Debug, PartialEq, Eq)]
pub struct RuleFields {
    /// The width in scaled points.
    pub width: i64,
    /// The height above the baseline in scaled points.
    pub height: i64,
    /// The depth below the baseline in scaled points.
    pub depth: i64,
}

impl RuleFields {
    /// What a field holds. Refuses with NoField where there is no such field.
    pub fn field(&self, f: Field) -> Result<FieldValue, Trouble>
        ensures { result ≡ rule_field self.now f }
    {
        match f {
            Field::Width => Ok(FieldValue::Number(self.width)),
            Field::Height => Ok(FieldValue::Number(self.height)),
            Field::Depth => Ok(FieldValue::Number(self.depth)),
            _ => Err(Trouble::NoField),
        }
    }

    /// The same with a value in a field. Refuses with NoField where there is no such field, and else with BadValue where it
    /// does not take the value.
    pub fn with(self, f: Field, v: FieldValue) -> Result<RuleFields, Trouble>
        ensures { result ≡ rule_with self f v }
    {
        match f {
            Field::Width => Ok(RuleFields {
                width: dimension(v)?,
                ..self
            }),
            Field::Height => Ok(RuleFields {
                height: dimension(v)?,
                ..self
            }),
            Field::Depth => Ok(RuleFields {
                depth: dimension(v)?,
                ..self
            }),
            _ => Err(Trouble::NoField),
        }
    }
}

/// The fields of a discretionary.
#[derive(Clone, Copy, Debug, PartialEq, Eq)]
pub struct DiscFields {
    /// The first node of what stands before a break.
    pub pre: Option<u64>,
    /// The first node of what stands after a break.
    pub post: Option<u64>,
    /// The first node of what stands there with no break.
    pub replace: Option<u64>,
}

impl DiscFields {
    /// What a field holds. Refuses with NoField where there is no such field.
    pub fn field(&self, f: Field) -> Result<FieldValue, Trouble>
        ensures { result ≡ disc_field self.now f }
    {
        match f {
            Field::Pre => Ok(FieldValue::Link(self.pre)),
            Field::Post => Ok(FieldValue::Link(self.post)),
            Field::Replace => Ok(FieldValue::Link(self.replace)),
            _ => Err(Trouble::NoField),
        }
    }

    /// The same with a value in a field. Refuses with NoField where there is no such field, and else with BadValue where it
    /// does not take the value.
    pub fn with(self, f: Field, v: FieldValue) -> Result<DiscFields, Trouble>
        ensures { result ≡ disc_with self f v }
    {
        match f {
            Field::Pre => Ok(DiscFields {
                pre: link(v)?,
                ..self
            }),
            Field::Post => Ok(DiscFields {
                post: link(v)?,
                ..self
            }),
            Field::Replace => Ok(DiscFields {
                replace: link(v)?,
                ..self
            }),
            _ => Err(Trouble::NoField),
        }
    }
}

/// The fields of a glue. In a heap the width, the stretch and the shrink are within 2^30-1 in absolute value.
#[derive(Clone, Copy, Debug, PartialEq, Eq)]
pub struct GlueFields {
    /// The natural width in scaled points.
    pub width: i64,
    /// How much it may stretch, in scaled points or, of a higher order, in units of 2^-16.
    pub stretch: i64,
    /// The order of that, in a heap from 0 to 3.
    pub stretch_order: u8,
    /// How much it may shrink, as its stretch.
    pub shrink: i64,
    /// The order of that, in a heap from 0 to 3.
    pub shrink_order: u8,
}

impl GlueFields {
    /// What a field holds. Refuses with NoField where there is no such field.
    pub fn field(&self, f: Field) -> Result<FieldValue, Trouble>
        ensures { result ≡ glue_field self.now f }
    {
        match f {
            Field::Width => Ok(FieldValue::Number(self.width)),
            Field::Stretch => Ok(FieldValue::Number(self.stretch)),
            Field::StretchOrder => Ok(FieldValue::Number(i64::from(self.stretch_order))),
            Field::Shrink => Ok(FieldValue::Number(self.shrink)),
            Field::ShrinkOrder => Ok(FieldValue::Number(i64::from(self.shrink_order))),
            _ => Err(Trouble::NoField),
        }
    }

    /// The same with a value in a field. Refuses with NoField where there is no such field, and else with BadValue where it
    /// does not take the value.
    pub fn with(self, f: Field, v: FieldValue) -> Result<GlueFields, Trouble>
        ensures { result ≡ glue_with self f v }
    {
        match f {
            Field::Width => Ok(GlueFields {
                width: dimension(v)?,
                ..self
            }),
            Field::Stretch => Ok(GlueFields {
                stretch: dimension(v)?,
                ..self
            }),
            Field::StretchOrder => Ok(GlueFields {
                stretch_order: order(v)?,
                ..self
            }),
            Field::Shrink => Ok(GlueFields {
                shrink: dimension(v)?,
                ..self
            }),
            Field::ShrinkOrder => Ok(GlueFields {
                shrink_order: order(v)?,
                ..self
            }),
            _ => Err(Trouble::NoField),
        }
    }
}

/// The fields of a glyph.
#[derive(Clone, Copy, Debug, PartialEq, Eq)]
pub struct GlyphFields {
    /// The code of the character, from 0 to 255.
    pub char: u8,
    /// The number of the font, in a heap from 0 to 63.
    pub font: u8,
}

impl GlyphFields {
    /// What a field holds. Refuses with NoField where there is no such field.
    pub fn field(&self, f: Field) -> Result<FieldValue, Trouble>
        ensures { result ≡ glyph_field self.now f }
    {
        match f {
            Field::Char => Ok(FieldValue::Number(i64::from(self.char))),
            Field::Font => Ok(FieldValue::Number(i64::from(self.font))),
            _ => Err(Trouble::NoField),
        }
    }

    /// The same with a value in a field. Refuses with NoField where there is no such field, and else with BadValue where it
    /// does not take the value.
    pub fn with(self, f: Field, v: FieldValue) -> Result<GlyphFields, Trouble>
        ensures { result ≡ glyph_with self f v }
    {
        match f {
            Field::Char => Ok(GlyphFields {
                char: number_to(255, v)?,
                ..self
            }),
            Field::Font => Ok(GlyphFields {
                font: number_to(63, v)?,
                ..self
            }),
            _ => Err(Trouble::NoField),
        }
    }
}
