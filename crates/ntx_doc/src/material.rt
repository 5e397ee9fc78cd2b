//! The lines that put one node into a box, and what follows `hbox` and `font`.

ghost use Rattle.std.specs.Prelude.{◌≡◌};
ghost use Rattle.ntx_doc.specs.Text.{fields_of};
ghost use Rattle.ntx_doc.specs.Instruction as says;

use crate::command::Command;
use crate::fault::DocWhy;
use crate::fields::{five_fields, one_field, three_fields};
use crate::numbers::{dimension_in, natural_in, number_in};
use crate::text::next_field;
use ntx_item::{GlueSpec, PackTo};
use ntx_num::{MAX_ORDER, MAX_PENALTY, Size};

/// The greatest number of a font.
const MAX_FONT: u8 = 63;

/// The greatest code of a character.
const MAX_CODE: u8 = 255;

/// The glue that five fields write.
pub fn glue_spec(
    width: &[u8],
    stretch: &[u8],
    stretch_order: &[u8],
    shrink: &[u8],
    shrink_order: &[u8],
) -> Result<GlueSpec, DocWhy>
    ensures { result ≡ says.glue_spec width.now stretch.now stretch_order.now shrink.now shrink_order.now }
{
    let width = dimension_in(width)?;
    let stretch = dimension_in(stretch)?;
    let stretch_order = natural_in(stretch_order, MAX_ORDER)?;
    let shrink = dimension_in(shrink)?;
    let shrink_order = natural_in(shrink_order, MAX_ORDER)?;
    Ok(GlueSpec {
        width,
        stretch,
        stretch_order,
        shrink,
        shrink_order,
    })
}

/// The command of `glue W ST SO SH HO`.
pub fn glue(arguments: &[u8]) -> Result<Command, DocWhy>
    ensures { result ≡ says.glue (fields_of arguments.now) }
{
    let Some((width, stretch, stretch_order, shrink, shrink_order)) = five_fields(arguments) else {
        return Err(DocWhy::Fields);
    };
    let spec = glue_spec(width, stretch, stretch_order, shrink, shrink_order)?;
    Ok(Command::Glue(spec))
}

/// The command of `kern W`.
pub fn kern(arguments: &[u8]) -> Result<Command, DocWhy>
    ensures { result ≡ says.kern (fields_of arguments.now) }
{
    let Some(width) = one_field(arguments) else {
        return Err(DocWhy::Fields);
    };
    Ok(Command::Kern(dimension_in(width)?))
}

/// The command of `penalty P`.
pub fn penalty(arguments: &[u8]) -> Result<Command, DocWhy>
    ensures { result ≡ says.penalty (fields_of arguments.now) }
{
    let Some(penalty) = one_field(arguments) else {
        return Err(DocWhy::Fields);
    };
    let penalty = number_in(penalty, -MAX_PENALTY, MAX_PENALTY)?;
    Ok(Command::Penalty(penalty))
}

/// The command of `rule W H D`.
pub fn rule(arguments: &[u8]) -> Result<Command, DocWhy>
    ensures { result ≡ says.rule (fields_of arguments.now) }
{
    let Some((width, height, depth)) = three_fields(arguments) else {
        return Err(DocWhy::Fields);
    };
    let w = dimension_in(width)?;
    let h = dimension_in(height)?;
    let d = dimension_in(depth)?;
    Ok(Command::Rule(Size { w, h, d }))
}

/// The code after `char`.
pub fn code(arguments: &[u8]) -> Result<u8, DocWhy>
    ensures { result ≡ says.code (fields_of arguments.now) }
{
    let Some(code) = one_field(arguments) else {
        return Err(DocWhy::Fields);
    };
    natural_in(code, MAX_CODE)
}

/// The width that the fields after `hbox` say.
pub fn box_width(arguments: &[u8]) -> Result<PackTo, DocWhy>
    ensures { result ≡ says.box_width (fields_of arguments.now) }
{
    let Some((word, rest)) = next_field(arguments) else {
        return Ok(PackTo::Additional(0));
    };
    let Some(width) = one_field(rest) else {
        return Err(DocWhy::Fields);
    };
    if word == b"to".as_slice() {
        Ok(PackTo::Exactly(dimension_in(width)?))
    } else if word == b"spread".as_slice() {
        Ok(PackTo::Additional(dimension_in(width)?))
    } else {
        Err(DocWhy::Fields)
    }
}

/// The number after `font`.
pub fn font_number(arguments: &[u8]) -> Result<u8, DocWhy>
    ensures { result ≡ says.font_number (fields_of arguments.now) }
{
    let Some(number) = one_field(arguments) else {
        return Err(DocWhy::Fields);
    };
    natural_in(number, MAX_FONT)
}
