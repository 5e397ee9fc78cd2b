//! The lines that set parameters and attributes.

ghost use Rattle.std.specs.Prelude.{◌≡◌};
ghost use Rattle.ntx_doc.specs.Text.{fields_of};
ghost use Rattle.ntx_doc.specs.Instruction as says;

use crate::command::Command;
use crate::fault::DocWhy;
use crate::fields::{five_fields, one_field, two_fields};
use crate::material::glue_spec;
use crate::numbers::number_in;
use crate::text::{next_field, number};
use ntx_item::{GlueParam, Param};

/// The greatest number of an attribute.
const MAX_ATTRIBUTE: i64 = 65_535;

/// The least value of an attribute. The one below it means in LuaTeX that the attribute is not set.
const MIN_ATTRIBUTE_VALUE: i64 = -2_147_483_646;

/// The greatest value of an attribute.
const MAX_ATTRIBUTE_VALUE: i64 = 2_147_483_647;

/// The command of `set NAME V`.
pub fn set(arguments: &[u8]) -> Result<Command, DocWhy>
    ensures { result ≡ says.set (fields_of arguments.now) }
{
    let Some((name, value)) = two_fields(arguments) else {
        return Err(DocWhy::Fields);
    };
    let Some(param) = Param::of_name(name) else {
        return Err(DocWhy::Name);
    };
    match number(value) {
        None => Err(DocWhy::Number),
        Some(value) => {
            if param.accepts(value) {
                Ok(Command::Set(param, value))
            } else {
                Err(DocWhy::Range)
            }
        }
    }
}

/// The command of `setglue NAME W ST SO SH HO`.
pub fn set_glue(arguments: &[u8]) -> Result<Command, DocWhy>
    ensures { result ≡ says.set_glue (fields_of arguments.now) }
{
    let Some((name, rest)) = next_field(arguments) else {
        return Err(DocWhy::Fields);
    };
    let Some((width, stretch, stretch_order, shrink, shrink_order)) = five_fields(rest) else {
        return Err(DocWhy::Fields);
    };
    let Some(param) = GlueParam::of_name(name) else {
        return Err(DocWhy::Name);
    };
    let spec = glue_spec(width, stretch, stretch_order, shrink, shrink_order)?;
    Ok(Command::SetGlue(param, spec))
}

/// The command of `attr ID V`.
pub fn attr(arguments: &[u8]) -> Result<Command, DocWhy>
    ensures { result ≡ says.attr (fields_of arguments.now) }
{
    let Some((id, value)) = two_fields(arguments) else {
        return Err(DocWhy::Fields);
    };
    let id = number_in(id, 0, MAX_ATTRIBUTE)?;
    let value = number_in(value, MIN_ATTRIBUTE_VALUE, MAX_ATTRIBUTE_VALUE)?;
    Ok(Command::Attr(id, value))
}

/// The command of `noattr ID`.
pub fn no_attr(arguments: &[u8]) -> Result<Command, DocWhy>
    ensures { result ≡ says.no_attr (fields_of arguments.now) }
{
    let Some(id) = one_field(arguments) else {
        return Err(DocWhy::Fields);
    };
    Ok(Command::NoAttr(number_in(id, 0, MAX_ATTRIBUTE)?))
}
