//! Names, texts and numerals.

ghost use Rattle.std.specs.Prelude.{◌≡◌, IfOk};
ghost use Rattle.ntx_resolve.specs.declared.code.Exp.TheVariants as exp;

use crate::code::Exp;
use ntx_syntax::{LocalName, Name};
use sqlite_items::Items;
use std::alloc::{AllocError, Global};

/// A copy of a name, or of the bytes of a text.
pub fn copied(alloc: Global, name: &Name) -> Result<Name, AllocError>
    ensures { IfOk result (λ copy. copy ≡ name.now) }
{
    Items::from_slice(alloc, name.as_slice())
}

/// A copy of a name with its line.
pub fn copied_local(alloc: Global, local: &LocalName) -> Result<LocalName, AllocError>
    ensures { IfOk result (λ copy. copy ≡ local.now) }
{
    Ok(LocalName {
        name: copied(alloc, &local.name)?,
        line: local.line,
    })
}

/// A copy of names with their lines.
pub fn copied_locals(alloc: Global, locals: &[LocalName]) -> Result<Items<LocalName>, AllocError>
    ensures { IfOk result (λ copy. copy ≡ locals.now) }
{
    let mut copy = Items::new(alloc);
    for local in locals {
        copy.push(copied_local(alloc, local)?)?;
    }
    Ok(copy)
}

/// A copy of names.
pub fn copied_names(alloc: Global, names: &[Name]) -> Result<Items<Name>, AllocError>
    ensures { IfOk result (λ copy. copy ≡ names.now) }
{
    let mut copy = Items::new(alloc);
    for name in names {
        copy.push(copied(alloc, name)?)?;
    }
    Ok(copy)
}

/// A numeral of this value.
pub fn numeral(value: &i64) -> Exp
    ensures { result ≡ exp.Numeral value.now }
{
    Exp::Numeral(*value)
}
