//! The definitions of the fonts of a file.

ghost use Rattle.std.specs.Prelude.{◌≡◌, ◌≤◌, ◌++◌, Some, None, replicate, slice_set, is_some, IfSome, OnOk};
ghost use Rattle.ntx_num.specs.Answer.{Gives};
ghost use Rattle.ntx_dvi.specs.Bytes.{definition_if, definitions};
ghost use Rattle.ntx_dvi.specs.Fonts.{IsDefinable, definition_in};

use crate::encode::push_definition;
use ntx_num::NoMemory;
use ntx_tfm::FontDef;
use std::alloc::Global;
use std::marker::Model;

/// How many numbers of fonts there are.
const FONTS: usize = 64;

/// Appends the definition of a font under this number, if it has one.
fn push_definition_if(
    bytes: &mut Vec<u8>,
    number: u8,
    font: &Option<FontDef>,
) -> Result<(), NoMemory>
    requires { IfSome font.now IsDefinable }
    ensures { OnOk result (bytes.new.items ≡ bytes.old.items ++ definition_if number font.now) }
{
    match font {
        Some(def) => push_definition(bytes, number, def),
        None => Ok(()),
    }
}

/// What the fonts 0 to 63 were defined to be, where they were.
#[derive(Drop)]
pub struct Fonts {
    definitions: Vec<Option<FontDef>>,
}

impl Model for Fonts {
    ghost use Rattle.std.specs.Prelude.{◌≡◌, List, All, Option, IfSome, length};
    ghost use Rattle.ntx_tfm.specs.declared.def.FontDef.{FontDef};
    ghost use Rattle.ntx_dvi.specs.Fonts.{IsDefinable};

    ghost Value = { List (Option FontDef) };

    ghost view = { λ f. f.definitions.items };

    ghost invariant = { λ f. (length f.definitions.items ≡ 64) × All (λ definition. IfSome definition IsDefinable) f.definitions.items };
}

impl Fonts {
    /// No font is defined.
    pub fn new(alloc: Global) -> Result<Fonts, NoMemory>
        ensures { Gives result (replicate 64 None) }
    {
        let mut definitions = Vec::with_capacity(alloc, FONTS)?;
        for _number in 0..FONTS {
            definitions.push(None)?;
        }
        Ok(Fonts { definitions })
    }

    /// Whether the font of this number, at most 63, is defined.
    pub fn is_defined(&self, font: u8) -> bool
        requires { font ≤ 63 }
        ensures { result ≡ is_some (definition_in self.now font) }
    {
        self.definitions[usize::from(font)].is_some()
    }

    /// Defines the font of this number, at most 63. It takes no memory.
    pub fn define(&mut self, font: u8, def: FontDef)
        requires number { font ≤ 63 }
        requires definable { IsDefinable def }
        ensures { self.new ≡ slice_set self.old font (Some def) }
    {
        self.definitions[usize::from(font)] = Some(def);
    }

    /// Appends the definitions of all fonts, the highest number first.
    pub fn push_definitions(&self, bytes: &mut Vec<u8>) -> Result<(), NoMemory>
        ensures { OnOk result (bytes.new.items ≡ bytes.old.items ++ definitions 0 self.now) }
    {
        let mut number = FONTS;
        while 0 < number {
            number -= 1;
            push_definition_if(bytes, number as u8, &self.definitions[number])?;
        }
        Ok(())
    }
}
