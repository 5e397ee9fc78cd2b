//! What identifies a font.

ghost use Rattle.std.specs.Prelude.{◌≡◌};
ghost use Rattle.ntx_num.specs.Answer.{Gives};

use ntx_num::NoMemory;
use std::alloc::Global;
use std::marker::Model;

/// A font's name: bytes, which contracts see as their list.
#[derive(Debug, Drop)]
pub struct FontName {
    bytes: Vec<u8>,
}

impl Model for FontName {
    ghost use Rattle.std.specs.Prelude.{ℕ, List};

    ghost Value = { List ℕ };

    ghost view = { λ n. n.bytes.items };
}

impl FontName {
    /// The name with these bytes.
    pub fn new(alloc: Global, bytes: &[u8]) -> Result<FontName, NoMemory>
        ensures { Gives result bytes.now }
    {
        Ok(FontName {
            bytes: Vec::from_slice(alloc, bytes)?,
        })
    }

    /// A copy of the name.
    pub fn try_clone(&self, alloc: Global) -> Result<FontName, NoMemory>
        ensures { Gives result self.now }
    {
        FontName::new(alloc, self.as_bytes())
    }

    /// The bytes of the name.
    pub fn as_bytes(&self) -> &[u8]
        ensures { result.now ≡ self.now }
    {
        self.bytes.as_slice()
    }
}

/// What identifies a font, and its sizes ("TeX: The Program", sections 542 and 549).
#[derive(Debug, Drop)]
pub struct FontDef {
    /// The file's checksum.
    pub checksum: u32,
    /// The size at which the font is used, in scaled points, in a font from 1 to 2^26 - 1.
    pub size: i64,
    /// The size for which it was designed, in scaled points, in a font from 65536 to 2^26 - 1.
    pub design: i64,
    /// The font's name, in a font of 1 to 255 bytes.
    pub name: FontName,
}

impl FontDef {
    /// A copy of the definition.
    pub fn try_clone(&self, alloc: Global) -> Result<FontDef, NoMemory>
        ensures { Gives result self.now }
    {
        Ok(FontDef {
            checksum: self.checksum,
            size: self.size,
            design: self.design,
            name: self.name.try_clone(alloc)?,
        })
    }
}
