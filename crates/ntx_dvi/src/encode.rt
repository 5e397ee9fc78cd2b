//! The bytes of the operations that have numbers of several bytes, the highest byte first.

ghost use Rattle.std.specs.Prelude.{◌≡◌, ◌≤◌, ◌++◌, OnOk};
ghost use Rattle.ntx_dvi.specs.Bytes.{units, preamble, page_start_bytes, rule_bytes, definition_bytes, filler_count};
ghost use Rattle.ntx_dvi.specs.Fonts.{IsDefinable};

use crate::opcode::{
    BOP, COMMENT, DENOMINATOR, FONT_DEFINITION, FORMAT, MAGNIFICATION, NUMERATOR, PRE, SET_RULE,
};
use byteorder::{BigEndian, ByteOrder};
use ntx_num::NoMemory;
use ntx_tfm::FontDef;

/// The unit of the file's distances, and the magnification.
pub fn units() -> [u8; 12]
    ensures { result ≡ units }
{
    let mut bytes = [0; 12];
    BigEndian::write_u32(&mut bytes, NUMERATOR);
    BigEndian::write_u32(&mut bytes[4..], DENOMINATOR);
    BigEndian::write_u32(&mut bytes[8..], MAGNIFICATION);
    bytes
}

/// The preamble.
pub fn preamble() -> [u8; 18]
    ensures { result ≡ preamble }
{
    let mut bytes = [0; 18];
    bytes[0] = PRE;
    bytes[1] = FORMAT;
    bytes[2..14].copy_from_slice(&units());
    bytes[14] = COMMENT.len() as u8;
    bytes[15..].copy_from_slice(&COMMENT);
    bytes
}

/// The beginning of the page of this number, with the place of the page before, or -1.
pub fn page_start(number: i32, last_page: i32) -> [u8; 45]
    ensures { result ≡ page_start_bytes number last_page }
{
    let mut bytes = [0; 45];
    bytes[0] = BOP;
    BigEndian::write_i32(&mut bytes[1..], number);
    BigEndian::write_i32(&mut bytes[41..], last_page);
    bytes
}

/// A rule of this height and width, in scaled points.
pub fn rule(height: i32, width: i32) -> [u8; 9]
    ensures { result ≡ rule_bytes height width }
{
    let mut bytes = [0; 9];
    bytes[0] = SET_RULE;
    BigEndian::write_i32(&mut bytes[1..], height);
    BigEndian::write_i32(&mut bytes[5..], width);
    bytes
}

/// The definition of a font up to its name.
fn definition_front(font: u8, def: &FontDef) -> [u8; 16]
    requires { IsDefinable def.now }
    ensures { result ++ def.now.name ≡ definition_bytes font def.now }
{
    let mut bytes = [0; 16];
    bytes[0] = FONT_DEFINITION;
    bytes[1] = font;
    BigEndian::write_u32(&mut bytes[2..], def.checksum);
    BigEndian::write_i32(&mut bytes[6..], def.size as i32);
    BigEndian::write_i32(&mut bytes[10..], def.design as i32);
    bytes[15] = def.name.as_bytes().len() as u8;
    bytes
}

/// Appends the definition of a font under this number.
pub fn push_definition(bytes: &mut Vec<u8>, font: u8, def: &FontDef) -> Result<(), NoMemory>
    requires { IsDefinable def.now }
    ensures { OnOk result (bytes.new.items ≡ bytes.old.items ++ definition_bytes font def.now) }
{
    bytes.extend_from_slice(&definition_front(font, def))?;
    bytes.extend_from_slice(def.name.as_bytes())?;
    Ok(())
}

/// How many fillers follow `count` bytes: four, and up to three more to a length that is a multiple of four.
pub fn filler_count(count: u64) -> usize
    ensures value { result ≡ filler_count count }
    ensures least { 4 ≤ result }
    ensures most { result ≤ 7 }
{
    (4 + (4 - count % 4) % 4) as usize
}
