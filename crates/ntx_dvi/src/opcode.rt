//! The codes and the constants of a DVI file ("TeX: The Program", sections 585 to 590).

/// A rule, whose width then moves the place to the right.
pub const SET_RULE: u8 = 132;

/// A character whose code stands in the byte after it; one of a code below 128 is its code alone.
pub const SET_CHAR: u8 = 128;

/// Font 0 becomes the current font; those of the other fonts follow.
pub const FONT: u8 = 171;

/// The definition of a font whose number has one byte.
pub const FONT_DEFINITION: u8 = 243;

/// The beginning of a page.
pub const BOP: u8 = 139;

/// The end of a page.
pub const EOP: u8 = 140;

/// The place on the page is put on the stack.
pub const PUSH: u8 = 141;

/// The place on the page is taken from the stack.
pub const POP: u8 = 142;

/// The code before `right1`, a movement to the right of one byte.
pub const RIGHT: u8 = 142;

/// The code before `down1`, a movement downwards of one byte.
pub const DOWN: u8 = 156;

/// The preamble.
pub const PRE: u8 = 247;

/// The postamble.
pub const POST: u8 = 248;

/// What follows the postamble.
pub const POST_POST: u8 = 249;

/// The bytes that end the file.
pub const FILLER: u8 = 223;

/// The format of the file.
pub const FORMAT: u8 = 2;

/// The numerator of the unit: a scaled point is `NUMERATOR / DENOMINATOR` times 10^-7 metres.
pub const NUMERATOR: u32 = 25_400_000;

/// The denominator of the unit.
pub const DENOMINATOR: u32 = 473_628_672;

/// The magnification in thousandths.
pub const MAGNIFICATION: u32 = 1000;

/// The comment in the preamble.
pub const COMMENT: [u8; 3] = *b"ntx";
