//! A small font: the characters `-`, `0` to `2` and `a` to `z`, each 327680 wide and 286720 high, at 10 points.

use ntx_tfm::{Font, read_font};
use std::alloc::{AllocError, Global};
use std::test;

/// What `f` and `i` make where nothing else is asked for: the character `1` in their place.
pub const LIGATURE: [u8; 4] = [0, 105, 0, 49];

/// The word of a character's size and program.
fn char_word(code: u8) -> [u8; 4] {
    match code {
        102 => [1, 16, 1, 0],
        48 => [1, 16, 1, 2],
        97 => [1, 16, 1, 3],
        45 | 49 | 50 | 98..=122 => [1, 16, 0, 0],
        _ => [0; 4],
    }
}

/// The bytes of words.
fn put_words(file: &mut Vec<u8>, words: &[u32]) -> Result<(), AllocError> {
    for word in words {
        file.extend_from_slice(&word.to_be_bytes())?;
    }
    Ok(())
}

/// The font's file with this first step. The others put `0` in the place of `f` and `f`, `2` in that of `0` and `i`, and a kern of -40960 between `a`
/// and `v`.
fn file_of(alloc: Global, first: [u8; 4]) -> Result<Vec<u8>, AllocError> {
    let mut file = Vec::new(alloc);
    for n in [101u16, 2, 45, 122, 2, 2, 1, 1, 4, 1, 0, 4] {
        file.extend_from_slice(&n.to_be_bytes())?;
    }
    put_words(&mut file, [0u32, 0x00a0_0000].as_slice())?;
    for code in 45..123u8 {
        file.extend_from_slice(&char_word(code))?;
    }
    put_words(
        &mut file,
        [0u32, 0x0008_0000, 0, 0x0007_0000, 0, 0].as_slice(),
    )?;
    for step in [
        first,
        [128, 102, 0, 48],
        [128, 105, 0, 50],
        [128, 118, 128, 0],
    ] {
        file.extend_from_slice(&step)?;
    }
    put_words(
        &mut file,
        [0xffff_0000u32, 0, 0x0004_0000, 0x0002_0000, 0x0001_0000].as_slice(),
    )?;
    Ok(file)
}

/// The font with this first step.
pub fn font_of(alloc: Global, first: [u8; 4]) -> Result<Font, test::Fail> {
    let file = file_of(alloc, first)?;
    Ok(read_font(alloc, &file, "t", None)?)
}
