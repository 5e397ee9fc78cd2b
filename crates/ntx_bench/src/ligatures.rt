//! Lists of glyphs that get their ligatures.

use crate::fault::Fault;
use ntx_ligkern::ligature;
use ntx_nodes::{Field, FieldValue, Kind, Nodes, PlainHeap};
use ntx_tfm::{Font, read_font};
use std::alloc::{AllocError, Global};

/// The letters of a list, over and over.
static LETTERS: [u8; 38] = *b"difficult/offices/find/little/flowers/";

/// The lengths of the parts of the file: lf, lh, bc, ec, nw, nh, nd, ni, nl, nk, ne, np.
const LENGTHS: [u16; 12] = [113, 2, 32, 126, 2, 2, 1, 1, 4, 0, 0, 0];

/// The rules of the letters: `f f` is F and `f i` is I, `f l` is L, and `F i` is J.
const RULES: [[u8; 4]; 4] = [
    [0, b'f', 0, b'F'],
    [0, b'i', 0, b'I'],
    [128, b'l', 0, b'L'],
    [128, b'i', 0, b'J'],
];

/// The word of a character, which says where its rules begin, if it has some.
fn char_word(code: u8) -> [u8; 4] {
    match code {
        b'f' => [1, 0x10, 1, 0],
        b'F' => [1, 0x10, 1, 3],
        _ => [1, 0x10, 0, 0],
    }
}

/// A TFM file with the characters from the space to `~` and these rules.
fn tfm_bytes(alloc: Global) -> Result<Vec<u8>, AllocError> {
    let mut out = Vec::new(alloc);
    for n in LENGTHS {
        out.extend_from_slice(&n.to_be_bytes())?;
    }
    // a checksum, and a design size of ten points
    for word in [0u32, 0x00a0_0000] {
        out.extend_from_slice(&word.to_be_bytes())?;
    }
    for code in 32..127u8 {
        out.extend_from_slice(&char_word(code))?;
    }
    // widths, heights, depths and italic corrections
    for word in [0u32, 0x0008_0000, 0, 0x0007_0000, 0, 0] {
        out.extend_from_slice(&word.to_be_bytes())?;
    }
    for rule in RULES {
        out.extend_from_slice(&rule)?;
    }
    Ok(out)
}

/// The font with these rules.
fn font(alloc: Global) -> Result<Font, Fault> {
    let bytes = tfm_bytes(alloc)?;
    Ok(read_font(alloc, &bytes, "letters", None)?)
}

/// Makes a glyph after the last one.
fn put(heap: &mut PlainHeap, last: Option<u64>, code: u8) -> Result<u64, Fault> {
    let n = heap.make(Kind::Glyph, 0)?;
    heap.set(n, Field::Char, FieldValue::Number(i64::from(code)))
        .map_err(|_| Fault::Refused)?;
    if let Some(last) = last {
        heap.set(last, Field::Next, FieldValue::Link(Some(n)))
            .map_err(|_| Fault::Refused)?;
    }
    Ok(n)
}

/// The letter at a place of the list, counted from 0.
fn letter(place: u64) -> u8 {
    let at = (place % 38) as usize;
    LETTERS.get(at).copied().unwrap_or(b'/')
}

/// Makes a list of `n` glyphs, at most 2^18, the first of which has the name 1.
fn put_all(heap: &mut PlainHeap, n: u64) -> Result<(), Fault> {
    let mut last = None;
    for place in 0..n {
        last = Some(put(heap, last, letter(place))?);
    }
    Ok(())
}

/// Puts ligatures into a list of `n` glyphs, at most 2^18.
pub fn put_into(alloc: Global, n: u64) -> Result<(), Fault> {
    let fonts = [font(alloc)?];
    let mut heap = PlainHeap::new(alloc, 1)?;
    put_all(&mut heap, n)?;
    ligature(alloc, &mut heap, &fonts, 1)?;
    Ok(())
}
