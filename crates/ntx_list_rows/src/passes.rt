//! The passes over words, one after another.

use crate::font::{LIGATURE, font_of};
use crate::lists::{put_text, written};
use ntx_hyph::hyphenate;
use ntx_item::Params;
use ntx_ligkern::{kern, ligature};
use ntx_nodes::{PlainHeap, Trouble};
use ntx_num::Fail;
use ntx_pack::dimensions;
use ntx_patterns::read_patterns;
use std::test;

/// Words, each with its list after all three passes, and the natural width of that list.
static WORDS: [(&str, &str, i64); 5] = [
    ("difficult", "di[f-|1|2][-||]cult", 2293760),
    ("av", "a<v", 614400),
    ("avav", "a<va<v", 1228800),
    ("off", "o0", 655360),
    ("fig", "1g", 655360),
];

#[test]
fn words_go_through_the_passes(rt: HostRuntime) -> Result<(), test::Fail> {
    let patterns = read_patterns(rt.alloc(), b"f1f i1c")?;
    let params = Params::plain();
    let fonts = [font_of(rt.alloc(), LIGATURE)?];
    for (word, list, width) in &WORDS {
        let mut heap = PlainHeap::new(rt.alloc(), 1)?;
        put_text(&mut heap, word)?;
        hyphenate(rt.alloc(), &mut heap, &patterns, &params, 1)?;
        let head = ligature(rt.alloc(), &mut heap, &fonts, 1)?;
        let head = kern(rt.alloc(), &mut heap, &fonts, head)?;
        let text = written(rt.alloc(), &heap, head)?;
        assert_eq!(rt; text.as_slice(), list.as_bytes(), "{word}");
        let size = dimensions(rt.alloc(), &mut heap, &fonts, Some(head))?;
        assert_eq!(rt; size.w, *width, "{word}");
    }
    Ok(())
}

#[test]
fn an_inserted_glyph_is_passed_over_with_the_one_before(rt: HostRuntime) -> Result<(), test::Fail> {
    let fonts = [font_of(rt.alloc(), [0, 105, 11, 102])?];
    let mut heap = PlainHeap::new(rt.alloc(), 1)?;
    put_text(&mut heap, "fi")?;
    let head = ligature(rt.alloc(), &mut heap, &fonts, 1)?;
    let text = written(rt.alloc(), &heap, head)?;
    assert_eq!(rt; text.as_slice(), b"ffi".as_slice());
    Ok(())
}

#[test]
fn glyphs_inserted_without_end_are_refused(rt: HostRuntime) -> Result<(), test::Fail> {
    let fonts = [font_of(rt.alloc(), [0, 105, 3, 105])?];
    let mut heap = PlainHeap::new(rt.alloc(), 1)?;
    put_text(&mut heap, "fi")?;
    let came = ligature(rt.alloc(), &mut heap, &fonts, 1);
    assert!(rt; matches!(came, Err(Fail::Is(Trouble::LigLoop))));
    Ok(())
}
