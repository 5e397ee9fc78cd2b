//! Ligatures.

use super::fonts::{LIG, Rule, font_with};
use super::lists::{make_list, written};
use crate::ligature;
use ntx_nodes::{Field, FieldValue, Kind, Nodes, PlainHeap, Trouble};
use ntx_num::Fail;
use ntx_tfm::Font;
use std::alloc::Global;
use std::test;

/// `f f` is F, `f i` is I, `F i` is J, `f l` is L.
static WORDS: [Rule; 4] = [
    (b'F', b'i', LIG, b'J'),
    (b'f', b'f', LIG, b'F'),
    (b'f', b'i', LIG, b'I'),
    (b'f', b'l', LIG, b'L'),
];

/// `f i` is K.
static OTHERS: [Rule; 1] = [(b'f', b'i', LIG, b'K')];

/// The eight operations, with c as the ligature.
static EIGHT: [Rule; 8] = [
    (b'a', b'p', 0, b'c'),
    (b'a', b'q', 1, b'c'),
    (b'a', b'r', 2, b'c'),
    (b'a', b's', 3, b'c'),
    (b'a', b't', 5, b'c'),
    (b'a', b'u', 6, b'c'),
    (b'a', b'v', 7, b'c'),
    (b'a', b'w', 11, b'c'),
];

/// The same, with ligatures of what they leave.
static AGAIN: [Rule; 18] = [
    (b'a', b'q', 1, b'c'),
    (b'a', b'r', 2, b'c'),
    (b'a', b's', 3, b'c'),
    (b'a', b't', 5, b'c'),
    (b'a', b'u', 6, b'c'),
    (b'a', b'v', 7, b'c'),
    (b'a', b'w', 11, b'c'),
    (b'a', b'c', 0, b'e'),
    (b'c', b'q', 0, b'd'),
    (b'c', b't', 0, b'd'),
    (b'c', b'v', 0, b'd'),
    (b'c', b'w', 0, b'd'),
    (b'c', b'y', 0, b'g'),
    (b'e', b's', 0, b'k'),
    (b't', b'y', 0, b'h'),
    (b'v', b'y', 0, b'h'),
    (b'w', b'y', 0, b'h'),
    (b'q', b'y', 0, b'h'),
];

/// One row: a list, and the list with its ligatures.
type Row<'a> = (&'a str, &'a str);

/// The list that a text writes, with its ligatures, as text.
fn ligatured(alloc: Global, fonts: &[Font], text: &str) -> Result<Vec<u8>, Fail<Trouble>> {
    let mut heap = PlainHeap::new(alloc, 1)?;
    make_list(&mut heap, text.as_bytes())?;
    let head = ligature(alloc, &mut heap, fonts, 1)?;
    written(alloc, &heap, head)
}

#[test]
fn words_get_their_ligatures(rt: HostRuntime) -> Result<(), test::Fail> {
    let rows: [Row; 16] = [
        ("f", "f"),
        ("fa", "fa"),
        ("if", "if"),
        ("fi", "I'"),
        ("ff", "F'"),
        ("fl", "L'"),
        ("ffi", "J'"),
        ("fff", "F'f"),
        ("ffff", "F'F'"),
        ("fffi", "F'I'"),
        ("difficult", "diJ'cult"),
        ("fiffi", "I'J'"),
        ("f.i", "f.i"),
        ("f^i", "f^i"),
        ("^f^ifi", "^K'I'"),
        ("~f~i", "~f~i"),
    ];
    let fonts = [
        font_with(rt.alloc(), &WORDS)?,
        font_with(rt.alloc(), &OTHERS)?,
    ];
    for (list, wanted) in &rows {
        let text = ligatured(rt.alloc(), &fonts, list)?;
        assert!(rt; text.as_slice() == wanted.as_bytes(), "{list}");
    }
    Ok(())
}

#[test]
fn operations_keep_and_pass_over(rt: HostRuntime) -> Result<(), test::Fail> {
    let rows: [Row; 8] = [
        ("xapx", "xc'x"),
        ("xaqx", "xc'qx"),
        ("xarx", "xac'x"),
        ("xasx", "xac'sx"),
        ("xatx", "xc'tx"),
        ("xaux", "xac'x"),
        ("xavx", "xac'vx"),
        ("xawx", "xac'wx"),
    ];
    let fonts = [font_with(rt.alloc(), &EIGHT)?];
    for (list, wanted) in &rows {
        let text = ligatured(rt.alloc(), &fonts, list)?;
        assert!(rt; text.as_slice() == wanted.as_bytes(), "{list}");
    }
    Ok(())
}

#[test]
fn the_cursor_goes_on_in_the_result(rt: HostRuntime) -> Result<(), test::Fail> {
    let rows: [Row; 14] = [
        // At the ligature, which makes one with the glyph that stayed.
        ("aq", "d'"),
        ("aqy", "d'y"),
        // At the left glyph, which makes one with the ligature.
        ("ar", "e'"),
        ("as", "k'"),
        // At the right glyph.
        ("at", "c't"),
        ("aty", "c'h'"),
        ("aw", "ac'w"),
        ("awy", "ac'h'"),
        // At the new ligature, which makes one with what follows.
        ("au", "ac'"),
        ("auy", "ag'"),
        ("auq", "ad'"),
        ("av", "ad'"),
        ("avy", "ad'y"),
        ("aat", "ac't"),
    ];
    let fonts = [font_with(rt.alloc(), &AGAIN)?];
    for (list, wanted) in &rows {
        let text = ligatured(rt.alloc(), &fonts, list)?;
        assert!(rt; text.as_slice() == wanted.as_bytes(), "{list}");
    }
    Ok(())
}

#[test]
fn discs_draw_glyphs_in(rt: HostRuntime) -> Result<(), test::Fail> {
    let rows: [Row; 28] = [
        // The lists by themselves.
        ("[ff|fi|ffi]", "[F'|I'|J']"),
        ("a[fi||]b", "a[I'||]b"),
        // A glyph before, with the first of replace.
        ("f[||i]x", "[f||I']x"),
        ("df[-||i]x", "d[f-||I']x"),
        ("f[f||f]", "[F'||F']"),
        ("f[i||i]", "[I'||I']"),
        ("f[i||x]", "f[i||x]"),
        ("ff[||i]", "[F'||J']"),
        ("f[||.i]", "f[||.i]"),
        ("f.[||i]", "f.[||i]"),
        ("f[||^i]", "f[||^i]"),
        ("^f[||^i]", "[^f||^K']"),
        // A glyph after, with the last of replace.
        ("[-|x|f]i", "[-|xi|I']"),
        ("[f|f|f]i", "[f|I'|I']"),
        ("[||f]fi", "[|I'|J']"),
        ("[||f]fa", "[|f|F']a"),
        ("[||f]fia", "[|I'|J']a"),
        ("[||f.]i", "[||f.]i"),
        // On both sides, and with an empty replace.
        ("f[-||f]i", "[f-|i|J']"),
        ("f[-||]i", "[f-|i|I']"),
        ("f[-||]x", "f[-||]x"),
        ("af[f|f|]", "af[f|f|]"),
        ("dif[-||]fi[-||]cult", "di[f-|I'|J'][-||]cult"),
        // Discretionaries side by side, and what comes after one.
        ("f[-||][-||]i", "f[-||][-||]i"),
        ("f[||i][||]", "[f||I'][||]"),
        ("[||f][||i]", "[||f][||i]"),
        ("[||x]fi", "[||x]I'"),
        ("f[||i]fif[||i]", "[f||I']I'[f||I']"),
    ];
    let fonts = [
        font_with(rt.alloc(), &WORDS)?,
        font_with(rt.alloc(), &OTHERS)?,
    ];
    for (list, wanted) in &rows {
        let text = ligatured(rt.alloc(), &fonts, list)?;
        assert!(rt; text.as_slice() == wanted.as_bytes(), "{list}");
    }
    Ok(())
}

#[test]
fn kerns_keep_glyphs_apart(rt: HostRuntime) -> Result<(), test::Fail> {
    let rows: [Row; 6] = [
        ("f1i", "f1i"),
        ("f1[||i]x", "f1[||i]x"),
        ("x[||f]1i", "x[||f]1i"),
        ("f1[i||f]2i", "f1[i||f]2i"),
        ("1f[||i]2", "1[f||I']2"),
        ("f[f1||f1]i", "[F'1||F'1]i"),
    ];
    let fonts = [font_with(rt.alloc(), &WORDS)?];
    for (list, wanted) in &rows {
        let text = ligatured(rt.alloc(), &fonts, list)?;
        assert!(rt; text.as_slice() == wanted.as_bytes(), "{list}");
    }
    Ok(())
}

/// How the pass over a list ends, how many nodes are live then, and the first bytes of the list.
fn ending(
    alloc: Global,
    rules: &[Rule],
    text: &str,
) -> Result<(Option<Trouble>, u64, Vec<u8>), test::Fail> {
    let fonts = [font_with(alloc, rules)?];
    let mut heap = PlainHeap::new(alloc, 1)?;
    make_list(&mut heap, text.as_bytes())?;
    let why = match ligature(alloc, &mut heap, &fonts, 1) {
        Ok(_) => None,
        Err(Fail::Is(why)) => Some(why),
        Err(Fail::NoMemory) => Some(Trouble::Nest),
    };
    let text = written(alloc, &heap, 1)?;
    Ok((why, heap.live(), text))
}

#[test]
fn steps_without_a_move_are_refused(rt: HostRuntime) -> Result<(), test::Fail> {
    // The glyph at the cursor stays what it is, or changes each time.
    let (why, live, text) = ending(rt.alloc(), &[(b'a', b'b', 1, b'a')], "ab")?;
    assert_eq!(rt; (why, live), (Some(Trouble::LigLoop), 2));
    assert!(rt; text.as_slice() == b"a'b".as_slice());
    let turns = [(b'a', b'b', 1, b'c'), (b'c', b'b', 1, b'a')];
    let (why, live, text) = ending(rt.alloc(), &turns, "ab")?;
    assert_eq!(rt; (why, live), (Some(Trouble::LigLoop), 2));
    assert!(rt; text.as_slice() == b"c'b".as_slice());
    // A glyph more at each step, before the cursor or after it.
    let (why, live, _) = ending(rt.alloc(), &[(b'a', b'b', 3, b'b')], "ab")?;
    assert_eq!(rt; (why, live), (Some(Trouble::LigLoop), 257));
    let (why, live, _) = ending(rt.alloc(), &[(b'a', b'b', 7, b'a')], "ab")?;
    assert_eq!(rt; (why, live), (Some(Trouble::LigLoop), 257));
    // In a list of a discretionary.
    let (why, live, text) = ending(rt.alloc(), &[(b'a', b'b', 1, b'a')], "x[|ab|]")?;
    assert_eq!(rt; (why, live), (Some(Trouble::LigLoop), 4));
    assert!(rt; text.as_slice() == b"x[|a'b|]".as_slice());
    Ok(())
}

#[test]
fn passing_over_is_no_move(rt: HostRuntime) -> Result<(), test::Fail> {
    // 256 times in a row the right glyph is freed, and the cursor passes to the new ligature.
    let rules = [(b'a', b'b', 6, b'a')];
    for (count, wanted) in [(255, None), (256, Some(Trouble::LigLoop))] {
        let fonts = [font_with(rt.alloc(), &rules)?];
        let mut heap = PlainHeap::new(rt.alloc(), 1)?;
        let mut text: Vec<u8> = Vec::new(rt.alloc());
        text.push(b'a')?;
        for _ in 0..count {
            text.push(b'b')?;
        }
        make_list(&mut heap, &text)?;
        let why = match ligature(rt.alloc(), &mut heap, &fonts, 1) {
            Err(Fail::Is(why)) => Some(why),
            _ => None,
        };
        assert_eq!(rt; why, wanted);
        assert_eq!(rt; heap.live(), count + 1);
    }
    Ok(())
}

#[test]
fn steps_with_moves_go_on_until_the_heap_is_full(rt: HostRuntime) -> Result<(), test::Fail> {
    let fonts = [font_with(rt.alloc(), &[(b'c', b'y', 3, b'c')])?];
    let most = 1 << 18;
    let mut heap = PlainHeap::new(rt.alloc(), 1)?;
    make_list(&mut heap, b"cy")?;
    for _ in 302..most {
        heap.make(Kind::Kern, 0)?;
    }
    // There is room for 300 glyphs, each made by one step, with a move after it.
    let refused = ligature(rt.alloc(), &mut heap, &fonts, 1);
    assert_eq!(rt; refused, Err(Fail::Is(Trouble::NodesFull)));
    assert_eq!(rt; heap.live(), most);
    let text = written(rt.alloc(), &heap, 1)?;
    assert!(rt; text.starts_with(b"cc'c'c'".as_slice()));
    Ok(())
}

#[test]
fn steps_with_moves_go_on_until_names_run_out(rt: HostRuntime) -> Result<(), test::Fail> {
    let fonts = [font_with(rt.alloc(), &[(b'c', b'y', 3, b'c')])?];
    let first = (1 << 48) - 302;
    let mut heap = PlainHeap::new(rt.alloc(), first)?;
    make_list(&mut heap, b"cy")?;
    // There are names for 300 glyphs, each made by one step, with a move after it.
    let refused = ligature(rt.alloc(), &mut heap, &fonts, first);
    assert_eq!(rt; refused, Err(Fail::Is(Trouble::NamesOut)));
    assert_eq!(rt; heap.live(), 302);
    let text = written(rt.alloc(), &heap, first)?;
    assert!(rt; text.starts_with(b"cc'c'c'".as_slice()));
    Ok(())
}

#[test]
fn a_copy_goes_before_and_the_glyph_itself_into_replace(rt: HostRuntime) -> Result<(), test::Fail> {
    let fonts = [font_with(rt.alloc(), &WORDS)?];
    let mut heap = PlainHeap::new(rt.alloc(), 1)?;
    // 1 = d, 2 = f, 3 a discretionary, 4 = -, 5 = f, 6 = i, 7 = x
    make_list(&mut heap, b"df[-||f]ix")?;
    heap.set_attr(2, 7, 10)?;
    heap.set_attr(6, 7, 20)?;
    let head = ligature(rt.alloc(), &mut heap, &fonts, 1)?;
    assert_eq!(rt; head, 1);
    let text = written(rt.alloc(), &heap, head)?;
    assert!(rt; text.as_slice() == b"d[f-|i|J']x".as_slice());
    assert_eq!(rt; heap.get(1, Field::Next), Ok(FieldValue::Link(Some(3))));
    assert_eq!(rt; heap.get(3, Field::Next), Ok(FieldValue::Link(Some(7))));
    assert_eq!(rt; heap.get(3, Field::Pre), Ok(FieldValue::Link(Some(8))));
    assert_eq!(rt; heap.get(3, Field::Post), Ok(FieldValue::Link(Some(9))));
    assert_eq!(rt; heap.get(3, Field::Replace), Ok(FieldValue::Link(Some(2))));
    assert_eq!(rt; heap.get(2, Field::Next), Ok(FieldValue::Link(None)));
    assert_eq!(rt; heap.attr(8, 7), Ok(Some(10)));
    assert_eq!(rt; heap.attr(9, 7), Ok(Some(20)));
    assert_eq!(rt; heap.attr(2, 7), Ok(Some(10)));
    assert_eq!(rt; heap.kind_of(5), Err(Trouble::Stale(5)));
    assert_eq!(rt; heap.kind_of(6), Err(Trouble::Stale(6)));
    Ok(())
}

#[test]
fn a_new_ligature_is_like_the_left_glyph(rt: HostRuntime) -> Result<(), test::Fail> {
    let fonts = [
        font_with(rt.alloc(), &WORDS)?,
        font_with(rt.alloc(), &EIGHT)?,
    ];
    let mut heap = PlainHeap::new(rt.alloc(), 1)?;
    make_list(&mut heap, b"^a^w")?;
    heap.set_attr(1, 7, 10)?;
    heap.set_attr(2, 7, 20)?;
    heap.set_current(7, 30)?;
    assert_eq!(rt; ligature(rt.alloc(), &mut heap, &fonts, 1)?, 1);
    assert_eq!(rt; heap.get(1, Field::Next), Ok(FieldValue::Link(Some(3))));
    assert_eq!(rt; heap.get(3, Field::Next), Ok(FieldValue::Link(Some(2))));
    assert_eq!(rt; heap.kind_of(3), Ok((Kind::Glyph, 2)));
    assert_eq!(rt; heap.get(3, Field::Font), Ok(FieldValue::Number(1)));
    assert_eq!(rt; heap.get(3, Field::Char), Ok(FieldValue::Number(99)));
    assert_eq!(rt; heap.attr(3, 7), Ok(Some(10)));
    Ok(())
}

#[test]
fn a_refusal_leaves_what_was_done(rt: HostRuntime) -> Result<(), test::Fail> {
    let fonts = [font_with(rt.alloc(), &EIGHT)?];
    // After the list one name is left, which is one too few for the second new ligature.
    let first = (1 << 48) - 5;
    let mut heap = PlainHeap::new(rt.alloc(), first)?;
    make_list(&mut heap, b"axaw")?;
    let refused = ligature(rt.alloc(), &mut heap, &fonts, first);
    assert_eq!(rt; refused, Ok(first));
    let mut heap = PlainHeap::new(rt.alloc(), first)?;
    make_list(&mut heap, b"awav")?;
    let refused = ligature(rt.alloc(), &mut heap, &fonts, first);
    assert_eq!(rt; refused, Err(Fail::Is(Trouble::NamesOut)));
    let text = written(rt.alloc(), &heap, first)?;
    assert!(rt; text.as_slice() == b"ac'wav".as_slice());
    let refused = ligature(rt.alloc(), &mut heap, &fonts, 5);
    assert_eq!(rt; refused, Err(Fail::Is(Trouble::Stale(5))));
    Ok(())
}
