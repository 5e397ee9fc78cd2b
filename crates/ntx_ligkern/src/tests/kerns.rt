//! Kerns.

use super::fonts::{KERN, LIG, Rule, font_with};
use super::lists::{make_list, written};
use crate::kern;
use ntx_nodes::{Field, FieldValue, Kind, Nodes, PlainHeap, Trouble};
use ntx_num::Fail;
use ntx_tfm::Font;
use std::alloc::Global;
use std::process::Abort;
use std::test;

/// In font 0, `a b` has a kern of 10, `b a` of 20, `b b` of 30, `a c` of 40, and `c c` is a ligature.
static FIRST: [Rule; 5] = [
    (b'a', b'b', KERN, 0),
    (b'a', b'c', KERN, 3),
    (b'b', b'a', KERN, 1),
    (b'b', b'b', KERN, 2),
    (b'c', b'c', LIG, b'd'),
];

/// In font 1, `a b` has a kern of 50.
static SECOND: [Rule; 1] = [(b'a', b'b', KERN, 4)];

/// A list gets the kerns that are wanted.
fn is_kerned(
    rt: &impl Abort,
    alloc: Global,
    fonts: &[Font],
    list: &str,
    wanted: &str,
) -> Result<(), test::Fail> {
    let mut heap = PlainHeap::new(alloc, 1)?;
    make_list(&mut heap, list.as_bytes())?;
    let head = kern(alloc, &mut heap, fonts, 1)?;
    assert_eq!(rt; head, 1);
    let text = written(alloc, &heap, head)?;
    assert!(rt; text.as_slice() == wanted.as_bytes(), "{list}");
    Ok(())
}

#[test]
fn lists_are_kerned(rt: HostRuntime) -> Result<(), test::Fail> {
    let rows = [
        // Lists without discretionaries, and words of two fonts, or of a font that is not there.
        ("a", "a"),
        ("ab", "a1b"),
        ("aba", "a1b2a"),
        ("abba", "a1b3b2a"),
        ("acc", "a4cc"),
        ("a.b", "a.b"),
        (".ab.", ".a1b."),
        ("^a^b", "^a5^b"),
        ("a^b", "a^b"),
        ("ab^a^ba", "a1b^a5^ba"),
        ("~a~b", "~a~b"),
        ("^b^a", "^b^a"),
        // The three lists of a discretionary, each by itself.
        ("[ab|ba|bb]", "[a1b|b2a|b3b]"),
        ("[aba||]", "[a1b2a||]"),
        // A kern before: at the beginning of pre, and of replace.
        ("a[b||b]", "a[1b||1b]"),
        ("a[b||c]", "a[1b||4c]"),
        ("a[c|b|a]", "a[4c|b|a]"),
        ("a[||b]", "a[||1b]"),
        ("a[.||b]", "a[.||1b]"),
        // A kern after: at the end of post, and of replace.
        ("[|a|a]b", "[|a1|a1]b"),
        ("[|b|a]b", "[|b3|a1]b"),
        ("[|a|]b", "[|a1|]b"),
        ("[a||a]b", "[a||a1]b"),
        ("[a|a|a.]b", "[a|a1|a.]b"),
        // An empty replace.
        ("a[||]b", "a[||1]b"),
        ("a[b|a|]b", "a[1b|a1|1]b"),
        ("a[b|a|]c", "a[1b|a4|4]c"),
        ("a[||].", "a[||]."),
        ("a[||]", "a[||]"),
        ("[||]b", "[||]b"),
        ("a[||]^b", "a[||]^b"),
        ("^a[^b||]^b", "^a[5^b||5]^b"),
        // Pairs on both sides, and longer lists.
        ("a[b|a|b]a", "a[1b|a|1b2]a"),
        ("a[bb|ba|b.a]b", "a[1b3b|b2a1|1b.a1]b"),
        ("ba[b||]bb", "b2a[1b||1]b3b"),
        // Discretionaries side by side, and at either end.
        ("a[b||][a|b|]b", "a[1b||][a|b3|]b"),
        ("a[||b][||a]b", "a[||1b][||a1]b"),
        ("[a|b|a]", "[a|b|a]"),
        ("[a|b|a]b", "[a|b3|a1]b"),
        ("b[a|b|a]", "b[2a|b|2a]"),
        ("a[b||]b[a||]a", "a[1b||1]b[2a||2]a"),
    ];
    let fonts = [
        font_with(rt.alloc(), &FIRST)?,
        font_with(rt.alloc(), &SECOND)?,
    ];
    for (list, wanted) in &rows {
        is_kerned(&rt, rt.alloc(), &fonts, *list, *wanted)?;
    }
    Ok(())
}

#[test]
fn a_kern_is_like_the_glyph_on_its_left(rt: HostRuntime) -> Result<(), test::Fail> {
    let fonts = [font_with(rt.alloc(), &FIRST)?];
    let mut heap = PlainHeap::new(rt.alloc(), 1)?;
    // 1 = a, 2 a discretionary, 3 = b in pre, 4 = a in post, 5 = b
    make_list(&mut heap, b"a[b|a|]b")?;
    heap.set_attr(1, 7, 10)?;
    heap.set_attr(4, 7, 40)?;
    heap.set_current(7, 50)?;
    assert_eq!(rt; kern(rt.alloc(), &mut heap, &fonts, 1)?, 1);
    // The kerns are made in this order: before b in pre, in replace, and after a in post.
    assert_eq!(rt; heap.get(2, Field::Pre), Ok(FieldValue::Link(Some(6))));
    assert_eq!(rt; heap.get(6, Field::Next), Ok(FieldValue::Link(Some(3))));
    assert_eq!(rt; heap.get(2, Field::Replace), Ok(FieldValue::Link(Some(7))));
    assert_eq!(rt; heap.get(7, Field::Next), Ok(FieldValue::Link(None)));
    assert_eq!(rt; heap.get(4, Field::Next), Ok(FieldValue::Link(Some(8))));
    assert_eq!(rt; heap.get(8, Field::Next), Ok(FieldValue::Link(None)));
    assert_eq!(rt; heap.kind_of(6), Ok((Kind::Kern, 0)));
    assert_eq!(rt; heap.get(6, Field::Kern), Ok(FieldValue::Number(10)));
    assert_eq!(rt; heap.attr(6, 7), Ok(Some(10)));
    assert_eq!(rt; heap.attr(7, 7), Ok(Some(10)));
    assert_eq!(rt; heap.attr(8, 7), Ok(Some(40)));
    Ok(())
}

#[test]
fn a_refusal_leaves_the_kerns_that_were_made(rt: HostRuntime) -> Result<(), test::Fail> {
    let fonts = [font_with(rt.alloc(), &FIRST)?];
    let first = (1 << 48) - 4;
    let mut heap = PlainHeap::new(rt.alloc(), first)?;
    make_list(&mut heap, b"aba")?;
    let refused = kern(rt.alloc(), &mut heap, &fonts, first);
    assert_eq!(rt; refused, Err(Fail::Is(Trouble::NamesOut)));
    let text = written(rt.alloc(), &heap, first)?;
    assert!(rt; text.as_slice() == b"a1ba".as_slice());
    let refused = kern(rt.alloc(), &mut heap, &fonts, 5);
    assert_eq!(rt; refused, Err(Fail::Is(Trouble::Stale(5))));
    let heap_is_a_loop = heap.set(first + 1, Field::Next, FieldValue::Link(Some(first)));
    assert_eq!(rt; heap_is_a_loop, Ok(()));
    let refused = kern(rt.alloc(), &mut heap, &fonts, first);
    assert_eq!(rt; refused, Err(Fail::Is(Trouble::Loop(first))));
    Ok(())
}
