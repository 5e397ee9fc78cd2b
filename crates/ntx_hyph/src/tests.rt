//! Lists and their hyphens, by hand from the rules of words, patterns and names.

use crate::hyphenate;
use ntx_item::{Param, Params};
use ntx_nodes::{Contents, Field, FieldValue, Fields, Kind, Nodes, PlainHeap, Trouble};
use ntx_num::Fail;
use ntx_patterns::read_patterns;
use std::alloc::Global;
use std::test;

/// Makes a list, whose nodes take the names from 1 on: a byte `|` is a kern, and any other a glyph of font 0, or of font 1 after `^`.
fn list_of(heap: &mut PlainHeap, text: &[u8]) -> Result<(), Fail<Trouble>> {
    let mut font = 0;
    let mut last = None;
    for byte in text {
        if *byte == b'^' {
            font = 1;
            continue;
        }
        let n = if *byte == b'|' {
            heap.make(Kind::Kern, 0)?
        } else {
            let n = heap.make(Kind::Glyph, 0)?;
            set(heap, n, Field::Char, FieldValue::Number(i64::from(*byte)))?;
            set(heap, n, Field::Font, FieldValue::Number(font))?;
            n
        };
        if let Some(last) = last {
            set(heap, last, Field::Next, FieldValue::Link(Some(n)))?;
        }
        last = Some(n);
    }
    Ok(())
}

fn set(heap: &mut PlainHeap, n: u64, f: Field, v: FieldValue) -> Result<(), Fail<Trouble>> {
    heap.set(n, f, v).map_err(Fail::Is)
}

/// A node as a byte: a kern is `|`, a discretionary with a hyphen alone before its break `-`, and any other `?`.
fn byte_of(heap: &PlainHeap, contents: Contents) -> u8 {
    match contents {
        Contents::Glyph(g) => g.char,
        Contents::Kern(_) => b'|',
        Contents::Disc(d) => match d.pre {
            Some(pre) if d.post.is_none() && d.replace.is_none() => hyphen_of(heap, pre),
            _ => b'?',
        },
        _ => b'?',
    }
}

/// The code of a glyph that nothing follows.
fn hyphen_of(heap: &PlainHeap, n: u64) -> u8 {
    match heap.fields(n) {
        Ok(
            Fields {
                subtype: 0,
                next: None,
                contents: Contents::Glyph(g),
            },
        ) => g.char,
        _ => b'?',
    }
}

/// The list at node 1, byte by byte.
fn written(alloc: Global, heap: &PlainHeap) -> Result<Vec<u8>, Fail<Trouble>> {
    let mut text = Vec::new(alloc);
    let mut at = Some(1);
    for _ in 0..40 {
        let Some(n) = at else {
            break;
        };
        let fields = heap.fields(n).map_err(Fail::Is)?;
        text.push(byte_of(heap, fields.contents))?;
        at = fields.next;
    }
    Ok(text)
}

/// Parameters with these least numbers of letters before and after a hyphen, and this hyphen.
fn params_of(left: i64, right: i64, hyphen: i64) -> Params {
    let mut params = Params::plain();
    let _set = params.put(Param::Lefthyphenmin, left);
    let _set = params.put(Param::Righthyphenmin, right);
    let _set = params.put(Param::Hyphenchar, hyphen);
    params
}

/// One row: patterns, parameters, a list, and the list with its hyphens.
type Row<'a> = (&'a str, (i64, i64, i64), &'a str, &'a str);

#[test]
fn words_are_hyphenated_at_their_points(rt: HostRuntime) -> Result<(), test::Fail> {
    let rows: [Row; 14] = [
        ("f1f i1c", (2, 3, 45), "difficult", "dif-fi-cult"),
        ("b1b", (2, 3, 45), "aabbbb", "aab-bbb"),
        ("b1b", (2, 3, 45), "AABBBB", "AAB-BBB"),
        ("b1b", (2, 3, 45), "|aabbbb|", "|aab-bbb|"),
        ("b1b", (1, 1, 45), "bbbb", "b-b-b-b"),
        ("b1b", (2, 1, 45), "bbbb", "bb-b-b"),
        ("b1b", (1, 2, 45), "bbbb", "b-b-bb"),
        ("b1b", (1, 1, 45), "bb|bb", "b-b|b-b"),
        ("b1b", (2, 3, 45), "aab|bbb", "aab|bbb"),
        ("b1b", (1, 1, 45), "bb^bb", "b-bb-b"),
        ("b1b", (1, 1, 45), "b0b", "b0b"),
        ("b1b", (1, 1, 48), "bb", "b0b"),
        ("b1b", (1, 1, -1), "bbbb", "bbbb"),
        ("", (1, 1, 45), "bbbb", "bbbb"),
    ];
    for (patterns, (left, right, hyphen), list, wanted) in &rows {
        let patterns = read_patterns(rt.alloc(), patterns.as_bytes())?;
        let mut heap = PlainHeap::new(rt.alloc(), 1)?;
        list_of(&mut heap, list.as_bytes())?;
        let params = params_of(*left, *right, *hyphen);
        hyphenate(rt.alloc(), &mut heap, &patterns, &params, 1)?;
        let text = written(rt.alloc(), &heap)?;
        assert!(rt; text.as_slice() == wanted.as_bytes(), "{list}");
    }
    Ok(())
}

#[test]
fn a_disc_comes_before_its_hyphen(rt: HostRuntime) -> Result<(), test::Fail> {
    let patterns = read_patterns(rt.alloc(), b"b1b")?;
    let params = params_of(1, 1, 45);
    let mut heap = PlainHeap::new(rt.alloc(), 1)?;
    list_of(&mut heap, b"^bbb")?;
    heap.set_attr(1, 7, 10)?;
    heap.set_attr(2, 7, 20)?;
    heap.set_current(7, 30)?;
    hyphenate(rt.alloc(), &mut heap, &patterns, &params, 1)?;
    assert_eq!(rt; heap.get(1, Field::Next), Ok(FieldValue::Link(Some(4))));
    assert_eq!(rt; heap.kind_of(4), Ok((Kind::Disc, 3)));
    assert_eq!(rt; heap.get(4, Field::Pre), Ok(FieldValue::Link(Some(5))));
    assert_eq!(rt; heap.get(5, Field::Font), Ok(FieldValue::Number(1)));
    assert_eq!(rt; heap.get(4, Field::Next), Ok(FieldValue::Link(Some(2))));
    assert_eq!(rt; heap.attr(4, 7), Ok(Some(10)));
    assert_eq!(rt; heap.attr(5, 7), Ok(Some(10)));
    assert_eq!(rt; heap.get(2, Field::Next), Ok(FieldValue::Link(Some(6))));
    assert_eq!(rt; heap.attr(6, 7), Ok(Some(20)));
    assert_eq!(rt; heap.attr(7, 7), Ok(Some(20)));
    Ok(())
}

#[test]
fn a_refusal_leaves_what_was_made(rt: HostRuntime) -> Result<(), test::Fail> {
    let patterns = read_patterns(rt.alloc(), b"b1b")?;
    let params = params_of(1, 1, 45);
    let first = (1 << 48) - 3;
    let mut heap = PlainHeap::new(rt.alloc(), first)?;
    list_of(&mut heap, b"bb")?;
    let refused = hyphenate(rt.alloc(), &mut heap, &patterns, &params, first);
    assert_eq!(rt; refused, Err(Fail::Is(Trouble::NamesOut)));
    assert_eq!(rt;
        heap.get(first, Field::Next),
        Ok(FieldValue::Link(Some(first + 2)))
    );
    assert_eq!(rt; heap.get(first + 2, Field::Pre), Ok(FieldValue::Link(None)));
    let refused = hyphenate(rt.alloc(), &mut heap, &patterns, &params, 5);
    assert_eq!(rt; refused, Err(Fail::Is(Trouble::Stale(5))));
    set(
        &mut heap,
        first + 1,
        Field::Next,
        FieldValue::Link(Some(first)),
    )?;
    let refused = hyphenate(rt.alloc(), &mut heap, &patterns, &params, first);
    assert_eq!(rt; refused, Err(Fail::Is(Trouble::Loop(first))));
    Ok(())
}

#[test]
fn a_full_heap_keeps_what_was_made(rt: HostRuntime) -> Result<(), test::Fail> {
    let patterns = read_patterns(rt.alloc(), b"b1b")?;
    let params = params_of(1, 1, 45);
    let most = 1 << 18;
    let mut heap = PlainHeap::new(rt.alloc(), 1)?;
    list_of(&mut heap, b"bbb")?;
    for _ in 6..most {
        heap.make(Kind::Kern, 0)?;
    }
    assert_eq!(rt; heap.live(), most - 3);
    let refused = hyphenate(rt.alloc(), &mut heap, &patterns, &params, 1);
    assert_eq!(rt; refused, Err(Fail::Is(Trouble::NodesFull)));
    assert_eq!(rt; heap.live(), most);
    let text = written(rt.alloc(), &heap)?;
    assert!(rt; text.as_slice() == b"b-b?b".as_slice());
    assert_eq!(rt; heap.get(2, Field::Next), Ok(FieldValue::Link(Some(most))));
    assert_eq!(rt; heap.kind_of(most), Ok((Kind::Disc, 3)));
    assert_eq!(rt; heap.get(most, Field::Pre), Ok(FieldValue::Link(None)));
    Ok(())
}
