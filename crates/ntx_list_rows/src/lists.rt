//! Lists as texts.

use ntx_nodes::{Contents, DiscFields, Field, FieldValue, Kind, Nodes, PlainHeap, Trouble};
use ntx_num::Fail;
use std::alloc::Global;

/// Makes a list of the glyphs of a text in font 0, whose nodes take the names from 1 on.
pub fn put_text(heap: &mut PlainHeap, text: &str) -> Result<(), Fail<Trouble>> {
    let mut last = None;
    for code in text.as_bytes() {
        let n = heap.make(Kind::Glyph, 0)?;
        heap.set(n, Field::Char, FieldValue::Number(i64::from(*code)))
            .map_err(Fail::Is)?;
        if let Some(last) = last {
            heap.set(last, Field::Next, FieldValue::Link(Some(n)))
                .map_err(Fail::Is)?;
        }
        last = Some(n);
    }
    Ok(())
}

/// Writes a list without discretionaries: a glyph is its character, a font's kern of -40960 is `<`, and any other node `?`.
fn write_part(heap: &PlainHeap, head: Option<u64>, out: &mut Vec<u8>) -> Result<(), Fail<Trouble>> {
    let mut at = head;
    for _ in 0..40 {
        let Some(n) = at else {
            break;
        };
        let fields = heap.fields(n).map_err(Fail::Is)?;
        let byte = match fields.contents {
            Contents::Glyph(g) => g.char,
            Contents::Kern(-40960) if fields.subtype == 0 => b'<',
            _ => b'?',
        };
        out.push(byte)?;
        at = fields.next;
    }
    Ok(())
}

/// Writes a discretionary as `[pre|post|replace]`.
fn write_disc(heap: &PlainHeap, d: DiscFields, out: &mut Vec<u8>) -> Result<(), Fail<Trouble>> {
    out.push(b'[')?;
    write_part(heap, d.pre, out)?;
    out.push(b'|')?;
    write_part(heap, d.post, out)?;
    out.push(b'|')?;
    write_part(heap, d.replace, out)?;
    out.push(b']')?;
    Ok(())
}

/// The list at a head as a text.
pub fn written(alloc: Global, heap: &PlainHeap, head: u64) -> Result<Vec<u8>, Fail<Trouble>> {
    let mut out = Vec::new(alloc);
    let mut at = Some(head);
    for _ in 0..40 {
        let Some(n) = at else {
            break;
        };
        let fields = heap.fields(n).map_err(Fail::Is)?;
        match fields.contents {
            Contents::Disc(d) => write_disc(heap, d, &mut out)?,
            Contents::Glyph(g) => out.push(g.char)?,
            Contents::Kern(-40960) if fields.subtype == 0 => out.push(b'<')?,
            _ => out.push(b'?')?,
        }
        at = fields.next;
    }
    Ok(out)
}
