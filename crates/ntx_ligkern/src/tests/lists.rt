//! Lists written as text, and read back.

use ntx_nodes::{Contents, DiscFields, Field, FieldValue, Fields, Kind, Nodes, PlainHeap, Trouble};
use ntx_num::Fail;
use std::alloc::Global;

/// A list as it is made. A letter is a glyph of font 0, of font 1 after `^` and of font 2 after `~`; a digit is a
/// font's kern of 10 times that; `.` is a rule; and `[pre|post|replace]` is a discretionary with these lists. The nodes take one
/// name after another from `first` on, in the order in which they are written.
#[derive(Drop)]
struct Making {
    /// The node and the link that is to lead to what comes next.
    at: Option<(u64, Field)>,
    /// The discretionary in whose lists it is.
    disc: Option<u64>,
    /// Whether its post list has begun.
    is_behind: bool,
    /// The font of the next letter.
    font: i64,
}

fn set(heap: &mut PlainHeap, n: u64, f: Field, v: FieldValue) -> Result<(), Fail<Trouble>> {
    heap.set(n, f, v).map_err(Fail::Is)
}

/// Makes a node, and sets the link to it that is due.
fn made(
    heap: &mut PlainHeap,
    kind: Kind,
    subtype: u8,
    at: Option<(u64, Field)>,
) -> Result<u64, Fail<Trouble>> {
    let subtype = if subtype > 3 { 3 } else { subtype };
    let n = heap.make(kind, subtype)?;
    if let Some((at, field)) = at {
        set(heap, at, field, FieldValue::Link(Some(n)))?;
    }
    Ok(n)
}

impl Making {
    fn new() -> Making {
        Making {
            at: None,
            disc: None,
            is_behind: false,
            font: 0,
        }
    }

    fn begin_disc(&mut self, heap: &mut PlainHeap) -> Result<(), Fail<Trouble>> {
        let disc = made(heap, Kind::Disc, 3, self.at)?;
        self.at = Some((disc, Field::Pre));
        self.disc = Some(disc);
        self.is_behind = false;
        Ok(())
    }

    /// The next list of the discretionary, or its end.
    fn turn(&mut self, is_end: bool) {
        let Some(disc) = self.disc else {
            return;
        };
        let field = if is_end {
            Field::Next
        } else if self.is_behind {
            Field::Replace
        } else {
            Field::Post
        };
        self.is_behind = true;
        self.at = Some((disc, field));
    }

    fn put_glyph(&mut self, heap: &mut PlainHeap, code: u8) -> Result<(), Fail<Trouble>> {
        let n = made(heap, Kind::Glyph, 0, self.at)?;
        set(heap, n, Field::Char, FieldValue::Number(i64::from(code)))?;
        set(heap, n, Field::Font, FieldValue::Number(self.font))?;
        self.at = Some((n, Field::Next));
        self.font = 0;
        Ok(())
    }

    fn put_kern(&mut self, heap: &mut PlainHeap, digit: u8) -> Result<(), Fail<Trouble>> {
        let n = made(heap, Kind::Kern, 0, self.at)?;
        let width = i64::from(digit.wrapping_sub(b'0')) * 10;
        set(heap, n, Field::Kern, FieldValue::Number(width))?;
        self.at = Some((n, Field::Next));
        Ok(())
    }

    fn put_rule(&mut self, heap: &mut PlainHeap) -> Result<(), Fail<Trouble>> {
        let n = made(heap, Kind::Rule, 0, self.at)?;
        self.at = Some((n, Field::Next));
        Ok(())
    }

    fn put(&mut self, heap: &mut PlainHeap, byte: u8) -> Result<(), Fail<Trouble>> {
        match byte {
            b'[' => self.begin_disc(heap)?,
            b'|' => self.turn(false),
            b']' => self.turn(true),
            b'^' => self.font = 1,
            b'~' => self.font = 2,
            b'.' => self.put_rule(heap)?,
            b'1'..=b'9' => self.put_kern(heap, byte)?,
            _ => self.put_glyph(heap, byte)?,
        }
        Ok(())
    }
}

/// Makes the list that a text writes.
pub(crate) fn make_list(heap: &mut PlainHeap, text: &[u8]) -> Result<(), Fail<Trouble>> {
    let mut making = Making::new();
    for byte in text {
        making.put(heap, *byte)?;
    }
    Ok(())
}

/// Writes a node without lists: a ligature has `'` after it, a font's kern of 10 times a digit is that digit, and what no
/// pass makes is `?`.
fn write_node(out: &mut Vec<u8>, fields: Fields) -> Result<(), Fail<Trouble>> {
    match fields.contents {
        Contents::Glyph(g) => {
            if g.font == 1 {
                out.push(b'^')?;
            }
            if g.font > 1 {
                out.push(b'~')?;
            }
            out.push(g.char)?;
            if fields.subtype == 2 {
                out.push(b'\'')?;
            }
        }
        Contents::Kern(w) if fields.subtype == 0 && w >= 10 && w <= 90 && w % 10 == 0 => {
            out.push(b'0'.wrapping_add((w / 10) as u8))?;
        }
        Contents::Rule(_) => out.push(b'.')?,
        _ => out.push(b'?')?,
    }
    Ok(())
}

/// Writes a list without discretionaries.
fn write_part(heap: &PlainHeap, out: &mut Vec<u8>, to: Option<u64>) -> Result<(), Fail<Trouble>> {
    let mut at = to;
    for _ in 0..60 {
        let Some(n) = at else {
            break;
        };
        let fields = heap.fields(n).map_err(Fail::Is)?;
        write_node(out, fields)?;
        at = fields.next;
    }
    Ok(())
}

fn write_disc(heap: &PlainHeap, out: &mut Vec<u8>, d: DiscFields) -> Result<(), Fail<Trouble>> {
    out.push(b'[')?;
    write_part(heap, out, d.pre)?;
    out.push(b'|')?;
    write_part(heap, out, d.post)?;
    out.push(b'|')?;
    write_part(heap, out, d.replace)?;
    out.push(b']')?;
    Ok(())
}

/// The list at a head as text.
pub(crate) fn written(
    alloc: Global,
    heap: &PlainHeap,
    head: u64,
) -> Result<Vec<u8>, Fail<Trouble>> {
    let mut out = Vec::new(alloc);
    let mut at = Some(head);
    for _ in 0..60 {
        let Some(n) = at else {
            break;
        };
        let fields = heap.fields(n).map_err(Fail::Is)?;
        match fields.contents {
            Contents::Disc(d) => write_disc(heap, &mut out, d)?,
            _ => write_node(&mut out, fields)?,
        }
        at = fields.next;
    }
    Ok(out)
}
