//! The pieces of lists and of the boxes in them.

ghost use Rattle.std.specs.Prelude.{◌≡◌, ◌≤◌, ◌+◌, ◌-◌, ◌++◌, ◌^◌, ℕ, List, ◌+ℤ◌, ◌∷◌, [], length, unsigned_abs, unwrap_or, Ok, All, IfOk, OnOk};
ghost use Rattle.ntx_num.specs.Answer.{Answers, result_map};
ghost use Rattle.ntx_num.specs.Dimension.{IsDimension};
ghost use Rattle.ntx_pack.specs.Output.{IsRatio};
ghost use Rattle.ntx_view.specs.Measured.{HasMeasures};
ghost use Rattle.ntx_view.specs.View.{char_size, no_size};
ghost use Rattle.ntx_ship.specs.declared.piece.Piece.{Piece};
ghost use Rattle.ntx_ship.specs.declared.piece.Piece.TheVariants.{Push};
ghost use Rattle.ntx_ship.specs.inner.Adding.{Adds, closed};
ghost use Rattle.ntx_ship.specs.Placed.{glyph_mark, rule_mark, corner, grouped, node_pieces, row_pieces, row_at, list_pieces, Pieces};
ghost use Rattle.ntx_ship.specs.inner.Reach.{IsPlaced, StandsWithin, reach};

use crate::list::{Inside, in_hlist, in_part, in_vlist};
use crate::mark::{glyph_mark, rule_mark};
use crate::piece::Piece;
use crate::place::{Place, sum};
use crate::station::{Station, stations};
use ntx_nodes::{Contents, GlyphFields, ListKind, Nodes, RuleFields, Trouble, Way, names_reached};
use ntx_num::{Fail, NoMemory};
use ntx_pack::Direction;
use ntx_tfm::Font;
use ntx_view::{char_size, items};
use std::alloc::Global;

/// Puts a mark at the end of the pieces, or refuses as it was refused.
#[tactic(auto, using(crate::proofs::Adds::adds_one, crate::proofs::Adds::adds_error, crate::proofs::Adds::adds_no_memory))]
fn add(pieces: &mut Vec<Piece>, mark: Result<Piece, Trouble>) -> Result<(), Fail<Trouble>>
    ensures { Adds result pieces.old.items pieces.new.items (result_map (λ piece. piece ∷ []) mark) }
{
    match mark {
        Ok(piece) => match pieces.push(piece) {
            Ok(()) => Ok(()),
            Err(_) => Err(Fail::NoMemory),
        },
        Err(why) => Err(Fail::Is(why)),
    }
}

/// The width of a character, or 0 if it is not there.
fn width_of(fonts: &[Font], g: GlyphFields) -> i64
    ensures value { result ≡ (unwrap_or (char_size fonts.now g) no_size).w }
    ensures dimension { IsDimension result }
{
    match char_size(fonts, g.font, g.char) {
        Some(size) => size.w,
        None => 0,
    }
}

/// Puts a character at the end of the pieces.
fn place_glyph(
    fonts: &[Font],
    g: GlyphFields,
    here: Place,
    pieces: &mut Vec<Piece>,
) -> Result<(), Fail<Trouble>>
    requires { IsPlaced (2 ^ 61) here }
    ensures { Adds result pieces.old.items pieces.new.items (glyph_mark here g (unwrap_or (char_size fonts.now g) no_size).w) }
{
    let width = width_of(fonts, g);
    add(pieces, glyph_mark(here, g, width))
}

/// Puts a rule whose left lower corner is here at the end of the pieces, unless it has no width or no height.
#[tactic(auto, using(crate::proofs::Adds::no_width, crate::proofs::Adds::no_height, crate::proofs::Adds::adds_as))]
fn add_rule(
    here: Place,
    height: i64,
    width: i64,
    pieces: &mut Vec<Piece>,
) -> Result<(), Fail<Trouble>>
    requires place { IsPlaced (2 ^ 61) here }
    requires height { unsigned_abs height ≤ 2147483646 }
    requires width { IsDimension width }
    ensures { Adds result pieces.old.items pieces.new.items (rule_mark here height width) }
{
    if width <= 0 {
        return Ok(());
    }
    if height <= 0 {
        return Ok(());
    }
    add(pieces, rule_mark(here, height, width))
}

/// Puts a rule that stands here in a list of this direction at the end of the pieces.
fn place_rule(
    direction: Direction,
    r: RuleFields,
    here: Place,
    pieces: &mut Vec<Piece>,
) -> Result<(), Fail<Trouble>>
    requires place { IsPlaced (2 ^ 60) here }
    requires measured { HasMeasures (Contents.Rule r) }
    ensures { Adds result pieces.old.items pieces.new.items (rule_mark (corner direction r here) (r.height +ℤ r.depth) r.width) }
{
    let corner = here.corner(direction, r);
    let height = sum(r.height, r.depth);
    add_rule(corner, height, r.width, pieces)
}

/// Ends a box: appends its pop, or removes its push if nothing was added after it.
fn close(pieces: &mut Vec<Piece>, full: usize) -> Result<(), NoMemory>
    ensures { OnOk result (pieces.new.items ≡ closed full pieces.old.items) }
{
    if pieces.len() == full {
        let _push = pieces.pop();
        return Ok(());
    }
    Ok(pieces.push(Piece::Pop)?)
}

/// Ends a box that began where the pieces were as many as this, or refuses as the list in it was refused.
fn end_box(
    pieces: &mut Vec<Piece>,
    full: usize,
    inner: Result<(), Fail<Trouble>>,
) -> Result<(), Fail<Trouble>>
    ensures { (old : List Piece) (list : Pieces) → full ≡ length (old ++ Push ∷ []) → Adds inner (old ++ Push ∷ []) pieces.old.items list → Adds result old pieces.new.items (result_map grouped list) }
{
    match inner {
        Ok(()) => match close(pieces, full) {
            Ok(()) => Ok(()),
            Err(_) => Err(Fail::NoMemory),
        },
        Err(why) => Err(why),
    }
}

/// Puts what stands in a box at the end of the pieces, between push and pop if it holds a piece.
#[cycle(placing)]
#[tactic(auto, using(crate::proofs::Adds::adds_no_memory))]
fn place_box<N: Nodes>(
    alloc: Global,
    nodes: &mut N,
    fonts: &[Font],
    inside: Inside,
    here: Place,
    levels: u64,
    pieces: &mut Vec<Piece>,
) -> Result<(), Fail<Trouble>>
    requires levels { levels ≤ 101 }
    requires place { IsPlaced (reach levels) here }
    requires glue { IsRatio inside.glue }
    ensures same { N.heap nodes.new ≡ N.heap nodes.old }
    ensures adds { Adds result pieces.old.items pieces.new.items (result_map grouped (list_pieces (N.heap nodes.old) fonts.now levels inside here)) }
{
    if pieces.push(Piece::Push).is_err() {
        return Err(Fail::NoMemory);
    }
    let full = pieces.len();
    let inner = place_list(alloc, nodes, fonts, inside, here, levels, pieces);
    end_box(pieces, full, inner)
}

/// Puts a node at the end of the pieces, which is in a list that has so many levels of lists, itself included.
#[cycle(placing)]
fn place_node<N: Nodes>(
    alloc: Global,
    nodes: &mut N,
    fonts: &[Font],
    direction: Direction,
    station: Station,
    levels: u64,
    pieces: &mut Vec<Piece>,
) -> Result<(), Fail<Trouble>>
    requires least { 1 ≤ levels }
    requires most { levels ≤ 101 }
    requires station { StandsWithin (reach levels + 2 ^ 51) station }
    ensures same { N.heap nodes.new ≡ N.heap nodes.old }
    ensures adds { Adds result pieces.old.items pieces.new.items (node_pieces fonts.now (list_pieces (N.heap nodes.old) fonts.now (levels - 1)) direction station.contents station.here) }
{
    let here = station.here;
    let lower = levels - 1;
    match station.contents {
        Contents::Hlist(b) => {
            let at = here.reference(direction, b);
            place_box(alloc, nodes, fonts, in_hlist(b), at, lower, pieces)
        }
        Contents::Vlist(b) => {
            let at = here.reference(direction, b).top(b);
            place_box(alloc, nodes, fonts, in_vlist(b), at, lower, pieces)
        }
        Contents::Rule(r) => place_rule(direction, r, here, pieces),
        Contents::Glyph(g) => place_glyph(fonts, g, here, pieces),
        Contents::Disc(d) => {
            let part = in_part(d.replace);
            place_list(alloc, nodes, fonts, part, here, lower, pieces)
        }
        _ => Ok(()),
    }
}

/// Appends the pieces of these stations. Their list has so many levels, itself included.
#[cycle(placing)]
#[tactic(auto, using(crate::proofs::Adds::row_ended))]
fn place_row<N: Nodes>(
    alloc: Global,
    nodes: &mut N,
    fonts: &[Font],
    direction: Direction,
    row: &[Station],
    levels: u64,
    pieces: &mut Vec<Piece>,
) -> Result<(), Fail<Trouble>>
    requires least { 1 ≤ levels }
    requires most { levels ≤ 101 }
    requires row { All (StandsWithin (reach levels + 2 ^ 51)) row.now }
    ensures same { N.heap nodes.new ≡ N.heap nodes.old }
    ensures adds { Adds result pieces.old.items pieces.new.items (row_pieces fonts.now (list_pieces (N.heap nodes.old) fonts.now (levels - 1)) direction row.now) }
{
    for station in row {
        place_node(alloc, nodes, fonts, direction, *station, levels, pieces)?;
    }
    Ok(())
}

/// Where the nodes of a list stand that begins here.
fn row_of<N: Nodes>(
    alloc: Global,
    nodes: &mut N,
    fonts: &[Font],
    inside: Inside,
    here: Place,
) -> Result<Vec<Station>, Fail<Trouble>>
    requires place { IsPlaced (2 ^ 60) here }
    requires glue { IsRatio inside.glue }
    ensures same { N.heap nodes.new ≡ N.heap nodes.old }
    ensures answer { Answers (result_map (λ all. all.items) result) (row_at (N.heap nodes.old) fonts.now inside here) }
    ensures within { IfOk result (λ all. (most : ℕ) → IsPlaced most here → All (StandsWithin (most + 2 ^ 51)) all.items) }
{
    let seen = items(alloc, nodes, fonts, inside.head, inside.kind)?;
    let names = names_reached(alloc, nodes, Way::Flat, inside.head, ListKind::H)?;
    stations(alloc, nodes, inside, &names, &seen, here)
}

/// Puts a list that begins here at the end of the pieces, with at most so many levels of lists, itself included.
#[cycle(placing)]
pub fn place_list<N: Nodes>(
    alloc: Global,
    nodes: &mut N,
    fonts: &[Font],
    inside: Inside,
    here: Place,
    levels: u64,
    pieces: &mut Vec<Piece>,
) -> Result<(), Fail<Trouble>>
    requires levels { levels ≤ 101 }
    requires place { IsPlaced (reach levels) here }
    requires glue { IsRatio inside.glue }
    ensures same { N.heap nodes.new ≡ N.heap nodes.old }
    ensures adds { Adds result pieces.old.items pieces.new.items (list_pieces (N.heap nodes.old) fonts.now levels inside here) }
{
    if levels == 0 {
        return Err(Fail::Is(Trouble::Nest));
    }
    let row = row_of(alloc, nodes, fonts, inside, here)?;
    place_row(alloc, nodes, fonts, inside.direction, &row, levels, pieces)
}
