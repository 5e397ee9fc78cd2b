//! Pages.

ghost use Rattle.std.specs.Prelude.{◌≡◌, ◌+ℤ◌, IfOk};
ghost use Rattle.ntx_num.specs.Answer.{Answers, result_map};
ghost use Rattle.ntx_num.specs.Dimension.{IsDimension};
ghost use Rattle.ntx_pack.specs.Output.{IsRatio};
ghost use Rattle.ntx_ship.specs.Drawable.{AreDrawable};
ghost use Rattle.ntx_ship.specs.Placed.{list_pieces, max_levels, page_in, placed};
ghost use Rattle.ntx_ship.specs.inner.Reach.{IsPlaced, HasRanges, list_reach};

use crate::list::{Inside, in_hlist, in_vlist};
use crate::piece::Piece;
use crate::place::{CORNER, Place, narrowed, sum};
use crate::placing::place_list;
use crate::station::contents_of;
use ntx_nodes::{BoxFields, Contents, ListKind, Nodes, Trouble};
use ntx_num::Fail;
use ntx_tfm::Font;
use ntx_view::items;
use std::alloc::Global;
use std::marker::Model;

/// A page and where its marks stand. Contracts see its total, its width and the list of its pieces.
#[derive(Debug, Drop)]
pub struct PlacedPage {
    total: i32,
    width: i32,
    pieces: Vec<Piece>,
}

impl Model for PlacedPage {
    ghost use Rattle.ntx_ship.specs.Placed.{Page};

    ghost Value = { Page };

    ghost view = { λ p. record { total = p.total; width = p.width; pieces = p.pieces.items } };
}

impl PlacedPage {
    /// The height and the depth of the page together, in scaled points.
    pub fn total(&self) -> i32
        ensures { result ≡ self.now.total }
    {
        self.total
    }

    /// The width of the page in scaled points.
    pub fn width(&self) -> i32
        ensures { result ≡ self.now.width }
    {
        self.width
    }

    /// The pieces of the page, in the order in which they are written.
    pub fn pieces(&self) -> &[Piece]
        ensures { result.now ≡ self.now.pieces }
    {
        self.pieces.as_slice()
    }
}

/// The levels of lists that a page may have whose lists are accepted.
const LEVELS: u64 = 101;

/// The pieces of the list in a page's box, which begins here.
fn page_pieces<N: Nodes>(
    alloc: Global,
    nodes: &mut N,
    fonts: &[Font],
    inside: Inside,
    here: Place,
) -> Result<Vec<Piece>, Fail<Trouble>>
    requires place { IsPlaced list_reach here }
    requires glue { IsRatio inside.glue }
    ensures same { N.heap nodes.new ≡ N.heap nodes.old }
    ensures answer { Answers (result_map (λ pieces. pieces.items) result) (list_pieces (N.heap nodes.old) fonts.now max_levels inside here) }
    ensures drawable { IfOk result (λ pieces. AreDrawable 0 pieces.items) }
{
    nodes.lawful();
    let mut pieces = Vec::new(alloc);
    place_list(alloc, nodes, fonts, inside, here, LEVELS, &mut pieces)?;
    Ok(pieces)
}

/// A page that is as large as this box, with these pieces.
fn page_of(b: BoxFields, pieces: Vec<Piece>) -> PlacedPage
    requires height { IsDimension b.height }
    requires depth { IsDimension b.depth }
    requires width { IsDimension b.width }
    ensures { result ≡ record { total = b.height +ℤ b.depth; width = b.width; pieces = pieces.items } }
{
    PlacedPage {
        total: narrowed(sum(b.height, b.depth)),
        width: narrowed(b.width),
        pieces,
    }
}

/// A box as a page.
fn page_in<N: Nodes>(
    alloc: Global,
    nodes: &mut N,
    fonts: &[Font],
    page: u64,
    contents: Contents,
) -> Result<PlacedPage, Fail<Trouble>>
    requires { HasRanges contents }
    ensures same { N.heap nodes.new ≡ N.heap nodes.old }
    ensures answer { Answers result (page_in (list_pieces (N.heap nodes.old) fonts.now max_levels) page contents) }
    ensures drawable { IfOk result (λ page. AreDrawable 0 page.pieces) }
{
    match contents {
        Contents::Hlist(b) => {
            let here = Place { h: 0, v: b.height };
            let pieces = page_pieces(alloc, nodes, fonts, in_hlist(b), here)?;
            Ok(page_of(b, pieces))
        }
        Contents::Vlist(b) => {
            let pieces = page_pieces(alloc, nodes, fonts, in_vlist(b), CORNER)?;
            Ok(page_of(b, pieces))
        }
        _ => Err(Fail::Is(Trouble::WrongKind(page))),
    }
}

/// Where the marks of a page stand ("TeX: The Program", sections 619 to 641). `page` is an hlist or a vlist, and its upper left corner is the corner
/// of the page; its own shift is not looked at. The number of a glyph's font is its place in `fonts`, counted from 0.
///
/// # Refusals
///
/// - Those of `items` of `ntx_view`: what a walk from `page` through its lists and along what follows it refuses, and then `NoChar`.
/// - `WrongKind` if `page` is no box.
/// - `Dimension` if the place of a mark, or the end of its width, is beyond 2^30 - 1 scaled points in absolute value.
pub fn placed<N: Nodes>(
    alloc: Global,
    nodes: &mut N,
    fonts: &[Font],
    page: u64,
) -> Result<PlacedPage, Fail<Trouble>>
    ensures same { N.heap nodes.new ≡ N.heap nodes.old }
    ensures answer { Answers result (placed (N.heap nodes.old) fonts.now page) }
    ensures drawable { IfOk result (λ page. AreDrawable 0 page.pieces) }
{
    let _seen = items(alloc, nodes, fonts, Some(page), ListKind::H)?;
    match contents_of(nodes, page) {
        Ok(contents) => page_in(alloc, nodes, fonts, page, contents),
        Err(why) => Err(Fail::Is(why)),
    }
}
