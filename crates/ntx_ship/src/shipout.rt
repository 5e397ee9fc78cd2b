//! Shipping pages.

ghost use Rattle.std.specs.Prelude.{◌≡◌, ◌+◌, pos, Some, Ok, OnOk, IsOk};
ghost use Rattle.ntx_nodes.specs.Walk.{plain_walk};
ghost use Rattle.ntx_lists.specs.Trees.{flush_list_step};
ghost use Rattle.ntx_dvi.specs.Fonts.{AreKnown};
ghost use Rattle.ntx_dvi.specs.Writer.{IsBetweenPages};
ghost use Rattle.ntx_ship.specs.Operations.{definition_at};
ghost use Rattle.ntx_ship.specs.Shipping.{Ships, FreesAs, operations_of};
ghost use Rattle.ntx_ship.specs.inner.Refusals.{refused_as, full_as};

use crate::fault::ShipFault;
use crate::page::placed;
use crate::write::write_page;
use ntx_dvi::{Dvi, DviFull};
use ntx_lists::flush_list;
use ntx_nodes::{Nodes, Trouble};
use ntx_num::Fail;
use ntx_tfm::Font;
use std::alloc::Global;

/// The number of the next page.
fn next_number(dvi: &Dvi) -> i32
    ensures { result ≡ pos (dvi.now.progress.pages + 1) }
{
    (dvi.pages() + 1) as i32
}

/// A refusal of the page.
fn refused(why: Fail<Trouble>) -> Fail<ShipFault>
    ensures { result ≡ refused_as why }
{
    match why {
        Fail::Is(why) => Fail::Is(ShipFault::Trouble(why)),
        Fail::NoMemory => Fail::NoMemory,
    }
}

/// A refusal of the DVI file.
fn full(why: Fail<DviFull>) -> Fail<ShipFault>
    ensures { result ≡ full_as why }
{
    match why {
        Fail::Is(_) => Fail::Is(ShipFault::DviFull),
        Fail::NoMemory => Fail::NoMemory,
    }
}

/// Frees the nodes of a page that was written.
fn free_page<N: Nodes>(nodes: &mut N, page: u64)
    requires { IsOk (plain_walk (N.heap nodes.old) (Some page)) }
    ensures { flush_list_step (Some page) (N.heap nodes.old) ≡ Ok (tt, N.heap nodes.new) }
{
    match flush_list(nodes, Some(page)) {
        Ok(()) => {}
        Err(_) => {}
    }
}

/// Ships a page ("TeX: The Program", sections 638 to 640): writes it into a DVI file, and frees its nodes. `page` is an hlist or a vlist, and
/// nothing follows it. The page's number is one more than the number of the page before; the first has the number 1. The number of a glyph's font is its place in
/// `fonts`. `dvi` is between pages, and each font that it has defined is the one that `fonts` has at that number.
///
/// # Refusals
///
/// - `Trouble`: those of [`placed`]. Then nothing is written.
/// - `DviFull`: the next operation of the page would end past the limit on the length of the DVI file. The operations before it stay
///   written.
///
/// After a refusal, and if memory runs out, the nodes are as they were. If memory runs out a prefix of the operations is written.
pub fn ship<N: Nodes>(
    alloc: Global,
    nodes: &mut N,
    fonts: &[Font],
    page: u64,
    dvi: &mut Dvi,
) -> Result<(), Fail<ShipFault>>
    requires between { IsBetweenPages dvi.old }
    requires known { AreKnown dvi.old.progress.fonts (definition_at fonts.now) }
    ensures dvi { Ships result dvi.old dvi.new (operations_of (N.heap nodes.old) fonts.now page dvi.old.progress) }
    ensures heap { FreesAs result (N.heap nodes.old) (N.heap nodes.new) (flush_list_step (Some page) (N.heap nodes.old)) }
    ensures between { OnOk result (IsBetweenPages dvi.new) }
    ensures known { AreKnown dvi.new.progress.fonts (definition_at fonts.now) }
{
    let placed = match placed(alloc, nodes, fonts, page) {
        Ok(placed) => placed,
        Err(why) => return Err(refused(why)),
    };
    let number = next_number(dvi);
    match write_page(alloc, dvi, fonts, number, &placed) {
        Ok(()) => {
            free_page(nodes, page);
            Ok(())
        }
        Err(why) => Err(full(why)),
    }
}
