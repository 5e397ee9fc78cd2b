//! Where the nodes of a list stand.

ghost use Rattle.std.specs.Prelude.{◌≡◌, ◌+◌, ◌^◌, pos, ℕ, List, length, Ok, All, IfOk};
ghost use Rattle.ntx_num.specs.Answer.{Answers, result_map};
ghost use Rattle.ntx_nodes.specs.Steps.{at};
ghost use Rattle.ntx_tfm.specs.Font.{FontTables};
ghost use Rattle.ntx_item.specs.Items.{AreItemsInRange};
ghost use Rattle.ntx_pack.specs.Output.{IsRatio};
ghost use Rattle.ntx_view.specs.Measured.{IsMeasured};
ghost use Rattle.ntx_ship.specs.Placed.{stations};
ghost use Rattle.ntx_ship.specs.inner.Reach.{IsPlaced, HasRanges, StandsWithin, AreItemsOf};

use crate::list::Inside;
use crate::place::Place;
use crate::size::set_size;
use ntx_item::Item;
use ntx_nodes::{Contents, Nodes, Trouble};
use ntx_num::Fail;
use ntx_pack::GlueSetter;
use std::alloc::Global;

/// A node of a list and where it stands.
#[derive(Clone, Copy)]
pub struct Station {
    /// What the node holds.
    pub contents: Contents,
    /// Where it begins.
    pub here: Place,
}

/// What a node holds.
pub fn contents_of<N: Nodes>(nodes: &N, n: u64) -> Result<Contents, Trouble>
    ensures value { result ≡ at (N.heap nodes.now) n (λ node. Ok node.fields.contents) }
    ensures ranges { IfOk result HasRanges }
{
    nodes.lawful();
    match nodes.fields(n) {
        Ok(fields) => Ok(fields.contents),
        Err(why) => Err(why),
    }
}

/// Where the nodes of these names stand, which have these items, from a place on.
pub fn stations<N: Nodes>(
    alloc: Global,
    nodes: &N,
    inside: Inside,
    names: &[u64],
    items: &[Item],
    here: Place,
) -> Result<Vec<Station>, Fail<Trouble>>
    requires place { IsPlaced (2 ^ 60) here }
    requires glue { IsRatio inside.glue }
    requires count { length items.now ≡ length names.now }
    requires in_range { AreItemsInRange items.now }
    requires measured { All IsMeasured items.now }
    ensures answer { (fonts : List FontTables) → AreItemsOf (N.heap nodes.now) fonts names.now items.now → Answers (result_map (λ all. all.items) result) (stations (N.heap nodes.now) fonts inside names.now (pos 0) here) }
    ensures within { IfOk result (λ all. (most : ℕ) → IsPlaced most here → All (StandsWithin (most + 2 ^ 51)) all.items) }
{
    let mut all = Vec::new(alloc);
    let mut setter = GlueSetter::new(inside.glue);
    let mut at = here;
    for i in 0..names.len() {
        let contents = match contents_of(nodes, names[i]) {
            Ok(contents) => contents,
            Err(why) => return Err(Fail::Is(why)),
        };
        all.push(Station { contents, here: at })?;
        at = at.moved(
            inside.direction,
            set_size(&mut setter, inside.direction, &items[i]),
        );
    }
    Ok(all)
}
