//! A heap that keeps each node as a record of its own.

ghost use Rattle.std.specs.Prelude.{◌≡◌, ◌<◌, ◌^◌, IfOk};
ghost use Rattle.std.specs.FinSet as set;
ghost use Rattle.ntx_nodes.specs.Steps.{empty_heap, next_name, linkable, changed};

use crate::table::Table;
use crate::{Attributes, Field, FieldValue, Fields, Kind, Node, Nodes, Ratio, Trouble};
use ntx_num::{Fail, MAX_NODES, NoMemory};
use std::alloc::Global;
use std::marker::Model;

/// Names are below it.
const NAME_LIMIT: u64 = 1 << 48;

/// A heap of nodes, each kept as a record with attributes of its own. It is seen as the heap that it is, and the names
/// visited since the walk began.
#[derive(Drop)]
pub struct PlainHeap {
    alloc: Global,
    next: u64,
    table: Table,
    current: Attributes,
}

impl Model for PlainHeap {
    ghost use Rattle.ntx_nodes.specs.Table.{MarkedHeap};

    ghost Value = { MarkedHeap };

    ghost use Rattle.std.specs.Prelude.{ℕ, refl};
    ghost use Rattle.std.specs.Ordering.{nat_cmp};
    ghost use Rattle.std.specs.Coded.{code_by, coded×, coded_ℕ, coded_ℤ};
    ghost use Rattle.std.specs.FinMap as map;
    ghost use Rattle.std.specs.FinSet as set;
    ghost use Rattle.ntx_nodes.specs.Heap.{Attributes, Names, IsLawful};
    ghost use Rattle.ntx_nodes.specs.declared.node.Node.{Node};
    ghost use Rattle.ntx_nodes.specs.contracts.node.Node as node;

    ghost coded = { code_by (ℕ × (map.FinMap nat_cmp Node × (Attributes × Names))) (coded× coded_ℕ (coded× (map.code coded_ℕ node.the_row.coded) (coded× (map.code coded_ℤ coded_ℤ) (set.code coded_ℕ)))) (λ k. (k.heap.next, (k.heap.nodes, (k.heap.current, k.visited)))) (λ p. record { heap = record { next = p.0; nodes = p.1.0; current = p.1.1.0 }; visited = p.1.1.1 }) (λ _. refl) };

    ghost view = { λ a. record { heap = record { next = a.next; nodes = a.table.nodes; current = a.current }; visited = a.table.visited } };

    ghost invariant = { λ a. IsLawful (record { next = a.next; nodes = a.table.nodes; current = a.current }) };
}

impl PlainHeap {
    /// An empty heap whose next name is `first`, which has to be below 2^48.
    pub fn new(alloc: Global, first: u64) -> Result<PlainHeap, NoMemory>
        requires { first < 2 ^ 48 }
        ensures heap { IfOk result (λ made. made.heap ≡ empty_heap first) }
        ensures visited { IfOk result (λ made. made.visited ≡ set.empty) }
    {
        Ok(PlainHeap {
            alloc,
            next: first,
            table: Table::new(alloc),
            current: Attributes::new(alloc),
        })
    }

    /// The name that a making takes, or why there is none.
    fn next_name(&self) -> Result<u64, Trouble>
        ensures { result ≡ next_name self.now.heap }
    {
        if self.table.len() >= MAX_NODES {
            Err(Trouble::NodesFull)
        } else if self.next >= NAME_LIMIT {
            Err(Trouble::NamesOut)
        } else {
            Ok(self.next)
        }
    }

    /// Refuses a link to a node that is not live.
    fn linkable(&self, v: FieldValue) -> Result<(), Trouble>
        ensures { result ≡ linkable self.now.heap v }
    {
        match v {
            FieldValue::Link(Some(m)) if !self.table.is_live(m) => Err(Trouble::Stale(m)),
            _ => Ok(()),
        }
    }

    /// The fields with a value in one of them, or why it may not be there.
    fn changed(&self, fields: Fields, f: Field, v: FieldValue) -> Result<Fields, Trouble>
        ensures { result ≡ changed self.now.heap fields f v }
    {
        let written = fields.with(f, v)?;
        self.linkable(v)?;
        Ok(written)
    }
}

impl Nodes for PlainHeap {
    ghost use Rattle.std.specs.Prelude.{ℕ, Bool, true};
    ghost use Rattle.ntx_nodes.specs.Heap.{Heap, Names};

    ghost heap = { λ s. s.heap };

    ghost visited = { λ s. s.visited };

    ghost spare_of = { λ s kind. 0 };

    ghost copies = { true };

    fn make(&mut self, kind: Kind, subtype: u8) -> Result<u64, Fail<Trouble>> {
        let n = self.next_name().map_err(Fail::Is)?;
        self.table.add(n, Node::new(self.alloc, kind, subtype))?;
        self.next += 1;
        Ok(n)
    }

    fn copy_one(&mut self, n: u64) -> Result<u64, Fail<Trouble>> {
        if !self.table.is_live(n) {
            return Err(Fail::Is(Trouble::Stale(n)));
        }
        let name = self.next_name().map_err(Fail::Is)?;
        let node = self.table.copy_of(n)?;
        self.table.add(name, node)?;
        self.next += 1;
        Ok(name)
    }

    fn free_one(&mut self, n: u64) -> Result<(), Trouble> {
        if !self.table.is_live(n) {
            return Err(Trouble::Stale(n));
        }
        self.table.remove(n);
        Ok(())
    }

    fn kind_of(&self, n: u64) -> Result<(Kind, u8), Trouble> {
        let fields = self.table.fields(n)?;
        Ok((fields.contents.kind(), fields.subtype))
    }

    fn fields(&self, n: u64) -> Result<Fields, Trouble> {
        self.table.fields(n)
    }

    fn get(&self, n: u64, f: Field) -> Result<FieldValue, Trouble> {
        self.table.fields(n)?.field(f)
    }

    fn set(&mut self, n: u64, f: Field, v: FieldValue) -> Result<(), Trouble> {
        let fields = self.table.fields(n)?;
        match self.changed(fields, f, v) {
            Ok(written) => {
                self.table.put_fields(n, written);
                Ok(())
            }
            Err(why) => Err(why),
        }
    }

    fn set_ratio(&mut self, n: u64, sign: u8, order: u8, r: Ratio) -> Result<(), Trouble> {
        let fields = self.table.fields(n)?.with_ratio(n, sign, order, r)?;
        self.table.put_fields(n, fields);
        Ok(())
    }

    fn attr(&self, n: u64, id: i64) -> Result<Option<i64>, Trouble> {
        self.table.attribute(n, id)
    }

    fn set_attr(&mut self, n: u64, id: i64, v: i64) -> Result<(), Fail<Trouble>> {
        self.table.set_attribute(n, id, v)
    }

    fn unset_attr(&mut self, n: u64, id: i64) -> Result<(), Fail<Trouble>> {
        self.table.unset_attribute(n, id)
    }

    fn same_attrs(&mut self, n: u64, from: u64) -> Result<(), Fail<Trouble>> {
        if !self.table.is_live(n) {
            return Err(Fail::Is(Trouble::Stale(n)));
        }
        let attributes = self.table.copied_attributes(from)?;
        self.table.put_attributes(n, attributes);
        Ok(())
    }

    fn set_current(&mut self, id: i64, v: i64) -> Result<(), Fail<Trouble>> {
        self.current.set(id, v)
    }

    fn unset_current(&mut self, id: i64) -> Result<(), NoMemory> {
        self.current.unset(id);
        Ok(())
    }

    fn wear_current(&mut self, n: u64) -> Result<(), Fail<Trouble>> {
        if !self.table.is_live(n) {
            return Err(Fail::Is(Trouble::Stale(n)));
        }
        let attributes = self.current.copy()?;
        self.table.put_attributes(n, attributes);
        Ok(())
    }

    fn begin_walk(&mut self) {
        self.table.clear_visits();
    }

    fn visit(&mut self, n: u64) -> Result<bool, Trouble> {
        self.table.visit(n)
    }

    fn live(&self) -> u64 {
        self.table.len()
    }

    fn spare(&self, _kind: Kind) -> u64 {
        0
    }

    fn lawful(&self) {
        self.table.lawful();
    }
}
