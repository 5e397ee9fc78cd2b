//! The nodes of a plain heap by name, each with the number of the walk that last visited it.

ghost use Rattle.std.specs.Prelude.{◌≡◌, ℕ, true, not, nat_eq, is_some, IfSome, IfNone, OnOk, OnErr, map as list_map};
ghost use Rattle.std.specs.Option.{option_map};
ghost use Rattle.std.specs.FinMap as map;
ghost use Rattle.std.specs.FinSet as set;
ghost use Rattle.ntx_num.specs.Answer.{Answers, Steps, StepsAtOnce};
ghost use Rattle.ntx_num.specs.Answer.{result_map};
ghost use Rattle.ntx_nodes.specs.Steps.{with_attribute, copy_of};
ghost use Rattle.ntx_nodes.specs.Table.{at_name};
ghost use Rattle.ntx_nodes.specs.Plain.{slot_at, Puts, ChangesAttributes};

use crate::{Attributes, Fields, Node, Trouble};
use ntx_num::{Fail, NoMemory};
use std::alloc::Global;
use std::collections::BTreeMap;
use std::marker::Model;

/// A node, and the number of the walk that last visited it, 0 where none has since walks were last counted from 1.
#[derive(Drop)]
pub(crate) struct Slot {
    node: Node,
    walk: u64,
}

/// Nodes by name, and the number of the walk that goes on. Walks are counted from 1. It is seen as the finite map of the
/// nodes and the set of the names visited, which are those of the slots with that number. No slot has a greater one, so
/// one more is the number of a walk that has visited nothing.
#[derive(Drop)]
pub(crate) struct Table {
    slots: BTreeMap<u64, Slot>,
    walk: u64,
}

impl Model for Table {
    ghost use Rattle.ntx_nodes.specs.Table.{MarkedNodes};

    ghost Value = { MarkedNodes };

    ghost use Rattle.std.specs.Prelude.{refl};
    ghost use Rattle.std.specs.Ordering.{nat_cmp};
    ghost use Rattle.std.specs.Coded.{code_by, coded×, coded_ℕ};
    ghost use Rattle.std.specs.FinMap as map;
    ghost use Rattle.std.specs.FinSet as set;
    ghost use Rattle.ntx_nodes.specs.Heap.{Names};
    ghost use Rattle.ntx_nodes.specs.declared.node.Node.{Node};
    ghost use Rattle.ntx_nodes.specs.contracts.node.Node as node;

    ghost coded = { code_by (map.FinMap nat_cmp Node × Names) (coded× (map.code coded_ℕ node.the_row.coded) (set.code coded_ℕ)) (λ k. (k.nodes, k.visited)) (λ p. record { nodes = p.0; visited = p.1 }) (λ _. refl) };

    ghost use Rattle.ntx_nodes.specs.Plain.{nodes_of, visited_of, IsCounted};

    ghost view = { λ a. record { nodes = nodes_of a.slots.entries; visited = visited_of a.walk a.slots.entries } };

    ghost invariant = { λ a. IsCounted a.walk a.slots.entries };
}

impl Table {
    /// No nodes.
    pub fn new(alloc: Global) -> Table
        ensures nodes { result.nodes ≡ map.empty }
        ensures visited { result.visited ≡ set.empty }
    {
        Table {
            slots: BTreeMap::new(alloc),
            walk: 1,
        }
    }

    /// How many nodes there are.
    pub fn len(&self) -> u64
        ensures { result ≡ map.len self.now.nodes }
    {
        self.slots.len() as u64
    }

    /// Does nothing. Its contract tells that the names visited are those of nodes that are there.
    pub fn lawful(&self)
        ensures { (n : ℕ) → set.contains self.now.visited n ≡ true → is_some (map.get self.now.nodes n) ≡ true }
    {
        let _ = &self.slots;
    }

    /// A node.
    fn node(&self, n: u64) -> Option<&Node>
        ensures { option_map (λ node. node.now) result ≡ map.get self.now.nodes n }
    {
        match self.slots.get(&n) {
            Some(slot) => Some(&slot.node),
            None => None,
        }
    }

    /// Whether a node is there.
    pub fn is_live(&self, n: u64) -> bool
        ensures { result ≡ is_some (map.get self.now.nodes n) }
    {
        self.node(n).is_some()
    }

    /// The fields of a node.
    pub fn fields(&self, n: u64) -> Result<Fields, Trouble>
        ensures { result ≡ at_name self.now n (λ node. Ok node.fields) }
    {
        match self.node(n) {
            Some(node) => Ok(node.fields),
            None => Err(Trouble::Stale(n)),
        }
    }

    /// The value of an attribute of a node.
    pub fn attribute(&self, n: u64, id: i64) -> Result<Option<i64>, Trouble>
        ensures { result ≡ at_name self.now n (λ node. Ok (map.get node.attributes id)) }
    {
        match self.node(n) {
            Some(node) => Ok(node.attributes.get(id)),
            None => Err(Trouble::Stale(n)),
        }
    }

    /// The attributes of a node once more.
    pub fn copied_attributes(&self, n: u64) -> Result<Attributes, Fail<Trouble>>
        ensures { Answers result (at_name self.now n (λ node. Ok node.attributes)) }
    {
        match self.node(n) {
            Some(node) => Ok(node.attributes.copy()?),
            None => Err(Fail::Is(Trouble::Stale(n))),
        }
    }

    /// A copy of a node.
    pub fn copy_of(&self, n: u64) -> Result<Node, Fail<Trouble>>
        ensures { Answers result (at_name self.now n (λ node. Ok (copy_of node))) }
    {
        match self.node(n) {
            Some(node) => Ok(node.copy()?),
            None => Err(Fail::Is(Trouble::Stale(n))),
        }
    }

    /// Writes the fields of a node, where it is there.
    pub fn put_fields(&mut self, n: u64, fields: Fields)
        ensures nodes { IfSome (map.get self.old.nodes n) (λ node. self.new.nodes ≡ map.insert self.old.nodes n (record node { fields = fields })) }
        ensures absent { IfNone (map.get self.old.nodes n) (self.new.nodes ≡ self.old.nodes) }
        ensures visited { self.new.visited ≡ self.old.visited }
    {
        write_fields(&mut self.slots, n, fields);
    }

    /// Writes the attributes of a node, where it is there.
    pub fn put_attributes(&mut self, n: u64, attributes: Attributes)
        ensures nodes { IfSome (map.get self.old.nodes n) (λ node. self.new.nodes ≡ map.insert self.old.nodes n (record node { attributes = attributes })) }
        ensures absent { IfNone (map.get self.old.nodes n) (self.new.nodes ≡ self.old.nodes) }
        ensures visited { self.new.visited ≡ self.old.visited }
    {
        write_attributes(&mut self.slots, n, attributes);
    }

    /// Sets an attribute of a node in place. Refuses with Stale of a dead `n`, and then as `Attributes::set`. After each
    /// refusal, and after running out of memory, nothing has changed.
    pub fn set_attribute(&mut self, n: u64, id: i64, v: i64) -> Result<(), Fail<Trouble>>
        ensures nodes { Steps result self.old.nodes self.new.nodes (at_name self.old n (λ node. result_map (λ a. (tt, map.insert self.old.nodes n (record node { attributes = a }))) (with_attribute node.attributes id v))) }
        ensures visited { self.new.visited ≡ self.old.visited }
    {
        set_attribute(&mut self.slots, n, id, v)
    }

    /// Takes an attribute off a node in place, where it is set. Refuses with Stale of a dead `n`.
    pub fn unset_attribute(&mut self, n: u64, id: i64) -> Result<(), Fail<Trouble>>
        ensures nodes { Steps result self.old.nodes self.new.nodes (at_name self.old n (λ node. Ok (tt, map.insert self.old.nodes n (record node { attributes = map.remove node.attributes id })))) }
        ensures visited { self.new.visited ≡ self.old.visited }
    {
        unset_attribute(&mut self.slots, n, id)
    }

    /// Adds a node under a name that is not there. Where memory runs out nothing changes.
    pub fn add(&mut self, n: u64, node: Node) -> Result<(), NoMemory>
        requires { map.get self.old.nodes n ≡ None }
        ensures ok { OnOk result (self.new.nodes ≡ map.insert self.old.nodes n node) }
        ensures err { OnErr result (self.new.nodes ≡ self.old.nodes) }
        ensures visited { self.new.visited ≡ self.old.visited }
    {
        self.slots.insert(n, Slot { node, walk: 0 })?;
        Ok(())
    }

    /// Takes a node away, where it is there.
    pub fn remove(&mut self, n: u64)
        ensures nodes { self.new.nodes ≡ map.remove self.old.nodes n }
        ensures visited { self.new.visited ≡ set.remove self.old.visited n }
    {
        let _before = self.slots.remove(&n);
    }

    /// Visits a node: whether this is its first visit.
    pub fn visit(&mut self, n: u64) -> Result<bool, Trouble>
        ensures step { StepsAtOnce result self.old.visited self.new.visited (at_name self.old n (λ _. Ok (not (set.contains self.old.visited n), set.insert self.old.visited n))) }
        ensures nodes { self.new.nodes ≡ self.old.nodes }
    {
        mark(&mut self.slots, self.walk, n)
    }

    /// Makes every node one that was not visited, by counting one on. After the last number of 64 bits it takes the numbers
    /// off all slots, and counts from 1 again.
    pub fn clear_visits(&mut self)
        ensures nodes { self.new.nodes ≡ self.old.nodes }
        ensures visited { self.new.visited ≡ set.empty }
    {
        match self.walk.checked_add(1) {
            Some(next) => self.walk = next,
            None => {
                unmark(&mut self.slots);
                self.walk = 1;
            }
        }
    }
}

/// Writes the fields of the node in a slot, where there is one.
fn write_fields(slots: &mut BTreeMap<u64, Slot>, n: u64, fields: Fields)
    ensures live { IfSome (slot_at slots.old.entries n) (λ slot. Puts slots.old.entries slots.new.entries n (Some (record slot { node = record slot.node { fields = fields } }))) }
    ensures dead { IfNone (slot_at slots.old.entries n) (slots.new.entries ≡ slots.old.entries) }
{
    if let Some(slot) = slots.get_mut(&n) {
        slot.node.fields = fields;
    }
}

/// Writes the attributes of the node in a slot, where there is one.
fn write_attributes(slots: &mut BTreeMap<u64, Slot>, n: u64, attributes: Attributes)
    ensures live { IfSome (slot_at slots.old.entries n) (λ slot. Puts slots.old.entries slots.new.entries n (Some (record slot { node = record slot.node { attributes = attributes } }))) }
    ensures dead { IfNone (slot_at slots.old.entries n) (slots.new.entries ≡ slots.old.entries) }
{
    if let Some(slot) = slots.get_mut(&n) {
        slot.node.attributes = attributes;
    }
}

/// Sets an attribute of the node in a slot.
fn set_attribute(
    slots: &mut BTreeMap<u64, Slot>,
    n: u64,
    id: i64,
    v: i64,
) -> Result<(), Fail<Trouble>>
    ensures live { IfSome (slot_at slots.old.entries n) (λ slot. ChangesAttributes slots.old.entries slots.new.entries n slot (with_attribute slot.node.attributes id v) result) }
    ensures dead { IfNone (slot_at slots.old.entries n) ((result ≡ Err (Fail.Is (Trouble.Stale n))) × (slots.new.entries ≡ slots.old.entries)) }
{
    match slots.get_mut(&n) {
        Some(slot) => slot.node.attributes.set(id, v),
        None => Err(Fail::Is(Trouble::Stale(n))),
    }
}

/// Takes an attribute off the node in a slot, where it is set.
fn unset_attribute(slots: &mut BTreeMap<u64, Slot>, n: u64, id: i64) -> Result<(), Fail<Trouble>>
    ensures live { IfSome (slot_at slots.old.entries n) (λ slot. ChangesAttributes slots.old.entries slots.new.entries n slot (Ok (map.remove slot.node.attributes id)) result) }
    ensures dead { IfNone (slot_at slots.old.entries n) ((result ≡ Err (Fail.Is (Trouble.Stale n))) × (slots.new.entries ≡ slots.old.entries)) }
{
    match slots.get_mut(&n) {
        Some(slot) => {
            slot.node.attributes.unset(id);
            Ok(())
        }
        None => Err(Fail::Is(Trouble::Stale(n))),
    }
}

/// Marks a slot as visited by the walk of a number: whether it was not before.
fn mark(slots: &mut BTreeMap<u64, Slot>, walk: u64, n: u64) -> Result<bool, Trouble>
    ensures live { IfSome (slot_at slots.old.entries n) (λ slot. (result ≡ Ok (not (nat_eq slot.walk walk))) × Puts slots.old.entries slots.new.entries n (Some (record slot { walk = walk }))) }
    ensures dead { IfNone (slot_at slots.old.entries n) ((result ≡ Err (Trouble.Stale n)) × (slots.new.entries ≡ slots.old.entries)) }
{
    match slots.get_mut(&n) {
        Some(slot) => {
            let first = slot.walk != walk;
            slot.walk = walk;
            Ok(first)
        }
        None => Err(Trouble::Stale(n)),
    }
}

/// Takes the number of its walk off every slot.
fn unmark(slots: &mut BTreeMap<u64, Slot>)
    ensures { slots.new.entries ≡ list_map (λ e. (e.0, record e.1 { walk = 0 })) slots.old.entries }
{
    slots.retain(|_n, slot| {
        slot.walk = 0;
        true
    });
}
