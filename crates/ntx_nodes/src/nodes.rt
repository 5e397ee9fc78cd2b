//! The heap of nodes as a trait.

ghost use Rattle.std.specs.Prelude.{◌≡◌, ◌≢◌, ℕ, ◌≤◌, ◌<◌, ◌+◌, ◌-◌, Bool, false, OnOk, OnErr, Some, Ok, Err};
ghost use Rattle.std.specs.FinMap as map;
ghost use Rattle.std.specs.FinSet as set;
ghost use Rattle.ntx_num.specs.Answer.{Steps, StepsAtOnce};
ghost use Rattle.ntx_nodes.specs.declared.kind.Kind.{Kind};
ghost use Rattle.ntx_nodes.specs.declared.node.Node.{Node};
ghost use Rattle.ntx_nodes.specs.Fields.{kind_of, last_subtype};
ghost use Rattle.ntx_num.specs.Dimension.{max_nodes};
ghost use Rattle.ntx_nodes.specs.Heap.{Heap, Names, IsLawful, AreLive};
ghost use Rattle.ntx_nodes.specs.Steps.{make_step, copy_one_step, free_one_step, kind_answer, fields_answer, get_answer, set_step, set_ratio_step, attr_answer, set_attr_step, unset_attr_step, same_attrs_step, set_current_step, unset_current_step, wear_current_step, visit_step};

use crate::{Field, FieldValue, Fields, Kind, Ratio, Trouble};
use ntx_num::{Fail, NoMemory};

/// A heap of nodes, whichever way it is kept (LuaTeX Reference Manual, chapter "Nodes").
///
/// A name is below 2^48 and is given once. A call that refuses, and one for which memory runs out, leaves the heap as it was.
pub trait Nodes: Drop {
    /// The heap that it represents.
    ghost heap: { Self → Heap };

    /// The names visited since the walk began.
    ghost visited: { Self → Names };

    /// How many nodes of a kind can be made without running out of memory. The calls other than `make` and `copy_one` never lower it.
    ghost spare_of: { Self → Kind → ℕ };

    /// Whether a copy has attributes of its own, for which it takes memory.
    ghost copies: { Bool };

    /// Makes a node of zeros and nothings, of a box with a ratio of 0 over 1, with no attributes, under the next name. The
    /// subtype has to be from 0 to 3 of a disc, and may be any byte of another kind. Memory does not run out where `spare`
    /// of the kind is above 0.
    ///
    /// Refuses with NodesFull where 2^18 nodes are live, and else with NamesOut where the next name is 2^48.
    fn make(&mut self, kind: Kind, subtype: u8) -> Result<u64, Fail<Trouble>>
        requires { subtype ≤ last_subtype kind }
        ensures step { Steps result (heap self.old) (heap self.new) (make_step kind subtype (heap self.old)) }
        ensures visits { visited self.new ≡ visited self.old }
        ensures memory { 0 < spare_of self.old kind → result ≢ Err Fail.NoMemory }
        ensures spare { OnOk result ((each : Kind) → spare_of self.old each ≤ spare_of self.new each + 1) };

    /// Makes a node of the same kind, subtype, numbers and attributes, with no links, under the next name.
    ///
    /// Refuses with Stale of a dead `n`, and then as `make`.
    fn copy_one(&mut self, n: u64) -> Result<u64, Fail<Trouble>>
        ensures step { Steps result (heap self.old) (heap self.new) (copy_one_step n (heap self.old)) }
        ensures visits { visited self.new ≡ visited self.old }
        ensures memory { copies ≡ false → (node : Node) → map.get (heap self.old).nodes n ≡ Some node → 0 < spare_of self.old (kind_of node.fields.contents) → result ≢ Err Fail.NoMemory }
        ensures spare { OnOk result ((each : Kind) → spare_of self.old each ≤ spare_of self.new each + 1) };

    /// Takes a node out of the heap. Refuses with Stale of a dead `n`.
    fn free_one(&mut self, n: u64) -> Result<(), Trouble>
        ensures step { StepsAtOnce result (heap self.old) (heap self.new) (free_one_step n (heap self.old)) }
        ensures freed { OnOk result (visited self.new ≡ set.remove (visited self.old) n) }
        ensures refused { OnErr result (visited self.new ≡ visited self.old) }
        ensures keeps { (each : Kind) → spare_of self.old each ≤ spare_of self.new each };

    /// The kind and the subtype of a node. Refuses with Stale of a dead `n`.
    fn kind_of(&self, n: u64) -> Result<(Kind, u8), Trouble>
        ensures { result ≡ kind_answer n (heap self.now) };

    /// All the fields of a node. Refuses with Stale of a dead `n`.
    fn fields(&self, n: u64) -> Result<Fields, Trouble>
        ensures { result ≡ fields_answer n (heap self.now) };

    /// What a field holds. Refuses with Stale of a dead `n`, and else with NoField where its kind has no such field.
    fn get(&self, n: u64, f: Field) -> Result<FieldValue, Trouble>
        ensures { result ≡ get_answer n f (heap self.now) };

    /// Puts a value into a field.
    ///
    /// Refuses in this order with Stale of a dead `n`; NoField where its kind has no such field; BadValue where the value
    /// is of the wrong sort or outside the field's range, or the field cannot be set; Stale of a dead node that it links to.
    fn set(&mut self, n: u64, f: Field, v: FieldValue) -> Result<(), Trouble>
        ensures step { StepsAtOnce result (heap self.old) (heap self.new) (set_step n f v (heap self.old)) }
        ensures visits { visited self.new ≡ visited self.old }
        ensures keeps { (each : Kind) → spare_of self.old each ≤ spare_of self.new each };

    /// Sets the glue in a box: 0 for none, 1 for stretching, 2 for shrinking; the order, from 0 to 3; and the ratio.
    ///
    /// Refuses with Stale of a dead `n`, and else with WrongKind where it is no box.
    fn set_ratio(&mut self, n: u64, sign: u8, order: u8, r: Ratio) -> Result<(), Trouble>
        requires sign { sign ≤ 2 }
        requires order { order ≤ 3 }
        ensures step { StepsAtOnce result (heap self.old) (heap self.new) (set_ratio_step n sign order r (heap self.old)) }
        ensures visits { visited self.new ≡ visited self.old }
        ensures keeps { (each : Kind) → spare_of self.old each ≤ spare_of self.new each };

    /// The value of an attribute, where it is set. Refuses with Stale of a dead `n`.
    fn attr(&self, n: u64, id: i64) -> Result<Option<i64>, Trouble>
        ensures { result ≡ attr_answer n id (heap self.now) };

    /// Sets an attribute of a node.
    ///
    /// Refuses in this order with Stale of a dead `n`; BadValue where the id is not from 0 to 65535 or the value not from
    /// -2147483646 to 2147483647; AttrFull where it would be the 65th.
    fn set_attr(&mut self, n: u64, id: i64, v: i64) -> Result<(), Fail<Trouble>>
        ensures step { Steps result (heap self.old) (heap self.new) (set_attr_step n id v (heap self.old)) }
        ensures visits { visited self.new ≡ visited self.old }
        ensures keeps { (each : Kind) → spare_of self.old each ≤ spare_of self.new each };

    /// Takes an attribute off a node, where it is set. Refuses with Stale of a dead `n`.
    fn unset_attr(&mut self, n: u64, id: i64) -> Result<(), Fail<Trouble>>
        ensures step { Steps result (heap self.old) (heap self.new) (unset_attr_step n id (heap self.old)) }
        ensures visits { visited self.new ≡ visited self.old }
        ensures keeps { (each : Kind) → spare_of self.old each ≤ spare_of self.new each };

    /// Gives a node the attributes of another. Refuses with Stale of a dead `n`, and then of a dead `from`.
    fn same_attrs(&mut self, n: u64, from: u64) -> Result<(), Fail<Trouble>>
        ensures step { Steps result (heap self.old) (heap self.new) (same_attrs_step n from (heap self.old)) }
        ensures visits { visited self.new ≡ visited self.old }
        ensures memory { copies ≡ false → result ≢ Err Fail.NoMemory }
        ensures keeps { (each : Kind) → spare_of self.old each ≤ spare_of self.new each };

    /// Sets an attribute among the current ones. Refuses with BadValue and AttrFull as `set_attr`.
    fn set_current(&mut self, id: i64, v: i64) -> Result<(), Fail<Trouble>>
        ensures step { Steps result (heap self.old) (heap self.new) (set_current_step id v (heap self.old)) }
        ensures visits { visited self.new ≡ visited self.old }
        ensures keeps { (each : Kind) → spare_of self.old each ≤ spare_of self.new each };

    /// Takes an attribute off the current ones, where it is set. Refuses nothing.
    fn unset_current(&mut self, id: i64) -> Result<(), NoMemory>
        ensures done { OnOk result (unset_current_step id (heap self.old) ≡ Ok (tt, heap self.new)) }
        ensures undone { OnErr result (heap self.new ≡ heap self.old) }
        ensures visits { visited self.new ≡ visited self.old }
        ensures keeps { (each : Kind) → spare_of self.old each ≤ spare_of self.new each };

    /// Gives a node the current attributes. Refuses with Stale of a dead `n`.
    fn wear_current(&mut self, n: u64) -> Result<(), Fail<Trouble>>
        ensures step { Steps result (heap self.old) (heap self.new) (wear_current_step n (heap self.old)) }
        ensures visits { visited self.new ≡ visited self.old }
        ensures memory { copies ≡ false → result ≢ Err Fail.NoMemory }
        ensures keeps { (each : Kind) → spare_of self.old each ≤ spare_of self.new each };

    /// Begins a walk: no node is visited.
    fn begin_walk(&mut self)
        ensures same { heap self.new ≡ heap self.old }
        ensures visits { visited self.new ≡ set.empty }
        ensures keeps { (each : Kind) → spare_of self.old each ≤ spare_of self.new each };

    /// Visits a node: true at its first visit since the walk began. Refuses with Stale of a dead `n`.
    fn visit(&mut self, n: u64) -> Result<bool, Trouble>
        ensures step { StepsAtOnce result (visited self.old) (visited self.new) (visit_step n (heap self.old) (visited self.old)) }
        ensures same { heap self.new ≡ heap self.old }
        ensures keeps { (each : Kind) → spare_of self.old each ≤ spare_of self.new each };

    /// How many nodes are live, which is at most 2^18.
    fn live(&self) -> u64
        ensures { result ≡ map.len (heap self.now).nodes };

    /// How many nodes of a kind can be made, one after another, without running out of memory; no more than may be live
    /// beside those that are, which is 2^18 less `live`.
    fn spare(&self, kind: Kind) -> u64
        ensures spare { result ≡ spare_of self.now kind }
        ensures few { result ≤ max_nodes - map.len (heap self.now).nodes };

    /// Does nothing. Its contract tells what is true of every heap, and that visited nodes are live. In every heap at most
    /// 2^18 nodes are live, each number is in its field's range, each live name and each name linked to is below the next
    /// one, and at most 64 attributes are on a node or current.
    fn lawful(&self)
        ensures lawful { IsLawful (heap self.now) }
        ensures visited { AreLive (heap self.now) (visited self.now) };
}
