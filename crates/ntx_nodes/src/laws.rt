//! What is true of heaps, fields and walks by their definitions: laws that calls can cite.

ghost use Rattle.std.specs.Prelude.{◌≡◌, ◌+◌, ℕ, List, Option, Ok, All};
ghost use Rattle.ntx_num.specs.Answer.{result_map};
ghost use Rattle.ntx_nodes.specs.FieldTable.{held, ReadsAs, accepts};
ghost use Rattle.ntx_nodes.specs.Fields.{kind_of, field_of, with_field};
ghost use Rattle.ntx_nodes.specs.Heap.{Heap, IsLawful};
ghost use Rattle.ntx_nodes.specs.Passes.{IsStep, AreSteps};
ghost use Rattle.ntx_nodes.specs.Walk.{walk, fuel_of};
ghost use Rattle.ntx_nodes.specs.WalkLaws.{Sound};
ghost use Rattle.ntx_nodes.specs.declared.field.Field.{Field};
ghost use Rattle.ntx_nodes.specs.declared.field.FieldValue.{FieldValue};
ghost use Rattle.ntx_nodes.specs.declared.fields.Fields.{Fields};
ghost use Rattle.ntx_nodes.specs.declared.kind.ListKind.{ListKind};
ghost use Rattle.ntx_nodes.specs.declared.kind.Way.{Way};

/// Does nothing. Its contract tells that fields are read and set as the table of fields says: what a field holds is of the
/// stated sort, and a value is taken or refused as the table says.
pub fn fields_follow_the_table()
    ensures reads { (fields : Fields) (f : Field) → ReadsAs (held (kind_of fields.contents) f) (field_of fields f) }
    ensures sets { (fields : Fields) (f : Field) (v : FieldValue) → result_map (λ _. tt) (with_field fields f v) ≡ accepts (held (kind_of fields.contents) f) v }
{}

/// Does nothing. Its contract tells that each step of a lawful heap leads to a lawful heap, and so that all heaps of a pass
/// are lawful.
pub fn steps_keep_heaps_lawful()
    ensures one { (old new : Heap) → IsLawful old → IsStep old new → IsLawful new }
    ensures all { (first : Heap) (heaps : List Heap) → IsLawful first → AreSteps first heaps → All IsLawful heaps }
{}

/// Does nothing. Its contract tells what each walk that ends well has reached: live names, none twice and none of those
/// before it, the head among them, and with each the nodes to which the walk goes on from it.
pub fn walks_are_sound()
    ensures { (heap : Heap) (way : Way) (before : List ℕ) (head : Option ℕ) (depth : ℕ) (k : ListKind) (names : List ℕ) → walk heap way (fuel_of heap) before head depth k ≡ Ok names → Sound heap way before head names }
{}

/// Does nothing. Its contract tells that more fuel than there are live nodes changes nothing.
pub fn fuel_is_enough()
    ensures { (heap : Heap) (way : Way) (more : ℕ) (before : List ℕ) (head : Option ℕ) (depth : ℕ) (k : ListKind) → walk heap way (fuel_of heap + more) before head depth k ≡ walk heap way (fuel_of heap) before head depth k }
{}
