//! What copies are by themselves: laws that calls can cite.

ghost use Rattle.std.specs.Prelude.{◌≡◌, ℕ, List, Option, Ok, length};
ghost use Rattle.ntx_nodes.specs.Heap.{Heap, IsLawful};
ghost use Rattle.ntx_nodes.specs.Walk.{plain_walk, tree_walk};
ghost use Rattle.ntx_nodes.specs.declared.node.Node.{Node};
ghost use Rattle.ntx_lists.specs.Copies.{list_copy, tree_copy, with_copies, copy_list_step, copy_tree_step};
ghost use Rattle.ntx_lists.specs.CopyLaws.{AreCopied, IsListCopy, IsTreeCopy, StopsRightly};
ghost use Rattle.ntx_lists.specs.Copying.{AllLive};

/// Does nothing. Its contract tells what the copy of a list is: each node that the walk reached is copied under a name of
/// its own that no node had before, all else stays, and each walk of the copy, whether kinds are tested and lists
/// entered or not, reaches the copies of what the same walk of the list reaches, in its order.
pub fn copies_are_lists()
    ensures { (heap new : Heap) (head copy : Option ℕ) → IsLawful heap → copy_list_step head heap ≡ (Ok copy, new) → (names : List ℕ) × (plain_walk heap head ≡ Ok names) × AreCopied heap new (list_copy heap.next names) names × IsListCopy heap new head copy names }
{}

/// Does nothing. Its contract tells the same of the copy of a node with its inner lists, and of the walk of that node.
pub fn copies_are_trees()
    ensures { (heap new : Heap) (n copy : ℕ) → IsLawful heap → copy_tree_step n heap ≡ (Ok copy, new) → (names : List ℕ) × (tree_walk heap n ≡ Ok names) × AreCopied heap new (tree_copy n heap.next names) names × IsTreeCopy heap new copy names }
{}

/// Does nothing. Its contract tells where copying stops: as long as there is room the next making is none that is
/// refused, and then it is, for the reason that is given.
pub fn copies_stop_rightly()
    ensures { (heap : Heap) (copy : ℕ → Node → Node) (made : List ℕ) → IsLawful heap → AllLive heap made → StopsRightly heap (with_copies heap copy made) (length made) }
{}
