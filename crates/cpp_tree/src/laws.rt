//! What lists of nodes show, and how they grow: facts for whoever makes a typed tree or reads one. A function here
//! does nothing: its clauses are the laws.
ghost use Rattle.std.specs.Prelude.{◌≡◌, ◌<◌, ◌≤◌, ◌+◌, ◌++◌, ◌∷◌, [], List, ℕ, Some, length, slice_get, take, true};
ghost use Rattle.cpp_layout.specs.cpp_types.Typ.{typ_of};
ghost use Rattle.cpp_tree.specs.declared.arena.TNode.{TNode};
ghost use Rattle.cpp_tree.specs.declared.arena.TNodeId.{TNodeId};
ghost use Rattle.cpp_tree.specs.Trees.{Tree, Trees, node};
ghost use Rattle.cpp_tree.specs.Arena.{are_below, times_in, times_a_kid, IsOrdered, IsForest, trees_of, tree_of, tree_at, Shows, ShowsAll, Extends, Grows};
ghost use Rattle.cpp_tree.specs.Rows.{Setting};
ghost use Rattle.cpp_tree.specs.WellFormed.{WellFormedBody, body_fits};

/// Lists of nodes grow in steps. What one shows, each list that it grows to shows; and it shows one tree at a place.
/// A node that is added shows the trees of its kids under it. Kids that show trees stand in the list.
pub fn growth()
    ensures same { (nodes : List TNode) → Extends nodes nodes }
    ensures further { (old mid new : List TNode) → Extends old mid → Extends mid new → Extends old new }
    ensures kept { (old new : List TNode) (id : ℕ) (tree : Tree) → Extends old new → Shows old id tree → Shows new id tree }
    ensures added { (old : List TNode) (added : TNode) (kids : Trees) → ShowsAll old added.kids.items kids → Shows (old ++ added ∷ []) (length old) (node added.kind (typ_of added.ty) added.cat added.at kids) }
    ensures cut { (old new : List TNode) → Extends old new → take (length old) new ≡ old }
    ensures one { (nodes : List TNode) (id : ℕ) (tree other : Tree) → Shows nodes id tree → Shows nodes id other → tree ≡ other }
    ensures below { (nodes : List TNode) (ids : List TNodeId) (trees : Trees) → ShowsAll nodes ids trees → are_below (length nodes) ids ≡ true }
{}

/// The trees of a list of nodes: one for each node, and those of a longer list begin with them.
pub fn trees()
    ensures many { (nodes : List TNode) → length (trees_of nodes) ≡ length nodes }
    ensures grows { (old new : List TNode) → Extends old new → Grows (trees_of old) (trees_of new) }
    ensures is { (nodes : List TNode) (id : TNodeId) (n : TNode) → IsOrdered nodes → slice_get nodes id.0 ≡ Some n → tree_at (trees_of nodes) id ≡ tree_of (trees_of nodes) n }
    ensures shown { (nodes : List TNode) (id : TNodeId) → IsOrdered nodes → id.0 < length nodes → Shows nodes id.0 (tree_at (trees_of nodes) id) }
{}

/// A node may be added to an ordered list where its kids stand in it; and to a forest, where none of them is a kid
/// already and none is named twice.
pub fn nodes()
    ensures none { IsOrdered [] }
    ensures ordered { (old : List TNode) (added : TNode) → IsOrdered old → are_below (length old) added.kids.items ≡ true → IsOrdered (old ++ added ∷ []) }
    ensures no_kids { IsForest [] }
    ensures forest { (old : List TNode) (added : TNode) → ((id : ℕ) → times_a_kid id old + times_in id added.kids.items ≤ 1) → IsForest (old ++ added ∷ []) }
{}

/// The test of bodies says what a well-formed body is, so that it holds of a written tree what a unit's bodies are held against.
pub fn bodies()
    ensures said { (s : Setting) (body : Tree) → body_fits s body ≡ true → WellFormedBody s body }
    ensures tested { (s : Setting) (body : Tree) → WellFormedBody s body → body_fits s body ≡ true }
{}
