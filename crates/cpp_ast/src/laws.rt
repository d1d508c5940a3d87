//! What lists of nodes show, and how they grow: facts for whoever builds a tree or reads one.

ghost use Rattle.std.specs.Prelude.{◌≡◌, ◌++◌, ◌∷◌, ◌+◌, ◌≤◌, [], List, ℕ, length, take, true};
ghost use Rattle.cpp_ast.specs.declared.arena.Node.{Node};
ghost use Rattle.cpp_ast.specs.declared.units.LamBody.{LamBody};
ghost use Rattle.cpp_ast.specs.declared.arena.NodeId.{NodeId};
ghost use Rattle.cpp_ast.specs.Orders.{are_below};
ghost use Rattle.cpp_ast.specs.Units.{IsForest, times_a_kid, times_in};
ghost use Rattle.cpp_ast.specs.Examples.{main_of, returned, braced};
ghost use Rattle.cpp_ast.specs.Trees.{Tree, Trees, node, more, none, Shows, ShowsAll, ShowsWith, ShowsAllWith, Extends, IsShaped, AreShaped, unit_depth};

/// Lists of nodes grow in steps. What one shows, each list that it grows to shows; and it shows one tree at an index.
/// A node that is added shows the trees of its kids under it. Cutting back to the old length gives the old list.
pub fn growth()
    ensures same { (nodes : List Node) → Extends nodes nodes }
    ensures further { (old mid new : List Node) → Extends old mid → Extends mid new → Extends old new }
    ensures kept { (bodies : List LamBody) (old new : List Node) (id : ℕ) (tree : Tree) → Extends old new → ShowsWith bodies old id tree → ShowsWith bodies new id tree }
    ensures added { (old : List Node) (added : Node) (kids : Trees) → ShowsAll old added.kids.items kids → Shows (old ++ added ∷ []) (length old) (node added.kind added.at added.token kids) }
    ensures cut { (old new : List Node) → Extends old new → take (length old) new ≡ old }
    ensures one { (bodies : List LamBody) (nodes : List Node) (id : ℕ) (tree other : Tree) → ShowsWith bodies nodes id tree → ShowsWith bodies nodes id other → tree ≡ other }
{}

/// What may be the kids of a node that is added: nodes that show trees stand in the list, and where none of them is a
/// kid already and none is named twice, no node is a kid twice afterwards.
pub fn kids()
    ensures below { (bodies : List LamBody) (nodes : List Node) (ids : List NodeId) (trees : Trees) → ShowsAllWith bodies nodes ids trees → are_below (length nodes) ids ≡ true }
    ensures no_nodes { IsForest [] }
    ensures forest { (old : List Node) (added : Node) → ((id : ℕ) → times_a_kid id old + times_in id added.kids.items ≤ 1) → IsForest (old ++ added ∷ []) }
{}

/// Depths of two texts. `int main() { return (..(0)..); }` has depth 200 with 195 parentheses, and one more with one
/// more; `int main() { {..{}..} }` has depth 200 with 197 braces in those of `main`. Both trees have their shapes.
pub fn examples()
    ensures parentheses { unit_depth (main_of (returned 195)) ≡ 200 }
    ensures one_more { unit_depth (main_of (returned 196)) ≡ 201 }
    ensures braces { unit_depth (main_of (braced 196)) ≡ 200 }
    ensures one_brace_more { unit_depth (main_of (braced 197)) ≡ 201 }
    ensures shaped { AreShaped (main_of (returned 1)) }
{}
