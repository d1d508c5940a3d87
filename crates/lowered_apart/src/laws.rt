//! Where temporaries wait no jump is held. A function here does nothing: its clauses are the laws.

ghost use Rattle.std.specs.Prelude.{◌≡◌, true, false, ℕ, List};
ghost use Rattle.cpp_tree.specs.cpp_types.declared.classes.At.{At};
ghost use Rattle.cpp_tree.specs.declared.arena.TNodeId.{TNodeId};
ghost use Rattle.cpp_tree.specs.Arena.{IsOrdered, tree_at, trees_of};
ghost use Rattle.cpp_tree.specs.Rows.{Setting as TreeSetting};
ghost use Rattle.cpp_tree.specs.WellFormed.{WellFormedBody};
ghost use Rattle.low_code.specs.Temporaries.{temporaries_of};
ghost use Rattle.unwind_lower.specs.declared.items.Item.{Item};
ghost use Rattle.unwind_lower.specs.declared.items.Item.TheVariants.{Pads};
ghost use Rattle.unwind_lower.specs.States.{State, later};
ghost use Rattle.unwind_lower.specs.Settings.{Setting};
ghost use Rattle.unwind_lower.specs.Steps.{Reaches, written};
ghost use Rattle.unwind_lower.specs.Functions.{begun, started, WrittenTo};
ghost use Rattle.lowered_states.specs.Runs.{IsApart, AreApart};
ghost use Rattle.lowered_apart.specs.Still.{Nodes, AreStill};
ghost use Rattle.lowered_apart.specs.Suiting.{suits};
ghost use Rattle.lowered_apart.specs.Waiting.{Waiting};

/// Where temporaries wait no jump or place is held, in each state of a run.
pub fn runs_wait()
    ensures written { (z : Nodes) (item : Item) (s : State) → Waiting z false (later item s) → Waiting z false (written z.setting item s) }
    ensures reached { (z : Nodes) (from to : State) → Waiting z false from → Reaches z.setting from to → Waiting z false to }
    ensures apart { (z : Nodes) (item : Item) (s : State) → Waiting z false (later item s) → IsApart z.setting item s }
{}

/// So no jump is written twice, and a `switch` has one `default` at most, as a body is written and as its ways out are.
pub fn bodies_are_apart()
    ensures body { (g : Setting) (root : TNodeId) (names : List (List ℕ)) (at : At) → AreStill g root → AreApart g (started g root at (begun g names at)) }
    ensures ways_out { (g : Setting) (root : TNodeId) (names : List (List ℕ)) (at : At) (to : State) (w : WrittenTo g root at (begun g names at) to) →
        AreStill g root → AreApart g (later (Pads 0) w.body) }
{}

/// A well-formed body of a unit whose nodes are in order has such nodes, where it suits.
pub fn well_formed_bodies_are_still()
    ensures { (g : Setting) (s : TreeSetting) (root : TNodeId) → IsOrdered g.unit.nodes.items → g.temporaries ≡ temporaries_of g.unit.nodes.items →
        WellFormedBody s (tree_at (trees_of g.unit.nodes.items) root) → suits (tree_at (trees_of g.unit.nodes.items) root) ≡ true → AreStill g root }
{}
