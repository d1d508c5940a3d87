//! What holds of lowered expressions. A function here does nothing: its clauses are the laws.

ghost use Rattle.std.specs.Prelude.{◌≡◌, ◌≤◌, ◌+◌, ℕ, Bool, false, List, [], ◌∷◌};
ghost use Rattle.tx_ints.specs.declared.kinds.IntKind.{IntKind};
ghost use Rattle.tx_ints.specs.declared.kinds.BinOp.{BinOp};
ghost use Rattle.tx_code.specs.declared.instr.Instr.TheVariants.{Bin, JumpZero};
ghost use Rattle.cpp_tree.specs.cpp_types.declared.classes.At.{At};
ghost use Rattle.cpp_tree.specs.declared.arena.TNodeId.{TNodeId};
ghost use Rattle.cpp_tree.specs.declared.kinds.TKind.TheVariants.{Binary};
ghost use Rattle.low_code.specs.declared.scopes.ScopeKind.{ScopeKind};
ghost use Rattle.low_code.specs.Nodes.{kid_in};
ghost use Rattle.low_code.specs.Numbers.{kind_number, operator_number, load, store};
ghost use Rattle.low_code.specs.Types.{is_void};
ghost use Rattle.src_mean.specs.Linked.{Program};
ghost use Rattle.symbolic_source.specs.Steps.{step_of};
ghost use Rattle.body_check.specs.Notes.{Bounds, no_answers};
ghost use Rattle.body_check.specs.Calls.{Book};
ghost use Rattle.body_check.specs.Linked.{Held};
ghost use Rattle.unwind_lower.specs.declared.items.Item.{Item};
ghost use Rattle.unwind_lower.specs.declared.items.Item.TheVariants.{Run};
ghost use Rattle.unwind_lower.specs.declared.items.Way.{Way};
ghost use Rattle.unwind_lower.specs.declared.items.Way.TheVariants.{Value};
ghost use Rattle.unwind_lower.specs.Settings.{Setting, node_in};
ghost use Rattle.unwind_lower.specs.States.{State};
ghost use Rattle.lowered_frames.specs.Modes.{Mode, top, After};
ghost use Rattle.lowered_frames.specs.Expressions.{run, loads, apply, assigned, branch};
ghost use Rattle.lowered_frames.specs.Left.{Left};
ghost use Rattle.lowered_notes.specs.Canonical.{IsForeseen};
ghost use Rattle.lowered_steps.specs.Ahead.{Ahead, Moves};
ghost use Rattle.lowered_steps.specs.Passing.{IsNode, Passes};
ghost use Rattle.lowered_expressions.specs.Heads.{led};

/// The node of an operator writes nothing itself: the machine puts down its operands, and the source goes to the left one.
pub fn operands_come_first()
    ensures { (p : Program) (b : Bounds) (book : Book) (h : Held) (g : Setting) (chain : List ScopeKind) (s : State) (id : TNodeId) (d : Left g top s.work) →
        (a : After (node_in g id) Value top) (i : TNodeId) (x : After (node_in g i) Value top) (j : TNodeId) → is_void (node_in g j).typ ≡ false →
        (op : BinOp) (kind : IntKind) → IsNode g id (Binary op kind) (i ∷ j ∷ []) →
        Passes p b book h g (step_of p h.func no_answers) (led (run id Value a) d) chain (Run id Value) s }
{}

/// An instruction fits where it was written, if the note of what is left behind it is there.
pub fn expressions_fit()
    ensures operators { (p : Program) (b : Bounds) (book : Book) (h : Held) (g : Setting) (chain : List ScopeKind) (rank index after : ℕ) → after + 1 ≤ rank →
        (items : List Item) (d : Left g top items) (op : BinOp) (kind : IntKind) (at : At) → IsForeseen p h.func g (led (apply op kind at) d) chain →
        Ahead p b book h g d chain (index + 1) after →
        Moves p b book h g (led (apply op kind at) d) chain 0 rank index (Bin (operator_number op) (kind_number kind)) }
    ensures reads { (p : Program) (b : Bounds) (book : Book) (h : Held) (g : Setting) (chain : List ScopeKind) (rank index after : ℕ) →
        (items : List Item) (d : Left g top items) (kind : IntKind) (volatile : Bool) (at : At) → IsForeseen p h.func g (led (loads kind volatile at) d) chain →
        Ahead p b book h g d chain (index + 1) after → Moves p b book h g (led (loads kind volatile at) d) chain 0 rank index (load kind volatile) }
    ensures assignments { (p : Program) (b : Bounds) (book : Book) (h : Held) (g : Setting) (chain : List ScopeKind) (rank index after : ℕ) →
        (items : List Item) (d : Left g top items) (kind : IntKind) (volatile : Bool) (at : At) → IsForeseen p h.func g (led (assigned kind volatile at) d) chain →
        Ahead p b book h g d chain (index + 1) after → Moves p b book h g (led (assigned kind volatile at) d) chain 0 rank index (store kind volatile) }
    ensures branches { (p : Program) (b : Bounds) (book : Book) (h : Held) (g : Setting) (chain : List ScopeKind) (rank index target : ℕ) (m : Mode) →
        (items : List Item) (d : Left g m items) (id : TNodeId) (way : Way) (x : After (node_in g (kid_in (node_in g id).kids 1)) way m) →
        (y : After (node_in g (kid_in (node_in g id).kids 2)) way m) (first second : ℕ) → IsForeseen p h.func g (led (branch id way x y) d) chain →
        Ahead p b book h g (led (run (kid_in (node_in g id).kids 2) way y) d) chain target second →
        Ahead p b book h g (led (run (kid_in (node_in g id).kids 1) way x) d) chain (index + 1) first →
        Moves p b book h g (led (branch id way x y) d) chain 0 rank index (JumpZero target) }
{}
