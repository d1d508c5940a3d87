//! The frames that are read off what is left to write. A function here does nothing: its clauses are the laws.

ghost use Rattle.std.specs.Prelude.{◌≡◌, ℕ, Bool, List, ◌∷◌, ◌++◌, Option, Some, slice_get, false, true};
ghost use Rattle.cpp_tree.specs.Arena.{IsOrdered};
ghost use Rattle.cpp_tree.specs.Trees.{node};
ghost use Rattle.cpp_tree.specs.declared.arena.TNode.{TNode};
ghost use Rattle.cpp_tree.specs.declared.arena.TNodeId.{TNodeId};
ghost use Rattle.low_code.specs.declared.scopes.Address.{Address};
ghost use Rattle.low_code.specs.declared.scopes.Address.TheVariants.{Frame as OfFrame, Word as OfWord, Node as OfNode};
ghost use Rattle.low_code.specs.declared.scopes.Owner.TheVariants.{Block as OfBlock, Call as OfCall, Full as OfFull};
ghost use Rattle.low_code.specs.declared.scopes.ScopeKind.{ScopeKind};
ghost use Rattle.low_code.specs.declared.scopes.ScopeKind.TheVariants.{Waits};
ghost use Rattle.src_mean.specs.Frames.{of_block, of_call};
ghost use Rattle.src_mean.specs.Linked.{Func, Program};
ghost use Rattle.symbolic_source.specs.Terms.{Term, Exception, local, plus_number};
ghost use Rattle.symbolic_source.specs.Frames.{Waiting, Exit, Frame, at_word, at_tree, blocks_in, handled, puts};
ghost use Rattle.symbolic_source.specs.Steps.{Answers, given, left};
ghost use Rattle.symbolic_source.specs.Small.{is_stuck};
ghost use Rattle.symbolic_source.specs.Replacing.{Replacing, in_term, in_terms, in_waitings, in_frames};
ghost use Rattle.low_code.specs.declared.writer.Jump.{Jump};
ghost use Rattle.unwind_lower.specs.declared.items.Item.{Item};
ghost use Rattle.unwind_lower.specs.declared.items.Way.{Way};
ghost use Rattle.unwind_lower.specs.Blocks.{labelled};
ghost use Rattle.unwind_lower.specs.Settings.{Setting, node_in};
ghost use Rattle.unwind_lower.specs.Kids.{kids_from, runs};
ghost use Rattle.lowered_frames.specs.Lists.{in_exceptions, innermost};
ghost use Rattle.lowered_frames.specs.Modes.{Mode, all_run, tree_in, trees_in};
ghost use Rattle.lowered_frames.specs.Statements.{all_bound, all_labels};
ghost use Rattle.lowered_frames.specs.Left.{Head, head_frames, Left, frames, temporaries, operands, below, caught, opened, AreEntered};
ghost use Rattle.lowered_frames.specs.Sound.{Sound};
ghost use Rattle.lowered_frames.specs.Entered.{AwaitsBlock, AwaitsCall, with_full, InFull};
ghost use Rattle.lowered_frames.specs.Matches.{Always, Matches};
ghost use Rattle.lowered_frames.specs.Passed.{head_passed};

/// Terms in the place of variables of the frames, the operands, the temporaries and the exceptions are terms in the place of variables before.
pub fn what_is_left_is_replaced()
    ensures frames { (g : Setting) (number : ℕ → ℕ) (r : Replacing) (m : Mode) (items : List Item) (d : Left g m items) (chain : List ScopeKind) →
        (es : List Exception) (ts : List Term) →
        in_frames r (frames g number d chain es ts) ≡ frames g number d chain (in_exceptions r es) (in_terms r ts) }
    ensures operands { (g : Setting) (r : Replacing) (m : Mode) (items : List Item) (d : Left g m items) (chain : List ScopeKind) (v : Term) (ts : List Term) →
        in_terms r (operands g d chain v ts) ≡ operands g d chain (in_term r v) (in_terms r ts) }
    ensures temporaries { (g : Setting) (r : Replacing) (m : Mode) (items : List Item) (d : Left g m items) (chain : List ScopeKind) (ts : List Term) →
        in_waitings r (temporaries g d chain ts) ≡ temporaries g d chain (in_terms r ts) }
    ensures exceptions { (g : Setting) (r : Replacing) (m : Mode) (items : List Item) (d : Left g m items) (es : List Exception) →
        in_exceptions r (caught g d es) ≡ caught g d (in_exceptions r es) }
{}

/// The blocks and handlers of the frames are those that are open and entered in the code.
pub fn the_same_is_open()
    ensures blocks { (g : Setting) (number : ℕ → ℕ) (m : Mode) (items : List Item) (d : Left g m items) (chain : List ScopeKind) →
        (es : List Exception) (ts : List Term) → AreEntered g d → blocks_in (frames g number d chain es ts) ≡ opened g d }
    ensures handlers { (g : Setting) (number : ℕ → ℕ) (m : Mode) (items : List Item) (d : Left g m items) (chain : List ScopeKind) →
        (es : List Exception) (ts : List Term) → handled (frames g number d chain es ts) ≡ innermost (caught g d es) }
{}

/// The source goes on from what is left, whatever the terms are, where numbers are words and what waits has a scope.
pub fn what_is_left_goes_on()
    ensures { (p : Program) (f : Func) (answers : Answers) (g : Setting) (number : ℕ → ℕ) (m : Mode) (items : List Item) (d : Left g m items) → Sound g d →
        (chain : List ScopeKind) (es : List Exception) (ts : List Term) (ws : List Waiting) (v : Term) →
        is_stuck (given p f answers ws v (frames g number d chain es ts)) ≡ false }
{}

/// Where an object comes to wait in the source, what is left is read in the chain with its scope.
pub fn objects_come_to_wait()
    ensures variables { (g : Setting) (number : ℕ → ℕ) (offset : ℕ) (id : TNodeId) (first : ℕ) (always : Bool) (m : Mode) (items : List Item) →
        (d : Left g m items) (chain : List ScopeKind) (es : List Exception) (ts : List Term) → AwaitsBlock g d →
        puts of_block (record { address = at_word (local offset); destroys = trees_in g (kids_from (node_in g id) first) }) (frames g number d chain es ts) ≡
        Some (frames g number d (Waits OfBlock always (OfFrame offset) id first ∷ chain) es ts) }
    ensures members { (g : Setting) (number : ℕ → ℕ) (t : Term) (offset : ℕ) (id : TNodeId) (first : ℕ) (always : Bool) (m : Mode) (items : List Item) →
        (d : Left g m items) (chain : List ScopeKind) (es : List Exception) (ts : List Term) → AwaitsBlock g d →
        puts of_block (record { address = at_word (plus_number t offset); destroys = trees_in g (kids_from (node_in g id) first) }) (frames g number d chain es ts) ≡
        Some (frames g number d (Waits OfBlock always (OfWord offset) id first ∷ chain) es (t ∷ ts)) }
    ensures deferred { (g : Setting) (number : ℕ → ℕ) (other : TNodeId) (id : TNodeId) (first : ℕ) (always : Bool) (m : Mode) (items : List Item) →
        (d : Left g m items) (chain : List ScopeKind) (es : List Exception) (ts : List Term) → AwaitsBlock g d →
        puts of_block (record { address = at_tree (tree_in g other); destroys = trees_in g (kids_from (node_in g id) first) }) (frames g number d chain es ts) ≡
        Some (frames g number d (Waits OfBlock always (OfNode other) id first ∷ chain) es ts) }
    ensures arguments { (g : Setting) (number : ℕ → ℕ) (offset : ℕ) (id : TNodeId) (first : ℕ) (always : Bool) (m : Mode) (items : List Item) →
        (d : Left g m items) (chain : List ScopeKind) (es : List Exception) (ts : List Term) → AwaitsCall g d →
        puts of_call (record { address = at_word (local offset); destroys = trees_in g (kids_from (node_in g id) first) }) (frames g number d chain es ts) ≡
        Some (frames g number d (Waits OfCall always (OfFrame offset) id first ∷ chain) es ts) }
{}

/// A temporary comes to wait around the scopes of calls and parts: no frame and no operand changes by it.
pub fn temporaries_come_to_wait()
    ensures frames { (g : Setting) (number : ℕ → ℕ) (offset : ℕ) (id : TNodeId) (first : ℕ) (m : Mode) (items : List Item) (d : Left g m items) →
        (chain : List ScopeKind) → InFull g d chain → (es : List Exception) (ts : List Term) →
        frames g number d (with_full (Waits OfFull true (OfFrame offset) id first) chain) es ts ≡ frames g number d chain es ts }
    ensures operands { (g : Setting) (offset : ℕ) (id : TNodeId) (first : ℕ) (m : Mode) (items : List Item) (d : Left g m items) (chain : List ScopeKind) →
        InFull g d chain → (ts : List Term) → below g d (with_full (Waits OfFull true (OfFrame offset) id first) chain) ts ≡ below g d chain ts }
    ensures temporaries { (g : Setting) (offset : ℕ) (id : TNodeId) (first : ℕ) (m : Mode) (items : List Item) (d : Left g m items) (chain : List ScopeKind) →
        InFull g d chain → (ts : List Term) → temporaries g d (with_full (Waits OfFull true (OfFrame offset) id first) chain) ts ≡
        record { address = at_word (local offset); destroys = trees_in g (kids_from (node_in g id) first) } ∷ temporaries g d chain ts }
{}

/// The tree of a node has the trees of its kids.
pub fn trees_have_kids()
    ensures { (g : Setting) → IsOrdered g.unit.nodes.items → (id : TNodeId) (n : TNode) → slice_get g.unit.nodes.items id.0 ≡ Some n →
        tree_in g id ≡ node (node_in g id).kind (node_in g id).typ n.cat (node_in g id).at (trees_in g (node_in g id).kids) }
{}

/// The scopes match still where an object comes to wait in its scope.
pub fn scopes_match_still()
    ensures blocks { (g : Setting) (always : Bool) (address : Address) (id : TNodeId) (first : ℕ) (m : Mode) (items : List Item) (d : Left g m items) →
        (chain : List ScopeKind) → Always g always d → Matches g d chain → Matches g d (Waits OfBlock always address id first ∷ chain) }
    ensures calls { (g : Setting) (address : Address) (id : TNodeId) (first : ℕ) (m : Mode) (items : List Item) (d : Left g m items) (chain : List ScopeKind) →
        AwaitsCall g d → Matches g d chain → Matches g d (Waits OfCall true address id first ∷ chain) }
{}

/// What leaves the frames of a head that is passed goes on behind them.
pub fn frames_are_passed()
    ensures { (g : Setting) (number : ℕ → ℕ) (ws : List Waiting) (k : List Frame) (m : Mode) (n : Mode) (items : List Item) (rest : List Item) →
        (h : Head g m items n rest) (outer : List Waiting) (chain : List ScopeKind) (es : List Exception) (ts : List Term) (exit : Exit) →
        head_passed g h ≡ true → left ws exit (head_frames g number h outer chain es ts ++ k) ≡ left ws exit k }
{}

/// Lists of items are as the machine puts them down.
pub fn items_are_put_down()
    ensures nodes { (way : Way) (ids : List TNodeId) (items : List Item) → runs way ids items ≡ all_run way ids items }
    ensures labels { (g : Setting) (otherwise : Option Jump) (ids : List TNodeId) (labels : List (Option Jump)) (items : List Item) →
        labelled g otherwise ids labels items ≡ all_bound (all_labels g otherwise ids labels) ids items }
{}
