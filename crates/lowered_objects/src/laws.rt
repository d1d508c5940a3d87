//! What holds of lowered bodies. A function here does nothing: its clauses are the laws.

ghost use Rattle.std.specs.Prelude.{◌≡◌, ◌≤◌, ◌<◌, ◌+◌, ◌^◌, ℕ, zero, suc, Bool, true, false, List, [], ◌∷◌, ◌++◌, Some};
ghost use Rattle.cpp_tree.specs.Trees.{kind_of};
ghost use Rattle.cpp_tree.specs.cpp_types.declared.classes.At.{At};
ghost use Rattle.cpp_tree.specs.declared.arena.TNodeId.{TNodeId};
ghost use Rattle.cpp_tree.specs.declared.kinds.TKind.TheVariants.{Destroy as DestroyRow};
ghost use Rattle.tx_code.specs.declared.instr.Instr.TheVariants.{Call};
ghost use Rattle.low_code.specs.declared.scopes.Address.{Address};
ghost use Rattle.low_code.specs.declared.scopes.Address.TheVariants.{Frame as OfFrame};
ghost use Rattle.low_code.specs.declared.scopes.Owner.{Owner};
ghost use Rattle.low_code.specs.declared.scopes.Owner.TheVariants.{Full as OfFull};
ghost use Rattle.low_code.specs.declared.scopes.ScopeKind.{ScopeKind};
ghost use Rattle.low_code.specs.declared.scopes.ScopeKind.TheVariants.{Waits, Mark};
ghost use Rattle.src_mean.specs.Linked.{Program};
ghost use Rattle.symbolic_source.specs.Terms.{Term, Exception, local, number, plus_number};
ghost use Rattle.symbolic_source.specs.Frames.{Destroys, Due, Gives, at_word, puts};
ghost use Rattle.symbolic_source.specs.Outcomes.{Outcome};
ghost use Rattle.symbolic_source.specs.Steps.{element_at};
ghost use Rattle.symbolic_code.specs.Facts.{Fact};
ghost use Rattle.symbolic_code.specs.Places.{with_operands};
ghost use Rattle.body_check.specs.Notes.{Bounds};
ghost use Rattle.body_check.specs.Calls.{AllThrown, Book, StepFits, ThrownWith};
ghost use Rattle.body_check.specs.Linked.{Held};
ghost use Rattle.unwind_lower.specs.Kids.{kids_from};
ghost use Rattle.unwind_lower.specs.Settings.{Setting, node_in};
ghost use Rattle.unwind_lower.specs.declared.items.Item.{Item};
ghost use Rattle.lowered_frames.specs.Chains.{spot_with};
ghost use Rattle.lowered_frames.specs.Closings.{cleaning};
ghost use Rattle.lowered_frames.specs.Left.{AreEntered, Left, before, below, caught, closing, frames, making, temporaries};
ghost use Rattle.lowered_frames.specs.Modes.{Mode, gone, tree_in, trees_in};
ghost use Rattle.lowered_frames.specs.Objects.{destroying, kept_for};
ghost use Rattle.lowered_notes.specs.Canonical.{numbers_of};
ghost use Rattle.lowered_steps.specs.Ahead.{Ahead, AlwaysRereads, Filled, comes_of, standing};
ghost use Rattle.lowered_objects.specs.Scopes.{is_in_full, is_kept, is_placed, receives, source_owner, with_scope};

/// A temporary that is made comes to wait around the scopes of calls and parts: no frame and no operand changes by it, and the temporaries get one more.
pub fn temporaries_change_nothing_else()
    ensures frames { (g : Setting) (number : ℕ → ℕ) (offset : ℕ) (id : TNodeId) (first : ℕ) (m : Mode) (items : List Item) (d : Left g m items) →
        (chain : List ScopeKind) → is_in_full g d chain ≡ true → (es : List Exception) (ts : List Term) →
        frames g number d (with_scope (Waits OfFull true (OfFrame offset) id first) chain) es ts ≡ frames g number d chain es ts }
    ensures operands { (g : Setting) (offset : ℕ) (id : TNodeId) (first : ℕ) (m : Mode) (items : List Item) (d : Left g m items) (chain : List ScopeKind) →
        is_in_full g d chain ≡ true → (ts : List Term) →
        below g d (with_scope (Waits OfFull true (OfFrame offset) id first) chain) ts ≡ below g d chain ts }
    ensures temporaries { (g : Setting) (offset : ℕ) (id : TNodeId) (first : ℕ) (m : Mode) (items : List Item) (d : Left g m items) (chain : List ScopeKind) →
        is_in_full g d chain ≡ true → (ts : List Term) →
        temporaries g d (with_scope (Waits OfFull true (OfFrame offset) id first) chain) ts ≡
        record { address = at_word (local offset); destroys = trees_in g (kids_from (node_in g id) first) } ∷ temporaries g d chain ts }
{}

/// An object of the frame that comes to wait in the source waits in the scope that is entered for it in the code.
pub fn objects_wait_in_their_scopes()
    ensures { (g : Setting) (number : ℕ → ℕ) (owner : Owner) (always : Bool) (address : Address) (id : TNodeId) (first : ℕ) → is_placed address ≡ true →
        (m : Mode) (items : List Item) (d : Left g m items) (chain : List ScopeKind) → receives g owner d ≡ true → (es : List Exception) (ts : List Term) →
        puts (source_owner owner) (record { address = spot_with g address []; destroys = trees_in g (kids_from (node_in g id) first) })
        (frames g number d chain es ts) ≡ Some (frames g number d (Waits owner always address id first ∷ chain) es ts) }
{}

/// Where no object of an owner is left to destroy, the value is given that was kept.
pub fn values_are_kept_to_the_end()
    ensures { (p : Program) (b : Bounds) (book : Book) (h : Held) (g : Setting) (m : Mode) (items : List Item) (d : Left g m items) (chain : List ScopeKind) →
        (owner : Owner) (at : At) → is_kept m ≡ true →
        AlwaysRereads p b book h g (before (closing (cleaning owner at)) d) (Mark owner ∷ chain) d chain (λ (o : Outcome). o) }
{}

/// In an array of which so many elements are left, the destructor is called for the last of them, and comes back to where one less is left.
pub fn destructors_of_elements_fit()
    ensures { (p : Program) (b : Bounds) (book : Book) (h : Held) (g : Setting) (items : List Item) (d : Left g gone items) (chain : List ScopeKind) →
        (id : TNodeId) (first : ℕ) (row : TNodeId) (func offset size stride : ℕ) (ids : List TNodeId) → (rows : kids_from (node_in g id) first ≡ row ∷ ids) →
        (kind : (node_in g row).kind ≡ DestroyRow func offset size stride) → kind_of (tree_in g row) ≡ DestroyRow func offset size stride →
        (es : List Exception) (known : List Fact) (w : Term) (ts : List Term) → AreEntered g d → AllThrown book.thrown (caught g d es) →
        (l : ℕ) → suc l < 2 ^ 64 → (v : Term) (name : ℕ) (index : ℕ) →
        Filled p b book h g (before (making (destroying id first row func offset size stride (suc l) ids rows kind)) d) chain v es (w ∷ ts) known →
        (after : ℕ) → Ahead p b book h g (before (making (destroying id first row func offset size stride l ids rows kind)) d) chain (index + 1) after →
        1 ≤ b.half → h.table.function_of name ≡ Some func → book.takes (p.number h.func.unit func) ≡ 1 → book.gives (p.number h.func.unit func) ≡ false →
        (book.stops (p.number h.func.unit func) ≡ false → ThrownWith p b book h known index
        (with_operands (standing p b book h g (before (making (destroying id first row func offset size stride (suc l) ids rows kind)) d) chain v es (w ∷ ts))
        (element_at (plus_number w offset) (number l) stride ∷ number l ∷ plus_number w offset ∷ kept_for ids w ++ below g d chain ts))
        (number l ∷ plus_number w offset ∷ kept_for ids w ++ below g d chain ts) (temporaries g d chain ts)
        (Destroys (p.number h.func.unit func) (plus_number w offset) stride (number l) ∷ Gives w ∷ Due (trees_in g ids) ∷
        frames g (numbers_of p h.func g) d chain es ts)) →
        (lead rank : ℕ) → StepFits p b book h known lead rank index (Call name 1)
        (with_operands (standing p b book h g (before (making (destroying id first row func offset size stride (suc l) ids rows kind)) d) chain v es (w ∷ ts))
        (element_at (plus_number w offset) (number l) stride ∷ number l ∷ plus_number w offset ∷ kept_for ids w ++ below g d chain ts))
        (comes_of p b book h g (before (making (destroying id first row func offset size stride (suc l) ids rows kind)) d) chain v es (w ∷ ts)) }
{}
