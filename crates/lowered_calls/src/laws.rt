//! What holds of lowered bodies. A function here does nothing: its clauses are the laws.

ghost use Rattle.std.specs.Prelude.{◌≡◌, ◌≤◌, ◌+◌, ℕ, suc, Bool, true, false, List, [], ◌∷◌, Some, None};
ghost use Rattle.cpp_tree.specs.cpp_types.Typ.{Signature};
ghost use Rattle.cpp_tree.specs.cpp_types.declared.classes.At.{At};
ghost use Rattle.cpp_tree.specs.declared.arena.TNodeId.{TNodeId};
ghost use Rattle.cpp_tree.specs.declared.kinds.Builtin.TheVariants.{PutChar};
ghost use Rattle.tx_code.specs.declared.instr.Instr.TheVariants.{Call, CallIndirect, Out, Ret};
ghost use Rattle.low_code.specs.declared.scopes.ScopeKind.{ScopeKind};
ghost use Rattle.src_mean.specs.Linked.{Program};
ghost use Rattle.symbolic_source.specs.Terms.{Term, Exception};
ghost use Rattle.symbolic_source.specs.Steps.{first_word, step_of};
ghost use Rattle.symbolic_code.specs.Facts.{Fact, has_function, Among};
ghost use Rattle.symbolic_code.specs.Places.{with_operands};
ghost use Rattle.body_check.specs.Notes.{Bounds, no_answers};
ghost use Rattle.body_check.specs.Calls.{Book, Behind, ThrownWith};
ghost use Rattle.body_check.specs.Linked.{Held};
ghost use Rattle.unwind_lower.specs.declared.items.Way.{Way};
ghost use Rattle.unwind_lower.specs.declared.items.Way.TheVariants.{Value};
ghost use Rattle.unwind_lower.specs.declared.items.Item.{Item};
ghost use Rattle.unwind_lower.specs.Settings.{Setting, node_in};
ghost use Rattle.low_code.specs.Types.{is_void};
ghost use Rattle.lowered_frames.specs.Lists.{behind, more_by};
ghost use Rattle.lowered_frames.specs.Modes.{Mode, top, valued};
ghost use Rattle.lowered_frames.specs.Expressions.{run};
ghost use Rattle.lowered_frames.specs.Calls.{Called, by_name, by_slot, by_pointer, built_in, called_count, words};
ghost use Rattle.lowered_frames.specs.Statements.{returns_word, returns_nothing};
ghost use Rattle.lowered_frames.specs.Left.{Left, before, expression, calling, leave, frames, temporaries, below, AreEntered};
ghost use Rattle.lowered_notes.specs.Canonical.{numbers_of};
ghost use Rattle.lowered_steps.specs.Ahead.{standing, Fitting, Ahead, Filled, IsTold, AlwaysRereads};
ghost use Rattle.lowered_calls.specs.Back.{HandsBack};
ghost use Rattle.lowered_calls.specs.Passing.{passed};

/// Where the note of what is left to write behind a call is there, the caller goes on from it as the function hands back a word or none.
pub fn calls_come_back()
    ensures { (p : Program) (b : Bounds) (book : Book) (h : Held) (g : Setting) (m : Mode) (items : List Item) (d : Left g m items) (chain : List ScopeKind) →
        (v : Term) (es : List Exception) (ts : List Term) (ws : List Term) (known : List Fact) (gives : Bool) (stops : Bool) (index : ℕ) (after : ℕ) →
        HandsBack gives m → AreEntered g d → Filled p b book h g d chain v es ts known → Ahead p b book h g d chain (index + 1) after → 1 ≤ b.half →
        (stops ≡ false → ThrownWith p b book h known index (with_operands (standing p b book h g d chain v es ts) ws) (below g d chain ts)
        (temporaries g d chain ts) (frames g (numbers_of p h.func g) d chain es ts)) →
        Behind p b book gives stops h known index (with_operands (standing p b book h g d chain v es ts) ws) (below g d chain ts)
        (temporaries g d chain ts) (frames g (numbers_of p h.func g) d chain es ts) }
{}

/// A call whose words all lie on the stack fits where it was written, if the note of what is left behind it is there.
pub fn calls_fit()
    ensures by_name { (p : Program) (b : Bounds) (book : Book) (h : Held) (g : Setting) (m : Mode) (items : List Item) (d : Left g m items) (n : ℕ) (id : TNodeId) (way : Way) →
        (chain : List ScopeKind) (rank index after name : ℕ) → AreEntered g d → Ahead p b book h g d chain (index + 1) after → 1 ≤ b.half →
        (v : Term) (es : List Exception) (ts : List Term) (known : List Fact) (lead : ℕ) → (func : ℕ) → h.table.function_of name ≡ Some func →
        book.takes (p.number h.func.unit func) ≡ suc n → HandsBack (book.gives (p.number h.func.unit func)) m →
        (book.stops (p.number h.func.unit func) ≡ false → ThrownWith p b book h known index (standing p b book h g (before (calling (words (by_name func) n [] id way)) d) chain v es ts)
        (below g d chain (behind (more_by n (called_count (by_name func))) ts)) (temporaries g d chain (behind (more_by n (called_count (by_name func))) ts))
        (frames g (numbers_of p h.func g) d chain es (behind (more_by n (called_count (by_name func))) ts))) →
        Filled p b book h g (before (calling (words (by_name func) n [] id way)) d) chain v es ts known →
        Fitting p b book h g (before (calling (words (by_name func) n [] id way)) d) chain v es ts known lead rank index (Call name (suc n)) }
    ensures by_pointer { (p : Program) (b : Bounds) (book : Book) (h : Held) (g : Setting) (m : Mode) (items : List Item) (d : Left g m items) (n : ℕ) (id : TNodeId) (way : Way) →
        (chain : List ScopeKind) (rank index after name : ℕ) → AreEntered g d → Ahead p b book h g d chain (index + 1) after → 1 ≤ b.half →
        (v : Term) (es : List Exception) (ts : List Term) (known : List Fact) (lead : ℕ) → (sig : Signature) (gives : Bool) → h.table.is_signature name sig ≡ true →
        book.takes_as sig (suc n) gives ≡ true → HandsBack gives m → ThrownWith p b book h known index (standing p b book h g (before (calling (words (by_pointer sig) n [] id way)) d) chain v es ts)
        (below g d chain (behind (more_by n (called_count (by_pointer sig))) ts)) (temporaries g d chain (behind (more_by n (called_count (by_pointer sig))) ts))
        (frames g (numbers_of p h.func g) d chain es (behind (more_by n (called_count (by_pointer sig))) ts)) →
        Filled p b book h g (before (calling (words (by_pointer sig) n [] id way)) d) chain v es ts known →
        Fitting p b book h g (before (calling (words (by_pointer sig) n [] id way)) d) chain v es ts known lead rank index (CallIndirect name (suc n)) }
    ensures by_slot { (p : Program) (b : Bounds) (book : Book) (h : Held) (g : Setting) (m : Mode) (items : List Item) (d : Left g m items) (n : ℕ) (id : TNodeId) (way : Way) →
        (chain : List ScopeKind) (rank index after name : ℕ) → AreEntered g d → Ahead p b book h g d chain (index + 1) after → 1 ≤ b.half →
        (v : Term) (es : List Exception) (ts : List Term) (known : List Fact) (lead : ℕ) → (class slot : ℕ) (gives : Bool) → h.table.is_slot name class slot ≡ true →
        book.slot_takes class slot (suc n) gives ≡ true → Among (has_function class slot (first_word (behind n ts))) known → HandsBack gives m →
        ThrownWith p b book h known index (standing p b book h g (before (calling (words (by_slot class slot) n [] id way)) d) chain v es ts)
        (below g d chain (behind (more_by n (called_count (by_slot class slot))) ts)) (temporaries g d chain (behind (more_by n (called_count (by_slot class slot))) ts))
        (frames g (numbers_of p h.func g) d chain es (behind (more_by n (called_count (by_slot class slot))) ts)) →
        Filled p b book h g (before (calling (words (by_slot class slot) n [] id way)) d) chain v es ts known →
        Fitting p b book h g (before (calling (words (by_slot class slot) n [] id way)) d) chain v es ts known lead rank index (CallIndirect name (suc n)) }
{}

/// A return fits where it was written, if nothing is to be done on the way out.
pub fn returns_fit()
    ensures with_word { (p : Program) (b : Bounds) (book : Book) (h : Held) (g : Setting) (m n : Mode) (items outer : List Item) (d : Left g m items) (o : Left g n outer) →
        (origin junk : ℕ) (at : At) (chain : List ScopeKind) (v : Term) (es : List Exception) (ts : List Term) (known : List Fact) (lead rank index : ℕ) →
        passed g o ≡ true → book.gives h.number ≡ true →
        Fitting p b book h g (leave returns_word None origin junk at d o) chain v es ts known lead rank index (Ret 1) }
    ensures with_nothing { (p : Program) (b : Bounds) (book : Book) (h : Held) (g : Setting) (m n : Mode) (items outer : List Item) (d : Left g m items) (o : Left g n outer) →
        (origin junk : ℕ) (at : At) (chain : List ScopeKind) (v : Term) (es : List Exception) (ts : List Term) (known : List Fact) (lead rank index : ℕ) →
        passed g o ≡ true → book.gives h.number ≡ false →
        Fitting p b book h g (leave returns_nothing None origin junk at d o) chain v es ts known lead rank index (Ret 0) }
{}

/// Output fits where it was written, if the note of what is left behind it is there.
pub fn output_fits()
    ensures { (p : Program) (b : Bounds) (book : Book) (h : Held) (g : Setting) (items : List Item) (d : Left g top items) (id : TNodeId) (way : Way) →
        (chain : List ScopeKind) (v : Term) (es : List Exception) (ts : List Term) (known : List Fact) (lead rank index after : ℕ) → IsTold v →
        Filled p b book h g (before (calling (words (built_in PutChar) 0 [] id way)) d) chain v es ts known → Ahead p b book h g d chain (index + 1) after →
        Fitting p b book h g (before (calling (words (built_in PutChar) 0 [] id way)) d) chain v es ts known lead rank index Out }
{}

/// Where a word of a call lies on top and another one comes, the source takes a silent step, and the node of that word is run.
pub fn words_follow_words()
    ensures { (p : Program) (b : Bounds) (book : Book) (h : Held) (g : Setting) (m : Mode) (items : List Item) (d : Left g m items) (chain : List ScopeKind) →
        (i : TNodeId) (ids : List TNodeId) (id : TNodeId) (x : is_void (node_in g i).typ ≡ false) (c : Called) (n : ℕ) (way : Way) →
        AlwaysRereads p b book h g (before (calling (words c n (i ∷ ids) id way)) d) chain
        (before (expression (run i Value (valued x))) (before (calling (words c (suc n) ids id way)) d)) chain (step_of p h.func no_answers) }
{}
