//! What holds of lowered bodies. A function here does nothing: its clauses are the laws.

ghost use Rattle.std.specs.Prelude.{◌≡◌, ◌≤◌, ◌+◌, ◌⊎◌, ℕ, suc, List, Some, slice_get};
ghost use Rattle.tx_code.specs.declared.instr.Instr.{Instr};
ghost use Rattle.low_code.specs.declared.scopes.ScopeKind.{ScopeKind};
ghost use Rattle.src_mean.specs.Linked.{Program};
ghost use Rattle.symbolic_source.specs.Terms.{Term, Exception};
ghost use Rattle.symbolic_source.specs.Outcomes.{Outcome};
ghost use Rattle.symbolic_source.specs.Steps.{advanced, step_of};
ghost use Rattle.symbolic_code.specs.Facts.{Fact};
ghost use Rattle.symbolic_code.specs.Places.{Place};
ghost use Rattle.body_check.specs.Notes.{Bounds, LandsOn, no_answers};
ghost use Rattle.body_check.specs.Calls.{Book, NoteFits};
ghost use Rattle.body_check.specs.Linked.{Held};
ghost use Rattle.unwind_lower.specs.declared.items.Item.{Item};
ghost use Rattle.unwind_lower.specs.Settings.{Setting};
ghost use Rattle.lowered_frames.specs.Modes.{Mode};
ghost use Rattle.lowered_frames.specs.Left.{Left};
ghost use Rattle.lowered_notes.specs.Canonical.{canonical};
ghost use Rattle.lowered_steps.specs.Ahead.{standing, comes_of, Ahead, Filled, AlwaysRereads, Moves};

/// A silent step to where something is left to write comes to the note there.
pub fn silent_steps_come_to_notes()
    ensures { (p : Program) (b : Bounds) (book : Book) (h : Held) (g : Setting) (m : Mode) (items : List Item) (d : Left g m items) (chain : List ScopeKind) →
        (v : Term) (es : List Exception) (ts : List Term) (known : List Fact) → Filled p b book h g d chain v es ts known →
        (lead lag rank index after : ℕ) → Ahead p b book h g d chain index after → lead + lag ≤ b.longest → ((1 ≤ lead + lag) ⊎ (after + 1 ≤ rank)) →
        (q : Place) (o : Outcome) → q ≡ standing p b book h g d chain v es ts → advanced p h.func no_answers lag o ≡ comes_of p b book h g d chain v es ts →
        LandsOn p h.func b h.notes book.thrown known lead rank index q o }
{}

/// Where an instruction fits whatever the terms are, the note of what is left to write there fits.
pub fn notes_fit()
    ensures { (p : Program) (b : Bounds) (book : Book) (h : Held) (g : Setting) (m : Mode) (items : List Item) (d : Left g m items) (chain : List ScopeKind) →
        (lead rank index : ℕ) (instr : Instr) → Moves p b book h g d chain lead rank index instr → slice_get h.body.code index ≡ Some instr → lead + 1 ≤ b.half →
        NoteFits p b book h (canonical p h.func g d chain index lead rank) }
{}

/// What fits where something is read otherwise fits there, after as many silent steps more as the other reading takes.
pub fn readings_fit()
    ensures later { (p : Program) (b : Bounds) (book : Book) (h : Held) (g : Setting) (m n : Mode) (items others : List Item) (d : Left g m items) →
        (chain : List ScopeKind) (e : Left g n others) (outer : List ScopeKind) (steps rank index : ℕ) (instr : Instr) →
        AlwaysRereads p b book h g d chain e outer (step_of p h.func no_answers) → Moves p b book h g e outer steps rank index instr →
        Moves p b book h g d chain (suc steps) rank index instr }
    ensures at_once { (p : Program) (b : Bounds) (book : Book) (h : Held) (g : Setting) (m n : Mode) (items others : List Item) (d : Left g m items) →
        (chain : List ScopeKind) (e : Left g n others) (outer : List ScopeKind) (steps rank index : ℕ) (instr : Instr) →
        AlwaysRereads p b book h g d chain e outer (λ (z : Outcome). z) → Moves p b book h g e outer steps rank index instr →
        Moves p b book h g d chain steps rank index instr }
{}
