//! What holds of lowered bodies. A function here does nothing: its clauses are the laws.

ghost use Rattle.std.specs.Prelude.{◌≡◌, ◌≤◌, ℕ, Bool, false, List};
ghost use Rattle.cpp_tree.specs.cpp_types.Typ.{Typ};
ghost use Rattle.low_code.specs.declared.scopes.ScopeKind.{ScopeKind};
ghost use Rattle.src_mean.specs.Linked.{Func, Program};
ghost use Rattle.symbolic_source.specs.Terms.{Term, Exception};
ghost use Rattle.symbolic_source.specs.Outcomes.{Outcome};
ghost use Rattle.symbolic_source.specs.Steps.{Answers, advanced};
ghost use Rattle.symbolic_source.specs.Small.{is_stuck};
ghost use Rattle.symbolic_code.specs.Facts.{Fact};
ghost use Rattle.symbolic_code.specs.Places.{Place};
ghost use Rattle.body_check.specs.Notes.{Note, Bounds, Lands};
ghost use Rattle.body_check.specs.Calls.{Book};
ghost use Rattle.body_check.specs.Linked.{Held};
ghost use Rattle.tx_code.specs.declared.instr.Instr.{Instr};
ghost use Rattle.unwind_lower.specs.declared.items.Item.{Item};
ghost use Rattle.unwind_lower.specs.Settings.{Setting};
ghost use Rattle.lowered_frames.specs.Lists.{AreSo, AreAll};
ghost use Rattle.lowered_frames.specs.Modes.{Mode};
ghost use Rattle.lowered_frames.specs.Left.{Left, count, exception_count};
ghost use Rattle.lowered_notes.specs.Canonical.{Comes, AreThrown, Known, place_with, coming, There};
ghost use Rattle.lowered_notes.specs.Straight.{Straight, is_operator, Stand, AreNoted, Ends, AllFit};

/// Where the code stands with some terms and exceptions, and the source gives the value to the frames with these, it has come to the note.
pub fn notes_are_come_to()
    ensures { (p : Program) (f : Func) (g : Setting) (m : Mode) (items : List Item) (d : Left g m items) (chain : List ScopeKind) →
        (v : Term) (es : List Exception) (ts : List Term) → AreAll (exception_count g d) es → AreSo (count g d chain) ts →
        (b : Bounds) (notes : List Note) (thrown : Typ → Bool) (known : List Fact) (answers : Answers) (lag : ℕ) (index : ℕ) (rank : ℕ) →
        AreThrown thrown es → Known p f g d chain ts known → Comes m v → There p f g d chain b notes index rank → (q : Place) (o : Outcome) →
        q ≡ place_with p f g d chain v es ts → advanced p f answers lag o ≡ coming p f g d chain answers v es ts →
        is_stuck (coming p f g d chain answers v es ts) ≡ false → Lands p f b notes thrown known answers index q o }
{}

/// Instructions that only move operands, while the source does nothing: with a note in front of each, and where what comes behind the last one has come to a
/// note, all these notes fit.
pub fn straight_code_fits()
    ensures { (p : Program) (b : Bounds) (book : Book) (h : Held) (q : Place) (known : List Fact) (o : Outcome) → 1 ≤ b.half →
        is_stuck o ≡ false → is_operator o ≡ false → (instrs : List Instr) (ws : List Term) (vs : List Term) (s : Straight known instrs ws vs) →
        (index : ℕ) (rank : ℕ) → Stand h.body.code index instrs → AreNoted b h.notes q known o s index rank → Ends p b book h q known o s index rank →
        AllFit p b book h q known o s index rank }
{}
