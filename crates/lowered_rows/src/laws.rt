//! Laws of the unwind rows of a lowered body. A function here does nothing: its clauses are the laws.

ghost use Rattle.std.specs.Prelude.{◌≡◌, ◌≢◌, ℕ, ◌<◌, ◌≤◌, length, slice_get, Option, Some, None, option_map};
ghost use Rattle.tx_code.specs.Meaning.{find};
ghost use Rattle.cpp_tree.specs.cpp_types.declared.classes.At.{At};
ghost use Rattle.low_code.specs.declared.scopes.ScopeKind.{ScopeKind};
ghost use Rattle.low_code.specs.declared.scopes.ScopeKind.TheVariants.{Function};
ghost use Rattle.low_code.specs.declared.writer.LowInstr.{LowInstr};
ghost use Rattle.low_code.specs.Writer.{Body, begun, scope_in, entered_at, entered_handler};
ghost use Rattle.low_code.specs.Rows.{rows_in, block_edge};
ghost use Rattle.lowered_rows.specs.Taking.{Taken, way, taken_by, taken_from, taken};
ghost use Rattle.lowered_rows.specs.Lying.{HasEdges, AreNested, AreWithin};

/// The row that takes an exception at an instruction is what takes it from the scope of the instruction outward, and none takes
/// it where nothing does. Beyond the code there is no row.
pub fn rows_take()
    ensures inside { (b : Body) → HasEdges b → (i ty : ℕ) (low : LowInstr) → slice_get b.code i ≡ Some low →
        option_map way (find (rows_in b) i ty) ≡ taken b low.scope ty }
    ensures beyond { (b : Body) → HasEdges b → (i ty : ℕ) → length b.code ≤ i → find (rows_in b) i ty ≡ None }
{}

/// What takes an exception is found scope by scope outward, however many there are.
pub fn scopes_take()
    ensures { (b : Body) → AreNested b → (ty : ℕ) (outside : Option Taken) (scope : ℕ) →
        taken_from b ty outside scope ≡
        taken_by b ty scope (scope_in b scope).kind outside (taken_from b ty outside (scope_in b scope).parent) }
{}

/// What takes an exception from a scope outward takes it from the innermost scope with rows outward.
pub fn passed_scopes_take_nothing()
    ensures { (b : Body) → AreWithin b → (scope ty : ℕ) → scope < length b.scopes →
        taken b scope ty ≡ taken b (scope_in b scope).rows ty }
{}

/// Scopes that a body begins with, and that are entered in it, are as the other laws ask; nothing else of a body matters there.
pub fn entered_scopes_are_within()
    ensures same { (b c : Body) → b.scopes ≡ c.scopes → AreWithin b → AreWithin c }
    ensures same_edges { (b c : Body) → b.scopes ≡ c.scopes → HasEdges b → HasEdges c }
    ensures begun { (depth : ℕ) (at : At) → AreWithin (begun depth at) }
    ensures begun_edges { (depth : ℕ) (at : At) → HasEdges (begun depth at) }
    ensures entered { (kind : ScopeKind) (depth : ℕ) (at : At) (b : Body) → AreWithin b → b.scope < length b.scopes → kind ≢ Function →
        AreWithin (entered_at kind depth at b) }
    ensures entered_edges { (kind : ScopeKind) (depth : ℕ) (at : At) (b : Body) → HasEdges b → block_edge kind ≢ 1 →
        HasEdges (entered_at kind depth at b) }
    ensures handler { (at : At) (b : Body) → AreWithin b → (scope_in b 0).parent ≡ 0 → b.scope < length b.scopes →
        AreWithin (entered_handler at b) }
    ensures handler_edges { (at : At) (b : Body) → HasEdges b → HasEdges (entered_handler at b) }
    ensures nested { (b : Body) → AreWithin b → AreNested b }
{}
