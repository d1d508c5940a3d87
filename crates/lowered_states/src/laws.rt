//! What stays as a body is written. A function here does nothing: its clauses are the laws.

ghost use Rattle.std.specs.Prelude.{◌≡◌, ◌<◌, ◌≤◌, true, false, ℕ, List, [], length, get_or, slice_get, Some};
ghost use Rattle.cpp_tree.specs.cpp_types.declared.classes.At.{At};
ghost use Rattle.cpp_tree.specs.declared.arena.TNodeId.{TNodeId};
ghost use Rattle.tx_code.specs.declared.instr.Instr.TheVariants.{Jump as JumpTo};
ghost use Rattle.low_code.specs.declared.writer.Jump.{Jump};
ghost use Rattle.low_code.specs.declared.writer.Sort.{Sort};
ghost use Rattle.low_code.specs.declared.writer.Sort.TheVariants.{Past as PastIt, Again};
ghost use Rattle.low_code.specs.Names.{number_of};
ghost use Rattle.low_code.specs.Writer.{no_low};
ghost use Rattle.unwind_lower.specs.declared.items.Item.{Item};
ghost use Rattle.unwind_lower.specs.declared.items.Item.TheVariants.{Bind, Other, OtherAgain, StepDone, BodyDone, TestDone, Past, Pads};
ghost use Rattle.unwind_lower.specs.declared.items.Other.{Other as OtherPart};
ghost use Rattle.unwind_lower.specs.declared.items.Turn.{Turn};
ghost use Rattle.unwind_lower.specs.States.{State, later, here, put, jumped, jumped_if_zero, named};
ghost use Rattle.unwind_lower.specs.Settings.{Setting, node_in};
ghost use Rattle.unwind_lower.specs.Steps.{Reaches, written};
ghost use Rattle.unwind_lower.specs.Functions.{begun, started, WrittenTo};
ghost use Rattle.lowered_states.specs.Claims.{held, is_place, is_open, open_in, waiting};
ghost use Rattle.lowered_states.specs.Kept.{Begins, Kept, IsSame, instr_at, unaimed, is_behind};
ghost use Rattle.lowered_states.specs.Sound.{Sound, AreNumbered, scope_from};
ghost use Rattle.lowered_states.specs.Runs.{IsApart, AreApart, Leads, Sleeps, WritesNone};

/// What a run needs holds where a body begins, and in each state that is reached.
pub fn runs_are_sound()
    ensures begun { (g : Setting) (names : List (List ℕ)) (at : At) → AreNumbered names → Sound (begun g names at) }
    ensures started { (g : Setting) (root : TNodeId) (at : At) (s : State) → Sound s → Sound (started g root at s) }
    ensures ways_out { (s : State) → Sound s → Sound (later (Pads 0) s) }
    ensures written { (g : Setting) (item : Item) (s : State) → Sound (later item s) → IsApart g item s → Sound (written g item s) }
    ensures reached { (g : Setting) (from to : State) → Sound from → AreApart g from → Reaches g from to → Sound to }
    ensures whole { (g : Setting) (root : TNodeId) (names : List (List ℕ)) (at : At) (to : State) (w : WrittenTo g root at (begun g names at) to) →
        AreNumbered names → AreApart g (started g root at (begun g names at)) → AreApart g (later (Pads 0) w.body) → Sound to }
{}

/// A run goes on behind another one.
pub fn runs_go_on()
    ensures reached { (g : Setting) (from mid to : State) → Reaches g from mid → Reaches g mid to → Reaches g from to }
    ensures apart { (g : Setting) (from to : State) → AreApart g from → Reaches g from to → AreApart g to }
{}

/// An open jump is there, leads nowhere yet, and is claimed once.
pub fn open_jumps_are_there()
    ensures once { (s : State) → Sound s → (index : ℕ) → open_in index s ≤ 1 }
    ensures there { (s : State) → Sound s → (index : ℕ) → 1 ≤ open_in index s → index < here s }
    ensures nowhere { (s : State) → Sound s → (index : ℕ) → 1 ≤ open_in index s → is_open (instr_at index s) ≡ true }
{}

/// Of names, scopes, catches, ways out, jumps that wait and instructions there is only more.
pub fn there_is_only_more()
    ensures { (g : Setting) (from to : State) → Sound from → AreApart g from → Reaches g from to → Kept from to }
{}

/// A scope stays as it is. Only the way out of the block around may become known later.
pub fn scopes_stay()
    ensures whole { (from to : State) → Kept from to → (number : ℕ) → number < length from.body.scopes →
        IsSame (scope_from from.body.scopes number) (scope_from to.body.scopes number) }
    ensures kind { (from to : State) → Kept from to → (number : ℕ) → number < length from.body.scopes →
        is_behind (scope_from from.body.scopes number).kind ≡ false →
        (scope_from to.body.scopes number).kind ≡ (scope_from from.body.scopes number).kind }
    ensures count { (from to : State) → Kept from to → length from.body.scopes ≤ length to.body.scopes }
{}

/// An instruction stays, but where it is a jump that is still to be led somewhere, and while it is still to be led; its place in
/// the source and its scope stay always.
pub fn instructions_stay()
    ensures unclaimed { (g : Setting) (from to : State) → Sound from → AreApart g from → Reaches g from to → (index : ℕ) → index < here from →
        open_in index from ≡ 0 → instr_at index to ≡ instr_at index from }
    ensures still_open { (g : Setting) (from to : State) → Sound from → AreApart g from → Reaches g from to → (index : ℕ) → index < here from →
        1 ≤ open_in index to → instr_at index to ≡ instr_at index from }
    ensures closed { (g : Setting) (from to : State) → Sound from → AreApart g from → Reaches g from to → (index : ℕ) → index < here from →
        is_open (instr_at index from) ≡ false → instr_at index to ≡ instr_at index from }
    ensures apart { (from to : State) → Kept from to → (index : ℕ) → index < here from →
        unaimed (get_or from.body.code index no_low) ≡ unaimed (get_or to.body.code index no_low) }
    ensures count { (from to : State) → Kept from to → here from ≤ here to }
{}

/// A jump that an item leads somewhere leads there in each later state.
pub fn jumps_lead()
    ensures bind { (g : Setting) (j : Jump) (s : State) → Sound (later (Bind (Some j)) s) → Leads g (Bind (Some j)) s j.index (here s) }
    ensures other { (g : Setting) (o : OtherPart) (j : Jump) (s : State) → o.test ≡ Some j → Sound (later (Other o) s) →
        Leads g (Other o) s j.index (here (jumped o.at s)) }
    ensures other_again { (g : Setting) (o : OtherPart) (j : Jump) (s : State) → o.test ≡ Some j → Sound (later (OtherAgain o) s) →
        Leads g (OtherAgain o) s j.index (here (jumped o.at s)) }
    ensures step { (g : Setting) (turn : Turn) (j : Jump) (s : State) → turn.first ≡ Some j → Sound (later (StepDone turn) s) →
        Leads g (StepDone turn) s j.index (here s) }
{}

/// Jumps that wait for a place lead there once it has come, in each later state. It does not come again.
pub fn waiting_jumps_lead()
    ensures next_turn { (g : Setting) (turn : Turn) (index : ℕ) (s : State) → 1 ≤ waiting index turn.scope Again s.body.pending →
        Sound (later (BodyDone turn) s) → Leads g (BodyDone turn) s index (here s) }
    ensures behind_loop { (g : Setting) (turn : Turn) (index : ℕ) (s : State) → 1 ≤ waiting index turn.scope PastIt s.body.pending →
        Sound (later (TestDone turn) s) →
        Leads g (TestDone turn) s index (here (put (JumpTo turn.top) (node_in g turn.id).at (jumped_if_zero (node_in g turn.id).at s))) }
    ensures behind { (g : Setting) (scope index : ℕ) (s : State) → 1 ≤ waiting index scope PastIt s.body.pending → Sound (later (Past scope) s) →
        Leads g (Past scope) s index (here s) }
    ensures next_turn_gone { (g : Setting) (turn : Turn) (s : State) → Sound (later (BodyDone turn) s) →
        held (is_place turn.scope Again) [] (written g (BodyDone turn) s).work ≡ 0 }
    ensures behind_loop_gone { (g : Setting) (turn : Turn) (s : State) → Sound (later (TestDone turn) s) →
        held (is_place turn.scope PastIt) [] (written g (TestDone turn) s).work ≡ 0 }
    ensures behind_gone { (g : Setting) (scope : ℕ) (s : State) → Sound (later (Past scope) s) →
        held (is_place scope PastIt) [] (written g (Past scope) s).work ≡ 0 }
    ensures gone { (g : Setting) (from to : State) → Sound from → AreApart g from → Reaches g from to → (scope : ℕ) (sort : Sort) →
        scope < length from.body.scopes → held (is_place scope sort) [] from.work ≡ 0 → held (is_place scope sort) [] to.work ≡ 0 }
{}

/// Names keep their numbers.
pub fn names_stay()
    ensures there { (from to : State) → Kept from to → (name : List ℕ) → number_of name from.names < length from.names →
        number_of name to.names ≡ number_of name from.names }
    ensures number { (name : List ℕ) (s to : State) → Begins (named name s).names to.names → number_of name to.names ≡ number_of name s.names }
    ensures name { (name : List ℕ) (s to : State) → Begins (named name s).names to.names → slice_get to.names (number_of name s.names) ≡ Some name }
{}

/// Where no instruction can be reached, none is written.
pub fn dead_code_is_not_written()
    ensures asleep { (g : Setting) (item : Item) (s : State) → Sound (later item s) → IsApart g item s → Sleeps item → s.body.live ≡ false →
        ((written g item s).body.live ≡ false) × ((written g item s).body.code ≡ s.body.code) }
    ensures count { (g : Setting) (item : Item) (s : State) → Sound (later item s) → IsApart g item s → WritesNone item → s.body.live ≡ false →
        here (written g item s) ≡ here s }
{}
