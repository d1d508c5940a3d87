//! What notes that fit show, and worked bodies. A function here does nothing: its clauses are the laws.

ghost use Rattle.std.specs.Prelude.{Bool, ◌≡◌, ◌==◌, ℕ, ◌+◌, ℤ, false, List, [], ◌∷◌, Option, Some, None};
ghost use Rattle.tx_code.specs.declared.instr.Instr.TheVariants.{Push, Swap, FrameAddr, Load, Store, Bin, Ret};
ghost use Rattle.tx_ints.specs.declared.kinds.IntKind.TheVariants.{Int};
ghost use Rattle.tx_ints.specs.declared.kinds.BinOp.TheVariants.{Add};
ghost use Rattle.tx_code.specs.declared.body.Row.{Row};
ghost use Rattle.cpp_tree.specs.cpp_types.Typ.{Typ};
ghost use Rattle.src_mean.specs.Linked.{Func, Program};
ghost use Rattle.symbolic_source.specs.Terms.{number, variable, unknown, converted_to, result as value_of};
ghost use Rattle.symbolic_source.specs.Frames.{returns};
ghost use Rattle.symbolic_source.specs.Outcomes.{Outcome, goes_out};
ghost use Rattle.symbolic_code.specs.Facts.{Fact};
ghost use Rattle.symbolic_code.specs.Places.{Place};
ghost use Rattle.body_check.specs.Cases.{answers_in, find_in, cases, AreSpelled, Each};
ghost use Rattle.tx_code.specs.Meaning.{Names, thread, starts};
ghost use Rattle.tx_events.specs.Same.{SameEvents, StepsWithin};
ghost use Rattle.tx_ints.specs.Words.{word_of};
ghost use Rattle.src_mean.specs.Source.{source, main_state, begins};
ghost use Rattle.symbolic_source.specs.Small.{IsSmall};
ghost use Rattle.body_check.specs.Notes.{Note, Bounds, FoundFits, TypeFits};
ghost use Rattle.body_check.specs.Calls.{Book, Links, Begins};
ghost use Rattle.body_check.specs.Main.{main_program, main_names};
ghost use Rattle.body_check.specs.Caught.{catch_program, catch_names};
ghost use Rattle.body_check.specs.Destroyed.{array_program, array_names};
ghost use Rattle.body_check.specs.Pointed.{pointed_program, pointed_names};
ghost use Rattle.body_check.specs.Virtual.{virtual_program, virtual_names};
ghost use Rattle.body_check.specs.Pair.{pair_program, pair_names};
ghost use Rattle.body_check.specs.Worked.{sum_func, sum_code, sum_run, outcome_at, operands_at};

/// Where the notes of each body fit, the code has the events of its source from `main` on, calls, returns and exceptions
/// included, within a bound on its steps.
pub fn checked_programs_keep_their_events()
    ensures same { (p : Program) (names : Names) (b : Bounds) (book : Book) → Links p names b book → IsSmall p → Begins p names book 0 p.main [] →
        SameEvents (source p) (thread names) (main_state p) (starts names 0 p.main []) }
    ensures within { (p : Program) (names : Names) (b : Bounds) (book : Book) → Links p names b book → IsSmall p → Begins p names book 0 p.main [] →
        StepsWithin (source p) (thread names) (b.most + 1) b.most (main_state p) (starts names 0 p.main []) }
{}

/// So does each other thread, from the function on that it starts in, with its argument.
pub fn checked_threads_keep_their_events()
    ensures same { (p : Program) (names : Names) (b : Bounds) (book : Book) → Links p names b book → IsSmall p →
        (id n : ℕ) (arg : ℤ) → (id == 0) ≡ false → Begins p names book id n (word_of arg ∷ []) →
        SameEvents (source p) (thread names) (begins p id n arg) (starts names id n (word_of arg ∷ [])) }
    ensures within { (p : Program) (names : Names) (b : Bounds) (book : Book) → Links p names b book → IsSmall p →
        (id n : ℕ) (arg : ℤ) → (id == 0) ≡ false → Begins p names book id n (word_of arg ∷ []) →
        StepsWithin (source p) (thread names) (b.most + 1) b.most (begins p id n arg) (starts names id n (word_of arg ∷ [])) }
{}

/// An exception of which nothing is known goes where it has to if it does so in each of finitely many cases of its type:
/// a class of the program, a spelling of a handler's or row's type, and any other.
pub fn finitely_many_cases()
    ensures { (p : Program) (f : Func) (b : Bounds) (notes : List Note) (thrown : Typ → Bool) (known : List (List ℕ)) (numbers : Typ → ℕ) (spelling_of : ℕ → List ℕ) (rows : List Row) (facts : List Fact) (rank index : ℕ) (q : Place) (n : ℕ) (o : Outcome) →
        AreSpelled p.classes known numbers spelling_of rows →
        Each (λ c. FoundFits p f b notes thrown facts (answers_in p.classes known n c) rank (find_in p.classes known spelling_of c rows index) q (unknown n) o) (cases p.classes known) →
        (t : Typ) → TypeFits p f b notes thrown numbers rows facts rank index q (unknown n) o t }
{}

/// `int main() { return 0; }` is such a program: its notes fit.
pub fn worked_main()
    ensures { SameEvents (source main_program) (thread main_names) (main_state main_program) (starts main_names 0 0 []) }
{}

/// So is `int one() { return 1; } int main() { return one(); }`, with a call and its return.
pub fn worked_call()
    ensures { SameEvents (source pair_program) (thread pair_names) (main_state pair_program) (starts pair_names 0 0 []) }
{}

/// So is `int main() { try { throw 1; } catch (int e) { return e; } return 0; }`: the row of its handler takes the type that
/// is thrown, where the source comes to the handler.
pub fn worked_catch()
    ensures { SameEvents (source catch_program) (thread catch_names) (main_state catch_program) (starts catch_names 0 0 []) }
{}

/// So is `struct E { ~E() { } }; int main() { E e[3]; return 0; }`: the elements are destroyed by a loop, and one note at
/// each of its indexes serves all rounds.
pub fn worked_destruction()
    ensures { SameEvents (source array_program) (thread array_names) (main_state array_program) (starts array_names 0 0 []) }
{}

/// So is `int one() { return 1; } int main() { return (*&one)(); }`, with a call by an address.
pub fn worked_pointer()
    ensures { SameEvents (source pointed_program) (thread pointed_names) (main_state pointed_program) (starts pointed_names 0 0 []) }
{}

/// So is a main that calls the function in a slot of its object's class.
pub fn worked_slot()
    ensures { SameEvents (source virtual_program) (thread virtual_names) (main_state virtual_program) (starts virtual_names 0 0 []) }
{}

/// `int f(int a) { return a + 1; }`: the source goes along with the code up to its last instruction, where the word on
/// top is what the function returns. Code with another operator, number, address or kind is refused, whatever the
/// program is.
pub fn worked_sum()
    ensures goes_along { (p : Program) → operands_at (sum_run p sum_code) ≡ value_of Add Int (converted_to Int (variable 0)) (number 1) ∷ [] }
    ensures returned { (p : Program) → outcome_at p sum_func 1 (sum_run p sum_code) ≡ Some (goes_out (returns (value_of Add Int (converted_to Int (variable 0)) (number 1))) []) }
    ensures other_operator { (p : Program) → sum_run p (FrameAddr 0 ∷ Swap ∷ Store 6 ∷ FrameAddr 0 ∷ Load 6 ∷ Push 1 ∷ Bin 1 6 ∷ Ret 1 ∷ []) ≡ None }
    ensures other_number { (p : Program) → sum_run p (FrameAddr 0 ∷ Swap ∷ Store 6 ∷ FrameAddr 0 ∷ Load 6 ∷ Push 2 ∷ Bin 0 6 ∷ Ret 1 ∷ []) ≡ None }
    ensures other_address { (p : Program) → sum_run p (FrameAddr 0 ∷ Swap ∷ Store 6 ∷ FrameAddr 8 ∷ Load 6 ∷ Push 1 ∷ Bin 0 6 ∷ Ret 1 ∷ []) ≡ None }
    ensures other_kind { (p : Program) → sum_run p (FrameAddr 0 ∷ Swap ∷ Store 6 ∷ FrameAddr 0 ∷ Load 7 ∷ Push 1 ∷ Bin 0 6 ∷ Ret 1 ∷ []) ≡ None }
    ensures other_order { (p : Program) → sum_run p (FrameAddr 0 ∷ Swap ∷ Store 6 ∷ Push 1 ∷ FrameAddr 0 ∷ Load 6 ∷ Bin 0 6 ∷ Ret 1 ∷ []) ≡ None }
    ensures not_stored { (p : Program) → sum_run p (FrameAddr 0 ∷ Store 6 ∷ FrameAddr 0 ∷ Load 6 ∷ Push 1 ∷ Bin 0 6 ∷ Ret 1 ∷ []) ≡ None }
{}
