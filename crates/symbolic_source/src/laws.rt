//! What symbolic steps show of real ones. A function here does nothing: its clauses are the laws.

ghost use Rattle.std.specs.Prelude.{◌≡◌, ℕ, false, List};
ghost use Rattle.src_mean.specs.Linked.{Func, Program};
ghost use Rattle.src_mean.specs.Frames as frames;
ghost use Rattle.src_mean.specs.Frames.{State};
ghost use Rattle.src_mean.specs.Source.{give};
ghost use Rattle.symbolic_source.specs.Terms.{Term, Values, eval};
ghost use Rattle.symbolic_source.specs.Frames.{Waiting, Frame, below, here_of};
ghost use Rattle.symbolic_source.specs.Outcomes.{Outcome, Shows};
ghost use Rattle.symbolic_source.specs.Steps.{Answers, given, advanced};
ghost use Rattle.symbolic_source.specs.Small.{IsSmall, AreWords, AreRight, is_stuck, Advanced};
ghost use Rattle.symbolic_source.specs.Replacing.{Replacing, seen_by, in_outcome};

/// A value that is given to symbolic frames shows what it does, given to the frames that they stand for, whatever the
/// words are.
pub fn values_are_given()
    ensures { (p : Program) (f : Func) (x : Values) (answers : Answers) (rest : List frames.Frame) →
        IsSmall p → AreWords x → AreRight p x answers → (ws : List Waiting) (v : Term) (k : List Frame) →
        Shows p f x rest (given p f answers ws v k) (give p (here_of p f x ws) (eval p f x v) (below p f x k rest)) }
{}

/// So many silent steps of what is foreseen are silent steps of the thread, to a state that is foreseen.
pub fn steps_are_taken()
    ensures { (p : Program) (f : Func) (x : Values) (answers : Answers) (rest : List frames.Frame) →
        IsSmall p → AreWords x → AreRight p x answers → (n : ℕ) (o : Outcome) (s : State) → Shows p f x rest o s →
        is_stuck (advanced p f answers n o) ≡ false → Advanced p f x answers rest n o s }
{}

/// What is foreseen with terms in the place of variables is foreseen with what they stand for.
pub fn variables_are_replaced()
    ensures there { (p : Program) (f : Func) (r : Replacing) (x : Values) (rest : List frames.Frame) (o : Outcome) (s : State) →
        Shows p f x rest (in_outcome r o) s → Shows p f (seen_by p f r x) rest o s }
    ensures back { (p : Program) (f : Func) (r : Replacing) (x : Values) (rest : List frames.Frame) (o : Outcome) (s : State) →
        Shows p f (seen_by p f r x) rest o s → Shows p f x rest (in_outcome r o) s }
{}
