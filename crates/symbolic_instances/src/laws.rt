//! What forms show with terms in the place of variables, they show before. A function here does nothing: its clauses are the laws.

ghost use Rattle.std.specs.Prelude.{ℕ, List};
ghost use Rattle.src_mean.specs.Linked.{Func, Program};
ghost use Rattle.src_mean.specs.Frames as frames;
ghost use Rattle.src_mean.specs.Frames.{State};
ghost use Rattle.symbolic_source.specs.Terms.{Term, Values};
ghost use Rattle.symbolic_source.specs.Frames.{Waiting, Exit, Frame};
ghost use Rattle.symbolic_source.specs.Outcomes.{Outcome, Shows};
ghost use Rattle.symbolic_source.specs.Steps.{Answers, given, left, advanced};
ghost use Rattle.symbolic_source.specs.Small.{AreWords};
ghost use Rattle.symbolic_source.specs.Replacing.{Replacing, seen_by, in_term, in_waitings, in_exit, in_frames, in_outcome};
ghost use Rattle.symbolic_instances.specs.Instances.{no_answers, IsKept};

/// What comes of a value that is given to frames with terms in the place of their variables is foreseen by what comes of it
/// before, at once and after so many silent steps.
pub fn values_are_seen()
    ensures at_once { (p : Program) (f : Func) (r : Replacing) (x : Values) (answers : Answers) (rest : List frames.Frame) → AreWords x →
        (ws : List Waiting) (v : Term) (k : List Frame) (s : State) →
        Shows p f x rest (given p f answers (in_waitings r ws) (in_term r v) (in_frames r k)) s →
        Shows p f (seen_by p f r x) rest (given p f no_answers ws v k) s }
    ensures after_steps { (p : Program) (f : Func) (r : Replacing) (x : Values) (answers : Answers) (rest : List frames.Frame) → AreWords x →
        (n : ℕ) (ws : List Waiting) (v : Term) (k : List Frame) (s : State) →
        Shows p f x rest (advanced p f answers n (given p f answers (in_waitings r ws) (in_term r v) (in_frames r k))) s →
        Shows p f (seen_by p f r x) rest (advanced p f no_answers n (given p f no_answers ws v k)) s }
{}

/// The same of what goes outward.
pub fn exits_are_seen()
    ensures at_once { (p : Program) (f : Func) (r : Replacing) (x : Values) (rest : List frames.Frame) → AreWords x →
        (ws : List Waiting) (exit : Exit) (k : List Frame) (s : State) →
        Shows p f x rest (left (in_waitings r ws) (in_exit r exit) (in_frames r k)) s →
        Shows p f (seen_by p f r x) rest (left ws exit k) s }
    ensures after_steps { (p : Program) (f : Func) (r : Replacing) (x : Values) (answers : Answers) (rest : List frames.Frame) → AreWords x →
        (n : ℕ) (ws : List Waiting) (exit : Exit) (k : List Frame) (s : State) →
        Shows p f x rest (advanced p f answers n (left (in_waitings r ws) (in_exit r exit) (in_frames r k))) s →
        Shows p f (seen_by p f r x) rest (advanced p f no_answers n (left ws exit k)) s }
{}

/// The same of any outcome, after so many silent steps.
pub fn steps_are_seen()
    ensures { (p : Program) (f : Func) (r : Replacing) (x : Values) (answers : Answers) (rest : List frames.Frame) → AreWords x →
        (n : ℕ) (o : Outcome) (s : State) → Shows p f x rest (advanced p f answers n (in_outcome r o)) s →
        Shows p f (seen_by p f r x) rest (advanced p f no_answers n o) s }
{}

/// The same where unknown exceptions are answered before too, if that is known of what comes in their place.
pub fn answers_are_kept()
    ensures values { (p : Program) (f : Func) (r : Replacing) (x : Values) (answers others : Answers) (rest : List frames.Frame) → AreWords x →
        IsKept p f r answers others → (n : ℕ) (ws : List Waiting) (v : Term) (k : List Frame) (s : State) →
        Shows p f x rest (advanced p f answers n (given p f answers (in_waitings r ws) (in_term r v) (in_frames r k))) s →
        Shows p f (seen_by p f r x) rest (advanced p f others n (given p f others ws v k)) s }
    ensures exits { (p : Program) (f : Func) (r : Replacing) (x : Values) (answers others : Answers) (rest : List frames.Frame) → AreWords x →
        IsKept p f r answers others → (n : ℕ) (ws : List Waiting) (exit : Exit) (k : List Frame) (s : State) →
        Shows p f x rest (advanced p f answers n (left (in_waitings r ws) (in_exit r exit) (in_frames r k))) s →
        Shows p f (seen_by p f r x) rest (advanced p f others n (left ws exit k)) s }
    ensures steps { (p : Program) (f : Func) (r : Replacing) (x : Values) (answers others : Answers) (rest : List frames.Frame) → AreWords x →
        IsKept p f r answers others → (n : ℕ) (o : Outcome) (s : State) → Shows p f x rest (advanced p f answers n (in_outcome r o)) s →
        Shows p f (seen_by p f r x) rest (advanced p f others n o) s }
{}
