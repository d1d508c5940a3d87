//! Laws of what statements are made of. A function here does nothing: its clauses are the laws.

ghost use Rattle.elab_fits_statements.specs.Wholes.{PlainPartsFit, WholesFit, WholesBuild, ValuesServe};
ghost use Rattle.elab_fits_statements.specs.Forms.{BlocksFit, BranchesFit, LoopsFit, SwitchesFit, JumpsFit, LabelsFit, TriesFit, HandlersFit, MarkedBlocksFit};
ghost use Rattle.elab_fits_statements.specs.Variables.{ConditionsFit, SwitchedFit, VariablesStand, VariablesFit, EndsFit, ReturnsFit, ObjectsReturned, FieldsServe, FieldsAreScalars};
ghost use Rattle.elab_fits_statements.specs.Labels.{ConstantsInKind, SkippedFit};

/// What fits inside of a full-expression fits anywhere as a whole.
pub fn wholes()
    ensures parts { PlainPartsFit }
    ensures values { WholesFit }
    ensures objects { WholesBuild }
    ensures statements { ValuesServe }
{}

/// Statements fit where their parts do.
pub fn forms()
    ensures blocks { BlocksFit }
    ensures branches { BranchesFit }
    ensures loops { LoopsFit }
    ensures switches { SwitchesFit }
    ensures jumps { JumpsFit }
    ensures labels { LabelsFit }
    ensures tries { TriesFit }
    ensures handlers { HandlersFit }
    ensures marked { MarkedBlocksFit }
{}

/// Conditions, the values of `switch`, variables and `return`.
pub fn variables()
    ensures conditions { ConditionsFit }
    ensures switched { SwitchedFit }
    ensures places { VariablesStand }
    ensures objects { VariablesFit }
    ensures ends { EndsFit }
    ensures returns { ReturnsFit }
    ensures returned { ObjectsReturned }
    ensures fields { FieldsServe }
    ensures scalars { FieldsAreScalars }
{}

/// The words of labels, and the declarations that they may stand behind.
pub fn labels()
    ensures words { ConstantsInKind }
    ensures skipped { SkippedFit }
{}
