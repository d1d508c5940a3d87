//! Laws of all expressions. A function here does nothing: its clauses are the laws.

ghost use Rattle.elab_fits_forms.specs.Forms.{FieldsAgree};
ghost use Rattle.elab_fits_expressions.specs.Growing.{ExpressionsGrow, OperandsGrow, InitialsGrow, ClassesGrow, ValuesGrow, DroppedGrow};
ghost use Rattle.elab_fits_expressions.specs.Growing.{HoldsKept, ReachesKept};
ghost use Rattle.elab_fits_expressions.specs.Written.{TypesAreSound, SpecifiersAreSound, DeclaratorsAreSound, ParametersAreSound};
ghost use Rattle.elab_fits_expressions.specs.Closures.{ClosuresStand};
ghost use Rattle.elab_fits_forms.specs.Expressions.{ExpressionsMean, OperandsStand};
ghost use Rattle.elab_fits_expressions.specs.Expressions.{AllRowsMean, ChosenStand};

/// What is made for expressions.
pub fn growing()
    ensures expressions { ExpressionsGrow }
    ensures operands { OperandsGrow }
    ensures initials { InitialsGrow }
    ensures classes { ClassesGrow }
    ensures values { ValuesGrow }
    ensures dropped { DroppedGrow }
    ensures holds { HoldsKept }
    ensures reaches { ReachesKept }
{}

/// Types that are written.
pub fn written()
    ensures types { TypesAreSound }
    ensures specifiers { SpecifiersAreSound }
    ensures declarators { DeclaratorsAreSound }
    ensures parameters { ParametersAreSound }
{}

/// Rows, and whole expressions.
pub fn expressions()
    ensures fields { FieldsAgree }
    ensures rows { AllRowsMean }
    ensures expressions { ExpressionsMean }
    ensures chosen { ChosenStand }
    ensures operands { OperandsStand }
{}

/// Objects of lambdas.
pub fn closures()
    ensures closures { ClosuresStand }
{}
