//! Laws of states that grow. A function here does nothing: its clauses are the laws.

ghost use Rattle.state_growth.specs.Judgements.{TreesFit, ExpressionsStand, OperandsStand, ScalarsGive, InitialsStand, ObjectsBuilt, ObjectsCopied};
ghost use Rattle.state_growth.specs.Judgements.{ObjectsDestroyed};
ghost use Rattle.state_growth.specs.Programs.{ProgramsGo, ProgramsShow, BodiesStay};
ghost use Rattle.state_growth.specs.Settings.{SettingsStand, WorksReached, WorksGrow, SettingsGrow, LeftGrow, ShownGrow, BegunGrow};
ghost use Rattle.state_growth.specs.Settings.{StatesGoOn, UnitsGoOn, BodiesLeft};
ghost use Rattle.state_growth.specs.States.{GoesOn, NumbersGoOn, LambdasGo, OperandsGo, ParametersGo, StatementGo, StatementsGo, BodiesGo};
ghost use Rattle.state_growth.specs.States.{DeclarationsGo, UnitsGo, UnitsBegin, HeldBefore};

/// The setting of a body while it is made, and how it grows.
pub fn settings()
    ensures stand { SettingsStand }
    ensures reached { WorksReached }
    ensures works { WorksGrow }
    ensures states { SettingsGrow }
    ensures left { LeftGrow }
    ensures shown { ShownGrow }
    ensures begun { BegunGrow }
{}

/// What was said of a tree holds still.
pub fn judgements()
    ensures trees { TreesFit }
    ensures expressions { ExpressionsStand }
    ensures operands { OperandsStand }
    ensures scalars { ScalarsGive }
    ensures initials { InitialsStand }
    ensures built { ObjectsBuilt }
    ensures copied { ObjectsCopied }
    ensures destroyed { ObjectsDestroyed }
{}

/// Growth of states is transitive, and a body is left with what stands at its end.
pub fn growth()
    ensures states { StatesGoOn }
    ensures units { UnitsGoOn }
    ensures left { BodiesLeft }
    ensures steps { GoesOn }
    ensures numbers { NumbersGoOn }
{}

/// Behind lambdas, statements and bodies stands what stood before them.
pub fn steps()
    ensures lambdas { LambdasGo }
    ensures operands { OperandsGo }
    ensures parameters { ParametersGo }
    ensures statement { StatementGo }
    ensures statements { StatementsGo }
    ensures bodies { BodiesGo }
{}

/// Behind declarations, and behind a whole unit, stands what stood before them.
pub fn units()
    ensures declarations { DeclarationsGo }
    ensures units { UnitsGo }
    ensures begin { UnitsBegin }
    ensures held { HeldBefore }
{}

/// Behind each further unit of a program stands what stood before it.
pub fn programs()
    ensures go { ProgramsGo }
    ensures show { ProgramsShow }
    ensures stay { BodiesStay }
{}
