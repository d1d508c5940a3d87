//! What a whole unit is, for whoever reads one.

ghost use Rattle.std.specs.Prelude.{◌≡◌};
ghost use Rattle.cpp_ast.specs.declared.units.Unit.{Unit as UnitRecord};
ghost use Rattle.cpp_ast.specs.Trees.{Trees};
ghost use Rattle.unit_syntax.specs.Whole.{IsWhole};

/// A unit has one list of whole trees at most.
pub fn wholes()
    ensures one_whole { (unit : UnitRecord) (decls others : Trees) → IsWhole unit decls → IsWhole unit others → decls ≡ others }
{}
