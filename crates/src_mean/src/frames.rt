// The frames of functions.

ghost use Rattle.std.specs.Prelude.{◌≡◌, ◌<◌, length, slice_get, Some};
ghost use Rattle.cpp_tree.specs.declared.program.UnitTree.{UnitTree};
ghost use Rattle.cpp_tree.specs.declared.program.TFunc.{TFunc};

use cpp_tree::Program;
use cpp_tree::below::Ty;

/// The items of a function's frame, by the index of its unit in the program and by its own in the unit: they lie one
/// behind the other, each at the next multiple of its alignment.
pub fn frame_of(program: &Program, unit: u32, func: u32) -> &[Ty]
    requires unit { unit < length program.now.units.items }
    requires func { (u : UnitTree) → slice_get program.now.units.items unit ≡ Some u → func < length u.funcs.items }
    ensures { (u : UnitTree) (f : TFunc) → slice_get program.now.units.items unit ≡ Some u → slice_get u.funcs.items func ≡ Some f → result.now ≡ f.frame.items }
{
    let found = &program.units[unit as usize];
    &found.funcs[func as usize].frame
}
