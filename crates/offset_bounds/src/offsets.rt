//! The offsets at which functions are closed.

ghost use Rattle.std.specs.Prelude.{◌≡◌, ◌≤◌, map, nat_le, true};
ghost use Rattle.std.specs.List.{list_all};
ghost use Rattle.cpp_tree.specs.Arena.{trees_of};
ghost use Rattle.cpp_tree.specs.Units.{func_of, unit_of, program_of};
ghost use Rattle.tx_safety.specs.Safe.{unit_end};
ghost use Rattle.tx_safety.specs.Answers.{checked_in};
ghost use Rattle.offset_bounds.specs.Fitting.{is_offset, has_offset, have_offsets, OffsetsFit};

use cpp_tree::{TFunc, TNode, UnitTree};
use tx_safety::SafeProgram;

// A number of 32 bits is an offset.
fn offset_fits(offset: u32)
    ensures { is_offset offset ≡ true }
{
    let _offset = offset;
}

// A function is closed at one.
fn function_fits(nodes: &[TNode], function: &TFunc)
    ensures { has_offset (func_of (trees_of nodes.now) function.now) ≡ true }
{
    let _nodes = nodes;
    offset_fits(function.closed_at);
}

// So is each function of a unit.
fn unit_fits(unit: &UnitTree)
    ensures { have_offsets (unit_of unit.now) ≡ true }
{
    for function in &unit.funcs {
        function_fits(&unit.nodes, function);
    }
}

// So is each function of each unit.
fn units_fit(units: &[UnitTree])
    ensures { list_all have_offsets (map unit_of units.now) ≡ true }
{
    for unit in units {
        unit_fits(unit);
    }
}

/// The offset at which a function is closed, behind its definition, has 32 bits, in each function of a program. The walk changes nothing and refuses nothing: it
/// brings what the type of the numbers says.
pub fn offsets_fit(safe: &SafeProgram)
    ensures { OffsetsFit (program_of (checked_in safe.now)) }
{
    units_fit(&safe.program().units);
}
