// Programs.

ghost use Rattle.std.specs.Prelude.{◌≡◌, ◌<◌, ℕ, Bool, true, Some, length, map, option_map, slice_get, slice_set, IfOk, OnOk};
ghost use Rattle.cpp_tree.specs.Arena.{IsOrdered, trees_of, tree_at};
ghost use Rattle.cpp_tree.specs.Units.{func_of, unit_of, program_of};
ghost use Rattle.cpp_tree.specs.WellFormed.{WellFormed};
ghost use Rattle.cpp_tree.specs.declared.program.TFunc.{TFunc};
ghost use Rattle.cpp_tree.specs.declared.program.UnitTree.{UnitTree};
ghost use Rattle.tx_unsafe.specs.Volatile.{marked};
ghost use Rattle.tree_fold.specs.Folding.{folded};
ghost use Rattle.tree_fold.specs.Programs.{folded_func, folded_unit, folded_program};
ghost use Rattle.tree_fold.specs.Sights.{AreSights};
ghost use Rattle.tree_fold.specs.Bodies.{is_body_within, AddsBody, HaveRootsFrom, ReadableFrom, UnitFolded};
ghost use Rattle.tree_fold.specs.Forests.{body_root, body_roots};
ghost use Rattle.tree_forests.specs.Copies.{OwnForest};
ghost use Rattle.tree_forests.specs.Forests.{HasForest, HaveForests};

use crate::copying::fold_tree;
use crate::sights::{Sight, sights_of};
use cpp_tree::{Program, TFunc, TNode, TNodeId, UnitTree};
use std::alloc::{AllocError, Global};
use tx_unsafe::volatile_classes;

// The folded body of a function, in another list of nodes.
fn fold_body(
    alloc: Global,
    from: &[TNode],
    sights: &[Sight],
    body: Option<TNodeId>,
    nodes: &mut Vec<TNode>,
) -> Result<Option<TNodeId>, AllocError>
    requires ordered { IsOrdered from.now }
    requires many { length sights.now ≡ length from.now }
    requires within { is_body_within (length from.now) body ≡ true }
    ensures body { (volatile : ℕ → Bool) → AreSights volatile (trees_of from.now) sights.now → IfOk result (λ b. AddsBody (trees_of nodes.old.items) (trees_of nodes.new.items) b (option_map (folded volatile) (option_map (tree_at (trees_of from.now)) body))) }
    ensures own { IfOk result (λ b. OwnForest nodes.old.items nodes.new.items (body_root b)) }
{
    match body {
        Some(root) => {
            let id = fold_tree(alloc, from, sights, root, nodes)?;
            Ok(Some(id))
        }
        None => Ok(None),
    }
}

// A function gets another body.
fn set_body(funcs: &mut Vec<TFunc>, i: usize, body: Option<TNodeId>)
    requires { i < length funcs.old.items }
    ensures { (f : TFunc) → slice_get funcs.old.items i ≡ Some f → funcs.new.items ≡ slice_set funcs.old.items i (record f { body = body }) }
{
    let func = &mut funcs[i];
    func.body = body;
}

// The body of a function.
fn body_at(funcs: &[TFunc], i: usize) -> Option<TNodeId>
    requires { i < length funcs.now }
    ensures { (f : TFunc) → slice_get funcs.now i ≡ Some f → result ≡ f.body }
{
    funcs[i].body
}

// The bodies of all functions are folded.
fn fold_funcs(
    alloc: Global,
    from: &[TNode],
    sights: &[Sight],
    funcs: &mut Vec<TFunc>,
    nodes: &mut Vec<TNode>,
) -> Result<(), AllocError>
    requires ordered { IsOrdered from.now }
    requires many { length sights.now ≡ length from.now }
    requires roots { HaveRootsFrom 0 from.now funcs.old.items }
    ensures funcs { (volatile : ℕ → Bool) → AreSights volatile (trees_of from.now) sights.now → OnOk result (map (func_of (trees_of nodes.new.items)) funcs.new.items ≡ map (folded_func volatile) (map (func_of (trees_of from.now)) funcs.old.items)) }
    ensures own { OnOk result (OwnForest nodes.old.items nodes.new.items (body_roots funcs.new.items)) }
{
    for i in 0..funcs.len() {
        let old = body_at(funcs.as_slice(), i);
        let body = fold_body(alloc, from, sights, old, nodes)?;
        set_body(funcs, i, body);
    }
    Ok(())
}

// The bodies of a unit are folded, and its nodes are those that they have then.
fn fold_unit(alloc: Global, volatile: &[bool], unit: &mut UnitTree) -> Result<(), AllocError>
    requires ordered { IsOrdered unit.old.nodes.items }
    requires roots { HaveRootsFrom 0 unit.old.nodes.items unit.old.funcs.items }
    ensures unit { OnOk result (unit_of unit.new ≡ folded_unit (marked volatile.now) (unit_of unit.old)) }
    ensures own { OnOk result (HasForest unit.new) }
{
    let from = unit.nodes.as_slice();
    let sights = sights_of(alloc, from, volatile)?;
    let mut nodes = Vec::new(alloc);
    fold_funcs(alloc, from, sights.as_slice(), &mut unit.funcs, &mut nodes)?;
    unit.nodes = nodes;
    Ok(())
}

// One of several units is folded.
fn fold_unit_at(
    alloc: Global,
    volatile: &[bool],
    units: &mut Vec<UnitTree>,
    i: usize,
) -> Result<(), AllocError>
    requires within { i < length units.old.items }
    requires ordered { (u : UnitTree) → slice_get units.old.items i ≡ Some u → IsOrdered u.nodes.items }
    requires roots { (u : UnitTree) → slice_get units.old.items i ≡ Some u → HaveRootsFrom 0 u.nodes.items u.funcs.items }
    ensures { (u : UnitTree) → slice_get units.old.items i ≡ Some u → OnOk result (UnitFolded (marked volatile.now) i units.old.items units.new.items u) }
{
    let unit = &mut units[i];
    fold_unit(alloc, volatile, unit)
}

fn fold_units(alloc: Global, volatile: &[bool], units: &mut Vec<UnitTree>) -> Result<(), AllocError>
    requires { ReadableFrom 0 units.old.items }
    ensures units { OnOk result (map unit_of units.new.items ≡ map (folded_unit (marked volatile.now)) (map unit_of units.old.items)) }
    ensures own { OnOk result (HaveForests units.new.items) }
{
    for i in 0..units.len() {
        fold_unit_at(alloc, volatile, units, i)?;
    }
    Ok(())
}

/// Folds the bodies of a program: what has a value before the run gets it, and of a conditional whose condition is known the operand that is
/// not run is dropped where nothing is lost with it. All else stays. The work is linear in the program. The program is given up where memory
/// is wanting.
pub fn fold_bodies(alloc: Global, mut program: Program) -> Result<Program, AllocError>
    requires { WellFormed program }
    ensures program { IfOk result (λ r. program_of r ≡ folded_program (program_of program)) }
    ensures own { IfOk result (λ r. HaveForests r.units.items) }
{
    let volatile = volatile_classes(alloc, &program.classes)?;
    fold_units(alloc, volatile.as_slice(), &mut program.units)?;
    Ok(program)
}
