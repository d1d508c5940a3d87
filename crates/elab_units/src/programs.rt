// The typed program of some units (C++14 2.1, 3.5): each unit has its own names; classes keep their numbers through all
// of them.

ghost use Rattle.std.specs.Prelude.{◌≡◌, ◌++◌, ◌∷◌, [], length, true, IfOk, OnOk};
ghost use Rattle.elab_entry.specs.cpp_ast.Orders.{are_below};
ghost use Rattle.elab_entry.specs.cpp_types.Class.{InOrder, classes_of};
ghost use Rattle.elab_entry.specs.elab_scopes.States.{state_of};
ghost use Rattle.tree_forests.specs.Forests.{HasForest, HaveForests};
ghost use Rattle.elab_units.specs.Programs.{IsKept, Keeps, Elaborates};
ghost use Rattle.elab_units.specs.Sources.{source_in};

use crate::beginning::{Classes, no_classes, start_behind};
use crate::declarations::all_declared;
use crate::shown::{Made, unit_shown};
use elab_entry::below::{ElabFault, Program, State, Unit, UnitTree};
use elab_members::with_implied;
use std::alloc::{AllocError, Global};
use unit_syntax::{WholeUnit, whole_unit};

/// A unit, and the classes of all units behind it.
#[derive(Drop)]
pub struct Behind {
    pub unit: UnitTree,
    pub known: Classes,
}

// What is kept of a unit.
fn unit_made(alloc: Global, unit: &Unit, whole: &WholeUnit, st: State) -> Result<Behind, AllocError>
    requires { are_below (length whole.now.nodes) whole.now.decls.items ≡ true }
    ensures forest { IfOk result (λ b. HasForest b.unit) }
    ensures kept { IfOk result (λ b. IsKept (source_in unit.now whole.now) (state_of st) b) }
{
    let env = st.env;
    let work = st.work;
    let made = Made {
        types: env.types,
        funcs: env.funcs,
        globals: work.globals,
        bodies: st.bodies,
    };
    let known = Classes {
        classes: env.classes,
        completed: env.completed,
        layouts: env.layouts,
        traits: env.traits,
        slots: env.slots,
    };
    let unit = unit_shown(
        alloc,
        &unit.tokens,
        &whole.nodes,
        &whole.decls,
        made,
        &known.classes,
    )?;
    Ok(Behind { unit, known })
}

// A unit behind others: its declarations, and the bodies of the implicit members to which they refer.
fn unit_behind(alloc: Global, source: u32, unit: &Unit, known: Classes) -> Result<Behind, ElabFault>
    ensures forest { IfOk result (λ b. HasForest b.unit) }
    ensures keeps { Keeps unit.now source known result }
{
    let whole = whole_unit(alloc, unit)?;
    let mut st = start_behind(alloc, source, known)?;
    all_declared(alloc, &unit.tokens, &whole.nodes, &mut st, &whole.decls)?;
    with_implied(alloc, &mut st)?;
    let behind = unit_made(alloc, unit, &whole, st)?;
    Ok(behind)
}

fn keep_unit(units: &mut Vec<UnitTree>, unit: UnitTree) -> Result<(), AllocError>
    ensures { OnOk result (units.new.items ≡ units.old.items ++ unit ∷ []) }
{
    units.push(unit)?;
    Ok(())
}

/// The typed program of units, in their order, or the first fault: each unit as `parse_unit` answers it, with its place
/// in the list as its source.
///
/// C++14 clauses 3 to 15, cut to the profile, and the TS. A fault names its place and the rule that is broken there; it
/// stands in the first declaration, member, initialiser or statement in the order of the text that has one. Want of
/// memory is `Memory`. The classes are in order, so that their objects have sizes, and the nodes of each unit are a
/// forest, whose roots are the bodies of its functions.
pub fn elaborate(alloc: Global, units: &[Unit]) -> Result<Program, ElabFault>
    ensures elaborates { Elaborates units.now result }
    ensures many { IfOk result (λ p. length p.units.items ≡ length units.now) }
    ensures forests { IfOk result (λ p. HaveForests p.units.items) }
    ensures in_order { IfOk result (λ p. InOrder (classes_of p.classes.items)) }
{
    let mut known = no_classes(alloc);
    let mut trees = Vec::new(alloc);
    for unit in units {
        let Ok(source) = u32::try_from(trees.len()) else {
            return Err(ElabFault::Memory);
        };
        let behind = unit_behind(alloc, source, unit, known)?;
        keep_unit(&mut trees, behind.unit)?;
        known = behind.known;
    }
    Ok(Program {
        units: trees,
        classes: known.classes,
        slots: known.slots,
    })
}
