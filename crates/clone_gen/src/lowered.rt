//! The bodies of a unit's functions.

use crate::bodies::body;
use cpp_tree::{Program, TFunc, TNodeId, UnitTree};
use low_code::NameTable;
use std::alloc::{AllocError, Global};
use tx_code::Body;
use unit_entries::Uses;
use unit_entries::functions::has_entry;
use unit_entries::sizes::frame_of;
use unit_entries::uses::is_set;
use unwind_lower::lower_function;

/// What is the same for all functions of a unit.
#[derive(Clone, Copy)]
pub struct Lowering<'a> {
    pub program: &'a Program,
    pub unit: &'a UnitTree,
    pub uses: &'a Uses,
    /// Which functions are safe.
    pub safe: &'a [bool],
    /// Which nodes make temporaries that wait.
    pub temporaries: &'a [bool],
    /// Where the lines of the source begin.
    pub starts: &'a [u32],
}

/// The bodies of an entry.
#[derive(Drop)]
pub struct Bodies {
    pub plain: Option<Body>,
    pub safe: Option<Body>,
}

/// The bodies of all entries of functions, in their order, and the table of the names that they use.
#[derive(Drop)]
pub struct Lowered {
    pub bodies: Vec<Bodies>,
    pub names: NameTable,
}

// The bodies of a function that the unit defines, with the names.
fn defined(
    alloc: Global,
    names: NameTable,
    lowering: Lowering<'_>,
    func: &TFunc,
    root: TNodeId,
    is_safe: bool,
) -> Result<(Bodies, NameTable), AllocError> {
    let lies = frame_of(alloc, &func.frame, &lowering.program.classes)?;
    let (low, names) = lower_function(
        alloc,
        lowering.program,
        lowering.unit,
        func,
        root,
        lies.offsets,
        lowering.temporaries,
        names,
    )?;
    let plain = Some(body(alloc, &low, false, lowering.starts)?);
    let safe = if is_safe {
        Some(body(alloc, &low, true, lowering.starts)?)
    } else {
        None
    };
    Ok((Bodies { plain, safe }, names))
}

/// The bodies of the entries of a unit's functions.
pub fn lower_bodies(alloc: Global, lowering: Lowering<'_>) -> Result<Lowered, AllocError> {
    let mut names = NameTable::new(alloc);
    let mut bodies = Vec::new(alloc);
    for (i, func) in lowering.unit.funcs.iter().enumerate() {
        if has_entry(lowering.uses, func, i) {
            let mut found = Bodies {
                plain: None,
                safe: None,
            };
            if let Some(root) = func.body {
                let is_safe = is_set(lowering.safe, i);
                let (whole, after) = defined(alloc, names, lowering, func, root, is_safe)?;
                found = whole;
                names = after;
            }
            bodies.push(found)?;
        }
    }
    Ok(Lowered { bodies, names })
}
