// Programs that are made node by node and checked for safety.

ghost use Rattle.std.specs.Prelude.{◌≡◌, ◌<◌, true, IfOk, OnOk, Some, length};
ghost use Rattle.cpp_tree.specs.Arena.{IsOrdered, are_below};
ghost use Rattle.tx_safety.specs.Marks.{AreReadable};

use cpp_tree::below::{At, BlockKind, Cat, FnTy, FuncRec, Safety, Shape, Ty};
use cpp_tree::{
    Builtin, FuncKind, Linkage, Program, TFunc, TKind, TNode, TNodeId, UnitTree, add_node,
};
use std::alloc::{AllocError, Global};
use tx_safety::{SafetyFault, check};

fn at(offset: u32) -> At {
    At { source: 0, offset }
}

fn void() -> Ty {
    Ty {
        shape: Shape::Void,
        is_const: false,
        is_volatile: false,
    }
}

// The kid, if it stands below the limit.
fn kids(alloc: Global, kid: Option<TNodeId>, limit: usize) -> Result<Vec<TNodeId>, AllocError>
    ensures { IfOk result (λ ids. are_below limit ids.items ≡ true) }
{
    let mut ids = Vec::new(alloc);
    if let Some(id) = kid {
        if (id.0 as usize) < limit {
            ids.push(id)?;
        }
    }
    Ok(ids)
}

// Adds a node with at most one kid.
fn add(
    alloc: Global,
    nodes: &mut Vec<TNode>,
    kind: TKind,
    offset: u32,
    kid: Option<TNodeId>,
) -> Result<TNodeId, AllocError>
    requires { IsOrdered nodes.old.items }
    ensures ordered { OnOk result (IsOrdered nodes.new.items) }
    ensures within { IfOk result (λ id. id.0 < length nodes.new.items) }
{
    let kids = kids(alloc, kid, nodes.len())?;
    let node = TNode {
        kind,
        ty: void(),
        cat: Cat::Prvalue,
        at: at(offset),
        kids,
    };
    let id = add_node(nodes, node)?;
    Ok(id)
}

fn main_func(alloc: Global, root: TNodeId) -> Result<TFunc, AllocError>
    ensures { IfOk result (λ f. f.body ≡ Some root) }
{
    Ok(TFunc {
        symbol: Vec::from_slice(alloc, b"main()")?,
        rec: FuncRec {
            name: Vec::from_slice(alloc, b"main")?,
            ty: FnTy {
                params: Vec::new(alloc),
                ret: void(),
                safe: false,
            },
            is_const: false,
            is_virtual: false,
            is_override: false,
            is_final: false,
            pure_virtual: false,
            safety: Safety::None,
            considered: false,
            no_except: false,
            at: at(4),
        },
        linkage: Linkage::External,
        text: Vec::new(alloc),
        kind: FuncKind::Plain,
        class: None,
        implicit: false,
        words: 0,
        params: Vec::new(alloc),
        frame: Vec::new(alloc),
        body: Some(root),
        closed_at: 60,
    })
}

// A program of one function with this body.
fn program(alloc: Global, nodes: Vec<TNode>, root: TNodeId) -> Result<Program, AllocError>
    requires ordered { IsOrdered nodes.items }
    requires within { root.0 < length nodes.items }
    ensures readable { IfOk result (λ p. AreReadable p.units.items) }
    ensures one { IfOk result (λ p. length p.units.items ≡ 1) }
{
    let mut funcs = Vec::new(alloc);
    funcs.push(main_func(alloc, root)?)?;
    let mut units = Vec::new(alloc);
    units.push(UnitTree {
        nodes,
        funcs,
        globals: Vec::new(alloc),
        classes: Vec::new(alloc),
    })?;
    Ok(Program {
        units,
        classes: Vec::new(alloc),
        slots: Vec::new(alloc),
    })
}

// A call of `putchar`.
const PUT: TKind = TKind::Builtin {
    which: Builtin::PutChar,
};

/// `int main() { atomic_noexcept { putchar(65); } .. }`: the fault, and its text.
pub fn in_a_block(alloc: Global) -> Result<String, AllocError> {
    let mut nodes = Vec::new(alloc);
    let id = add(alloc, &mut nodes, PUT, 31, None)?;
    let block = TKind::Atomic {
        kind: BlockKind::NoExcept,
    };
    let root = add(alloc, &mut nodes, block, 13, Some(id))?;
    let program = program(alloc, nodes, root)?;
    match check(alloc, program) {
        Ok(_) => format!(in alloc; "safe"),
        Err(fault) => format!(in alloc; "{fault:?}, {fault}, {:?}", SafetyFault::from(AllocError)),
    }
}

/// `int main() { putchar(65); .. }`: whether the function is safe, and how many units there are.
pub fn outside(alloc: Global) -> Result<String, AllocError> {
    let mut nodes = Vec::new(alloc);
    let root = add(alloc, &mut nodes, PUT, 31, None)?;
    let program = program(alloc, nodes, root)?;
    let Ok(safe) = check(alloc, program) else {
        return format!(in alloc; "unsafe");
    };
    let is_safe = safe.is_safe(0, 0);
    let units = safe.program().units.len();
    format!(in alloc; "{is_safe} {units} {}", safe.into_program().units.len())
}
