// A tree that is made node by node, and the texts of faults.

use cpp_tree::below::{At, BinOp, Cat, IntKind, Shape, Ty};
use cpp_tree::{ElabFault, IllRule, TKind, TNodeId, UnitTree, add_binary, add_leaf, add_unary};
use std::alloc::{AllocError, Global};

const AT: At = At {
    source: 0,
    offset: 0,
};

fn plain(shape: Shape) -> Ty {
    Ty {
        shape,
        is_const: false,
        is_volatile: false,
    }
}

fn int_type() -> Ty {
    plain(Shape::Int(IntKind::Int))
}

// `return 1 + 2;`: its nodes.
fn returned(alloc: Global) -> Result<UnitTree, AllocError> {
    let mut nodes = Vec::new(alloc);
    let one = TKind::Literal { word: 1 };
    let one = add_leaf(alloc, &mut nodes, one, int_type(), Cat::Prvalue, AT)?;
    let two = TKind::Literal { word: 2 };
    let two = add_leaf(alloc, &mut nodes, two, int_type(), Cat::Prvalue, AT)?;
    let sum = TKind::Binary {
        op: BinOp::Add,
        kind: IntKind::Int,
    };
    let sum = add_binary(
        alloc,
        &mut nodes,
        sum,
        int_type(),
        Cat::Prvalue,
        AT,
        one,
        two,
    )?;
    let void = plain(Shape::Void);
    add_unary(
        alloc,
        &mut nodes,
        TKind::Return,
        void,
        Cat::Prvalue,
        AT,
        sum,
    )?;
    Ok(UnitTree {
        nodes,
        funcs: Vec::new(alloc),
        globals: Vec::new(alloc),
        classes: Vec::new(alloc),
    })
}

/// The nodes of `return 1 + 2;`.
pub fn sum(alloc: Global) -> Result<String, AllocError> {
    let unit = returned(alloc)?;
    if unit.nodes.len() != 4 {
        return format!(in alloc; "{} nodes", unit.nodes.len());
    }
    let root = unit.tnode(TNodeId(3));
    let operands = unit.tnode(TNodeId(2));
    format!(in alloc; "{:?} {:?} {:?}", root.kind, root.kids, operands.kids)
}

/// The texts of faults.
pub fn faults(alloc: Global) -> Result<String, AllocError> {
    let ill = ElabFault::Ill {
        at: AT,
        rule: IllRule::NoMember,
    };
    format!(in alloc; "{ill}, {:?}", ElabFault::from(AllocError))
}
