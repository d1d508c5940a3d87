//! Programs made by hand: one function, `int main()`.
use cpp_tree::below::{At, BinOp, BlockKind, Cat, FnTy, FuncRec, IntKind, Safety, Shape, Ty};
use cpp_tree::{Builtin, FuncKind, Linkage, Program, TFunc, TKind, TNode, TNodeId, UnitTree};
use std::alloc::{AllocError, Global};

const AT: At = At {
    source: 0,
    offset: 0,
};

/// A node: what it is, whether its type is `int` and not `void`, and its kids.
pub(crate) type Row = (TKind, bool, &'static [u32]);

fn plain(shape: Shape) -> Ty {
    Ty {
        shape,
        is_const: false,
        is_volatile: false,
    }
}

fn int_type() -> Ty {
    plain(Shape::Int(IntKind::Int))
}

fn type_of(is_int: bool) -> Ty {
    if is_int {
        int_type()
    } else {
        plain(Shape::Void)
    }
}

/// The nodes of these rows.
fn nodes_of(alloc: Global, rows: &[Row]) -> Result<Vec<TNode>, AllocError> {
    let mut nodes = Vec::new(alloc);
    for (kind, is_int, ids) in rows {
        let mut kids = Vec::new(alloc);
        for id in *ids {
            kids.push(TNodeId(*id))?;
        }
        nodes.push(TNode {
            kind: *kind,
            ty: type_of(*is_int),
            cat: Cat::Prvalue,
            at: AT,
            kids,
        })?;
    }
    Ok(nodes)
}

/// `int main()`, with two numbers in its frame and this body.
fn main_with(alloc: Global, root: u32) -> Result<TFunc, AllocError> {
    let mut frame = Vec::new(alloc);
    frame.push(int_type())?;
    frame.push(int_type())?;
    let rec = FuncRec {
        name: Vec::from_slice(alloc, b"main")?,
        ty: FnTy {
            params: Vec::new(alloc),
            ret: int_type(),
            safe: false,
        },
        is_const: false,
        is_virtual: false,
        is_override: false,
        is_final: false,
        pure_virtual: false,
        safety: Safety::None,
        considered: false,
        no_except: false,
        at: AT,
    };
    Ok(TFunc {
        symbol: Vec::from_slice(alloc, b"main()")?,
        rec,
        linkage: Linkage::External,
        text: Vec::new(alloc),
        kind: FuncKind::Plain,
        class: None,
        implicit: false,
        words: 0,
        params: Vec::new(alloc),
        frame,
        body: Some(TNodeId(root)),
        closed_at: 0,
    })
}

/// The program whose `main` has these nodes, the last one its body.
pub(crate) fn program(alloc: Global, rows: &[Row]) -> Result<Program, AllocError> {
    let Some(last) = rows.len().checked_sub(1) else {
        return Err(AllocError);
    };
    let Ok(root) = u32::try_from(last) else {
        return Err(AllocError);
    };
    let mut funcs = Vec::new(alloc);
    funcs.push(main_with(alloc, root)?)?;
    let mut units = Vec::new(alloc);
    units.push(UnitTree {
        nodes: nodes_of(alloc, rows)?,
        funcs,
        globals: Vec::new(alloc),
        classes: Vec::new(alloc),
    })?;
    Ok(Program {
        units,
        classes: Vec::new(alloc),
        slots: Vec::new(alloc),
    })
}

const BLOCK: TKind = TKind::Block { subobjects: false };

const PUT: TKind = TKind::Builtin {
    which: Builtin::PutChar,
};

const LOAD: TKind = TKind::Load {
    kind: IntKind::Int,
    volatile: false,
};

const STORE: TKind = TKind::Store {
    kind: IntKind::Int,
    volatile: false,
};

const FIRST: TKind = TKind::Local { place: 0 };

const ADD: TKind = TKind::Binary {
    op: BinOp::Add,
    kind: IntKind::Int,
};

const LESS: TKind = TKind::Binary {
    op: BinOp::Lt,
    kind: IntKind::Int,
};

const MORE: TKind = TKind::Update {
    op: BinOp::Add,
    stored: IntKind::Int,
    operation: IntKind::Int,
    volatile: false,
    old: false,
};

/// `putchar('A'); return 3;`
pub(crate) const ONE_BYTE: [Row; 5] = [
    (TKind::Literal { word: 65 }, true, &[]),
    (PUT, true, &[0]),
    (TKind::Literal { word: 3 }, true, &[]),
    (TKind::Return, false, &[2]),
    (BLOCK, false, &[1, 3]),
];

/// `int i = 0; while (i < 3) { putchar('a' + i); ++i; } return i;`
pub(crate) const LOOP: [Row; 24] = [
    (FIRST, true, &[]),
    (TKind::Literal { word: 0 }, true, &[]),
    (STORE, true, &[1]),
    (TKind::Init, false, &[0, 2]),
    (FIRST, true, &[]),
    (LOAD, true, &[4]),
    (TKind::Literal { word: 3 }, true, &[]),
    (LESS, true, &[5, 6]),
    (TKind::Literal { word: 97 }, true, &[]),
    (FIRST, true, &[]),
    (LOAD, true, &[9]),
    (ADD, true, &[8, 10]),
    (PUT, true, &[11]),
    (FIRST, true, &[]),
    (TKind::Literal { word: 1 }, true, &[]),
    (MORE, true, &[13, 14]),
    (BLOCK, false, &[12, 15]),
    (BLOCK, false, &[]),
    (TKind::Loop { test_first: true }, false, &[7, 16, 17]),
    (FIRST, true, &[]),
    (LOAD, true, &[19]),
    (TKind::Return, false, &[20]),
    (BLOCK, false, &[18]),
    (BLOCK, false, &[3, 22, 21]),
];

/// `try { atomic_commit { throw 7; } } catch (int e) { putchar('0' + e); } return 0;`
pub(crate) const THROWS: [Row; 18] = [
    (TKind::Literal { word: 7 }, true, &[]),
    (
        TKind::Field {
            offset: 0,
            kind: IntKind::Int,
        },
        false,
        &[],
    ),
    (TKind::Throw, true, &[0, 1]),
    (BLOCK, false, &[2]),
    (
        TKind::Atomic {
            kind: BlockKind::Commit,
        },
        false,
        &[3],
    ),
    (BLOCK, false, &[4]),
    (TKind::Literal { word: 48 }, true, &[]),
    (TKind::Local { place: 1 }, true, &[]),
    (LOAD, true, &[7]),
    (ADD, true, &[6, 8]),
    (PUT, true, &[9]),
    (BLOCK, false, &[10]),
    (
        TKind::Field {
            offset: 0,
            kind: IntKind::Int,
        },
        false,
        &[],
    ),
    (TKind::Handler { place: Some(1) }, true, &[11, 12]),
    (TKind::Try, false, &[5, 13]),
    (TKind::Literal { word: 0 }, true, &[]),
    (TKind::Return, false, &[15]),
    (BLOCK, false, &[14, 16]),
];
