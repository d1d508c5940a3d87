// The frame of a function.

use cpp_tree::below::{At, FnTy, FuncRec, IntKind, Safety, Shape, Ty};
use cpp_tree::{FuncKind, Linkage, Program, TFunc, UnitTree};
use src_mean::frame_of;
use std::alloc::{AllocError, Global};

fn plain(shape: Shape) -> Ty {
    Ty {
        shape,
        is_const: false,
        is_volatile: false,
    }
}

// A function whose frame has so many items of type `int`.
fn function(alloc: Global, items: u32) -> Result<TFunc, AllocError> {
    let mut frame = Vec::new(alloc);
    for _ in 0..items {
        frame.push(plain(Shape::Int(IntKind::Int)))?;
    }
    let ty = FnTy {
        params: Vec::new(alloc),
        ret: plain(Shape::Void),
        safe: false,
    };
    let rec = FuncRec {
        name: Vec::new(alloc),
        ty,
        is_const: false,
        is_virtual: false,
        is_override: false,
        is_final: false,
        pure_virtual: false,
        safety: Safety::None,
        considered: false,
        no_except: false,
        at: At {
            source: 0,
            offset: 0,
        },
    };
    Ok(TFunc {
        symbol: Vec::new(alloc),
        rec,
        linkage: Linkage::External,
        text: Vec::new(alloc),
        kind: FuncKind::Plain,
        class: None,
        implicit: false,
        words: 0,
        params: Vec::new(alloc),
        frame,
        body: None,
        closed_at: 0,
    })
}

// A program of two functions.
fn program(alloc: Global) -> Result<Program, AllocError> {
    let mut funcs = Vec::new(alloc);
    funcs.push(function(alloc, 1)?)?;
    funcs.push(function(alloc, 3)?)?;
    let mut units = Vec::new(alloc);
    units.push(UnitTree {
        nodes: Vec::new(alloc),
        funcs,
        globals: Vec::new(alloc),
        classes: Vec::new(alloc),
    })?;
    Ok(Program {
        units,
        classes: Vec::new(alloc),
        slots: Vec::new(alloc),
    })
}

/// How many items the frames of the functions have.
pub fn answer(alloc: Global) -> Result<String, AllocError> {
    let program = program(alloc)?;
    if program.units.len() != 1 || program.units[0].funcs.len() != 2 {
        return format!(in alloc; "other functions");
    }
    format!(in alloc;
        "{} {}",
        frame_of(&program, 0, 0).len(),
        frame_of(&program, 0, 1).len()
    )
}
