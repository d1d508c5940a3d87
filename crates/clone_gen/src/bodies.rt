//! Bodies.

use crate::lines::line_rows;
use low_code::effects::in_transaction;
use low_code::{LowInstr, Scope};
use std::alloc::{AllocError, Global};
use tx_code::{Body, Instr, Row};
use unwind_lower::LowFunc;

// Whether an atomic block is open at an instruction.
fn is_atomic(scopes: &[Scope], low: &LowInstr) -> bool {
    match scopes.get(low.scope as usize) {
        Some(scope) => scope.atomic,
        None => false,
    }
}

// The instructions; where an atomic block is open, and all over a safe body, those of a transaction.
fn instructions(alloc: Global, low: &LowFunc, safe: bool) -> Result<Vec<Instr>, AllocError> {
    let mut code = Vec::new(alloc);
    for instr in &low.code {
        let written = if safe || is_atomic(&low.scopes, instr) {
            in_transaction(instr.instr)
        } else {
            instr.instr
        };
        code.push(written)?;
    }
    Ok(code)
}

// A copy of rows.
fn copied(alloc: Global, rows: &[Row]) -> Result<Vec<Row>, AllocError> {
    let mut copy = Vec::new(alloc);
    for row in rows {
        copy.push(*row)?;
    }
    Ok(copy)
}

/// The plain or the safe body of a function.
pub fn body(alloc: Global, low: &LowFunc, safe: bool, starts: &[u32]) -> Result<Body, AllocError> {
    Ok(Body {
        code: instructions(alloc, low, safe)?,
        rows: copied(alloc, &low.rows)?,
        lines: line_rows(alloc, &low.code, starts)?,
    })
}
