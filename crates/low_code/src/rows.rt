//! Unwind rows.

ghost use Rattle.std.specs.Prelude.{◌≡◌, ◌++◌, ◌∷◌, [], ℕ, List, get_or, length, unwrap_or, IfOk, OnOk};
ghost use Rattle.tx_code.specs.declared.body.Row.{Row as RowAt};
ghost use Rattle.low_code.specs.Writer.{body_of};
ghost use Rattle.low_code.specs.Rows.{block_edge as block_edge_of, edge_of as edge_number, pad_row, catch_row as catching_row, catch_rows, catches_all, rows_by, last_by, chain_rows, chain_last, edge_rows, run_rows, some_rows, rows_in, goes_on};

use crate::scopes::ScopeKind;
use crate::writer::{Catch, Writer};
use std::alloc::{AllocError, Global};
use tx_code::Row;

// The index of a scope's way out.
fn pad(body: &Writer, scope: u32) -> Result<u32, AllocError>
    ensures { IfOk result (λ index. index ≡ get_or body.now.pads.items scope 0) }
{
    match body.pads.get(scope as usize) {
        Some(index) => Ok(*index),
        None => Err(AllocError),
    }
}

// The number of a block's edge; 0 of what is none.
fn block_edge(kind: ScopeKind) -> u8
    ensures { result ≡ block_edge_of kind }
{
    match kind {
        ScopeKind::Block(what) => what,
        _ => 0,
    }
}

// The number of the edge of a block or of a way out behind one.
fn edge_of(body: &Writer, scope: u32) -> Result<u8, AllocError>
    ensures { IfOk result (λ what. what ≡ edge_number (body_of body.now) scope) }
{
    let kind = body.scope_at(scope)?.kind;
    match kind {
        ScopeKind::Behind { block, .. } => Ok(block_edge(body.scope_at(block)?.kind)),
        _ => Ok(block_edge(kind)),
    }
}

// Adds the row of a scope's way out.
fn add_pad(
    rows: &mut Vec<Row>,
    body: &Writer,
    from: u32,
    to: u32,
    scope: u32,
) -> Result<(), AllocError>
    ensures { OnOk result (rows.new.items ≡ rows.old.items ++ pad_row (body_of body.now) from to scope ∷ []) }
{
    rows.push(Row {
        from,
        to,
        target: pad(body, scope)?,
        what: edge_of(body, scope)?,
        ty: 0,
        depth: body.scope_at(scope)?.depth,
    })?;
    Ok(())
}

// The row of what a `try` of this depth catches.
fn catch_row(from: u32, to: u32, depth: u32, caught: Catch) -> Row
    ensures { result ≡ catching_row from to depth caught }
{
    Row {
        from,
        to,
        target: caught.target,
        what: caught.what,
        ty: caught.ty,
        depth,
    }
}

// Adds the rows of the `try` of this scope and depth; whether they take each exception.
fn add_catches(
    rows: &mut Vec<Row>,
    catches: &[Catch],
    from: u32,
    to: u32,
    scope: u32,
    depth: u32,
) -> Result<bool, AllocError>
    ensures rows { OnOk result (rows.new.items ≡ rows.old.items ++ catch_rows from to scope depth catches.now) }
    ensures all { IfOk result (λ all. all ≡ catches_all scope catches.now) }
{
    for caught in catches {
        if caught.scope == scope {
            rows.push(catch_row(from, to, depth, *caught))?;
            if caught.what == 2 {
                return Ok(true);
            }
        }
    }
    Ok(false)
}

// Adds the rows of a scope. Answers the scope that takes each exception, 0 for the function's; `None` where those around it
// have rows too.
fn add_scope(
    rows: &mut Vec<Row>,
    body: &Writer,
    from: u32,
    to: u32,
    scope: u32,
    kind: ScopeKind,
) -> Result<Option<u32>, AllocError>
    ensures rows { (around : List RowAt) → IfOk result (λ last. rows.new.items ++ goes_on last around ≡ rows.old.items ++ rows_by (body_of body.now) from to scope kind around) }
    ensures last { (around : ℕ) → IfOk result (λ last. unwrap_or last around ≡ last_by (body_of body.now) scope kind around) }
{
    match kind {
        ScopeKind::Function => Ok(Some(0)),
        ScopeKind::Try => {
            let depth = body.scope_at(scope)?.depth;
            if add_catches(rows, &body.catches, from, to, scope, depth)? {
                Ok(Some(scope))
            } else {
                Ok(None)
            }
        }
        ScopeKind::Mark(_) | ScopeKind::Loop | ScopeKind::Switch => Ok(None),
        ScopeKind::Waits { .. }
        | ScopeKind::Each { .. }
        | ScopeKind::Handler
        | ScopeKind::Block(_)
        | ScopeKind::Behind { .. } => {
            add_pad(rows, body, from, to, scope)?;
            Ok(Some(scope))
        }
    }
}

// Adds the rows of a scope and those around it, up to one that takes each exception. Answers the scope of that one.
fn add_chain(
    rows: &mut Vec<Row>,
    body: &Writer,
    from: u32,
    to: u32,
    scope: u32,
) -> Result<u32, AllocError>
    ensures rows { OnOk result (rows.new.items ≡ rows.old.items ++ chain_rows (length body.now.scopes.items) (body_of body.now) from to scope) }
    ensures last { IfOk result (λ last. last ≡ chain_last (length body.now.scopes.items) (body_of body.now) scope) }
{
    let most = body.scopes.len();
    let mut number = scope;
    for _ in 0..most {
        let found = body.scope_at(number)?;
        match add_scope(rows, body, from, to, number, found.kind)? {
            Some(last) => return Ok(last),
            None => number = found.parent,
        }
    }
    Ok(0)
}

// Adds the row of the innermost open block's way out, where the chain does not end there.
fn add_edge(
    rows: &mut Vec<Row>,
    body: &Writer,
    from: u32,
    to: u32,
    edge: u32,
    last: u32,
) -> Result<(), AllocError>
    ensures { OnOk result (rows.new.items ≡ rows.old.items ++ edge_rows (body_of body.now) from to edge last) }
{
    if edge == 0 || edge == last {
        return Ok(());
    }
    add_pad(rows, body, from, to, edge)
}

// Adds the rows of the indexes from `from` to below `to`, all of this scope. Where a block is open, one of them is its edge.
fn add_rows(
    rows: &mut Vec<Row>,
    body: &Writer,
    from: u32,
    to: u32,
    scope: u32,
) -> Result<(), AllocError>
    ensures { OnOk result (rows.new.items ≡ rows.old.items ++ some_rows (body_of body.now) from to scope) }
{
    if from >= to {
        return Ok(());
    }
    let last = add_chain(rows, body, from, to, scope)?;
    let edge = body.scope_at(scope)?.edge;
    add_edge(rows, body, from, to, edge, last)
}

/// The unwind rows of a body whose ways out are written.
pub fn rows_of(alloc: Global, body: &Writer) -> Result<Vec<Row>, AllocError>
    ensures { IfOk result (λ rows. rows.items ≡ rows_in (body_of body.now)) }
{
    let mut rows = Vec::new(alloc);
    let mut from = 0;
    let mut scope = 0;
    let mut index = 0;
    for low in &body.code {
        if low.scope != scope {
            add_rows(&mut rows, body, from, index, scope)?;
            from = index;
            scope = low.scope;
        }
        let Some(next) = u32::checked_add(index, 1) else {
            return Err(AllocError);
        };
        index = next;
    }
    add_rows(&mut rows, body, from, index, scope)?;
    Ok(rows)
}
