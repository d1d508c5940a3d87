//! Rows, and which of them cover an index.
ghost use Rattle.std.specs.Prelude.{◌≡◌, ◌&&◌, not, ◌++◌, ◌∷◌, [], true, IfOk, List, map, length, ◌<◌};
ghost use Rattle.std.specs.List.{list_all};
ghost use Rattle.tx_events.specs.Thread.{Open};
ghost use Rattle.tx_code.specs.Meaning.{covers};
ghost use Rattle.tx_code.specs.Shapes as shapes;
ghost use Rattle.code_walk.specs.Walk as walk;
ghost use Rattle.code_walk.specs.Bodies.{lands_in};
ghost use Rattle.code_walk.specs.ShapeViews.{shape_of, fits};
ghost use Rattle.code_walk.specs.Slots.{slot_of, slot_fits, Notes};
ghost use Rattle.code_walk.specs.declared.rows.RowTree.{RowTree};
ghost use Rattle.code_walk.specs.RowTrees.{rows_of, may_cover, all_cover, SpanOf, is_key, Right};

use crate::nests::Nests;
use crate::shapes::{Shape, landed};
use crate::slots::Slots;
use std::alloc::{AllocError, Global};
use tx_code::Row;

/// A row covers an index.
pub fn covers(row: Row, index: usize) -> bool
    ensures { result ≡ covers row index }
{
    row.from as usize <= index && index < row.to as usize
}

/// Where the rows of a part begin and end: the first and the last `from`, the last and the first `to`.
#[derive(Clone, Copy)]
pub(crate) struct Span {
    pub(crate) first: u32,
    pub(crate) behind: u32,
    pub(crate) last: u32,
    pub(crate) until: u32,
}

/// What rows make a shape of: the nest of open blocks, and the number of entered handlers.
#[derive(Clone, Copy)]
pub(crate) struct Key {
    pub(crate) nest: usize,
    pub(crate) handlers: usize,
}

/// The rows of a body in their order, halved again and again. A part has the key with which all of its rows gave their
/// targets a shape last: another index with this key that they all cover has nothing to add.
#[derive(Drop)]
pub(crate) enum RowTree {
    Empty,
    Leaf(Row, Option<Key>),
    Fork(Box<RowTree>, Box<RowTree>, Span, Option<Key>),
}

// A row of the part may cover the index.
fn may_cover(span: Span, index: usize) -> bool
    ensures { result ≡ may_cover span index }
{
    span.first as usize <= index && index < span.behind as usize
}

// Each row of the part covers the index.
fn all_cover(span: Span, index: usize) -> bool
    ensures { result ≡ all_cover span index }
{
    span.last as usize <= index && index < span.until as usize
}

// The shape has this key.
fn is_key(key: Option<Key>, shape: Shape) -> bool
    ensures { result ≡ is_key key shape }
{
    match key {
        None => false,
        Some(key) => key.nest == shape.nest && key.handlers == shape.handlers,
    }
}

// The row has something to give at the index.
fn is_open(row: Row, key: Option<Key>, index: usize, shape: Shape) -> bool
    ensures { result ≡ (covers row index && not (is_key key shape)) }
{
    covers(row, index) && !is_key(key, shape)
}

// Each row of the part covers the index, and has given what it gives for this shape.
fn is_done(span: Span, key: Option<Key>, index: usize, shape: Shape) -> bool
    ensures { result ≡ (all_cover span index && is_key key shape) }
{
    all_cover(span, index) && is_key(key, shape)
}

// Where two parts begin and end.
fn joined(one: Span, other: Span) -> Span
    ensures { (xs ys : List Row) → SpanOf one xs → SpanOf other ys → SpanOf result (xs ++ ys) }
{
    Span {
        first: one.first.min(other.first),
        behind: one.behind.max(other.behind),
        last: one.last.max(other.last),
        until: one.until.min(other.until),
    }
}

// Where the rows of a part begin and end.
fn span_of(tree: &RowTree) -> Span
    requires { Right [] [] tree.now }
    ensures { SpanOf result (rows_of tree.now) }
{
    match tree {
        RowTree::Empty => Span {
            first: 0,
            behind: 0,
            last: 0,
            until: 0,
        },
        RowTree::Leaf(row, _) => Span {
            first: row.from,
            behind: row.to,
            last: row.from,
            until: row.to,
        },
        RowTree::Fork(_, _, span, _) => *span,
    }
}

/// The rows, of which none gave a shape yet.
pub(crate) fn row_tree(alloc: Global, rows: &[Row]) -> Result<RowTree, AllocError>
    ensures rows { IfOk result (λ tree. rows_of tree ≡ rows.now) }
    ensures right { IfOk result (λ tree. (t : List (List Open)) (ss : List (walk.Slot shapes.Shape)) → Right t ss tree) }
{
    let half = rows.len() / 2;
    if half == 0 {
        return match rows.first() {
            None => Ok(RowTree::Empty),
            Some(row) => Ok(RowTree::Leaf(*row, None)),
        };
    }
    let (front, back) = rows.split_at(half);
    let left = row_tree(alloc, front)?;
    let right = row_tree(alloc, back)?;
    let span = joined(span_of(&left), span_of(&right));
    Ok(RowTree::Fork(Box::new(alloc, left)?, Box::new(alloc, right)?, span, None))
}

// The target of a row is given the shape that the row lands with.
fn note_row(nests: &Nests, slots: &mut Slots, row: Row, shape: Shape) -> Result<(), AllocError>
    requires slots { list_all (slot_fits nests.now) slots.old ≡ true }
    requires shape { fits nests.now shape ≡ true }
    ensures { IfOk result (λ _. Notes nests.now slots.old slots.new (walk.given row.target (shapes.landed row.what row.depth (shape_of nests.now shape).opens shape.handlers) ∷ [])) }
{
    let landed = landed(nests, row.what, row.depth, shape)?;
    slots.note(nests, row.target as usize, landed)
}

/// The targets of the rows that cover an index are given shapes.
pub(crate) fn note_rows(
    nests: &Nests,
    slots: &mut Slots,
    tree: &mut RowTree,
    index: usize,
    shape: Shape,
) -> Result<(), AllocError>
    requires slots { list_all (slot_fits nests.now) slots.old ≡ true }
    requires shape { fits nests.now shape ≡ true }
    requires right { Right nests.now (map (slot_of nests.now) slots.old) tree.old }
    ensures notes { IfOk result (λ _. Notes nests.now slots.old slots.new (lands_in (rows_of tree.old) index (shape_of nests.now shape))) }
    ensures right { IfOk result (λ _. Right nests.now (map (slot_of nests.now) slots.new) tree.new) }
    ensures rows { IfOk result (λ _. rows_of tree.new ≡ rows_of tree.old) }
    ensures others { IfOk result (λ _. (other : RowTree) → Right nests.now (map (slot_of nests.now) slots.old) other → Right nests.now (map (slot_of nests.now) slots.new) other) }
{
    match tree {
        RowTree::Empty => Ok(()),
        RowTree::Leaf(row, key) => {
            if !is_open(*row, *key, index, shape) {
                return Ok(());
            }
            note_row(nests, slots, *row, shape)?;
            *key = Some(Key {
                nest: shape.nest,
                handlers: shape.handlers,
            });
            Ok(())
        }
        RowTree::Fork(left, right, span, key) => {
            if !may_cover(*span, index) {
                return Ok(());
            }
            if is_done(*span, *key, index, shape) {
                return Ok(());
            }
            note_rows(nests, slots, left, index, shape)?;
            note_rows(nests, slots, right, index, shape)?;
            if all_cover(*span, index) {
                *key = Some(Key {
                    nest: shape.nest,
                    handlers: shape.handlers,
                });
            }
            Ok(())
        }
    }
}
