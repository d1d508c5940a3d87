//! The clauses of sound code that need an index's shape or the image's names, and the lowest that an index or a row
//! breaks.
ghost use Rattle.std.specs.Prelude.{◌≡◌, ◌<◌, ◌≤◌, ◌-◌, ◌+◌, ◌^◌, ◌&&◌, ◌||◌, ℕ, true, length, map};
ghost use Rattle.std.specs.List.{list_all};
ghost use Rattle.tx_code.specs.Sound as sound;
ghost use Rattle.tx_code.specs.Sound.{table_of, has_edge};
ghost use Rattle.tx_events.specs.Thread.{is_empty};
ghost use Rattle.tx_code.specs.Views.{image_view};
ghost use Rattle.code_walk.specs.Nests.{nest};
ghost use Rattle.code_walk.specs.ShapeViews.{shape_of, fits};
ghost use Rattle.code_walk.specs.Slots.{slot_of, slot_fits, table_in, view_in};
ghost use Rattle.code_verify.specs.Rules.{first_broken, alone_right, shape_right, index_rule, row_alone, of_shape, holds_over, edge_test, depth_test, row_rule};

use crate::clauses::{
    is_edge, is_known, is_last, lies_in_exception, outside_right, row_is_known, row_lies,
    target_lies,
};
use code_walk::names::{
    has_safe, is_class, is_func, is_global, is_slot, is_type, takes, type_takes,
};
use code_walk::nests::Nests;
use code_walk::shapes::{Shape, finds};
use code_walk::walk::{Judged, Slot};
use tx_code::{Image, Instr, Row};
use tx_events::BlockKind;

/// 3: the instruction's names are of the sort that it needs.
fn names_right(image: &Image, instr: Instr) -> bool
    ensures { result ≡ sound.names_right (table_of (image_view image.now)) instr }
{
    match instr {
        Instr::GlobalAddr(offset) => is_global(image, offset),
        Instr::FuncAddr(func) => is_func(image, func),
        Instr::ClassAddr(class) => is_class(image, class),
        Instr::Call { func, words: _ } | Instr::TCall { func, words: _ } => is_func(image, func),
        Instr::CallIndirect { ty, words: _ } | Instr::TCallIndirect { ty, words: _ } => is_type(
            image, ty,
        ),
        Instr::Slot { class, slot } => is_slot(image, class, slot),
        Instr::NewException(ty) => is_type(image, ty),
        _ => true,
    }
}

/// 3: a row that handles a type names one.
fn row_names_right(image: &Image, row: Row) -> bool
    ensures { result ≡ sound.row_names_right (table_of (image_view image.now)) row }
{
    row.what != 1 || is_type(image, row.ty)
}

/// 6: a call passes the words that are taken.
fn passes(image: &Image, instr: Instr) -> bool
    ensures { result ≡ sound.passes (table_of (image_view image.now)) instr }
{
    match instr {
        Instr::Call { func, words } | Instr::TCall { func, words } => words as usize
            == takes(image, func),
        Instr::CallIndirect { ty, words } | Instr::TCallIndirect { ty, words } => words as usize
            == type_takes(image, ty),
        _ => true,
    }
}

/// 7: exceptions are where they are used.
fn exception_right(nests: &Nests, instr: Instr, shape: Shape) -> bool
    ensures { result ≡ sound.exception_right instr (shape_of nests.now shape) }
{
    match instr {
        Instr::PutException { offset, kind } => shape.hand.is_building()
            && lies_in_exception(offset, kind),
        Instr::Throw => shape.hand.is_building(),
        Instr::GetException { offset, kind } => 0 < shape.handlers
            && lies_in_exception(offset, kind),
        Instr::EndHandler => 0 < shape.handlers,
        Instr::Resume => shape.hand.is_flying(),
        _ => true,
    }
}

// What may stand in a transaction.
fn inside_right(image: &Image, instr: Instr) -> bool
    ensures { result ≡ sound.inside_right (table_of (image_view image.now)) instr }
{
    match instr {
        Instr::Load(_) | Instr::Store(_) | Instr::VLoad(_) | Instr::VStore(_) => false,
        Instr::Call { func: _, words: _ } | Instr::CallIndirect { ty: _, words: _ } => false,
        Instr::Out | Instr::Inp | Instr::Spawn | Instr::Join => false,
        Instr::TCall { func, words: _ } => has_safe(image, func),
        _ => true,
    }
}

// In a safe body, or where an atomic block is open.
fn is_inside(safe: bool, nests: &Nests, shape: Shape) -> bool
    requires { fits nests.now shape ≡ true }
    ensures { result ≡ sound.is_inside safe (nest nests.now shape.nest) }
{
    safe || nests.has_atomic(shape.nest)
}

/// 10: the end of a block closes one of its sort.
fn closes_right(nests: &Nests, instr: Instr, shape: Shape) -> bool
    requires { fits nests.now shape ≡ true }
    ensures { result ≡ sound.closes_right instr (shape_of nests.now shape) }
{
    match instr {
        Instr::End => nests.in_atomic(shape.nest),
        Instr::EndSync => nests.in_sync(shape.nest),
        _ => true,
    }
}

/// 10: the innermost block is of an edge row's kind.
fn edge_right(nests: &Nests, what: u8, shape: Shape) -> bool
    requires { fits nests.now shape ≡ true }
    ensures { result ≡ sound.edge_right what (nest nests.now shape.nest) }
{
    match what {
        0 | 1 | 2 => true,
        3 => nests.in_kind(BlockKind::NoExcept, shape.nest),
        4 => nests.in_kind(BlockKind::Commit, shape.nest),
        5 => nests.in_kind(BlockKind::Cancel, shape.nest),
        _ => nests.in_sync(shape.nest),
    }
}

// What is left where a call has taken its words.
#[tactic(auto, using(code_walk::proofs::Depths::less_some, code_walk::proofs::Depths::less_none))]
fn kept(words: usize, depth: usize) -> usize
    ensures { result ≡ sound.kept words depth }
{
    match depth.checked_sub(words) {
        None => depth,
        Some(rest) => rest,
    }
}

fn left_at(instr: Instr, depth: usize) -> usize
    ensures { result ≡ sound.left_at instr depth }
{
    match instr {
        Instr::Call { func: _, words } | Instr::TCall { func: _, words } => kept(
            words as usize,
            depth,
        ),
        Instr::CallIndirect { ty: _, words } | Instr::TCallIndirect { ty: _, words } => kept(
            words as usize + 1,
            depth,
        ),
        _ => depth,
    }
}

// The lowest of the clauses 1 to 3 that an instruction breaks.
fn alone_rule(image: &Image, instrs: usize, index: usize, instr: Instr) -> Option<u32>
    requires { index + 1 < 2 ^ 64 }
    ensures { result ≡ first_broken 1 (alone_right (table_of (image_view image.now)) instrs index instr) }
{
    if !(target_lies(instrs, instr) && (index + 1 != instrs || is_last(instr))) {
        return Some(1);
    }
    if !is_known(instr) {
        return Some(2);
    }
    if !names_right(image, instr) {
        return Some(3);
    }
    None
}

// 10: blocks are closed by their own ends, and an open one has an edge row.
fn blocks_right(nests: &Nests, covered: bool, instr: Instr, shape: Shape) -> bool
    requires { fits nests.now shape ≡ true }
    ensures { result ≡ (sound.closes_right instr (shape_of nests.now shape) && (is_empty (nest nests.now shape.nest) || covered)) }
{
    closes_right(nests, instr, shape) && (nests.is_empty(shape.nest) || covered)
}

// The lowest of the clauses 5 to 10 that an instruction of this shape breaks, where edge rows cover its index or not.
fn shape_rule(
    judged: Judged,
    nests: &Nests,
    covered: bool,
    instr: Instr,
    shape: Shape,
) -> Option<u32>
    requires { fits nests.now shape ≡ true }
    ensures { (index : ℕ) → covered ≡ has_edge judged.entry.body.now.rows.items index → result ≡ first_broken 5 (shape_right (table_in judged.entry) judged.entry.gives judged.entry.safe judged.entry.body.now.rows.items index instr (shape_of nests.now shape)) }
{
    if !finds(judged.image, judged.gives, nests, instr, shape) {
        return Some(5);
    }
    if !passes(judged.image, instr) {
        return Some(6);
    }
    if !exception_right(nests, instr, shape) {
        return Some(7);
    }
    let inside = is_inside(judged.safe, nests, shape);
    if inside && !inside_right(judged.image, instr) {
        return Some(8);
    }
    if !inside && !outside_right(instr) {
        return Some(9);
    }
    if !blocks_right(nests, covered, instr, shape) {
        return Some(10);
    }
    None
}

/// The lowest clause that an index breaks itself, which edge rows cover or not.
pub fn index_rule(
    judged: Judged,
    nests: &Nests,
    covered: bool,
    index: usize,
    instr: Instr,
    slot: Slot,
) -> Option<u32>
    requires fit { slot_fits nests.now slot ≡ true }
    requires index { index + 1 < 2 ^ 64 }
    requires covered { covered ≡ has_edge judged.body.now.rows.items index }
    ensures { result ≡ index_rule (table_in judged.entry) judged.entry.gives judged.entry.safe (view_in judged.entry) index instr (slot_of nests.now slot) }
{
    if let Some(rule) = alone_rule(judged.image, judged.body.code.len(), index, instr) {
        return Some(rule);
    }
    if slot.clash {
        return Some(4);
    }
    match slot.shape {
        None => None,
        Some(shape) => shape_rule(judged, nests, covered, instr, shape),
    }
}

// The lowest of the clauses 1 to 3 that a row breaks.
fn row_alone_rule(image: &Image, instrs: usize, row: Row) -> Option<u32>
    ensures { result ≡ first_broken 1 (row_alone (table_of (image_view image.now)) instrs row) }
{
    if !row_lies(instrs, row) {
        return Some(1);
    }
    if !row_is_known(row) {
        return Some(2);
    }
    if !row_names_right(image, row) {
        return Some(3);
    }
    None
}

// 10: at an index, the block is of the row's kind.
fn edge_holds(nests: &Nests, row: Row, slot: Slot) -> bool
    requires { slot_fits nests.now slot ≡ true }
    ensures { result ≡ of_shape (λ s. sound.edge_right row.what s.opens) (slot_of nests.now slot).shape }
{
    match slot.shape {
        None => true,
        Some(shape) => edge_right(nests, row.what, shape),
    }
}

// 10: at each index that a row covers.
fn edges_hold(nests: &Nests, slots: &[Slot], row: Row) -> bool
    requires fit { list_all (slot_fits nests.now) slots.now ≡ true }
    requires within { row.to ≤ length slots.now }
    ensures { result ≡ holds_over (edge_test row) (map (slot_of nests.now) slots.now) row.from (row.to - row.from) }
{
    if !is_edge(row) {
        return true;
    }
    for index in row.from as usize..row.to as usize {
        if !edge_holds(nests, row, slots[index]) {
            return false;
        }
    }
    true
}

// 11: at an index, the operands that a row keeps are there.
fn depth_holds(nests: &Nests, code: &[Instr], row: Row, index: usize, slot: Slot) -> bool
    ensures { result ≡ of_shape (depth_test code.now row index) (slot_of nests.now slot).shape }
{
    match slot.shape {
        None => true,
        Some(shape) => match code.get(index) {
            None => true,
            Some(instr) => row.depth as usize <= left_at(*instr, shape.depth),
        },
    }
}

// 11: at each index that a row covers.
fn depths_hold(nests: &Nests, code: &[Instr], slots: &[Slot], row: Row) -> bool
    requires { row.to ≤ length slots.now }
    ensures { result ≡ holds_over (depth_test code.now row) (map (slot_of nests.now) slots.now) row.from (row.to - row.from) }
{
    if row.depth == 0 {
        return true;
    }
    for index in row.from as usize..row.to as usize {
        if !depth_holds(nests, code, row, index, slots[index]) {
            return false;
        }
    }
    true
}

// The lowest clause that a row breaks.
pub fn row_rule(judged: Judged, nests: &Nests, slots: &[Slot], row: Row) -> Option<u32>
    requires fit { list_all (slot_fits nests.now) slots.now ≡ true }
    requires count { length slots.now ≡ length judged.body.now.code.items }
    ensures { result ≡ row_rule (table_in judged.entry) (view_in judged.entry) (map (slot_of nests.now) slots.now) row }
{
    if let Some(rule) = row_alone_rule(judged.image, judged.body.code.len(), row) {
        return Some(rule);
    }
    if !edges_hold(nests, slots, row) {
        return Some(10);
    }
    if !depths_hold(nests, &judged.body.code, slots, row) {
        return Some(11);
    }
    None
}
