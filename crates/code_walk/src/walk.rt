//! The walk: each index of a body is given its first shape, and another one is noted.
ghost use Rattle.std.specs.Prelude.{◌≡◌, ◌<◌, ◌+◌, ◌^◌, true, length, map, IfOk, slice_get};
ghost use Rattle.std.specs.List.{list_all};
ghost use Rattle.tx_code.specs.Shapes.{targets, outgoing};
ghost use Rattle.code_walk.specs.Walk.{note_all, step};
ghost use Rattle.code_walk.specs.Bodies.{falls_to, given_on};
ghost use Rattle.code_walk.specs.ShapeViews.{shape_of, fits};
ghost use Rattle.code_walk.specs.RowTrees.{rows_of, Right, Held};
ghost use Rattle.code_walk.specs.Slots.{slot_of, slot_fits, tested, targets_of, Notes, table_in, space_in, Steps, Ended};

use crate::nests::Nests;
use crate::rows::{RowTree, note_rows, row_tree};
use crate::shapes::{Hand, Shape, outgoing};
use crate::slots::Slots;
use std::alloc::{AllocError, Global};
use tx_code::{Body, Image, Instr};

/// A body that is judged: of which image, how many words its function takes and hands back, and whether it is the safe
/// one.
#[derive(Clone, Copy)]
pub struct Judged<'a> {
    pub image: &'a Image,
    pub body: &'a Body,
    pub takes: usize,
    pub gives: usize,
    pub safe: bool,
}

/// What is known of an index: its first shape, whether it was looked at, and whether it was given another shape.
#[derive(Clone, Copy)]
pub struct Slot {
    pub shape: Option<Shape>,
    pub looked: bool,
    pub clash: bool,
}

/// Where an instruction leads.
#[derive(Clone, Copy)]
enum Targets {
    Nowhere,
    One(usize),
    Two(usize, usize),
}

/// What the walk knows, and the nests that its shapes have.
#[derive(Drop)]
pub struct Walked {
    pub nests: Nests,
    pub slots: Vec<Slot>,
}

// Where an instruction leads.
fn targets_at(instr: Instr, index: usize) -> Targets
    requires { index + 1 < 2 ^ 64 }
    ensures { targets_of result ≡ targets instr index }
{
    match instr {
        Instr::Jump(target) => Targets::One(target as usize),
        Instr::JumpZero(target) => Targets::Two(target as usize, index + 1),
        Instr::Ret(_) | Instr::Throw | Instr::Rethrow | Instr::Resume | Instr::Abort =>
            Targets::Nowhere,
        _ => Targets::One(index + 1),
    }
}

// The indexes that an instruction leads to are given a shape.
fn note_falls(
    nests: &Nests,
    slots: &mut Slots,
    targets: Targets,
    shape: Shape,
) -> Result<(), AllocError>
    requires slots { list_all (slot_fits nests.now) slots.old ≡ true }
    requires shape { fits nests.now shape ≡ true }
    ensures { IfOk result (λ _. Notes nests.now slots.old slots.new (falls_to (targets_of targets) (shape_of nests.now shape))) }
{
    match targets {
        Targets::Nowhere => Ok(()),
        Targets::One(target) => slots.note(nests, target, shape),
        Targets::Two(one, other) => {
            slots.note(nests, one, shape)?;
            slots.note(nests, other, shape)?;
            Ok(())
        }
    }
}

// An index of this shape gives its shapes on, if its instruction finds its operands.
fn give_on(
    judged: Judged,
    nests: &mut Nests,
    slots: &mut Slots,
    rows: &mut RowTree,
    instr: Instr,
    index: usize,
    shape: Shape,
) -> Result<(), AllocError>
    requires index { index + 1 < 2 ^ 64 }
    requires slots { list_all (slot_fits nests.old) slots.old ≡ true }
    requires shape { fits nests.old shape ≡ true }
    requires right { Right nests.old (map (slot_of nests.old) slots.old) rows.old }
    ensures steps { IfOk result (λ _. Steps nests.old nests.new slots.old slots.new (note_all tested (map (slot_of nests.old) slots.old) (given_on (outgoing (table_in judged.entry) judged.entry.gives instr (shape_of nests.old shape)) instr (rows_of rows.old) index (shape_of nests.old shape)))) }
    ensures rows { IfOk result (λ _. Held nests.new slots.new rows.old rows.new) }
{
    match outgoing(judged.image, judged.gives, nests, instr, shape)? {
        None => Ok(()),
        Some(next) => {
            note_falls(nests, slots, targets_at(instr, index), next)?;
            note_rows(nests, slots, rows, index, shape)?;
            Ok(())
        }
    }
}

// An index of this shape gives its shapes on.
fn give(
    judged: Judged,
    nests: &mut Nests,
    slots: &mut Slots,
    rows: &mut RowTree,
    index: usize,
    shape: Shape,
) -> Result<(), AllocError>
    requires index { index + 1 < 2 ^ 64 }
    requires slots { list_all (slot_fits nests.old) slots.old ≡ true }
    requires shape { fits nests.old shape ≡ true }
    requires right { Right nests.old (map (slot_of nests.old) slots.old) rows.old }
    requires body { rows_of rows.old ≡ judged.body.now.rows.items }
    ensures steps { IfOk result (λ _. Steps nests.old nests.new slots.old slots.new (note_all tested (map (slot_of nests.old) slots.old) ((space_in judged.entry).gives index (shape_of nests.old shape)))) }
    ensures rows { IfOk result (λ _. Held nests.new slots.new rows.old rows.new) }
{
    match instr_at(&judged.body.code, index) {
        None => Ok(()),
        Some(instr) => {
            give_on(judged, nests, slots, rows, instr, index, shape)?;
            Ok(())
        }
    }
}

fn instr_at(code: &[Instr], index: usize) -> Option<Instr>
    ensures { result ≡ slice_get code.now index }
{
    code.get(index).copied()
}

// The lowest index that waits is looked at.
fn advance(
    judged: Judged,
    nests: &mut Nests,
    slots: &mut Slots,
    rows: &mut RowTree,
) -> Result<(), AllocError>
    requires few { length slots.old < 2 ^ 64 }
    requires slots { list_all (slot_fits nests.old) slots.old ≡ true }
    requires right { Right nests.old (map (slot_of nests.old) slots.old) rows.old }
    requires body { rows_of rows.old ≡ judged.body.now.rows.items }
    ensures steps { IfOk result (λ _. Steps nests.old nests.new slots.old slots.new (step (space_in judged.entry) (map (slot_of nests.old) slots.old))) }
    ensures rows { IfOk result (λ _. Held nests.new slots.new rows.old rows.new) }
{
    match slots.look() {
        None => Ok(()),
        Some(looked) => match looked.slot.shape {
            None => Ok(()),
            Some(shape) => {
                give(judged, nests, slots, rows, looked.index, shape)?;
                Ok(())
            }
        },
    }
}

/// What the walk knows in the end.
pub fn walk(alloc: Global, judged: Judged) -> Result<Walked, AllocError>
    requires { 0 < length judged.body.now.code.items }
    ensures { IfOk result (λ w. Ended judged.entry w) }
{
    let count = judged.body.code.len();
    let mut nests = Nests::new(alloc);
    let mut slots = Slots::new(alloc, count)?;
    let mut rows = row_tree(alloc, &judged.body.rows)?;
    slots.note(
        &nests,
        0,
        Shape {
            depth: judged.takes,
            nest: 0,
            handlers: 0,
            hand: Hand::Empty,
        },
    )?;
    'steps: for _ in 0..count {
        advance(judged, &mut nests, &mut slots, &mut rows)?;
    }
    Ok(Walked {
        nests,
        slots: slots.into_vec(),
    })
}
