//! The fault that is named: the lowest index of the lowest function, and there the lowest clause.
ghost use Rattle.std.specs.Prelude.{◌≡◌, ◌<◌, ℕ, true, false, length, map, None, IfOk, slice_index_or};
ghost use Rattle.std.specs.List.{list_all};
ghost use Rattle.tx_code.specs.Images.{image_func_view};
ghost use Rattle.tx_code.specs.Sound.{table_of, has_edge};
ghost use Rattle.tx_code.specs.Views.{image_view};
ghost use Rattle.tx_code.specs.Signatures.{takes_of, gives_of};
ghost use Rattle.code_walk.specs.Slots.{slot_of, slot_fits, table_in, signature_in, view_in};
ghost use Rattle.code_verify.specs.Faults as spec;

use crate::clauses::frame_right;
use crate::edges::covered_by_edges;
use crate::rules::{index_rule, row_rule};
use code_walk::nests::Nests;
use code_walk::walk::{Judged, Slot, walk};
use code_walk::words::{gives_of, takes_of};
use std::alloc::{AllocError, Global};
use tx_code::{Image, ImageFunc, Row};

/// A broken clause, with the index at which it is broken.
#[derive(Clone, Copy)]
pub struct Fault {
    pub index: usize,
    pub rule: u32,
}

/// A broken clause of a function.
#[derive(Clone, Copy)]
pub struct Broken {
    pub func: u32,
    pub index: usize,
    pub rule: u32,
}

fn is_before(f: Fault, g: Fault) -> bool
    ensures { result ≡ spec.is_before f g }
{
    f.index < g.index || f.index == g.index && f.rule < g.rule
}

// The one of the lower index, or at one index of the lower clause.
fn earlier(f: Option<Fault>, g: Option<Fault>) -> Option<Fault>
    ensures { result ≡ spec.earlier f g }
{
    match (f, g) {
        (None, None) => None,
        (None, Some(g)) => Some(g),
        (Some(f), None) => Some(f),
        (Some(f), Some(g)) => { if is_before(g, f) { Some(g) } else { Some(f) } }
    }
}

// A row's fault stands at its `from`, or at the body's last index.
fn row_fault(judged: Judged, nests: &Nests, slots: &[Slot], row: Row) -> Option<Fault>
    requires fit { list_all (slot_fits nests.now) slots.now ≡ true }
    requires count { length slots.now ≡ length judged.body.now.code.items }
    ensures { result ≡ spec.row_fault (table_in judged.entry) (view_in judged.entry) (map (slot_of nests.now) slots.now) row }
{
    let last = judged.body.code.len().saturating_sub(1);
    match row_rule(judged, nests, slots, row) {
        None => None,
        Some(rule) => Some(Fault {
            index: (row.from as usize).min(last),
            rule,
        }),
    }
}

// The first fault of the rows.
fn first_of_rows(judged: Judged, nests: &Nests, slots: &[Slot]) -> Option<Fault>
    requires fit { list_all (slot_fits nests.now) slots.now ≡ true }
    requires count { length slots.now ≡ length judged.body.now.code.items }
    ensures { result ≡ spec.first_of_rows (table_in judged.entry) (view_in judged.entry) (map (slot_of nests.now) slots.now) None judged.entry.body.now.rows.items }
{
    let mut first = None;
    for row in &judged.body.rows {
        first = earlier(first, row_fault(judged, nests, slots, *row));
    }
    first
}

// The first fault of the indexes, by which of them edge rows cover.
fn first_of_indexes(
    judged: Judged,
    nests: &Nests,
    slots: &[Slot],
    covered: &[bool],
) -> Option<Fault>
    requires fit { list_all (slot_fits nests.now) slots.now ≡ true }
    requires count { length slots.now ≡ length judged.body.now.code.items }
    requires all { length covered.now ≡ length judged.body.now.code.items }
    requires covered { (i : ℕ) → i < length judged.body.now.code.items → slice_index_or covered.now i false ≡ has_edge judged.body.now.rows.items i }
    ensures { result ≡ spec.first_of_indexes (table_in judged.entry) judged.entry.gives judged.entry.safe (view_in judged.entry) (map (slot_of nests.now) slots.now) 0 judged.entry.body.now.code.items }
{
    for (index, instr) in judged.body.code.iter().enumerate() {
        match index_rule(judged, nests, covered[index], index, *instr, slots[index]) {
            None => {}
            Some(rule) => return Some(Fault { index, rule }),
        }
    }
    None
}

// The fault of a body.
fn body_fault(alloc: Global, judged: Judged) -> Result<Option<Fault>, AllocError>
    ensures { IfOk result (λ o. o ≡ spec.body_fault (table_in judged.entry) (signature_in judged.entry) judged.entry.safe (view_in judged.entry)) }
{
    if judged.body.code.is_empty() {
        return Ok(Some(Fault { index: 0, rule: 1 }));
    }
    let walked = walk(alloc, judged)?;
    let covered = covered_by_edges(alloc, &judged.body.rows, judged.body.code.len())?;
    let by_index = first_of_indexes(judged, &walked.nests, &walked.slots, &covered);
    let by_row = first_of_rows(judged, &walked.nests, &walked.slots);
    Ok(earlier(by_index, by_row))
}

fn frame_fault(frame: u32) -> Option<Fault>
    ensures { result ≡ spec.frame_fault frame }
{
    if frame_right(frame) {
        None
    } else {
        Some(Fault { index: 0, rule: 11 })
    }
}

// A fault behind so many instructions; want of memory also stands for more than a machine of 64 bits has.
fn behind(instrs: usize, fault: Option<Fault>) -> Result<Option<Fault>, AllocError>
    ensures { IfOk result (λ o. o ≡ spec.behind instrs fault) }
{
    match fault {
        None => Ok(None),
        Some(fault) => match instrs.checked_add(fault.index) {
            None => Err(AllocError),
            Some(index) => Ok(Some(Fault {
                index,
                rule: fault.rule,
            })),
        },
    }
}

// The fault of the safe body.
fn safe_fault(
    alloc: Global,
    image: &Image,
    func: &ImageFunc,
    takes: usize,
    gives: usize,
) -> Result<Option<Fault>, AllocError>
    requires takes { takes ≡ takes_of func.now.ty.items }
    requires gives { gives ≡ gives_of func.now.ty.items }
    ensures { IfOk result (λ o. o ≡ spec.safe_fault (table_of (image_view image.now)) (image_func_view func.now) (image_func_view func.now).safe) }
{
    match func.safe.as_ref() {
        None => Ok(None),
        Some(body) => {
            let fault = body_fault(
                alloc,
                Judged {
                    image,
                    body,
                    takes,
                    gives,
                    safe: true,
                },
            )?;
            behind(func.plain.code.len(), fault)
        }
    }
}

// The fault of a function; the instructions of its safe body are counted behind those of the plain one.
fn func_fault(alloc: Global, image: &Image, func: &ImageFunc) -> Result<Option<Fault>, AllocError>
    ensures { IfOk result (λ o. o ≡ spec.func_fault (table_of (image_view image.now)) (image_func_view func.now)) }
{
    let takes = takes_of(&func.ty);
    let gives = gives_of(&func.ty);
    let plain = body_fault(
        alloc,
        Judged {
            image,
            body: &func.plain,
            takes,
            gives,
            safe: false,
        },
    )?;
    match earlier(frame_fault(func.frame), plain) {
        Some(fault) => Ok(Some(fault)),
        None => safe_fault(alloc, image, func, takes, gives),
    }
}

/// The fault of an image: the first one of the lowest function that has one.
pub fn image_fault(alloc: Global, image: &Image) -> Result<Option<Broken>, AllocError>
    ensures { IfOk result (λ o. o ≡ spec.image_fault (image_view image.now)) }
{
    for (number, func) in image.funcs.iter().enumerate() {
        match func_fault(alloc, image, func)? {
            None => {}
            Some(fault) => {
                return Ok(Some(Broken {
                    func: number as u32,
                    index: fault.index,
                    rule: fault.rule,
                }));
            }
        }
    }
    Ok(None)
}
