//! Bases of classes.
ghost use Rattle.std.specs.Prelude.{◌≡◌, ◌<◌, ◌≤◌, ◌+◌, ◌^◌, ℕ, Bool, true, false, not, None, Some, map, length, slice_get, MatchOption, IfOk};
ghost use Rattle.std.specs.List.{flat_map, list_all};
ghost use Rattle.tx_code.specs.Objects.{ClassView, class_view};
ghost use Rattle.tx_code.specs.WellFormed.{ascends_by, class_named, bases_fit};
ghost use Rattle.object_bytes.specs.Spelling.{class_bytes};
ghost use Rattle.object_bytes.specs.Objects.{is_unknown, goes_on, base_is_wrong, wrong_base_from};
ghost use Rattle.object_bytes.specs.Chains.{HasName, HasBase, IsIndex, AreBounds, EndsIn, AreSteps};

use std::alloc::{AllocError, Global};
use tx_code::{ObjClass, ObjMember};

fn class_name(classes: &[ObjClass], i: usize) -> u32
    requires { i < length classes.now }
    ensures { HasName (map class_view classes.now) i result }
{
    classes[i].name
}

fn class_base(classes: &[ObjClass], i: usize) -> u32
    requires { i < length classes.now }
    ensures { HasBase (map class_view classes.now) i result }
{
    classes[i].base
}

/// The class of that name.
fn class_index(classes: &[ObjClass], name: u32) -> Option<usize>
    requires { ascends_by (λ (c : ClassView). c.name) (map class_view classes.now) ≡ true }
    ensures { MatchOption result (class_named (map class_view classes.now) name ≡ None) (λ i. IsIndex (map class_view classes.now) name i) }
{
    let mut low = 0;
    let mut high = classes.len();
    while low < high {
        let middle = low + (high - low) / 2;
        let found = class_name(classes, middle);
        if found == name {
            return Some(middle);
        }
        if found < name {
            low = middle + 1;
        } else {
            high = middle;
        }
    }
    None
}

/// After how many steps the chain of a class ends, if that is known.
fn known_at(known: &[Option<usize>], i: usize) -> Option<usize>
    requires { i < length known.now }
    ensures { slice_get known.now i ≡ Some result }
{
    known[i]
}

/// After how many steps the chain from this base ends, by what is known of the classes that it passes: none if it goes on
/// after as many steps as there are classes.
fn count_steps(classes: &[ObjClass], known: &[Option<usize>], base: u32) -> Option<usize>
    requires ascend { ascends_by (λ (c : ClassView). c.name) (map class_view classes.now) ≡ true }
    requires known { AreSteps (map class_view classes.now) known.now }
    ensures { MatchOption result (goes_on (map class_view classes.now) (length classes.now) base ≡ true) (λ k. EndsIn (map class_view classes.now) base k) }
{
    let mut at = base;
    for walked in 0..classes.len() {
        if at == 0 {
            return Some(walked);
        }
        let Some(i) = class_index(classes, at - 1) else {
            return Some(walked + 1);
        };
        if let Some(left) = known_at(known, i) {
            if left < classes.len() - walked {
                return Some(walked + 1 + left);
            }
            return None;
        }
        at = class_base(classes, i);
    }
    if at == 0 { Some(classes.len()) } else { None }
}

/// Keeps after how many steps the chain of each class ends that the chain from this base passes, up to one where it is known.
fn keep_steps(classes: &[ObjClass], known: &mut Vec<Option<usize>>, base: u32, steps: usize)
    requires ascend { ascends_by (λ (c : ClassView). c.name) (map class_view classes.now) ≡ true }
    requires known { AreSteps (map class_view classes.now) known.old.items }
    requires ends { EndsIn (map class_view classes.now) base steps }
    ensures { AreSteps (map class_view classes.now) known.new.items }
{
    let mut at = base;
    let mut left = steps;
    while left > 0 {
        let Some(i) = class_index(classes, at - 1) else {
            return;
        };
        if known_at(known, i).is_some() {
            return;
        }
        left -= 1;
        at = class_base(classes, i);
        known[i] = Some(left);
    }
}

fn is_class_or_none(classes: &[ObjClass], base: u32) -> bool
    requires { ascends_by (λ (c : ClassView). c.name) (map class_view classes.now) ≡ true }
    ensures { result ≡ not (is_unknown (map class_view classes.now) base) }
{
    if base == 0 {
        return true;
    }
    match class_index(classes, base - 1) {
        None => false,
        Some(_) => true,
    }
}

/// Whether the base is wrong. What its chain tells of the classes that it passes is kept, so that no class is passed twice.
fn is_wrong(classes: &[ObjClass], known: &mut Vec<Option<usize>>, base: u32) -> bool
    requires ascend { ascends_by (λ (c : ClassView). c.name) (map class_view classes.now) ≡ true }
    requires known { AreSteps (map class_view classes.now) known.old.items }
    ensures wrong { result ≡ base_is_wrong (map class_view classes.now) base }
    ensures known { AreSteps (map class_view classes.now) known.new.items }
{
    if !is_class_or_none(classes, base) {
        return true;
    }
    match count_steps(classes, known, base) {
        None => true,
        Some(steps) => {
            keep_steps(classes, known, base, steps);
            false
        }
    }
}

/// Nothing is known yet.
fn none_known(alloc: Global, classes: &[ObjClass]) -> Result<Vec<Option<usize>>, AllocError>
    ensures { IfOk result (λ v. AreSteps (map class_view classes.now) v.items) }
{
    vec![in alloc; None; classes.len()]
}

fn count_members(members: &[ObjMember]) -> u64
    ensures { result ≡ length members.now }
{
    members.len() as u64
}

fn count_slots(slots: &[u32]) -> u64
    ensures { result ≡ length slots.now }
{
    slots.len() as u64
}

/// How many bytes spell a class.
fn class_size(class: &ObjClass) -> u64
    requires { length (class_bytes (class_view class.now)) < 2 ^ 63 }
    ensures { result ≡ length (class_bytes (class_view class.now)) }
{
    32 + 12 * count_members(&class.members) + 4 * count_slots(&class.slots)
}

/// Where the first wrong base stands, if the first class stands at `start`.
pub fn first_wrong_base(
    alloc: Global,
    classes: &[ObjClass],
    start: u64,
) -> Result<Option<u64>, AllocError>
    requires ascend { ascends_by (λ (c : ClassView). c.name) (map class_view classes.now) ≡ true }
    requires few { start + length (flat_map class_bytes (map class_view classes.now)) < 2 ^ 63 }
    ensures { IfOk result (λ r. r ≡ wrong_base_from (map class_view classes.now) start (map class_view classes.now)) }
{
    let mut known = none_known(alloc, classes)?;
    let mut at = start;
    for class in classes {
        if is_wrong(classes, &mut known, class.base) {
            return Ok(Some(at + 12));
        }
        at += class_size(class);
    }
    Ok(None)
}

/// Whether the chain of bases of each class ends.
pub(crate) fn bases_fit(alloc: Global, classes: &[ObjClass]) -> Result<bool, AllocError>
    requires { ascends_by (λ (c : ClassView). c.name) (map class_view classes.now) ≡ true }
    ensures { IfOk result (λ r. r ≡ list_all (bases_fit (map class_view classes.now)) (map class_view classes.now)) }
{
    let mut known = none_known(alloc, classes)?;
    for class in classes {
        if is_wrong(classes, &mut known, class.base) {
            return Ok(false);
        }
    }
    Ok(true)
}
