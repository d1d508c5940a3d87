//! What the objects say of classes.
ghost use Rattle.std.specs.Prelude.{ℕ, Bool, Some, slice_get, IfSome, nat_eq, ◌&&◌, ◌||◌, ◌+◌, List, ◌≡◌, ◌<◌, ◌≤◌, ◌++◌, true, map, length, IfOk, OnOk};
ghost use Rattle.std.specs.List.{All, list_all};
ghost use Rattle.std.specs.Option.{option_map};
ghost use Rattle.tx_code.specs.Objects.{bytes_of, object_view, class_view};
ghost use Rattle.tx_code.specs.WellFormed.{class_fits, member_fits, is_name_or_none};
ghost use Rattle.link_faults.specs.Faults.{class_record, member_record, classes_of, class_records, text_in};
ghost use Rattle.link_faults.specs.Ranks.{rank_of, Known};
ghost use Rattle.link_faults.specs.RankedClasses.{ranked_member, ranked_class, view_of, IsRankedClass, is_same_class, RankedView, view_at, differs, AreFirstClasses, is_disputed_class};
ghost use Rattle.link_faults.specs.Disputes.{IsLeast};

use crate::disputes::with_name;
use crate::entries::{name_rank, optional_rank};
use std::alloc::{AllocError, Global};
use tx_code::{ObjClass, ObjMember, Object};

/// A member of a class. Names are their ranks.
#[derive(Clone, Copy, PartialEq, Eq)]
pub(crate) struct RankedMember {
    pub name: u32,
    pub offset: u32,
    pub ty: u32,
}

/// What an object says of a class. Names are their ranks.
#[derive(Drop)]
pub(crate) struct RankedClass {
    pub name: u32,
    pub size: u32,
    pub align: u32,
    pub base: Option<u32>,
    pub pointer: u32,
    pub text: u32,
    pub members: Vec<RankedMember>,
    pub slots: Vec<Option<u32>>,
}

fn member_of(all: &[Vec<u8>], object: &Object, member: &ObjMember) -> RankedMember
    requires known { Known (map bytes_of all.now) (object_view object.now) }
    requires fits { member_fits (length object.now.names.items) member.now ≡ true }
    ensures { result ≡ ranked_member (map bytes_of all.now) (member_record (object_view object.now) member.now) }
{
    RankedMember {
        name: name_rank(all, object, member.name),
        offset: member.offset,
        ty: name_rank(all, object, member.ty),
    }
}

fn members_of(
    alloc: Global,
    all: &[Vec<u8>],
    object: &Object,
    members: &[ObjMember],
) -> Result<Vec<RankedMember>, AllocError>
    requires known { Known (map bytes_of all.now) (object_view object.now) }
    requires fit { list_all (member_fits (length object.now.names.items)) members.now ≡ true }
    ensures { IfOk result (λ v. v.items ≡ map (ranked_member (map bytes_of all.now)) (map (member_record (object_view object.now)) members.now)) }
{
    let mut ranked = Vec::new(alloc);
    for member in members {
        ranked.push(member_of(all, object, member))?;
    }
    Ok(ranked)
}

fn slots_of(
    alloc: Global,
    all: &[Vec<u8>],
    object: &Object,
    slots: &[u32],
) -> Result<Vec<Option<u32>>, AllocError>
    requires known { Known (map bytes_of all.now) (object_view object.now) }
    requires fit { list_all (is_name_or_none (length object.now.names.items)) slots.now ≡ true }
    ensures { IfOk result (λ v. v.items ≡ map (option_map (rank_of (map bytes_of all.now))) (map (text_in (object_view object.now)) slots.now)) }
{
    let mut ranked = Vec::new(alloc);
    for slot in slots {
        ranked.push(optional_rank(all, object, *slot))?;
    }
    Ok(ranked)
}

fn class_of(
    alloc: Global,
    all: &[Vec<u8>],
    object: &Object,
    class: &ObjClass,
) -> Result<RankedClass, AllocError>
    requires known { Known (map bytes_of all.now) (object_view object.now) }
    requires fits { class_fits (length object.now.names.items) (class_view class.now) ≡ true }
    ensures { IfOk result (IsRankedClass (map bytes_of all.now) (class_record (object_view object.now) (class_view class.now))) }
{
    let members = members_of(alloc, all, object, &class.members)?;
    let slots = slots_of(alloc, all, object, &class.slots)?;
    Ok(RankedClass {
        name: name_rank(all, object, class.name),
        size: class.size,
        align: class.align,
        base: optional_rank(all, object, class.base),
        pointer: class.pointer,
        text: name_rank(all, object, class.text),
        members,
        slots,
    })
}

fn is_same(a: &RankedClass, b: &RankedClass) -> bool
    ensures { result ≡ is_same_class (view_of a.now) (view_of b.now) }
{
    a.size == b.size
        && a.align == b.align
        && a.base == b.base
        && a.pointer == b.pointer
        && a.text == b.text
        && a.members == b.members
        && a.slots == b.slots
}

fn add_classes(
    alloc: Global,
    all: &[Vec<u8>],
    object: &Object,
    classes: &mut Vec<RankedClass>,
) -> Result<(), AllocError>
    requires known { Known (map bytes_of all.now) (object_view object.now) }
    ensures { OnOk result (map view_of classes.new.items ≡ map view_of classes.old.items ++ map (ranked_class (map bytes_of all.now)) (classes_of (object_view object.now))) }
{
    for class in &object.classes {
        let ranked = class_of(alloc, all, object, class)?;
        classes.push(ranked)?;
    }
    Ok(())
}

/// The classes of all objects.
pub(crate) fn ranked_classes(
    alloc: Global,
    all: &[Vec<u8>],
    objects: &[Object],
) -> Result<Vec<RankedClass>, AllocError>
    requires known { All (λ o. Known (map bytes_of all.now) (object_view o)) objects.now }
    ensures { IfOk result (λ v. map view_of v.items ≡ map (ranked_class (map bytes_of all.now)) (class_records (map object_view objects.now))) }
{
    let mut classes = Vec::new(alloc);
    for object in objects {
        add_classes(alloc, all, object, &mut classes)?;
    }
    Ok(classes)
}

/// Whether the class at an index differs from the first one of its name.
fn differs_from_first(classes: &[RankedClass], first: Option<usize>, i: usize) -> bool
    requires first { IfSome first (λ j. j < length classes.now) }
    requires within { i < length classes.now }
    ensures { result ≡ differs (option_map (view_at (map view_of classes.now)) first) (view_at (map view_of classes.now) i) }
{
    match first {
        None => false,
        Some(first) => !is_same(&classes[first], &classes[i]),
    }
}

fn class_name(classes: &[RankedClass], i: usize) -> u32
    requires { i < length classes.now }
    ensures { result ≡ (view_at (map view_of classes.now) i).name }
{
    classes[i].name
}

fn first_at(first: &[Option<usize>], name: u32) -> Option<usize>
    requires { name < length first.now }
    ensures { slice_get first.now name ≡ Some result }
{
    first[name as usize]
}

fn note_class(first: &mut Vec<Option<usize>>, name: u32, i: usize)
    requires { name < length first.old.items }
    ensures first { (views : List RankedView) → (view_at views i).name ≡ name → i < length views → AreFirstClasses views i first.old.items → AreFirstClasses views (i + 1) first.new.items }
    ensures within { (n : ℕ) → i < n → All (λ o. IfSome o (λ j. j < n)) first.old.items → All (λ o. IfSome o (λ j. j < n)) first.new.items }
    ensures length { length first.new.items ≡ length first.old.items }
{
    match first_at(first, name) {
        Some(_) => {}
        None => first[name as usize] = Some(i),
    }
}

fn no_class(alloc: Global, names: usize) -> Result<Vec<Option<usize>>, AllocError>
    ensures first { IfOk result (λ v. (views : List RankedView) → AreFirstClasses views 0 v.items) }
    ensures within { IfOk result (λ v. (n : ℕ) → All (λ o. IfSome o (λ j. j < n)) v.items) }
    ensures length { IfOk result (λ v. length v.items ≡ names) }
{
    vec![in alloc; None; names]
}

/// The least name of which two classes differ, where there are so many names.
pub(crate) fn least_difference(
    alloc: Global,
    classes: &[RankedClass],
    names: usize,
) -> Result<Option<u32>, AllocError>
    requires { All (λ c. c.name < names) classes.now }
    ensures least { IfOk result (IsLeast (is_disputed_class (map view_of classes.now))) }
    ensures within { IfOk result (λ o. IfSome o (λ k. k < names)) }
{
    let mut first = no_class(alloc, names)?;
    let mut least = None;
    for i in 0..classes.len() {
        let name = class_name(classes, i);
        let disputed = differs_from_first(classes, first_at(&first, name), i);
        least = with_name(least, name, disputed);
        note_class(&mut first, name, i);
    }
    Ok(least)
}
