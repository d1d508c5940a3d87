// The first items of a frame: the words of a call (C++14 5.2.2, 9.3.2).

ghost use Rattle.std.specs.Prelude.{◌≡◌, ◌++◌, length, map, IfOk, OnOk, option_map};
ghost use Rattle.cpp_types.specs.Typ.{typ_of};
ghost use Rattle.elab_stmt.specs.elab_rules.Functions.{word_item as word_item_of, result_items, this_items};

use cpp_types::{Ty, copy};
use elab_stmt::below::{is_class_type, pointer_to};
use std::alloc::{AllocError, Global};

/// The item of a parameter: a pointer to an object of class type.
pub fn word_item(alloc: Global, ty: &Ty) -> Result<Ty, AllocError>
    ensures { IfOk result (λ t. typ_of t ≡ word_item_of (typ_of ty.now)) }
{
    let item = copy(alloc, ty)?;
    if is_class_type(ty) {
        return pointer_to(alloc, item);
    }
    Ok(item)
}

// The item of a result of class type: a pointer to the object.
fn keep_result(alloc: Global, items: &mut Vec<Ty>, ty: &Ty) -> Result<(), AllocError>
    ensures { OnOk result (map typ_of items.new.items ≡ map typ_of items.old.items ++ result_items (typ_of ty.now)) }
{
    if !is_class_type(ty) {
        return Ok(());
    }
    let item = pointer_to(alloc, copy(alloc, ty)?)?;
    items.push(item)?;
    Ok(())
}

// The item of `this`.
fn keep_this(alloc: Global, items: &mut Vec<Ty>, this: &Option<Ty>) -> Result<(), AllocError>
    ensures { OnOk result (map typ_of items.new.items ≡ map typ_of items.old.items ++ this_items (option_map typ_of this.now)) }
{
    let Some(ty) = this else {
        return Ok(());
    };
    let item = pointer_to(alloc, copy(alloc, ty)?)?;
    items.push(item)?;
    Ok(())
}

/// The items before those of parameters: the address of a result of class type, and the object.
pub fn first_items(alloc: Global, ret: &Ty, this: &Option<Ty>) -> Result<Vec<Ty>, AllocError>
    ensures { IfOk result (λ items. map typ_of items.items ≡ result_items (typ_of ret.now) ++ this_items (option_map typ_of this.now)) }
{
    let mut items = Vec::new(alloc);
    keep_result(alloc, &mut items, ret)?;
    keep_this(alloc, &mut items, this)?;
    Ok(items)
}

/// The place of `this`, behind the address of a result of class type.
pub fn this_place(ret: &Ty) -> u32
    ensures { result ≡ length (result_items (typ_of ret.now)) }
{
    if is_class_type(ret) { 1 } else { 0 }
}
