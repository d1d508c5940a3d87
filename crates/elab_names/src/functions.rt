// The functions of a name, by their places in the list of functions.

ghost use Rattle.std.specs.Prelude.{◌≡◌, ◌++◌, ◌∷◌, [], map, option_map, slice_get, IfOk, OnOk, if◌then◌else◌};
ghost use Rattle.elab_conv.specs.elab_ctx.Ctx.{func_of};
ghost use Rattle.elab_conv.specs.elab_ctx.Places.{passes};
ghost use Rattle.elab_conv.specs.elab_rules.Initialising.{same_number, places_from};
ghost use Rattle.elab_conv.specs.elab_rules.Names.{is_plain_kind, is_method as is_method_of, is_free as is_free_of, first_place, methods};
ghost use Rattle.elab_conv.specs.elab_rules.Calls.{is_closure_call};

use elab_conv::below::{FuncDecl, FuncKind, Functions};
use std::alloc::{AllocError, Global};

/// Whether a class is the one with a number.
pub fn is_number(number: u32, class: Option<u32>) -> bool
    ensures { result ≡ same_number number class }
{
    match class {
        Some(found) => found == number,
        None => false,
    }
}

fn is_plain(kind: FuncKind) -> bool
    ensures { result ≡ is_plain_kind kind }
{
    match kind {
        FuncKind::Plain => true,
        FuncKind::Constructor | FuncKind::Destructor | FuncKind::ClosureCall => false,
    }
}

/// Whether a function is a member function of a class and has a name; a special member is none.
pub fn is_method(found: &FuncDecl, class: u32, name: &[u8]) -> bool
    ensures { result ≡ is_method_of class name.now (func_of found.now) }
{
    found.rec.name.as_slice() == name && is_number(class, found.class) && is_plain(found.kind)
}

/// Whether a function at file scope has a name.
pub fn is_free(found: &FuncDecl, name: &[u8]) -> bool
    ensures { result ≡ is_free_of name.now (func_of found.now) }
{
    found.rec.name.as_slice() == name && found.class.is_none()
}

// Adds a place where a test holds.
fn keep_if(places: &mut Vec<u32>, holds: bool, place: u32) -> Result<(), AllocError>
    ensures { OnOk result (places.new.items ≡ (if holds then places.old.items ++ place ∷ [] else places.old.items)) }
{
    if holds {
        places.push(place)?;
    }
    Ok(())
}

/// The functions at file scope that have a name.
pub fn free_places(alloc: Global, funcs: &Functions, name: &[u8]) -> Result<Vec<u32>, AllocError>
    ensures { IfOk result (λ v. v.items ≡ places_from (is_free_of name.now) 0 (map func_of funcs.now)) }
{
    Vec::from_slice(alloc, funcs.of_name(name))
}

// Whether the function at a place is a member function of a class and has a name.
fn is_method_at(funcs: &Functions, place: u32, class: u32, name: &[u8]) -> bool
    ensures { result ≡ passes (λ f. is_method_of class name.now (func_of f)) (slice_get funcs.now place) }
{
    match funcs.get(place as usize) {
        Some(found) => is_method(found, class, name),
        None => false,
    }
}

/// The member functions of a class that have a name.
pub fn method_places(
    alloc: Global,
    funcs: &Functions,
    class: u32,
    name: &[u8],
) -> Result<Vec<u32>, AllocError>
    ensures { IfOk result (λ v. v.items ≡ places_from (is_method_of class name.now) 0 (map func_of funcs.now)) }
{
    let members = funcs.of_class(class);
    let mut places = Vec::new(alloc);
    for place in members {
        let holds = is_method_at(funcs, *place, class, name);
        keep_if(&mut places, holds, *place)?;
    }
    Ok(places)
}

/// The functions of a lambda's class.
pub fn closure_places(alloc: Global, funcs: &Functions, class: u32) -> Result<Vec<u32>, AllocError>
    ensures { IfOk result (λ v. v.items ≡ places_from (is_closure_call class) 0 (map func_of funcs.now)) }
{
    Vec::from_slice(alloc, funcs.of_class(class))
}

/// The first of the member functions of a class that have a name.
pub fn first_method(funcs: &Functions, class: u32, name: &[u8]) -> Option<u32>
    ensures { option_map methods result ≡ first_place (places_from (is_method_of class name.now) 0 (map func_of funcs.now)) }
{
    let members = funcs.of_class(class);
    for place in members {
        if is_method_at(funcs, *place, class, name) {
            return Some(*place);
        }
    }
    None
}
