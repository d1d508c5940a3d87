//! What handlers catch.

ghost use Rattle.std.specs.Prelude.{◌≡◌, length, Some, None, MatchOption, IfOk};
ghost use Rattle.cpp_tree.specs.cpp_types.Typ.{typ_of};
ghost use Rattle.cpp_tree.specs.cpp_types.Class.{class_of, classes_of};
ghost use Rattle.cpp_tree.specs.cpp_types.Conversion.{referred as referred_typ};
ghost use Rattle.low_code.specs.Caught.{class_at, has_name, is_among as is_one_among, is_caught as is_caught_class, caught_names, names_of};

use cpp_tree::below::{ClassRec, Shape, Ty, is_name, record_at};
use std::alloc::{AllocError, Global};

/// What a reference refers to, and any other type itself.
pub fn referred(ty: &Ty) -> &Ty
    ensures { typ_of result.now ≡ referred_typ (typ_of ty.now) }
{
    match &ty.shape {
        Shape::Ref(target) => target,
        _ => ty,
    }
}

// The base of a class.
fn base_of<'a>(classes: &'a [ClassRec], class: &ClassRec) -> Option<&'a ClassRec>
    ensures { MatchOption result (class_at (classes_of classes.now) class.now.base ≡ None) (λ found. class_at (classes_of classes.now) class.now.base ≡ Some (class_of found.now)) }
{
    match class.base {
        Some(base) => record_at(classes, base),
        None => None,
    }
}

// Whether the class or one of its bases has this name.
fn is_or_has_base(classes: &[ClassRec], class: &ClassRec, name: &[u8]) -> bool
    ensures { result ≡ has_name (length classes.now) (classes_of classes.now) name.now (Some (class_of class.now)) }
{
    let most = classes.len();
    let mut below = class;
    for _ in 0..most {
        if is_name(&below.name, name) {
            return true;
        }
        match base_of(classes, below) {
            Some(found) => below = found,
            None => return false,
        }
    }
    is_name(&below.name, name)
}

// Whether one of these classes has this name.
fn is_among(classes: &[&ClassRec], name: &[u8]) -> bool
    ensures { result ≡ is_one_among (names_of classes.now) name.now }
{
    for class in classes {
        if is_name(&class.name, name) {
            return true;
        }
    }
    false
}

// Whether a handler of the class with this name catches exceptions of this class.
fn is_caught(classes: &[ClassRec], name: &[u8], class: &ClassRec) -> bool
    ensures { result ≡ is_caught_class (classes_of classes.now) name.now (class_of class.now) }
{
    class.name.len() > 0 && class.complete.is_some() && is_or_has_base(classes, class, name)
}

/// The classes of which a handler of this class catches exceptions, one of each name.
pub fn caught_classes<'a>(
    alloc: Global,
    classes: &'a [ClassRec],
    name: &[u8],
) -> Result<Vec<&'a ClassRec>, AllocError>
    ensures { IfOk result (λ caught. names_of caught.items ≡ caught_names (classes_of classes.now) name.now) }
{
    let mut caught = Vec::new(alloc);
    for class in classes {
        if is_caught(classes, name, class) && !is_among(&caught, &class.name) {
            caught.push(class)?;
        }
    }
    Ok(caught)
}
