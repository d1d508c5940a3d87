// Types without their qualifiers, their kinds, and what they decay to.

ghost use Rattle.std.specs.Prelude.{◌≡◌, IfOk};
ghost use Rattle.elab_rules.specs.cpp_types.Typ.{typ_of, ptr};
ghost use Rattle.elab_rules.specs.cpp_types.Equal.{typ_eq};
ghost use Rattle.elab_rules.specs.cpp_types.Conversion.{decayed, referred};
ghost use Rattle.elab_rules.specs.cpp_tree.Notation.{plain};
ghost use Rattle.elab_rules.specs.cpp_tree.Typing.{form_in, kind_in, unqualified};

use elab_rules::below::{IntKind, Shape, Ty, copy};
use std::alloc::{AllocError, Global};

/// The kind by which a scalar of a type is loaded and stored; `None` where it is no scalar.
pub fn kind_of(ty: &Ty) -> Option<IntKind>
    ensures { result ≡ kind_in (form_in (typ_of ty.now)) }
{
    match &ty.shape {
        Shape::Int(kind) => Some(*kind),
        Shape::Enum { .. } => Some(IntKind::Int),
        Shape::Null | Shape::Ptr(_) | Shape::Ref(_) => Some(IntKind::ULong),
        Shape::Void
        | Shape::Array(_, _)
        | Shape::Func(_)
        | Shape::Class(_)
        | Shape::Closure(_)
        | Shape::TxEx(_) => None,
    }
}

/// The type without its own `const` and `volatile`.
pub fn unqualified_type(alloc: Global, ty: &Ty) -> Result<Ty, AllocError>
    ensures { IfOk result (λ t. typ_of t ≡ unqualified (typ_of ty.now)) }
{
    let found = copy(alloc, ty)?;
    Ok(Ty {
        shape: found.shape,
        is_const: false,
        is_volatile: false,
    })
}

/// A pointer to a type.
pub fn pointer_to(alloc: Global, target: Ty) -> Result<Ty, AllocError>
    ensures { IfOk result (λ t. typ_of t ≡ plain (ptr (typ_of target))) }
{
    let target = Box::new(alloc, target)?;
    Ok(Ty {
        shape: Shape::Ptr(target),
        is_const: false,
        is_volatile: false,
    })
}

/// A pointer to the first element of an array, or to a function; another type without qualifiers (C++14 4.2, 4.3).
pub fn decayed_type(alloc: Global, ty: &Ty) -> Result<Ty, AllocError>
    ensures { IfOk result (λ t. typ_of t ≡ plain (decayed (typ_of ty.now))) }
{
    match &ty.shape {
        Shape::Array(element, _) => {
            let mut target = copy(alloc, element)?;
            target.is_const = element.is_const || ty.is_const;
            target.is_volatile = element.is_volatile || ty.is_volatile;
            pointer_to(alloc, target)
        }
        Shape::Func(_) => {
            let target = unqualified_type(alloc, ty)?;
            pointer_to(alloc, target)
        }
        Shape::Void
        | Shape::Int(_)
        | Shape::Enum { .. }
        | Shape::Null
        | Shape::Ptr(_)
        | Shape::Ref(_)
        | Shape::Class(_)
        | Shape::Closure(_)
        | Shape::TxEx(_) => unqualified_type(alloc, ty),
    }
}
