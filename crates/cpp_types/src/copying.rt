// Copies of types.

ghost use Rattle.std.specs.Prelude.{◌≡◌, IfOk};
ghost use Rattle.cpp_types.specs.Typ.{typ_of, signature_of, typs_of};

use crate::types::{FnTy, Shape, Ty};
use std::alloc::{AllocError, Global};

/// A copy of a type.
#[cycle(copies)]
#[tactic(auto, using(crate::proofs::Views::signature_view))]
pub fn copy(alloc: Global, ty: &Ty) -> Result<Ty, AllocError>
    ensures { IfOk result (λ c. typ_of c ≡ typ_of ty.now) }
{
    let shape = match &ty.shape {
        Shape::Void => Shape::Void,
        Shape::Int(kind) => Shape::Int(*kind),
        Shape::Enum { name, scoped } => Shape::Enum {
            name: Vec::from_slice(alloc, name)?,
            scoped: *scoped,
        },
        Shape::Null => Shape::Null,
        Shape::Ptr(target) => Shape::Ptr(Box::new(alloc, copy(alloc, target)?)?),
        Shape::Ref(target) => Shape::Ref(Box::new(alloc, copy(alloc, target)?)?),
        Shape::Array(element, count) => {
            Shape::Array(Box::new(alloc, copy(alloc, element)?)?, *count)
        }
        Shape::Func(function) => { Shape::Func(Box::new(alloc, copy_function(alloc, function)?)?) }
        Shape::Class(class) => Shape::Class(*class),
        Shape::Closure(class) => Shape::Closure(*class),
        Shape::TxEx(value) => Shape::TxEx(Box::new(alloc, copy(alloc, value)?)?),
    };
    Ok(Ty {
        shape,
        is_const: ty.is_const,
        is_volatile: ty.is_volatile,
    })
}

/// A copy of a function's type.
#[cycle(copies)]
#[tactic(auto, using(crate::proofs::Views::signature_view))]
pub fn copy_function(alloc: Global, function: &FnTy) -> Result<FnTy, AllocError>
    ensures { IfOk result (λ c. signature_of c ≡ signature_of function.now) }
{
    Ok(FnTy {
        params: copy_all(alloc, &function.params)?,
        ret: copy(alloc, &function.ret)?,
        safe: function.safe,
    })
}

// A copy of a list of types.
#[cycle(copies)]
#[tactic(auto, using(crate::proofs::Views::signature_view))]
fn copy_all(alloc: Global, types: &[Ty]) -> Result<Vec<Ty>, AllocError>
    ensures { IfOk result (λ v. typs_of v.items ≡ typs_of types.now) }
{
    let mut copies = Vec::new(alloc);
    for ty in types {
        copies.push(copy(alloc, ty)?)?;
    }
    Ok(copies)
}
