// Equality of types.

ghost use Rattle.std.specs.Prelude.{◌≡◌, IsTrue, ◌↔◌};
ghost use Rattle.cpp_types.specs.Typ.{typ_of, signature_of, typs_of, shape_form};
ghost use Rattle.cpp_types.specs.Equal.{kind_eq, typ_eq, typs_eq, form_eq};

use crate::types::{FnTy, Shape, Ty};
use tx_ints::IntKind;

/// Whether two types are one (C++14 3.9, 3.9.3).
#[cycle(equal)]
#[tactic(auto, using(crate::proofs::Views::signature_view))]
pub fn same(a: &Ty, b: &Ty) -> bool
    ensures { IsTrue result ↔ (typ_of a.now ≡ typ_of b.now) }
{
    a.is_const == b.is_const && a.is_volatile == b.is_volatile && same_shape(&a.shape, &b.shape)
}

// Whether two types are one, their own `const` and `volatile` apart.
#[cycle(equal)]
#[tactic(auto, using(crate::proofs::Views::signature_view))]
fn same_shape(a: &Shape, b: &Shape) -> bool
    ensures { IsTrue result ↔ (shape_form a.now ≡ shape_form b.now) }
{
    match (a, b) {
        (Shape::Void, Shape::Void) | (Shape::Null, Shape::Null) => true,
        (Shape::Int(j), Shape::Int(k)) => *j == *k,
        (
            Shape::Enum { name, scoped },
            Shape::Enum {
                name: other_name,
                scoped: other_scoped,
            },
        ) => *scoped == *other_scoped && name.as_slice() == other_name.as_slice(),
        (Shape::Ptr(s), Shape::Ptr(t))
        | (Shape::Ref(s), Shape::Ref(t))
        | (Shape::TxEx(s), Shape::TxEx(t)) => same(s, t),
        (Shape::Array(s, m), Shape::Array(t, n)) => *m == *n && same(s, t),
        (Shape::Func(f), Shape::Func(g)) => same_function(f, g),
        (Shape::Class(m), Shape::Class(n)) | (Shape::Closure(m), Shape::Closure(n)) => *m == *n,
        _ => false,
    }
}

/// Whether two types of functions are one.
#[cycle(equal)]
#[tactic(auto, using(crate::proofs::Views::signature_view))]
pub fn same_function(a: &FnTy, b: &FnTy) -> bool
    ensures { IsTrue result ↔ (signature_of a.now ≡ signature_of b.now) }
{
    a.safe == b.safe && same(&a.ret, &b.ret) && same_all(&a.params, &b.params)
}

// Whether two lists of types are one.
#[cycle(equal)]
#[tactic(auto, using(crate::proofs::Views::signature_view))]
fn same_all(a: &[Ty], b: &[Ty]) -> bool
    ensures { IsTrue result ↔ (typs_of a.now ≡ typs_of b.now) }
{
    if a.len() != b.len() {
        return false;
    }
    for (i, ty) in a.iter().enumerate() {
        if !same(ty, &b[i]) {
            return false;
        }
    }
    true
}

/// Whether two types are one, as a test that definitions cite.
pub fn equal_types(a: &Ty, b: &Ty) -> bool
    ensures { result ≡ typ_eq (typ_of a.now) (typ_of b.now) }
{
    same(a, b)
}

/// Whether two lists of types are one, as a test.
pub fn equal_lists(a: &[Ty], b: &[Ty]) -> bool
    ensures { result ≡ typs_eq (typs_of a.now) (typs_of b.now) }
{
    same_all(a, b)
}

/// Whether two types are one, their own `const` and `volatile` apart, as a test.
pub fn equal_shapes(a: &Shape, b: &Shape) -> bool
    ensures { result ≡ form_eq (shape_form a.now) (shape_form b.now) }
{
    same_shape(a, b)
}

/// Whether two kinds of integers are one, as a test.
pub fn equal_kinds(a: IntKind, b: IntKind) -> bool
    ensures { result ≡ kind_eq a b }
{
    a == b
}
