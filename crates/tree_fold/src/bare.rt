// Nodes that may be dropped.

ghost use Rattle.std.specs.Prelude.{◌≡◌};
ghost use Rattle.cpp_tree.specs.cpp_types.Typ.{typ_of};
ghost use Rattle.cpp_tree.specs.Typing.{is_void};
ghost use Rattle.tx_unsafe.specs.Volatile.{marked};
ghost use Rattle.tree_fold.specs.Bare.{is_closure, is_bare_object, is_bare_node};

use crate::volatility::{has_volatile, is_volatile_class};
use cpp_tree::TKind;
use cpp_tree::below::{Shape, Ty};

fn is_closure(ty: &Ty) -> bool
    ensures { result ≡ is_closure (typ_of ty.now) }
{
    match &ty.shape {
        Shape::Closure(_) => true,
        _ => false,
    }
}

fn is_of_no_type(ty: &Ty) -> bool
    ensures { result ≡ is_void (typ_of ty.now) }
{
    match &ty.shape {
        Shape::Void => true,
        _ => false,
    }
}

// An object that may be left out.
fn is_bare_object(ty: &Ty, volatile: &[bool]) -> bool
    ensures { result ≡ is_bare_object (marked volatile.now) (typ_of ty.now) }
{
    !is_volatile_class(ty, volatile) && !is_closure(ty)
}

/// Whether a node, its kids apart, may be dropped.
pub(crate) fn is_bare_node(kind: TKind, ty: &Ty, volatile: &[bool]) -> bool
    ensures { result ≡ is_bare_node (marked volatile.now) kind (typ_of ty.now) }
{
    match kind {
        TKind::Literal { .. }
        | TKind::Local { .. }
        | TKind::ClassTable { .. }
        | TKind::Convert { .. }
        | TKind::Retype
        | TKind::Binary { .. }
        | TKind::Conditional
        | TKind::Comma
        | TKind::FullExpression
        | TKind::Throw
        | TKind::Rethrow
        | TKind::CopyScalar { .. }
        | TKind::Field { .. } => true,
        TKind::Load { volatile, .. }
        | TKind::Assign { volatile, .. }
        | TKind::Update { volatile, .. } => !volatile,
        TKind::Materialize { .. } => !has_volatile(ty, volatile),
        TKind::Store {
            volatile: marked,
            ..
        } => !(marked && is_of_no_type(ty)),
        TKind::CopyAssign
        | TKind::CopyFrom
        | TKind::Pieces
        | TKind::Piece { .. }
        | TKind::Elements { .. } => is_bare_object(ty, volatile),
        TKind::Global { .. }
        | TKind::Function { .. }
        | TKind::Call { .. }
        | TKind::VirtualCall { .. }
        | TKind::PointerCall
        | TKind::Builtin { .. }
        | TKind::Construct { .. }
        | TKind::CopyConstruct { .. }
        | TKind::Block { .. }
        | TKind::Init
        | TKind::Defer
        | TKind::Loop { .. }
        | TKind::Switch
        | TKind::Case { .. }
        | TKind::Default
        | TKind::Break
        | TKind::Continue
        | TKind::Return
        | TKind::Try
        | TKind::Handler { .. }
        | TKind::Atomic { .. }
        | TKind::Synchronized
        | TKind::Destroy { .. } => false,
    }
}
