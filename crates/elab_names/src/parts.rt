// Parts of objects as typed nodes.

ghost use Rattle.std.specs.Prelude.{◌≡◌, ◌<◌, ◌||◌, length, IfOk};
ghost use Rattle.elab_conv.specs.cpp_types.Typ.{typ, typ_of, shape_form};
ghost use Rattle.elab_conv.specs.cpp_tree.Arena.{trees_of, tree_at, Adds};
ghost use Rattle.elab_conv.specs.cpp_tree.Trees.{none, one};
ghost use Rattle.elab_conv.specs.cpp_tree.Notation.{plain};
ghost use Rattle.elab_conv.specs.elab_rules.Values.{part_at as part_of, retyped as retyped_of};
ghost use Rattle.elab_conv.specs.elab_rules.Names.{functions};
ghost use Rattle.elab_conv.specs.cpp_tree.Typing.{qualified, is_class_typ};
ghost use Rattle.elab_conv.specs.cpp_tree.declared.faults.ElabFault.TheVariants.{Ill};

use elab_conv::below::{
    At, BinOp, Cat, ElabFault, IllRule, IntKind, Shape, TKind, TNode, TNodeId, Ty, add_binary,
    add_leaf, add_unary, copy,
};
use std::alloc::{AllocError, Global};

/// A type without qualifiers.
pub fn plain_type(shape: Shape) -> Ty
    ensures { typ_of result ≡ plain (shape_form shape) }
{
    Ty {
        shape,
        is_const: false,
        is_volatile: false,
    }
}

/// A rule that a place breaks.
pub fn ill(at: At, rule: IllRule) -> ElabFault
    ensures { result ≡ Ill at rule }
{
    ElabFault::Ill { at, rule }
}

/// Whether a type is one of class objects.
pub fn is_class_type(ty: &Ty) -> bool
    ensures { result ≡ is_class_typ (typ_of ty.now) }
{
    match &ty.shape {
        Shape::Class(_) | Shape::Closure(_) | Shape::TxEx(_) => true,
        _ => false,
    }
}

/// A part's type in an object with these qualifiers: an array is qualified where its elements are, and what a
/// reference refers to keeps its own (C++14 3.9.3, 5.2.5).
pub fn qualified_type(
    alloc: Global,
    is_const: bool,
    is_volatile: bool,
    ty: &Ty,
) -> Result<Ty, AllocError>
    ensures { IfOk result (λ t. typ_of t ≡ qualified is_const is_volatile (typ_of ty.now)) }
{
    match &ty.shape {
        Shape::Array(element, count) => {
            let element = qualified_type(alloc, is_const, is_volatile, element)?;
            Ok(Ty {
                shape: Shape::Array(Box::new(alloc, element)?, *count),
                is_const: ty.is_const,
                is_volatile: ty.is_volatile,
            })
        }
        Shape::Ref(_) => copy(alloc, ty),
        Shape::Void
        | Shape::Int(_)
        | Shape::Enum { .. }
        | Shape::Null
        | Shape::Ptr(_)
        | Shape::Func(_)
        | Shape::Class(_)
        | Shape::Closure(_)
        | Shape::TxEx(_) => with_qualifiers(alloc, is_const, is_volatile, ty),
    }
}

// A type with qualifiers of its own added.
fn with_qualifiers(
    alloc: Global,
    is_const: bool,
    is_volatile: bool,
    ty: &Ty,
) -> Result<Ty, AllocError>
    ensures { IfOk result (λ t. typ_of t ≡ typ (shape_form ty.now.shape) (is_const || ty.now.is_const) (is_volatile || ty.now.is_volatile)) }
{
    let found = copy(alloc, ty)?;
    Ok(Ty {
        shape: found.shape,
        is_const: is_const || ty.is_const,
        is_volatile: is_volatile || ty.is_volatile,
    })
}

/// What lies at an offset from the address that an expression gives.
pub fn part_at(
    alloc: Global,
    nodes: &mut Vec<TNode>,
    offset: u32,
    ty: Ty,
    at: At,
    object: TNodeId,
) -> Result<TNodeId, AllocError>
    requires { object.0 < length (trees_of nodes.old.items) }
    ensures { IfOk result (λ r. Adds (trees_of nodes.old.items) (trees_of nodes.new.items) r (part_of offset (typ_of ty) at (tree_at (trees_of nodes.old.items) object))) }
{
    let number = TKind::Literal {
        word: u64::from(offset),
    };
    let size = plain_type(Shape::Int(IntKind::ULong));
    let number = add_leaf(alloc, nodes, number, size, Cat::Prvalue, at)?;
    let sum = TKind::Binary {
        op: BinOp::Add,
        kind: IntKind::ULong,
    };
    add_binary(alloc, nodes, sum, ty, Cat::Lvalue, at, object, number)
}

/// The same word with another type or category.
pub fn retyped(
    alloc: Global,
    nodes: &mut Vec<TNode>,
    at: At,
    ty: Ty,
    cat: Cat,
    id: TNodeId,
) -> Result<TNodeId, AllocError>
    requires { id.0 < length (trees_of nodes.old.items) }
    ensures { IfOk result (λ r. Adds (trees_of nodes.old.items) (trees_of nodes.new.items) r (retyped_of at (typ_of ty) cat (tree_at (trees_of nodes.old.items) id))) }
{
    add_unary(alloc, nodes, TKind::Retype, ty, cat, at, id)
}

/// The functions of a name, of which one is given.
pub fn free_functions(
    alloc: Global,
    nodes: &mut Vec<TNode>,
    at: At,
    func: u32,
) -> Result<TNodeId, AllocError>
    ensures { IfOk result (λ r. Adds (trees_of nodes.old.items) (trees_of nodes.new.items) r (functions func at none)) }
{
    let void = plain_type(Shape::Void);
    add_leaf(
        alloc,
        nodes,
        TKind::Function { func },
        void,
        Cat::Lvalue,
        at,
    )
}

/// The member functions of a name, of which one is given, with their object.
pub fn member_functions(
    alloc: Global,
    nodes: &mut Vec<TNode>,
    at: At,
    func: u32,
    object: TNodeId,
) -> Result<TNodeId, AllocError>
    requires { object.0 < length (trees_of nodes.old.items) }
    ensures { IfOk result (λ r. Adds (trees_of nodes.old.items) (trees_of nodes.new.items) r (functions func at (one (tree_at (trees_of nodes.old.items) object)))) }
{
    let void = plain_type(Shape::Void);
    let kind = TKind::Function { func };
    add_unary(alloc, nodes, kind, void, Cat::Lvalue, at, object)
}
