// Casts and `sizeof` (C++14 5.2.3, 5.2.9, 5.3.3, 5.4).

ghost use Rattle.std.specs.Prelude.{◌≡◌, ◌<◌, ◌&&◌, length, true, IfOk};
ghost use Rattle.elab_forms.specs.tx_ints.declared.kinds.IntKind.TheVariants.{ULong};
ghost use Rattle.elab_forms.specs.cpp_types.Typ.{typ_of, void, ref};
ghost use Rattle.elab_forms.specs.cpp_types.declared.ranks.Cat.TheVariants.{Lvalue, Prvalue};
ghost use Rattle.elab_forms.specs.cpp_tree.declared.kinds.TKind.TheVariants.{Literal, Retype};
ghost use Rattle.elab_forms.specs.cpp_tree.Trees.{node, none, one, typ_in, cat_of, kids_of};
ghost use Rattle.elab_forms.specs.cpp_tree.Notation.{plain};
ghost use Rattle.elab_forms.specs.cpp_tree.Arena.{trees_of, tree_at, Adds};
ghost use Rattle.elab_forms.specs.cpp_tree.Typing.{form_in, unqualified};
ghost use Rattle.elab_forms.specs.elab_ctx.Ctx.{ctx_of, work_of};
ghost use Rattle.elab_forms.specs.elab_ctx.Operands.{operand_in, operands_in, are_in};
ghost use Rattle.elab_forms.specs.elab_ctx.Says.{Gives, Makes, Puts};
ghost use Rattle.elab_forms.specs.elab_rules.Values.{number, retyped};
ghost use Rattle.elab_forms.specs.elab_rules.Casts.{is_numeric, stored_at, as_expression, reference_cast, scalar_cast, cast_in, cast, functional, size_literal};
ghost use Rattle.elab_casts.specs.Rows.{value_cast, void_made, class_made, zero_made, many_made};

use elab_forms::below::{
    At, Cat, ElabFault, Env, IllRule, IntKind, Operand, Shape, TKind, TNode, TNodeId, Ty, Work,
    add_leaf, add_node, add_unary, converted, copy, elab_ops_ill as ill, from_values, initial,
    is_class_type, is_exception_type, is_function, kids_at, kind_of, measurable, node_at, number,
    referred_type, size_of, unqualified_type, value,
};
use elab_forms::conditionals::{is_void, void_type};
use elab_forms::dropped;
use elab_types::types::{is_bounded, is_reference};
use std::alloc::{AllocError, Global};

// Whether a type is one of integers or enums.
fn is_numeric(ty: &Ty) -> bool
    ensures { result ≡ is_numeric (form_in (typ_of ty.now)) }
{
    match &ty.shape {
        Shape::Int(_) | Shape::Enum { .. } => true,
        Shape::Void
        | Shape::Null
        | Shape::Ptr(_)
        | Shape::Ref(_)
        | Shape::Array(_, _)
        | Shape::Func(_)
        | Shape::Class(_)
        | Shape::Closure(_)
        | Shape::TxEx(_) => false,
    }
}

// Whether two types are both such.
fn are_numeric(from: &Ty, to: &Ty) -> bool
    ensures { result ≡ (is_numeric (form_in (typ_of from.now)) && is_numeric (form_in (typ_of to.now))) }
{
    is_numeric(from) && is_numeric(to)
}

// A node like another, of a kind, a type and a category, at a place.
fn with_kids_of(
    alloc: Global,
    nodes: &mut Vec<TNode>,
    kind: TKind,
    ty: &Ty,
    cat: Cat,
    at: At,
    id: TNodeId,
) -> Result<TNodeId, AllocError>
    requires { id.0 < length (trees_of nodes.old.items) }
    ensures { IfOk result (λ r. Adds (trees_of nodes.old.items) (trees_of nodes.new.items) r (node kind (typ_of ty.now) cat at (kids_of (tree_at (trees_of nodes.old.items) id)))) }
{
    let kids = Vec::from_slice(alloc, kids_at(nodes, id)?)?;
    let ty = copy(alloc, ty)?;
    add_node(
        nodes,
        TNode {
            kind,
            ty,
            cat,
            at,
            kids,
        },
    )
}

// A store at another place.
fn store_at(
    alloc: Global,
    nodes: &mut Vec<TNode>,
    kind: TKind,
    at: At,
    id: TNodeId,
) -> Result<TNodeId, AllocError>
    requires { id.0 < length (trees_of nodes.old.items) }
    ensures { IfOk result (λ r. Adds (trees_of nodes.old.items) (trees_of nodes.new.items) r (node kind (typ_in (tree_at (trees_of nodes.old.items) id)) (cat_of (tree_at (trees_of nodes.old.items) id)) at (kids_of (tree_at (trees_of nodes.old.items) id)))) }
{
    let cat = node_at(nodes, id).cat;
    let ty = copy(alloc, &node_at(nodes, id).ty)?;
    with_kids_of(alloc, nodes, kind, &ty, cat, at, id)
}

// An initialiser where an expression stands.
fn stored_at(
    alloc: Global,
    nodes: &mut Vec<TNode>,
    at: At,
    id: TNodeId,
) -> Result<TNodeId, AllocError>
    requires { id.0 < length (trees_of nodes.old.items) }
    ensures { IfOk result (λ r. Adds (trees_of nodes.old.items) (trees_of nodes.new.items) r (stored_at at (tree_at (trees_of nodes.old.items) id))) }
{
    let kind = node_at(nodes, id).kind;
    match kind {
        TKind::Store { .. } => store_at(alloc, nodes, kind, at, id),
        _ => Ok(id),
    }
}

// An initialiser as an expression of a type.
fn as_expression(
    alloc: Global,
    nodes: &mut Vec<TNode>,
    at: At,
    ty: &Ty,
    id: TNodeId,
) -> Result<TNodeId, AllocError>
    requires { id.0 < length (trees_of nodes.old.items) }
    ensures { IfOk result (λ r. Adds (trees_of nodes.old.items) (trees_of nodes.new.items) r (as_expression at (typ_of ty.now) (tree_at (trees_of nodes.old.items) id))) }
{
    if is_exception_type(ty) && !is_exception_type(&node_at(nodes, id).ty) {
        let init = stored_at(alloc, nodes, at, id)?;
        let ty = copy(alloc, ty)?;
        return add_unary(alloc, nodes, TKind::Retype, ty, Cat::Prvalue, at, init);
    }
    Ok(id)
}

// An expression as an lvalue of a type.
fn retyped_lvalue(
    alloc: Global,
    nodes: &mut Vec<TNode>,
    at: At,
    ty: &Ty,
    id: TNodeId,
) -> Result<TNodeId, AllocError>
    ensures { IfOk result (λ r. Adds (trees_of nodes.old.items) (trees_of nodes.new.items) r (retyped at (typ_of ty.now) Lvalue (tree_at (trees_of nodes.old.items) id))) }
{
    let ty = copy(alloc, ty)?;
    add_unary(alloc, nodes, TKind::Retype, ty, Cat::Lvalue, at, id)
}

// The object that a cast to a reference refers to.
fn reference_cast(
    alloc: Global,
    nodes: &mut Vec<TNode>,
    at: At,
    ty: &Ty,
    id: TNodeId,
) -> Result<TNodeId, AllocError>
    requires { id.0 < length (trees_of nodes.old.items) }
    ensures { IfOk result (λ r. Adds (trees_of nodes.old.items) (trees_of nodes.new.items) r (reference_cast at (typ_of ty.now) (tree_at (trees_of nodes.old.items) id))) }
{
    let kind = node_at(nodes, id).kind;
    match kind {
        TKind::Retype => match node_at(nodes, id).cat {
            Cat::Lvalue => with_kids_of(alloc, nodes, TKind::Retype, ty, Cat::Lvalue, at, id),
            Cat::Prvalue => retyped_lvalue(alloc, nodes, at, ty, id),
        },
        _ => retyped_lvalue(alloc, nodes, at, ty, id),
    }
}

// A value as one of a scalar type.
fn value_cast(
    alloc: Global,
    env: &Env,
    work: &mut Work,
    at: At,
    ty: &Ty,
    id: TNodeId,
    zero: bool,
) -> Result<TNodeId, ElabFault>
    requires { id.0 < length (trees_of work.old.nodes.items) }
    ensures { Makes (trees_of work.old.nodes.items) (trees_of work.new.nodes.items) (work_of work.new) result (value_cast (ctx_of env.now) (work_of work.old) at (typ_of ty.now) (tree_at (trees_of work.old.nodes.items) id) zero) }
{
    if are_numeric(&node_at(&work.nodes, id).ty, ty) {
        let made = converted(alloc, &mut work.nodes, at, ty, id)?;
        return Ok(made);
    }
    let bare = unqualified_type(alloc, ty)?;
    initial(alloc, env, work, &bare, Operand { id, at, zero })
}

// A cast to a scalar type.
fn scalar_cast(
    alloc: Global,
    env: &Env,
    work: &mut Work,
    at: At,
    ty: &Ty,
    o: Operand,
) -> Result<TNodeId, ElabFault>
    requires { o.id.0 < length (trees_of work.old.nodes.items) }
    ensures { Makes (trees_of work.old.nodes.items) (trees_of work.new.nodes.items) (work_of work.new) result (scalar_cast (ctx_of env.now) (work_of work.old) at (typ_of ty.now) (operand_in (trees_of work.old.nodes.items) o)) }
{
    let id = value(alloc, &mut work.nodes, o)?;
    value_cast(alloc, env, work, at, ty, id, o.zero)
}

// A cast to `void`.
fn void_cast(
    alloc: Global,
    env: &Env,
    work: &mut Work,
    at: At,
    o: Operand,
) -> Result<TNodeId, AllocError>
    requires { o.id.0 < length (trees_of work.old.nodes.items) }
    ensures { IfOk result (λ r. Puts (trees_of work.old.nodes.items) (trees_of work.new.nodes.items) (work_of work.new) r (void_made (ctx_of env.now) (work_of work.old) at (operand_in (trees_of work.old.nodes.items) o))) }
{
    let first = dropped(alloc, env, work, o)?;
    add_unary(
        alloc,
        &mut work.nodes,
        TKind::Retype,
        void_type(),
        Cat::Prvalue,
        at,
        first,
    )
}

// A cast to a reference to a type.
fn object_cast(
    alloc: Global,
    env: &Env,
    work: &mut Work,
    at: At,
    ty: &Ty,
    target: &Ty,
    o: Operand,
) -> Result<TNodeId, ElabFault>
    requires { o.id.0 < length (trees_of work.old.nodes.items) }
    ensures { Makes (trees_of work.old.nodes.items) (trees_of work.new.nodes.items) (work_of work.new) result (cast_in (ctx_of env.now) (work_of work.old) at (typ_of ty.now) (ref (typ_of target.now)) (operand_in (trees_of work.old.nodes.items) o)) }
{
    let object = initial(alloc, env, work, ty, o)?;
    let made = reference_cast(alloc, &mut work.nodes, at, target, object)?;
    Ok(made)
}

// An object of class type as an expression, from values in parentheses.
fn class_made(
    alloc: Global,
    env: &Env,
    work: &mut Work,
    at: At,
    ty: &Ty,
    os: &[Operand],
) -> Result<TNodeId, ElabFault>
    requires { are_in (length (trees_of work.old.nodes.items)) os.now ≡ true }
    ensures { Makes (trees_of work.old.nodes.items) (trees_of work.new.nodes.items) (work_of work.new) result (class_made (ctx_of env.now) (work_of work.old) at (typ_of ty.now) (operands_in (trees_of work.old.nodes.items) os.now)) }
{
    let init = from_values(alloc, env, work, ty, at, os)?;
    let made = as_expression(alloc, &mut work.nodes, at, ty, init)?;
    Ok(made)
}

/// `static_cast<T>(o)` and `(T)o`.
pub fn cast(
    alloc: Global,
    env: &Env,
    work: &mut Work,
    at: At,
    ty: &Ty,
    o: Operand,
) -> Result<TNodeId, ElabFault>
    requires { o.id.0 < length (trees_of work.old.nodes.items) }
    ensures { Makes (trees_of work.old.nodes.items) (trees_of work.new.nodes.items) (work_of work.new) result (cast (ctx_of env.now) (work_of work.old) at (typ_of ty.now) (operand_in (trees_of work.old.nodes.items) o)) }
{
    match &ty.shape {
        Shape::Void => {
            let made = void_cast(alloc, env, work, at, o)?;
            Ok(made)
        }
        Shape::Ref(target) => object_cast(alloc, env, work, at, ty, target, o),
        Shape::Func(_) | Shape::Array(_, _) => Err(ill(at, IllRule::BadOperand)),
        Shape::Class(_) | Shape::Closure(_) | Shape::TxEx(_) => {
            class_made(alloc, env, work, at, ty, &[o])
        }
        Shape::Int(_) | Shape::Enum { .. } | Shape::Null | Shape::Ptr(_) => {
            scalar_cast(alloc, env, work, at, ty, o)
        }
    }
}

// `void()`
fn nothing(alloc: Global, nodes: &mut Vec<TNode>, at: At) -> Result<TNodeId, AllocError>
    ensures { IfOk result (λ r. Adds (trees_of nodes.old.items) (trees_of nodes.new.items) r (node Retype (plain void) Prvalue at (one (number ULong 0 at)))) }
{
    let word = number(alloc, nodes, IntKind::ULong, 0, at)?;
    add_unary(
        alloc,
        nodes,
        TKind::Retype,
        void_type(),
        Cat::Prvalue,
        at,
        word,
    )
}

// A zero of a type.
fn zero(alloc: Global, nodes: &mut Vec<TNode>, at: At, ty: &Ty) -> Result<TNodeId, AllocError>
    ensures { IfOk result (λ r. Adds (trees_of nodes.old.items) (trees_of nodes.new.items) r (node (Literal 0) (unqualified (typ_of ty.now)) Prvalue at none)) }
{
    let ty = unqualified_type(alloc, ty)?;
    add_leaf(
        alloc,
        nodes,
        TKind::Literal { word: 0 },
        ty,
        Cat::Prvalue,
        at,
    )
}

// `T()` of a type that is no class.
fn zero_made(alloc: Global, work: &mut Work, at: At, ty: &Ty) -> Result<TNodeId, ElabFault>
    ensures { Makes (trees_of work.old.nodes.items) (trees_of work.new.nodes.items) (work_of work.new) result (zero_made (work_of work.old) at (typ_of ty.now)) }
{
    if is_void(ty) {
        let made = nothing(alloc, &mut work.nodes, at)?;
        return Ok(made);
    }
    if kind_of(ty).is_none() || is_reference(ty) {
        return Err(ill(at, IllRule::BadInit));
    }
    let made = zero(alloc, &mut work.nodes, at, ty)?;
    Ok(made)
}

// `T(a, b, ..)` of any number of values but one.
fn many_made(
    alloc: Global,
    env: &Env,
    work: &mut Work,
    at: At,
    ty: &Ty,
    os: &[Operand],
) -> Result<TNodeId, ElabFault>
    requires { are_in (length (trees_of work.old.nodes.items)) os.now ≡ true }
    ensures { Makes (trees_of work.old.nodes.items) (trees_of work.new.nodes.items) (work_of work.new) result (many_made (ctx_of env.now) (work_of work.old) at (typ_of ty.now) (operands_in (trees_of work.old.nodes.items) os.now)) }
{
    if is_class_type(ty) {
        return class_made(alloc, env, work, at, ty, os);
    }
    if os.is_empty() {
        return zero_made(alloc, work, at, ty);
    }
    Err(ill(at, IllRule::BadInit))
}

/// `T(a, ..)`
pub fn functional(
    alloc: Global,
    env: &Env,
    work: &mut Work,
    at: At,
    ty: &Ty,
    os: &[Operand],
) -> Result<TNodeId, ElabFault>
    requires { are_in (length (trees_of work.old.nodes.items)) os.now ≡ true }
    ensures { Makes (trees_of work.old.nodes.items) (trees_of work.new.nodes.items) (work_of work.new) result (functional (ctx_of env.now) (work_of work.old) at (typ_of ty.now) (operands_in (trees_of work.old.nodes.items) os.now)) }
{
    if os.len() == 1 {
        return cast(alloc, env, work, at, ty, os[0]);
    }
    many_made(alloc, env, work, at, ty, os)
}

/// `sizeof`, of a type that an operand at a place of its own has.
pub fn size_literal(
    alloc: Global,
    env: &Env,
    nodes: &mut Vec<TNode>,
    at: At,
    operand: At,
    ty: &Ty,
) -> Result<TNodeId, ElabFault>
    ensures { Gives (trees_of nodes.old.items) (trees_of nodes.new.items) result (size_literal (ctx_of env.now) at operand (typ_of ty.now)) }
{
    let target = referred_type(ty);
    if is_function(target) || is_void(target) {
        return Err(ill(at, IllRule::BadOperand));
    }
    if !is_bounded(target) {
        return Err(ill(at, IllRule::Incomplete));
    }
    let _ = measurable(env, at, target)?;
    let size = size_of(env, target)?;
    let made = number(alloc, nodes, IntKind::ULong, u64::from(size), at)?;
    Ok(made)
}
