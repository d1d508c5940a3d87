// `? :` (C++14 5.16).

ghost use Rattle.std.specs.Prelude.{◌≡◌, ◌<◌, length, IfOk, None};
ghost use Rattle.elab_make.specs.cpp_types.Typ.{typ_of, void, ptr, int};
ghost use Rattle.elab_make.specs.cpp_types.declared.ranks.Cat.TheVariants.{Prvalue};
ghost use Rattle.elab_make.specs.cpp_tree.Notation.{plain};
ghost use Rattle.elab_make.specs.cpp_tree.Arena.{trees_of, tree_at, Adds};
ghost use Rattle.elab_make.specs.cpp_tree.Typing.{form_in, is_void};
ghost use Rattle.elab_make.specs.elab_ctx.Ctx.{ctx_of, work_of};
ghost use Rattle.elab_make.specs.elab_ctx.Operands.{operand_in};
ghost use Rattle.elab_make.specs.elab_ctx.Says.{Gives, Makes, Puts};
ghost use Rattle.elab_make.specs.elab_rules.Operators.{value, as_kind, as_pointer, pointed, conditional_node, same_lvalues, both_of_class, two_numbers, two_values, two_objects, branches, conditional, conditional_like, joined_class, is_shared, shared, bare_throw as bare_throw_of};
ghost use Rattle.elab_forms.specs.Rows.{both_stay, beside_throw, behind_throw, two_operands, value_or_null, null_or_value, same_scalars, two_scalars, conditional_by};

use crate::common_types::joined_class;
use crate::exceptions::settled;
use crate::thrown::{bare_throw, throws};
use elab_init::seen_as;
use elab_make::below::{
    At, Cat, ElabFault, Env, IllRule, IntKind, Operand, Shape, TKind, TNode, TNodeId, Ty, Work,
    copy, equal_shapes, equal_types, is_class_type, kind_of, node_at, pointer_to, unqualified_type,
    usual,
};
use elab_make::exact_object;
use elab_ops::operands::{arithmetic, as_kind, as_pointer, int_type, is_null, pointed, value_type};
use elab_ops::pointers::is_lvalue;
use elab_ops::truth::{add_three, bool_value};
use elab_ops::{ill, value};
use std::alloc::{AllocError, Global};

// A node of a test and two expressions.
fn conditional_node(
    alloc: Global,
    nodes: &mut Vec<TNode>,
    at: At,
    ty: Ty,
    cat: Cat,
    test: TNodeId,
    x: TNodeId,
    y: TNodeId,
) -> Result<TNodeId, AllocError>
    ensures { IfOk result (λ r. Adds (trees_of nodes.old.items) (trees_of nodes.new.items) r (conditional_node at (typ_of ty) cat (tree_at (trees_of nodes.old.items) test) (tree_at (trees_of nodes.old.items) x) (tree_at (trees_of nodes.old.items) y))) }
{
    add_three(alloc, nodes, TKind::Conditional, ty, cat, at, test, x, y)
}

// The same, of the type and category of an expression.
fn conditional_like(
    alloc: Global,
    nodes: &mut Vec<TNode>,
    at: At,
    like: TNodeId,
    test: TNodeId,
    x: TNodeId,
    y: TNodeId,
) -> Result<TNodeId, AllocError>
    requires { like.0 < length (trees_of nodes.old.items) }
    ensures { IfOk result (λ r. Adds (trees_of nodes.old.items) (trees_of nodes.new.items) r (conditional_like at (tree_at (trees_of nodes.old.items) like) (tree_at (trees_of nodes.old.items) test) (tree_at (trees_of nodes.old.items) x) (tree_at (trees_of nodes.old.items) y))) }
{
    let cat = node_at(nodes, like).cat;
    let ty = copy(alloc, &node_at(nodes, like).ty)?;
    conditional_node(alloc, nodes, at, ty, cat, test, x, y)
}

// The values of two operands, of a type.
fn two_of_type(
    alloc: Global,
    nodes: &mut Vec<TNode>,
    at: At,
    ty: Ty,
    test: TNodeId,
    a: Operand,
    b: Operand,
) -> Result<TNodeId, AllocError>
    requires test { test.0 < length (trees_of nodes.old.items) }
    requires left { a.id.0 < length (trees_of nodes.old.items) }
    requires right { b.id.0 < length (trees_of nodes.old.items) }
    ensures { IfOk result (λ r. Adds (trees_of nodes.old.items) (trees_of nodes.new.items) r (conditional_node at (typ_of ty) Prvalue (tree_at (trees_of nodes.old.items) test) (value (operand_in (trees_of nodes.old.items) a)) (value (operand_in (trees_of nodes.old.items) b)))) }
{
    let x = value(alloc, nodes, a)?;
    let y = value(alloc, nodes, b)?;
    conditional_node(alloc, nodes, at, ty, Cat::Prvalue, test, x, y)
}

// Two operands as numbers of a kind.
fn two_of_kind(
    alloc: Global,
    nodes: &mut Vec<TNode>,
    at: At,
    kind: IntKind,
    test: TNodeId,
    a: Operand,
    b: Operand,
) -> Result<TNodeId, AllocError>
    requires test { test.0 < length (trees_of nodes.old.items) }
    requires left { a.id.0 < length (trees_of nodes.old.items) }
    requires right { b.id.0 < length (trees_of nodes.old.items) }
    ensures { IfOk result (λ r. Adds (trees_of nodes.old.items) (trees_of nodes.new.items) r (conditional_node at (plain (int kind)) Prvalue (tree_at (trees_of nodes.old.items) test) (as_kind kind (operand_in (trees_of nodes.old.items) a)) (as_kind kind (operand_in (trees_of nodes.old.items) b)))) }
{
    let x = as_kind(alloc, nodes, kind, a)?;
    let y = as_kind(alloc, nodes, kind, b)?;
    conditional_node(alloc, nodes, at, int_type(kind), Cat::Prvalue, test, x, y)
}

// A pointer to a type from a type.
fn pointer_type(alloc: Global, target: &Ty) -> Result<Ty, AllocError>
    ensures { IfOk result (λ t. typ_of t ≡ plain (ptr (typ_of target.now))) }
{
    let target = copy(alloc, target)?;
    pointer_to(alloc, target)
}

// Two numbers of these kinds, in their common kind.
fn two_numbers(
    alloc: Global,
    nodes: &mut Vec<TNode>,
    at: At,
    test: TNodeId,
    left: Option<IntKind>,
    right: Option<IntKind>,
    a: Operand,
    b: Operand,
) -> Result<TNodeId, ElabFault>
    requires test { test.0 < length (trees_of nodes.old.items) }
    requires left { a.id.0 < length (trees_of nodes.old.items) }
    requires right { b.id.0 < length (trees_of nodes.old.items) }
    ensures { Gives (trees_of nodes.old.items) (trees_of nodes.new.items) result (two_numbers at (tree_at (trees_of nodes.old.items) test) left right (operand_in (trees_of nodes.old.items) a) (operand_in (trees_of nodes.old.items) b)) }
{
    let Some(j) = left else {
        return Err(ill(at, IllRule::BadOperand));
    };
    let Some(k) = right else {
        return Err(ill(at, IllRule::BadOperand));
    };
    let made = two_of_kind(alloc, nodes, at, usual(j, k), test, a, b)?;
    Ok(made)
}

// Two pointers.
fn two_pointers(
    alloc: Global,
    nodes: &mut Vec<TNode>,
    at: At,
    test: TNodeId,
    target: &Ty,
    other: &Ty,
    a: Operand,
    b: Operand,
) -> Result<TNodeId, ElabFault>
    requires test { test.0 < length (trees_of nodes.old.items) }
    requires left { a.id.0 < length (trees_of nodes.old.items) }
    requires right { b.id.0 < length (trees_of nodes.old.items) }
    ensures { Gives (trees_of nodes.old.items) (trees_of nodes.new.items) result (two_values at (tree_at (trees_of nodes.old.items) test) (ptr (typ_of target.now)) (ptr (typ_of other.now)) (operand_in (trees_of nodes.old.items) a) (operand_in (trees_of nodes.old.items) b)) }
{
    if !equal_types(target, other) {
        return Err(ill(at, IllRule::BadOperand));
    }
    let ty = pointer_type(alloc, target)?;
    let made = two_of_type(alloc, nodes, at, ty, test, a, b)?;
    Ok(made)
}

// The value of a pointer, and a null pointer as one.
fn with_null(
    alloc: Global,
    nodes: &mut Vec<TNode>,
    at: At,
    test: TNodeId,
    target: &Ty,
    a: Operand,
    b: Operand,
) -> Result<TNodeId, AllocError>
    requires test { test.0 < length (trees_of nodes.old.items) }
    requires left { a.id.0 < length (trees_of nodes.old.items) }
    requires right { b.id.0 < length (trees_of nodes.old.items) }
    ensures { IfOk result (λ r. Adds (trees_of nodes.old.items) (trees_of nodes.new.items) r (conditional_node at (plain (ptr (typ_of target.now))) Prvalue (tree_at (trees_of nodes.old.items) test) (value (operand_in (trees_of nodes.old.items) a)) (as_pointer (typ_of target.now) (operand_in (trees_of nodes.old.items) b)))) }
{
    let ty = pointer_type(alloc, target)?;
    let x = value(alloc, nodes, a)?;
    let y = as_pointer(alloc, nodes, target, b)?;
    conditional_node(alloc, nodes, at, ty, Cat::Prvalue, test, x, y)
}

// A null pointer as one, and the value of a pointer.
fn null_with(
    alloc: Global,
    nodes: &mut Vec<TNode>,
    at: At,
    test: TNodeId,
    target: &Ty,
    a: Operand,
    b: Operand,
) -> Result<TNodeId, AllocError>
    requires test { test.0 < length (trees_of nodes.old.items) }
    requires left { a.id.0 < length (trees_of nodes.old.items) }
    requires right { b.id.0 < length (trees_of nodes.old.items) }
    ensures { IfOk result (λ r. Adds (trees_of nodes.old.items) (trees_of nodes.new.items) r (conditional_node at (plain (ptr (typ_of target.now))) Prvalue (tree_at (trees_of nodes.old.items) test) (as_pointer (typ_of target.now) (operand_in (trees_of nodes.old.items) a)) (value (operand_in (trees_of nodes.old.items) b)))) }
{
    let ty = pointer_type(alloc, target)?;
    let x = as_pointer(alloc, nodes, target, a)?;
    let y = value(alloc, nodes, b)?;
    conditional_node(alloc, nodes, at, ty, Cat::Prvalue, test, x, y)
}

// A pointer and a null pointer.
fn value_or_null(
    alloc: Global,
    nodes: &mut Vec<TNode>,
    at: At,
    test: TNodeId,
    target: &Ty,
    a: Operand,
    b: Operand,
) -> Result<TNodeId, ElabFault>
    requires test { test.0 < length (trees_of nodes.old.items) }
    requires left { a.id.0 < length (trees_of nodes.old.items) }
    requires right { b.id.0 < length (trees_of nodes.old.items) }
    ensures { Gives (trees_of nodes.old.items) (trees_of nodes.new.items) result (value_or_null at (tree_at (trees_of nodes.old.items) test) (typ_of target.now) (operand_in (trees_of nodes.old.items) a) (operand_in (trees_of nodes.old.items) b)) }
{
    if !is_null(nodes, b) {
        return Err(ill(at, IllRule::BadOperand));
    }
    let made = with_null(alloc, nodes, at, test, target, a, b)?;
    Ok(made)
}

// A null pointer and a pointer.
fn null_or_value(
    alloc: Global,
    nodes: &mut Vec<TNode>,
    at: At,
    test: TNodeId,
    target: &Ty,
    a: Operand,
    b: Operand,
) -> Result<TNodeId, ElabFault>
    requires test { test.0 < length (trees_of nodes.old.items) }
    requires left { a.id.0 < length (trees_of nodes.old.items) }
    requires right { b.id.0 < length (trees_of nodes.old.items) }
    ensures { Gives (trees_of nodes.old.items) (trees_of nodes.new.items) result (null_or_value at (tree_at (trees_of nodes.old.items) test) (typ_of target.now) (operand_in (trees_of nodes.old.items) a) (operand_in (trees_of nodes.old.items) b)) }
{
    if !is_null(nodes, a) {
        return Err(ill(at, IllRule::BadOperand));
    }
    let made = null_with(alloc, nodes, at, test, target, a, b)?;
    Ok(made)
}

// Whether two types are scalars of one form.
fn same_scalars(left: &Ty, right: &Ty) -> bool
    ensures { result ≡ same_scalars (form_in (typ_of left.now)) (form_in (typ_of right.now)) }
{
    equal_shapes(&left.shape, &right.shape) && kind_of(left).is_some()
}

// Operands of which none is a pointer.
fn two_scalars(
    alloc: Global,
    nodes: &mut Vec<TNode>,
    at: At,
    test: TNodeId,
    left: &Ty,
    right: &Ty,
    a: Operand,
    b: Operand,
) -> Result<TNodeId, ElabFault>
    requires test { test.0 < length (trees_of nodes.old.items) }
    requires left { a.id.0 < length (trees_of nodes.old.items) }
    requires right { b.id.0 < length (trees_of nodes.old.items) }
    ensures { Gives (trees_of nodes.old.items) (trees_of nodes.new.items) result (two_scalars at (tree_at (trees_of nodes.old.items) test) (form_in (typ_of left.now)) (form_in (typ_of right.now)) (operand_in (trees_of nodes.old.items) a) (operand_in (trees_of nodes.old.items) b)) }
{
    if !same_scalars(left, right) {
        return two_numbers(
            alloc,
            nodes,
            at,
            test,
            arithmetic(left),
            arithmetic(right),
            a,
            b,
        );
    }
    let ty = unqualified_type(alloc, left)?;
    let made = two_of_type(alloc, nodes, at, ty, test, a, b)?;
    Ok(made)
}

// A pointer and another operand.
fn with_pointer(
    alloc: Global,
    nodes: &mut Vec<TNode>,
    at: At,
    test: TNodeId,
    target: &Ty,
    right: &Ty,
    a: Operand,
    b: Operand,
) -> Result<TNodeId, ElabFault>
    requires test { test.0 < length (trees_of nodes.old.items) }
    requires left { a.id.0 < length (trees_of nodes.old.items) }
    requires right { b.id.0 < length (trees_of nodes.old.items) }
    ensures { Gives (trees_of nodes.old.items) (trees_of nodes.new.items) result (two_values at (tree_at (trees_of nodes.old.items) test) (ptr (typ_of target.now)) (form_in (typ_of right.now)) (operand_in (trees_of nodes.old.items) a) (operand_in (trees_of nodes.old.items) b)) }
{
    match pointed(right) {
        Some(other) => two_pointers(alloc, nodes, at, test, target, other, a, b),
        None => value_or_null(alloc, nodes, at, test, target, a, b),
    }
}

// An operand that is no pointer, and another.
fn with_scalar(
    alloc: Global,
    nodes: &mut Vec<TNode>,
    at: At,
    test: TNodeId,
    left: &Ty,
    right: &Ty,
    a: Operand,
    b: Operand,
) -> Result<TNodeId, ElabFault>
    requires test { test.0 < length (trees_of nodes.old.items) }
    requires left { a.id.0 < length (trees_of nodes.old.items) }
    requires right { b.id.0 < length (trees_of nodes.old.items) }
    requires scalar { pointed (form_in (typ_of left.now)) ≡ None }
    ensures { Gives (trees_of nodes.old.items) (trees_of nodes.new.items) result (two_values at (tree_at (trees_of nodes.old.items) test) (form_in (typ_of left.now)) (form_in (typ_of right.now)) (operand_in (trees_of nodes.old.items) a) (operand_in (trees_of nodes.old.items) b)) }
{
    match pointed(right) {
        Some(target) => null_or_value(alloc, nodes, at, test, target, a, b),
        None => two_scalars(alloc, nodes, at, test, left, right, a, b),
    }
}

// Two values of the forms of these types.
fn two_values(
    alloc: Global,
    nodes: &mut Vec<TNode>,
    at: At,
    test: TNodeId,
    left: &Ty,
    right: &Ty,
    a: Operand,
    b: Operand,
) -> Result<TNodeId, ElabFault>
    requires test { test.0 < length (trees_of nodes.old.items) }
    requires left { a.id.0 < length (trees_of nodes.old.items) }
    requires right { b.id.0 < length (trees_of nodes.old.items) }
    ensures { Gives (trees_of nodes.old.items) (trees_of nodes.new.items) result (two_values at (tree_at (trees_of nodes.old.items) test) (form_in (typ_of left.now)) (form_in (typ_of right.now)) (operand_in (trees_of nodes.old.items) a) (operand_in (trees_of nodes.old.items) b)) }
{
    match pointed(left) {
        Some(target) => with_pointer(alloc, nodes, at, test, target, right, a, b),
        None => with_scalar(alloc, nodes, at, test, left, right, a, b),
    }
}

// Two objects of one class.
fn two_objects(
    alloc: Global,
    env: &Env,
    work: &mut Work,
    at: At,
    test: TNodeId,
    a: Operand,
    b: Operand,
) -> Result<TNodeId, ElabFault>
    requires test { test.0 < length (trees_of work.old.nodes.items) }
    requires left { a.id.0 < length (trees_of work.old.nodes.items) }
    requires right { b.id.0 < length (trees_of work.old.nodes.items) }
    ensures { Makes (trees_of work.old.nodes.items) (trees_of work.new.nodes.items) (work_of work.new) result (two_objects (ctx_of env.now) (work_of work.old) at (tree_at (trees_of work.old.nodes.items) test) (operand_in (trees_of work.old.nodes.items) a) (operand_in (trees_of work.old.nodes.items) b)) }
{
    let ty = joined_class(alloc, &work.nodes, a, b)?;
    let x = exact_object(alloc, env, work, &ty, a.at, a)?;
    let y = exact_object(alloc, env, work, &ty, b.at, b)?;
    let made = conditional_node(alloc, &mut work.nodes, at, ty, Cat::Prvalue, test, x, y)?;
    Ok(made)
}

// Whether a type is `void`, whatever its qualifiers.
pub fn is_void(ty: &Ty) -> bool
    ensures { result ≡ is_void (typ_of ty.now) }
{
    match &ty.shape {
        Shape::Void => true,
        Shape::Int(_)
        | Shape::Enum { .. }
        | Shape::Null
        | Shape::Ptr(_)
        | Shape::Ref(_)
        | Shape::Array(_, _)
        | Shape::Func(_)
        | Shape::Class(_)
        | Shape::Closure(_)
        | Shape::TxEx(_) => false,
    }
}

// Whether two operands are lvalues of one type.
fn same_lvalues(nodes: &Vec<TNode>, a: Operand, b: Operand) -> bool
    requires left { a.id.0 < length (trees_of nodes.now.items) }
    requires right { b.id.0 < length (trees_of nodes.now.items) }
    ensures { result ≡ same_lvalues (operand_in (trees_of nodes.now.items) a) (operand_in (trees_of nodes.now.items) b) }
{
    let same = equal_types(&node_at(nodes, a.id).ty, &node_at(nodes, b.id).ty);
    is_lvalue(nodes, a.id) && is_lvalue(nodes, b.id) && same
}

// Whether two operands stay as they are.
fn both_stay(nodes: &Vec<TNode>, a: Operand, b: Operand) -> bool
    requires left { a.id.0 < length (trees_of nodes.now.items) }
    requires right { b.id.0 < length (trees_of nodes.now.items) }
    ensures { result ≡ both_stay (operand_in (trees_of nodes.now.items) a) (operand_in (trees_of nodes.now.items) b) }
{
    let first = is_void(&node_at(nodes, a.id).ty);
    let second = is_void(&node_at(nodes, b.id).ty);
    same_lvalues(nodes, a, b) || (first && second)
}

// Whether two operands are objects of one class.
fn both_of_class(nodes: &Vec<TNode>, a: Operand, b: Operand) -> bool
    requires left { a.id.0 < length (trees_of nodes.now.items) }
    requires right { b.id.0 < length (trees_of nodes.now.items) }
    ensures { result ≡ both_of_class (operand_in (trees_of nodes.now.items) a) (operand_in (trees_of nodes.now.items) b) }
{
    let first = &node_at(nodes, a.id).ty;
    let second = &node_at(nodes, b.id).ty;
    is_class_type(first) && equal_shapes(&first.shape, &second.shape)
}

// Whether two operands are lvalues of one class, whose common type is that of one of them.
fn is_shared(nodes: &Vec<TNode>, joined: &Ty, a: Operand, b: Operand) -> bool
    requires left { a.id.0 < length (trees_of nodes.now.items) }
    requires right { b.id.0 < length (trees_of nodes.now.items) }
    requires joined { typ_of joined.now ≡ joined_class (operand_in (trees_of nodes.now.items) a) (operand_in (trees_of nodes.now.items) b) }
    ensures { result ≡ is_shared (operand_in (trees_of nodes.now.items) a) (operand_in (trees_of nodes.now.items) b) }
{
    let is_first = equal_types(joined, &node_at(nodes, a.id).ty);
    let is_second = equal_types(joined, &node_at(nodes, b.id).ty);
    let same_class = both_of_class(nodes, a, b);
    is_lvalue(nodes, a.id) && is_lvalue(nodes, b.id) && same_class && (is_first || is_second)
}

// Such operands, as lvalues of their common type.
fn shared(
    alloc: Global,
    nodes: &mut Vec<TNode>,
    at: At,
    joined: Ty,
    test: TNodeId,
    a: Operand,
    b: Operand,
) -> Result<TNodeId, AllocError>
    requires test { test.0 < length (trees_of nodes.old.items) }
    requires left { a.id.0 < length (trees_of nodes.old.items) }
    requires right { b.id.0 < length (trees_of nodes.old.items) }
    requires joined { typ_of joined ≡ joined_class (operand_in (trees_of nodes.old.items) a) (operand_in (trees_of nodes.old.items) b) }
    ensures { IfOk result (λ r. Adds (trees_of nodes.old.items) (trees_of nodes.new.items) r (shared at (tree_at (trees_of nodes.old.items) test) (operand_in (trees_of nodes.old.items) a) (operand_in (trees_of nodes.old.items) b))) }
{
    let x = seen_as(alloc, nodes, a.at, &joined, a.id)?;
    let y = seen_as(alloc, nodes, b.at, &joined, b.id)?;
    conditional_node(alloc, nodes, at, joined, Cat::Lvalue, test, x, y)
}

// The type of what gives no value.
pub fn void_type() -> Ty
    ensures { typ_of result ≡ plain void }
{
    Ty {
        shape: Shape::Void,
        is_const: false,
        is_volatile: false,
    }
}

// Two expressions that both throw.
fn both_thrown(
    alloc: Global,
    nodes: &mut Vec<TNode>,
    at: At,
    test: TNodeId,
    a: Operand,
    b: Operand,
) -> Result<TNodeId, AllocError>
    requires left { a.id.0 < length (trees_of nodes.old.items) }
    requires right { b.id.0 < length (trees_of nodes.old.items) }
    ensures { IfOk result (λ r. Adds (trees_of nodes.old.items) (trees_of nodes.new.items) r (conditional_node at (plain void) Prvalue (tree_at (trees_of nodes.old.items) test) (bare_throw_of (tree_at (trees_of nodes.old.items) a.id)) (bare_throw_of (tree_at (trees_of nodes.old.items) b.id)))) }
{
    let x = bare_throw(nodes, a.id)?;
    let y = bare_throw(nodes, b.id)?;
    conditional_node(alloc, nodes, at, void_type(), Cat::Prvalue, test, x, y)
}

// An operand beside one that throws.
fn beside_throw(
    alloc: Global,
    env: &Env,
    work: &mut Work,
    at: At,
    test: TNodeId,
    a: Operand,
    b: Operand,
) -> Result<TNodeId, AllocError>
    requires test { test.0 < length (trees_of work.old.nodes.items) }
    requires left { a.id.0 < length (trees_of work.old.nodes.items) }
    requires right { b.id.0 < length (trees_of work.old.nodes.items) }
    ensures { IfOk result (λ r. Puts (trees_of work.old.nodes.items) (trees_of work.new.nodes.items) (work_of work.new) r (beside_throw (ctx_of env.now) (work_of work.old) at (tree_at (trees_of work.old.nodes.items) test) (operand_in (trees_of work.old.nodes.items) a) (operand_in (trees_of work.old.nodes.items) b))) }
{
    let x = settled(alloc, env, work, a)?;
    let y = bare_throw(&work.nodes, b.id)?;
    conditional_like(alloc, &mut work.nodes, at, x, test, x, y)
}

// One that throws beside an operand.
fn behind_throw(
    alloc: Global,
    env: &Env,
    work: &mut Work,
    at: At,
    test: TNodeId,
    a: Operand,
    b: Operand,
) -> Result<TNodeId, AllocError>
    requires test { test.0 < length (trees_of work.old.nodes.items) }
    requires left { a.id.0 < length (trees_of work.old.nodes.items) }
    requires right { b.id.0 < length (trees_of work.old.nodes.items) }
    ensures { IfOk result (λ r. Puts (trees_of work.old.nodes.items) (trees_of work.new.nodes.items) (work_of work.new) r (behind_throw (ctx_of env.now) (work_of work.old) at (tree_at (trees_of work.old.nodes.items) test) (operand_in (trees_of work.old.nodes.items) a) (operand_in (trees_of work.old.nodes.items) b))) }
{
    let x = bare_throw(&work.nodes, a.id)?;
    let y = settled(alloc, env, work, b)?;
    conditional_like(alloc, &mut work.nodes, at, y, test, x, y)
}

// Two operands of which none throws.
fn two_operands(
    alloc: Global,
    env: &Env,
    work: &mut Work,
    at: At,
    test: TNodeId,
    a: Operand,
    b: Operand,
) -> Result<TNodeId, ElabFault>
    requires test { test.0 < length (trees_of work.old.nodes.items) }
    requires left { a.id.0 < length (trees_of work.old.nodes.items) }
    requires right { b.id.0 < length (trees_of work.old.nodes.items) }
    ensures { Makes (trees_of work.old.nodes.items) (trees_of work.new.nodes.items) (work_of work.new) result (two_operands (ctx_of env.now) (work_of work.old) at (tree_at (trees_of work.old.nodes.items) test) (operand_in (trees_of work.old.nodes.items) a) (operand_in (trees_of work.old.nodes.items) b)) }
{
    if both_stay(&work.nodes, a, b) {
        let made = conditional_like(alloc, &mut work.nodes, at, a.id, test, a.id, b.id)?;
        return Ok(made);
    }
    let joined = joined_class(alloc, &work.nodes, a, b)?;
    if is_shared(&work.nodes, &joined, a, b) {
        let made = shared(alloc, &mut work.nodes, at, joined, test, a, b)?;
        return Ok(made);
    }
    if both_of_class(&work.nodes, a, b) {
        return two_objects(alloc, env, work, at, test, a, b);
    }
    let left = value_type(alloc, &work.nodes, a)?;
    let right = value_type(alloc, &work.nodes, b)?;
    two_values(alloc, &mut work.nodes, at, test, &left, &right, a, b)
}

// What is behind the test, as one expression.
fn branches(
    alloc: Global,
    env: &Env,
    work: &mut Work,
    at: At,
    test: TNodeId,
    a: Operand,
    b: Operand,
) -> Result<TNodeId, ElabFault>
    requires test { test.0 < length (trees_of work.old.nodes.items) }
    requires left { a.id.0 < length (trees_of work.old.nodes.items) }
    requires right { b.id.0 < length (trees_of work.old.nodes.items) }
    ensures { Makes (trees_of work.old.nodes.items) (trees_of work.new.nodes.items) (work_of work.new) result (branches (ctx_of env.now) (work_of work.old) at (tree_at (trees_of work.old.nodes.items) test) (operand_in (trees_of work.old.nodes.items) a) (operand_in (trees_of work.old.nodes.items) b)) }
{
    let first = throws(&work.nodes, a.id)?;
    let second = throws(&work.nodes, b.id)?;
    if first && second {
        let made = both_thrown(alloc, &mut work.nodes, at, test, a, b)?;
        return Ok(made);
    }
    if second {
        let made = beside_throw(alloc, env, work, at, test, a, b)?;
        return Ok(made);
    }
    if first {
        let made = behind_throw(alloc, env, work, at, test, a, b)?;
        return Ok(made);
    }
    two_operands(alloc, env, work, at, test, a, b)
}

// `? :` by the value of the test.
fn conditional_by(
    alloc: Global,
    env: &Env,
    work: &mut Work,
    at: At,
    test: Operand,
    a: Operand,
    b: Operand,
) -> Result<TNodeId, ElabFault>
    requires test { test.id.0 < length (trees_of work.old.nodes.items) }
    requires left { a.id.0 < length (trees_of work.old.nodes.items) }
    requires right { b.id.0 < length (trees_of work.old.nodes.items) }
    ensures { Makes (trees_of work.old.nodes.items) (trees_of work.new.nodes.items) (work_of work.new) result (conditional_by (ctx_of env.now) (work_of work.old) at (operand_in (trees_of work.old.nodes.items) test) (operand_in (trees_of work.old.nodes.items) a) (operand_in (trees_of work.old.nodes.items) b)) }
{
    let test = bool_value(alloc, env, &mut work.nodes, test)?;
    branches(alloc, env, work, at, test, a, b)
}

/// `? :`
pub fn conditional(
    alloc: Global,
    env: &Env,
    work: &mut Work,
    at: At,
    test: Operand,
    a: Operand,
    b: Operand,
) -> Result<TNodeId, ElabFault>
    requires test { test.id.0 < length (trees_of work.old.nodes.items) }
    requires left { a.id.0 < length (trees_of work.old.nodes.items) }
    requires right { b.id.0 < length (trees_of work.old.nodes.items) }
    ensures { Makes (trees_of work.old.nodes.items) (trees_of work.new.nodes.items) (work_of work.new) result (conditional (ctx_of env.now) (work_of work.old) at (operand_in (trees_of work.old.nodes.items) test) (operand_in (trees_of work.old.nodes.items) a) (operand_in (trees_of work.old.nodes.items) b)) }
{
    conditional_by(alloc, env, work, at, test, a, b)
}
