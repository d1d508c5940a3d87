// Operators by their spelling.

ghost use Rattle.std.specs.Prelude.{◌≡◌, ◌<◌, length};
ghost use Rattle.elab_casts.specs.cpp_tree.Arena.{trees_of};
ghost use Rattle.elab_casts.specs.elab_ctx.Ctx.{ctx_of, work_of};
ghost use Rattle.elab_casts.specs.elab_ctx.Operands.{operand_in};
ghost use Rattle.elab_casts.specs.elab_ctx.Says.{Gives, Makes};
ghost use Rattle.elab_casts.specs.elab_rules.Expressions.{unary_of, operator_of, assignment_of, postfix_operator as postfix_operator_of};

use elab_casts::below::{
    At, BinOp, ElabFault, Env, IllRule, Operand, TNodeId, Work, address_of, assignment, binary,
    binary_operator, complement, compound, compound_operator, indirection, logical, minus,
    negation, plus, step,
};
use elab_types::specifiers::ill;
use std::alloc::Global;

/// An operator before its operand.
pub fn unary(
    alloc: Global,
    env: &Env,
    work: &mut Work,
    at: At,
    name: &[u8],
    a: Operand,
) -> Result<TNodeId, ElabFault>
    requires { a.id.0 < length (trees_of work.old.nodes.items) }
    ensures tree { Gives (trees_of work.old.nodes.items) (trees_of work.new.nodes.items) result (unary_of (ctx_of env.now) (work_of work.old) at name.now (operand_in (trees_of work.old.nodes.items) a)) }
    ensures work { work_of work.new ≡ work_of work.old }
{
    if name == b"++".as_slice() {
        return step(alloc, env, &mut work.nodes, BinOp::Add, false, at, a);
    }
    if name == b"--".as_slice() {
        return step(alloc, env, &mut work.nodes, BinOp::Sub, false, at, a);
    }
    if name == b"+".as_slice() {
        return plus(alloc, &mut work.nodes, at, a);
    }
    if name == b"-".as_slice() {
        return minus(alloc, &mut work.nodes, at, a);
    }
    if name == b"!".as_slice() {
        return negation(alloc, env, &mut work.nodes, at, a);
    }
    if name == b"~".as_slice() {
        return complement(alloc, &mut work.nodes, at, a);
    }
    if name == b"*".as_slice() {
        return indirection(alloc, &mut work.nodes, at, a);
    }
    address_of(alloc, &mut work.nodes, at, a)
}

/// An operator between its operands.
pub fn operator(
    alloc: Global,
    env: &Env,
    work: &mut Work,
    at: At,
    name: &[u8],
    a: Operand,
    b: Operand,
) -> Result<TNodeId, ElabFault>
    requires left { a.id.0 < length (trees_of work.old.nodes.items) }
    requires right { b.id.0 < length (trees_of work.old.nodes.items) }
    ensures tree { Gives (trees_of work.old.nodes.items) (trees_of work.new.nodes.items) result (operator_of (ctx_of env.now) (work_of work.old) at name.now (operand_in (trees_of work.old.nodes.items) a) (operand_in (trees_of work.old.nodes.items) b)) }
    ensures work { work_of work.new ≡ work_of work.old }
{
    if name == b"&&".as_slice() {
        return logical(alloc, env, &mut work.nodes, true, at, a, b);
    }
    if name == b"||".as_slice() {
        return logical(alloc, env, &mut work.nodes, false, at, a, b);
    }
    let Some(op) = binary_operator(name) else {
        return Err(ill(at, IllRule::OutOfProfile));
    };
    binary(alloc, env, &mut work.nodes, op, at, a, b)
}

/// An assignment.
pub fn assigned(
    alloc: Global,
    env: &Env,
    work: &mut Work,
    at: At,
    name: &[u8],
    a: Operand,
    b: Operand,
) -> Result<TNodeId, ElabFault>
    requires left { a.id.0 < length (trees_of work.old.nodes.items) }
    requires right { b.id.0 < length (trees_of work.old.nodes.items) }
    ensures { Makes (trees_of work.old.nodes.items) (trees_of work.new.nodes.items) (work_of work.new) result (assignment_of (ctx_of env.now) (work_of work.old) at name.now (operand_in (trees_of work.old.nodes.items) a) (operand_in (trees_of work.old.nodes.items) b)) }
{
    if name == b"=".as_slice() {
        return assignment(alloc, env, work, at, a, b);
    }
    let Some(op) = compound_operator(name) else {
        return Err(ill(at, IllRule::OutOfProfile));
    };
    let made = compound(alloc, env, &mut work.nodes, op, at, a, b)?;
    Ok(made)
}

/// `++` or `--` behind its operand.
pub fn postfix_operator(name: &[u8]) -> BinOp
    ensures { result ≡ postfix_operator_of name.now }
{
    if name == b"++".as_slice() {
        BinOp::Add
    } else {
        BinOp::Sub
    }
}
