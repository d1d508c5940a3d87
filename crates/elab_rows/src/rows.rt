// Forms over operands.

ghost use Rattle.std.specs.Prelude.{◌≡◌, ℕ, List, length, true};
ghost use Rattle.elab_casts.specs.cpp_lex.Tokens.{Lexeme, lexemes_of};
ghost use Rattle.elab_casts.specs.cpp_ast.declared.kinds.NodeKind.TheVariants as syntax;
ghost use Rattle.elab_casts.specs.cpp_tree.Arena.{trees_of};
ghost use Rattle.elab_casts.specs.elab_ctx.Ctx.{ctx_of, work_of};
ghost use Rattle.elab_casts.specs.elab_ctx.Operands.{operands_in, are_in};
ghost use Rattle.elab_casts.specs.elab_rules.Expressions.{row_of};
ghost use Rattle.elab_rows.specs.Typed.{Types};

use crate::few::{Few, counted, operand};
use crate::over::{assigned, operator, postfix_operator, unary};
use elab_call::member_access;
use elab_casts::below::{
    At, ElabFault, Env, IllRule, NodeKind, Operand, Tokens, Work, comma, conditional, indirection,
    step, subscript,
};
use elab_casts::throw;
use elab_types::specifiers::ill;
use elab_types::syntax::{spelling, token_place};
use std::alloc::Global;

// `a[i]`
fn subscript_row(
    alloc: Global,
    env: &Env,
    at: At,
    os: &[Operand],
    work: &mut Work,
) -> Result<Operand, ElabFault>
    requires { are_in (length (trees_of work.old.nodes.items)) os.now ≡ true }
    ensures { (s : List Lexeme) (t : ℕ) → Types (trees_of work.old.nodes.items) (trees_of work.new.nodes.items) (work_of work.new) result (row_of s (ctx_of env.now) (work_of work.old) syntax.Subscript at t (operands_in (trees_of work.old.nodes.items) os.now)) }
{
    let Few::Two(a, b) = counted(os) else {
        return Err(ElabFault::Memory);
    };
    let id = subscript(alloc, env, &mut work.nodes, at, a, b)?;
    Ok(operand(at, id))
}

// `e++` or `e--`
fn postfix_row(
    alloc: Global,
    env: &Env,
    tokens: &Tokens,
    at: At,
    token: u32,
    os: &[Operand],
    work: &mut Work,
) -> Result<Operand, ElabFault>
    requires { are_in (length (trees_of work.old.nodes.items)) os.now ≡ true }
    ensures { Types (trees_of work.old.nodes.items) (trees_of work.new.nodes.items) (work_of work.new) result (row_of (lexemes_of tokens.now) (ctx_of env.now) (work_of work.old) syntax.PostfixIncrement at token (operands_in (trees_of work.old.nodes.items) os.now)) }
{
    let Few::One(a) = counted(os) else {
        return Err(ElabFault::Memory);
    };
    let op = postfix_operator(spelling(tokens, token));
    let id = step(alloc, env, &mut work.nodes, op, true, at, a)?;
    Ok(operand(at, id))
}

// An operator before its operand.
fn unary_row(
    alloc: Global,
    env: &Env,
    tokens: &Tokens,
    at: At,
    token: u32,
    os: &[Operand],
    work: &mut Work,
) -> Result<Operand, ElabFault>
    requires { are_in (length (trees_of work.old.nodes.items)) os.now ≡ true }
    ensures { Types (trees_of work.old.nodes.items) (trees_of work.new.nodes.items) (work_of work.new) result (row_of (lexemes_of tokens.now) (ctx_of env.now) (work_of work.old) syntax.UnaryExpression at token (operands_in (trees_of work.old.nodes.items) os.now)) }
{
    let Few::One(a) = counted(os) else {
        return Err(ElabFault::Memory);
    };
    let id = unary(alloc, env, work, at, spelling(tokens, token), a)?;
    Ok(operand(at, id))
}

// An operator between its operands.
fn binary_row(
    alloc: Global,
    env: &Env,
    tokens: &Tokens,
    at: At,
    token: u32,
    os: &[Operand],
    work: &mut Work,
) -> Result<Operand, ElabFault>
    requires { are_in (length (trees_of work.old.nodes.items)) os.now ≡ true }
    ensures { Types (trees_of work.old.nodes.items) (trees_of work.new.nodes.items) (work_of work.new) result (row_of (lexemes_of tokens.now) (ctx_of env.now) (work_of work.old) syntax.BinaryExpression at token (operands_in (trees_of work.old.nodes.items) os.now)) }
{
    let Few::Two(a, b) = counted(os) else {
        return Err(ElabFault::Memory);
    };
    let id = operator(alloc, env, work, at, spelling(tokens, token), a, b)?;
    Ok(operand(at, id))
}

// `c ? a : b`
fn conditional_row(
    alloc: Global,
    env: &Env,
    at: At,
    os: &[Operand],
    work: &mut Work,
) -> Result<Operand, ElabFault>
    requires { are_in (length (trees_of work.old.nodes.items)) os.now ≡ true }
    ensures { (s : List Lexeme) (t : ℕ) → Types (trees_of work.old.nodes.items) (trees_of work.new.nodes.items) (work_of work.new) result (row_of s (ctx_of env.now) (work_of work.old) syntax.ConditionalExpression at t (operands_in (trees_of work.old.nodes.items) os.now)) }
{
    let Few::Three(test, a, b) = counted(os) else {
        return Err(ElabFault::Memory);
    };
    let id = conditional(alloc, env, work, at, test, a, b)?;
    Ok(operand(at, id))
}

// An assignment.
fn assignment_row(
    alloc: Global,
    env: &Env,
    tokens: &Tokens,
    at: At,
    token: u32,
    os: &[Operand],
    work: &mut Work,
) -> Result<Operand, ElabFault>
    requires { are_in (length (trees_of work.old.nodes.items)) os.now ≡ true }
    ensures { Types (trees_of work.old.nodes.items) (trees_of work.new.nodes.items) (work_of work.new) result (row_of (lexemes_of tokens.now) (ctx_of env.now) (work_of work.old) syntax.AssignmentExpression at token (operands_in (trees_of work.old.nodes.items) os.now)) }
{
    let Few::Two(a, b) = counted(os) else {
        return Err(ElabFault::Memory);
    };
    let id = assigned(alloc, env, work, at, spelling(tokens, token), a, b)?;
    Ok(operand(at, id))
}

// `a, b`
fn comma_row(
    alloc: Global,
    env: &Env,
    at: At,
    os: &[Operand],
    work: &mut Work,
) -> Result<Operand, ElabFault>
    requires { are_in (length (trees_of work.old.nodes.items)) os.now ≡ true }
    ensures { (s : List Lexeme) (t : ℕ) → Types (trees_of work.old.nodes.items) (trees_of work.new.nodes.items) (work_of work.new) result (row_of s (ctx_of env.now) (work_of work.old) syntax.CommaExpression at t (operands_in (trees_of work.old.nodes.items) os.now)) }
{
    let Few::Two(a, b) = counted(os) else {
        return Err(ElabFault::Memory);
    };
    let id = comma(alloc, env, work, at, a, b)?;
    Ok(operand(at, id))
}

/// `throw`, with an operand or without.
pub fn throw_row(
    alloc: Global,
    env: &Env,
    at: At,
    os: &[Operand],
    work: &mut Work,
) -> Result<Operand, ElabFault>
    requires { are_in (length (trees_of work.old.nodes.items)) os.now ≡ true }
    ensures { (s : List Lexeme) (t : ℕ) → Types (trees_of work.old.nodes.items) (trees_of work.new.nodes.items) (work_of work.new) result (row_of s (ctx_of env.now) (work_of work.old) syntax.ThrowExpression at t (operands_in (trees_of work.old.nodes.items) os.now)) }
{
    let id = throw(alloc, env, work, at, os)?;
    Ok(operand(at, id))
}

// `a.N`
fn member_row(
    alloc: Global,
    env: &Env,
    tokens: &Tokens,
    at: At,
    token: u32,
    os: &[Operand],
    work: &mut Work,
) -> Result<Operand, ElabFault>
    requires { are_in (length (trees_of work.old.nodes.items)) os.now ≡ true }
    ensures { Types (trees_of work.old.nodes.items) (trees_of work.new.nodes.items) (work_of work.new) result (row_of (lexemes_of tokens.now) (ctx_of env.now) (work_of work.old) syntax.MemberAccess at token (operands_in (trees_of work.old.nodes.items) os.now)) }
{
    let Few::One(a) = counted(os) else {
        return Err(ElabFault::Memory);
    };
    let dot = token_place(tokens, at.source, token);
    let id = member_access(alloc, env, work, at, dot, spelling(tokens, token), a)?;
    Ok(operand(at, id))
}

// `p->N` is `(*p).N`.
fn pointer_member_row(
    alloc: Global,
    env: &Env,
    tokens: &Tokens,
    at: At,
    token: u32,
    os: &[Operand],
    work: &mut Work,
) -> Result<Operand, ElabFault>
    requires { are_in (length (trees_of work.old.nodes.items)) os.now ≡ true }
    ensures { Types (trees_of work.old.nodes.items) (trees_of work.new.nodes.items) (work_of work.new) result (row_of (lexemes_of tokens.now) (ctx_of env.now) (work_of work.old) syntax.PointerMemberAccess at token (operands_in (trees_of work.old.nodes.items) os.now)) }
{
    let Few::One(a) = counted(os) else {
        return Err(ElabFault::Memory);
    };
    let target = indirection(alloc, &mut work.nodes, at, a)?;
    let dot = token_place(tokens, at.source, token);
    let object = operand(at, target);
    let id = member_access(alloc, env, work, at, dot, spelling(tokens, token), object)?;
    Ok(operand(at, id))
}

/// A form of a kind, at a place, with a token, from its operands.
pub fn row(
    alloc: Global,
    env: &Env,
    tokens: &Tokens,
    kind: NodeKind,
    at: At,
    token: u32,
    os: &[Operand],
    work: &mut Work,
) -> Result<Operand, ElabFault>
    requires { are_in (length (trees_of work.old.nodes.items)) os.now ≡ true }
    ensures { Types (trees_of work.old.nodes.items) (trees_of work.new.nodes.items) (work_of work.new) result (row_of (lexemes_of tokens.now) (ctx_of env.now) (work_of work.old) kind at token (operands_in (trees_of work.old.nodes.items) os.now)) }
{
    match kind {
        NodeKind::Subscript => subscript_row(alloc, env, at, os, work),
        NodeKind::PostfixIncrement => postfix_row(alloc, env, tokens, at, token, os, work),
        NodeKind::UnaryExpression => unary_row(alloc, env, tokens, at, token, os, work),
        NodeKind::BinaryExpression => binary_row(alloc, env, tokens, at, token, os, work),
        NodeKind::ConditionalExpression => conditional_row(alloc, env, at, os, work),
        NodeKind::AssignmentExpression => assignment_row(alloc, env, tokens, at, token, os, work),
        NodeKind::CommaExpression => comma_row(alloc, env, at, os, work),
        NodeKind::ThrowExpression => throw_row(alloc, env, at, os, work),
        NodeKind::MemberAccess => member_row(alloc, env, tokens, at, token, os, work),
        NodeKind::PointerMemberAccess => {
            pointer_member_row(alloc, env, tokens, at, token, os, work)
        }
        _ => Err(ill(at, IllRule::OutOfProfile)),
    }
}
