// Forms without operands: literals, strings, names (C++14 2.14, 5.1).

ghost use Rattle.std.specs.Prelude.{◌≡◌, Ok};
ghost use Rattle.elab_casts.specs.cpp_lex.Tokens.{lexemes_of};
ghost use Rattle.elab_casts.specs.cpp_types.Typ.{typ_of, shape_form};
ghost use Rattle.elab_casts.specs.cpp_tree.Arena.{trees_of};
ghost use Rattle.elab_casts.specs.cpp_tree.Notation.{plain};
ghost use Rattle.elab_casts.specs.cpp_tree.Trees.{node, none};
ghost use Rattle.elab_casts.specs.elab_ctx.Ctx.{ctx_of, work_of};
ghost use Rattle.elab_casts.specs.elab_ctx.Steps.{spelling as spelling_of};
ghost use Rattle.elab_casts.specs.elab_rules.Names.{named as named_of, this_tree as this_tree_of};
ghost use Rattle.elab_casts.specs.elab_rules.Expressions.{operand_at, integer_literal as integer_literal_of, literal_of, truth_word as truth_word_of, a_tree, leaf_or_row, leaf_of};
ghost use Rattle.elab_casts.specs.elab_rules.Casts.{string_made as string_made_of};
ghost use Rattle.elab_casts.specs.elab_rules.Strings.{string_bytes as string_bytes_of};
ghost use Rattle.elab_rows.specs.Typed.{Types};

use crate::few::operand;
use crate::rows::throw_row;
use elab_casts::below::{
    At, Builtin, Cat, ElabFault, Env, IllRule, IntKind, NodeKind, Operand, Shape, TKind, TNode,
    TNodeId, Tokens, Ty, Work, add_leaf, cpp_lex_int_type as int_type,
};
use elab_casts::string_made;
use elab_consts::{string_bytes, word_in};
use elab_names::parts::plain_type;
use elab_names::{named, this_tree};
use elab_types::specifiers::ill;
use elab_types::syntax::{spelling, value_at};
use std::alloc::Global;

// An integer.
fn integer_literal(
    alloc: Global,
    at: At,
    bytes: &[u8],
    value: u64,
    work: &mut Work,
) -> Result<Operand, ElabFault>
    ensures { Types (trees_of work.old.nodes.items) (trees_of work.new.nodes.items) (work_of work.new) result (integer_literal_of at bytes.now value (work_of work.old)) }
{
    let Some(kind) = int_type(bytes, value) else {
        return Err(ill(at, IllRule::OutOfProfile));
    };
    let literal = TKind::Literal { word: value };
    let ty = plain_type(Shape::Int(kind));
    let id = add_leaf(alloc, &mut work.nodes, literal, ty, Cat::Prvalue, at)?;
    Ok(Operand {
        id,
        at,
        zero: value == 0,
    })
}

// A character, or a truth value.
fn literal(
    alloc: Global,
    at: At,
    kind: IntKind,
    value: u64,
    work: &mut Work,
) -> Result<Operand, ElabFault>
    ensures { Types (trees_of work.old.nodes.items) (trees_of work.new.nodes.items) (work_of work.new) result (literal_of at kind value (work_of work.old)) }
{
    let literal = TKind::Literal {
        word: word_in(kind, value),
    };
    let ty = plain_type(Shape::Int(kind));
    let id = add_leaf(alloc, &mut work.nodes, literal, ty, Cat::Prvalue, at)?;
    Ok(operand(at, id))
}

fn truth_word(name: &[u8]) -> u64
    ensures { result ≡ truth_word_of name.now }
{
    if name == b"true".as_slice() { 1 } else { 0 }
}

// `nullptr`
fn null(alloc: Global, at: At, work: &mut Work) -> Result<Operand, ElabFault>
    ensures { Types (trees_of work.old.nodes.items) (trees_of work.new.nodes.items) (work_of work.new) result (Ok (operand_at at (record { tree = node (TKind.Literal 0) (plain (shape_form Shape.Null)) Cat.Prvalue at none; work = work_of work.old }))) }
{
    let literal = TKind::Literal { word: 0 };
    let ty = plain_type(Shape::Null);
    let id = add_leaf(alloc, &mut work.nodes, literal, ty, Cat::Prvalue, at)?;
    Ok(operand(at, id))
}

// `std::abort`
fn abort(alloc: Global, at: At, work: &mut Work) -> Result<Operand, ElabFault>
    ensures { Types (trees_of work.old.nodes.items) (trees_of work.new.nodes.items) (work_of work.new) result (Ok (operand_at at (record { tree = node (TKind.Builtin Builtin.Abort) (plain (shape_form Shape.Void)) Cat.Lvalue at none; work = work_of work.old }))) }
{
    let builtin = TKind::Builtin {
        which: Builtin::Abort,
    };
    let ty = plain_type(Shape::Void);
    let id = add_leaf(alloc, &mut work.nodes, builtin, ty, Cat::Lvalue, at)?;
    Ok(operand(at, id))
}

// A string.
fn string(alloc: Global, at: At, bytes: &[u8], work: &mut Work) -> Result<Operand, ElabFault>
    ensures { Types (trees_of work.old.nodes.items) (trees_of work.new.nodes.items) (work_of work.new) result (Ok (operand_at at (string_made_of (work_of work.old) at (string_bytes_of bytes.now)))) }
{
    let bytes = string_bytes(alloc, bytes)?;
    let id = string_made(alloc, work, at, &bytes)?;
    Ok(operand(at, id))
}

// `this`
fn this(alloc: Global, env: &Env, at: At, work: &mut Work) -> Result<Operand, ElabFault>
    ensures { Types (trees_of work.old.nodes.items) (trees_of work.new.nodes.items) (work_of work.new) result (a_tree at (work_of work.old) (this_tree_of (ctx_of env.now) at)) }
{
    let id = this_tree(alloc, env, &mut work.nodes, at)?;
    Ok(operand(at, id))
}

// A name.
fn name(
    alloc: Global,
    env: &Env,
    at: At,
    bytes: &[u8],
    work: &mut Work,
) -> Result<Operand, ElabFault>
    ensures { Types (trees_of work.old.nodes.items) (trees_of work.new.nodes.items) (work_of work.new) result (a_tree at (work_of work.old) (named_of (ctx_of env.now) (work_of work.old) at bytes.now)) }
{
    let id = named(alloc, env, work, at, bytes)?;
    Ok(operand(at, id))
}

// A literal or a name.
fn leaf(
    alloc: Global,
    env: &Env,
    tokens: &Tokens,
    kind: NodeKind,
    at: At,
    token: u32,
    work: &mut Work,
) -> Result<Operand, ElabFault>
    ensures { Types (trees_of work.old.nodes.items) (trees_of work.new.nodes.items) (work_of work.new) result (leaf_of (lexemes_of tokens.now) (ctx_of env.now) (work_of work.old) kind at token) }
{
    let bytes = spelling(tokens, token);
    let value = value_at(tokens, token);
    match kind {
        NodeKind::IntegerLiteral => integer_literal(alloc, at, bytes, value, work),
        NodeKind::CharacterLiteral => literal(alloc, at, IntKind::Char, value, work),
        NodeKind::BooleanLiteral => literal(alloc, at, IntKind::Bool, truth_word(bytes), work),
        NodeKind::PointerLiteral => null(alloc, at, work),
        NodeKind::StringLiteral => string(alloc, at, bytes, work),
        NodeKind::This => this(alloc, env, at, work),
        NodeKind::UnqualifiedId => name(alloc, env, at, bytes, work),
        NodeKind::StdAbort => abort(alloc, at, work),
        _ => Err(ill(at, IllRule::OutOfProfile)),
    }
}

/// A form without operands.
pub fn leaf_row(
    alloc: Global,
    env: &Env,
    tokens: &Tokens,
    kind: NodeKind,
    at: At,
    token: u32,
    work: &mut Work,
) -> Result<Operand, ElabFault>
    ensures { Types (trees_of work.old.nodes.items) (trees_of work.new.nodes.items) (work_of work.new) result (leaf_or_row (lexemes_of tokens.now) (ctx_of env.now) (work_of work.old) kind at token) }
{
    match kind {
        NodeKind::ThrowExpression => throw_row(alloc, env, at, &[], work),
        _ => leaf(alloc, env, tokens, kind, at, token, work),
    }
}
