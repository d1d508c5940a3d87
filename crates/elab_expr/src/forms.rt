// Forms of nodes, and the qualifiers of a pointer.

ghost use Rattle.std.specs.Prelude.{◌≡◌, ◌<◌, ◌++◌, ◌∷◌, [], length, true, IfOk, OnOk};
ghost use Rattle.elab_rows.specs.cpp_lex.Tokens.{lexemes_of};
ghost use Rattle.elab_rows.specs.cpp_ast.Orders.{are_below};
ghost use Rattle.elab_rows.specs.cpp_types.Typ.{typ_of};
ghost use Rattle.elab_rows.specs.elab_types.Syntax.{syntax_of, trees_at};
ghost use Rattle.elab_expr.specs.Forms.{is_over_operands as is_over_operands_of, is_exception as is_exception_of, is_integer_literal as is_integer_literal_of, is_qualifier as is_qualifier_of, are_qualifiers, all_qualified as all_qualified_of};

use elab_rows::below::{
    NodeId, NodeKind, Nodes, Operand, Parameter, Tokens, Ty, elab_types_node_at as node_at,
    pointer_qualified,
};
use std::alloc::{AllocError, Global};

/// Whether a kind is that of a leaf, or of a form whose kids are all operands.
pub fn is_over_operands(kind: NodeKind) -> bool
    ensures { result ≡ is_over_operands_of kind }
{
    match kind {
        NodeKind::ParenthesizedExpression
        | NodeKind::FunctionCall
        | NodeKind::FunctionalCast
        | NodeKind::StaticCast
        | NodeKind::CastExpression
        | NodeKind::SizeofExpression
        | NodeKind::SizeofType
        | NodeKind::Lambda
        | NodeKind::QualifiedId => false,
        _ => true,
    }
}

/// Whether a specifier of a kind holds a type-id.
pub fn is_exception(kind: NodeKind) -> bool
    ensures { result ≡ is_exception_of kind }
{
    match kind {
        NodeKind::TxException => true,
        _ => false,
    }
}

/// Whether a kind is that of an integer literal.
pub fn is_integer_literal(kind: NodeKind) -> bool
    ensures { result ≡ is_integer_literal_of kind }
{
    match kind {
        NodeKind::IntegerLiteral => true,
        _ => false,
    }
}

fn is_qualifier(kind: NodeKind) -> bool
    ensures { result ≡ is_qualifier_of kind }
{
    match kind {
        NodeKind::CvQualifier => true,
        _ => false,
    }
}

/// A pointer with the qualifiers behind its star. Other nodes in their place count as want of memory.
pub fn all_qualified(
    alloc: Global,
    tokens: &Tokens,
    nodes: &Nodes,
    pointer: Ty,
    ids: &[NodeId],
) -> Result<Ty, AllocError>
    requires { are_below (length nodes.now) ids.now ≡ true }
    ensures are { IfOk result (λ t. are_qualifiers (trees_at (syntax_of nodes.now) ids.now) ≡ true) }
    ensures typ { IfOk result (λ t. typ_of t ≡ all_qualified_of (lexemes_of tokens.now) (typ_of pointer) (trees_at (syntax_of nodes.now) ids.now)) }
{
    if ids.is_empty() {
        return Ok(pointer);
    }
    let first = node_at(nodes, ids[0]);
    if !is_qualifier(first.kind) {
        return Err(AllocError);
    }
    let Some(token) = first.token else {
        return Err(AllocError);
    };
    let qualified = pointer_qualified(alloc, tokens, token, &pointer)?;
    all_qualified(alloc, tokens, nodes, qualified, &ids[1..])
}

/// One more operand.
pub fn keep_operand(list: &mut Vec<Operand>, operand: Operand) -> Result<(), AllocError>
    ensures { OnOk result (list.new.items ≡ list.old.items ++ operand ∷ []) }
{
    list.push(operand)?;
    Ok(())
}

/// One more parameter.
pub fn keep_parameter(list: &mut Vec<Parameter>, param: Parameter) -> Result<(), AllocError>
    ensures { OnOk result (list.new.items ≡ list.old.items ++ param ∷ []) }
{
    list.push(param)?;
    Ok(())
}
