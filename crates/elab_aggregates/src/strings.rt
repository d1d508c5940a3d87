// Strings that initialise arrays of characters (C++14 8.5.2).

ghost use Rattle.std.specs.Prelude.{◌≡◌, ◌<◌, ◌-◌, IfOk, length};
ghost use Rattle.elab_make.specs.cpp_types.Typ.{typ_of, int, array};
ghost use Rattle.elab_make.specs.cpp_types.Class.{classes_of};
ghost use Rattle.elab_make.specs.cpp_tree.Trees.{node, one, none};
ghost use Rattle.elab_make.specs.cpp_tree.Arena.{trees_of, Adds};
ghost use Rattle.elab_make.specs.cpp_tree.Notation.{plain};
ghost use Rattle.elab_make.specs.cpp_tree.Typing.{form_in, unqualified, kind_in};
ghost use Rattle.elab_make.specs.elab_ctx.Ctx.{ctx_of};
ghost use Rattle.elab_make.specs.elab_ctx.Says.{AddsAll, Gives};
ghost use Rattle.elab_make.specs.elab_rules.Values.{stored as stored_of};
ghost use Rattle.elab_make.specs.elab_rules.Objects.{zeros as zeros_of};
ghost use Rattle.elab_make.specs.elab_rules.Braces.{is_char as is_char_of, is_char_array as is_char_array_of, string_token as string_token_of, byte_word as byte_word_of, byte_pieces as byte_pieces_of, zero_rest as zero_rest_of, string_object as string_object_of, followed};
ghost use Rattle.elab_types.specs.Syntax.{syntax_of, tree_at};
ghost use Rattle.elab_aggregates.specs.StringForms.{string_in as string_in_of};

use crate::pieces::pieces_made;
use elab_consts::word_in;
use elab_make::below::{
    At, Cat, ElabFault, Env, IllRule, IntKind, NodeId, NodeKind, Nodes, Shape, TKind, TNode,
    TNodeId, Ty, add_leaf, add_unary, copy, elab_init_ill as ill, keep, keep_all, kind_of, stored,
    unqualified_type, zeros,
};
use elab_make::one_of;
use elab_types::kids::{Kids, kids_of};
use elab_types::syntax::node_at;
use std::alloc::{AllocError, Global};

// Whether a type is one of characters.
fn is_char(ty: &Ty) -> bool
    ensures { result ≡ is_char_of (form_in (typ_of ty.now)) }
{
    match &ty.shape {
        Shape::Int(kind) => is_char_kind(*kind),
        Shape::Void
        | Shape::Enum { .. }
        | Shape::Null
        | Shape::Ptr(_)
        | Shape::Ref(_)
        | Shape::Array(_, _)
        | Shape::Func(_)
        | Shape::Class(_)
        | Shape::Closure(_)
        | Shape::TxEx(_) => false,
    }
}

fn is_char_kind(kind: IntKind) -> bool
    ensures { result ≡ is_char_of (int kind) }
{
    match kind {
        IntKind::Char | IntKind::SChar | IntKind::UChar => true,
        IntKind::Bool
        | IntKind::Short
        | IntKind::UShort
        | IntKind::Int
        | IntKind::UInt
        | IntKind::Long
        | IntKind::ULong
        | IntKind::LLong
        | IntKind::ULLong => false,
    }
}

/// Whether a type is an array of characters.
pub fn is_char_array(ty: &Ty) -> bool
    ensures { result ≡ is_char_array_of (typ_of ty.now) }
{
    match &ty.shape {
        Shape::Array(element, _) => is_char(element),
        Shape::Void
        | Shape::Int(_)
        | Shape::Enum { .. }
        | Shape::Null
        | Shape::Ptr(_)
        | Shape::Ref(_)
        | Shape::Func(_)
        | Shape::Class(_)
        | Shape::Closure(_)
        | Shape::TxEx(_) => false,
    }
}

/// The token of a string, in parentheses or not.
pub fn string_token(nodes: &Nodes, id: NodeId) -> Option<u32>
    requires { id.0 < length nodes.now }
    ensures { result ≡ string_token_of (tree_at (syntax_of nodes.now) id) }
{
    let node = node_at(nodes, id);
    match node.kind {
        NodeKind::StringLiteral => node.token,
        NodeKind::ParenthesizedExpression => match kids_of(&node.kids) {
            Kids::One(kid) => string_token(nodes, kid),
            Kids::None | Kids::Two(_, _) | Kids::Three(_, _, _) | Kids::Many => None,
        },
        _ => None,
    }
}

// A byte as a word of a kind.
fn byte_word(kind: Option<IntKind>, byte: u8) -> u64
    ensures { result ≡ byte_word_of kind byte }
{
    match kind {
        Some(kind) => word_in(kind, byte as u64),
        None => byte as u64,
    }
}

// A character that is stored.
fn stored_byte(
    alloc: Global,
    nodes: &mut Vec<TNode>,
    ty: &Ty,
    at: At,
    byte: u8,
) -> Result<TNodeId, AllocError>
    ensures { IfOk result (λ r. Adds (trees_of nodes.old.items) (trees_of nodes.new.items) r (stored_of at (typ_of ty.now) (node (TKind.Literal (byte_word_of (kind_in (form_in (typ_of ty.now))) byte)) (unqualified (typ_of ty.now)) Cat.Prvalue at none))) }
{
    let bare = unqualified_type(alloc, ty)?;
    let word = byte_word(kind_of(ty), byte);
    let literal = add_leaf(
        alloc,
        nodes,
        TKind::Literal { word },
        bare,
        Cat::Prvalue,
        at,
    )?;
    stored(alloc, nodes, at, ty, literal)
}

// A character of an array.
fn byte_piece(
    alloc: Global,
    nodes: &mut Vec<TNode>,
    ty: &Ty,
    at: At,
    i: usize,
    byte: u8,
) -> Result<TNodeId, AllocError>
    ensures { IfOk result (λ r. Adds (trees_of nodes.old.items) (trees_of nodes.new.items) r (node (TKind.Piece i) (typ_of ty.now) Cat.Prvalue at (one (stored_of at (typ_of ty.now) (node (TKind.Literal (byte_word_of (kind_in (form_in (typ_of ty.now))) byte)) (unqualified (typ_of ty.now)) Cat.Prvalue at none))))) }
{
    let Ok(offset) = u32::try_from(i) else {
        return Err(AllocError);
    };
    let init = stored_byte(alloc, nodes, ty, at, byte)?;
    let ty = copy(alloc, ty)?;
    add_unary(
        alloc,
        nodes,
        TKind::Piece { offset },
        ty,
        Cat::Prvalue,
        at,
        init,
    )
}

// The characters of an array.
fn byte_pieces(
    alloc: Global,
    nodes: &mut Vec<TNode>,
    ty: &Ty,
    at: At,
    bytes: &[u8],
) -> Result<Vec<TNodeId>, AllocError>
    ensures { IfOk result (λ ids. AddsAll (trees_of nodes.old.items) (trees_of nodes.new.items) ids.items (byte_pieces_of (typ_of ty.now) at 0 bytes.now)) }
{
    let mut kids = Vec::new(alloc);
    for (i, byte) in bytes.iter().enumerate() {
        let kid = byte_piece(alloc, nodes, ty, at, i, *byte)?;
        keep(&mut kids, kid)?;
    }
    Ok(kids)
}

/// An array of so many elements.
pub fn array_type(alloc: Global, element: &Ty, count: u32) -> Result<Ty, AllocError>
    ensures { IfOk result (λ t. typ_of t ≡ plain (array (typ_of element.now) count)) }
{
    let element = Box::new(alloc, copy(alloc, element)?)?;
    Ok(Ty {
        shape: Shape::Array(element, count),
        is_const: false,
        is_volatile: false,
    })
}

// The zeros behind the characters of a string, as one part.
fn zero_piece(
    alloc: Global,
    env: &Env,
    nodes: &mut Vec<TNode>,
    ty: Ty,
    at: At,
    offset: u32,
) -> Result<TNodeId, AllocError>
    ensures { IfOk result (λ r. Adds (trees_of nodes.old.items) (trees_of nodes.new.items) r (node (TKind.Piece offset) (typ_of ty) Cat.Prvalue at (one (zeros_of (classes_of env.now.classes.items) at (typ_of ty))))) }
{
    let init = zeros(alloc, env, nodes, at, &ty)?;
    add_unary(
        alloc,
        nodes,
        TKind::Piece { offset },
        ty,
        Cat::Prvalue,
        at,
        init,
    )
}

// The same, if there are any.
fn zero_rest(
    alloc: Global,
    env: &Env,
    nodes: &mut Vec<TNode>,
    element: &Ty,
    at: At,
    offset: u32,
    count: u32,
) -> Result<Vec<TNodeId>, AllocError>
    ensures { IfOk result (λ ids. AddsAll (trees_of nodes.old.items) (trees_of nodes.new.items) ids.items (zero_rest_of (ctx_of env.now) (typ_of element.now) at offset count)) }
{
    if count == 0 {
        return Ok(Vec::new(alloc));
    }
    let ty = array_type(alloc, element, count)?;
    let kid = zero_piece(alloc, env, nodes, ty, at, offset)?;
    one_of(alloc, kid)
}

// The parts of an array of characters that a string initialises.
fn string_pieces(
    alloc: Global,
    env: &Env,
    nodes: &mut Vec<TNode>,
    element: &Ty,
    at: At,
    bytes: &[u8],
    offset: u32,
    count: u32,
) -> Result<Vec<TNodeId>, AllocError>
    ensures { IfOk result (λ ids. AddsAll (trees_of nodes.old.items) (trees_of nodes.new.items) ids.items (followed (byte_pieces_of (typ_of element.now) at 0 bytes.now) (zero_rest_of (ctx_of env.now) (typ_of element.now) at offset count))) }
{
    let mut kids = byte_pieces(alloc, nodes, element, at, bytes)?;
    let rest = zero_rest(alloc, env, nodes, element, at, offset, count)?;
    keep_all(&mut kids, &rest)?;
    Ok(kids)
}

// An array of characters by a string that fits into it.
fn string_array(
    alloc: Global,
    env: &Env,
    nodes: &mut Vec<TNode>,
    ty: &Ty,
    element: &Ty,
    at: At,
    bytes: &[u8],
    count: u32,
) -> Result<TNodeId, AllocError>
    requires { length bytes.now < count }
    ensures { IfOk result (λ r. Adds (trees_of nodes.old.items) (trees_of nodes.new.items) r (node TKind.Pieces (typ_of ty.now) Cat.Prvalue at (followed (byte_pieces_of (typ_of element.now) at 0 bytes.now) (zero_rest_of (ctx_of env.now) (typ_of element.now) at (length bytes.now) (count - length bytes.now))))) }
{
    let offset = bytes.len() as u32;
    let kids = string_pieces(
        alloc,
        env,
        nodes,
        element,
        at,
        bytes,
        offset,
        count - offset,
    )?;
    pieces_made(alloc, nodes, ty, at, kids)
}

// The same by what the type is.
fn string_in(
    alloc: Global,
    env: &Env,
    nodes: &mut Vec<TNode>,
    ty: &Ty,
    at: At,
    bytes: &[u8],
) -> Result<TNodeId, ElabFault>
    ensures { Gives (trees_of nodes.old.items) (trees_of nodes.new.items) result (string_in_of (ctx_of env.now) (typ_of ty.now) (form_in (typ_of ty.now)) at bytes.now) }
{
    match &ty.shape {
        Shape::Array(element, count) => {
            if bytes.len() >= *count as usize {
                return Err(ill(at, IllRule::BadInit));
            }
            let made = string_array(alloc, env, nodes, ty, element, at, bytes, *count)?;
            Ok(made)
        }
        Shape::Void
        | Shape::Int(_)
        | Shape::Enum { .. }
        | Shape::Null
        | Shape::Ptr(_)
        | Shape::Ref(_)
        | Shape::Func(_)
        | Shape::Class(_)
        | Shape::Closure(_)
        | Shape::TxEx(_) => Err(ill(at, IllRule::BadInit)),
    }
}

/// An array of characters by the bytes of a string; a zero stands behind them.
pub fn string_object(
    alloc: Global,
    env: &Env,
    nodes: &mut Vec<TNode>,
    ty: &Ty,
    at: At,
    bytes: &[u8],
) -> Result<TNodeId, ElabFault>
    ensures { Gives (trees_of nodes.old.items) (trees_of nodes.new.items) result (string_object_of (ctx_of env.now) (typ_of ty.now) at bytes.now) }
{
    string_in(alloc, env, nodes, ty, at, bytes)
}
