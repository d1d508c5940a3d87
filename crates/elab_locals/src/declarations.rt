// Declarations of blocks (C++14 clause 7, 6.7).

ghost use Rattle.std.specs.Prelude.{◌≡◌, ◌<◌, List, length, true, Some, None, IfOk, OnOk};
ghost use Rattle.elab_scopes.specs.cpp_lex.Tokens.{lexemes_of};
ghost use Rattle.elab_scopes.specs.cpp_ast.Trees.{Tree, none};
ghost use Rattle.elab_scopes.specs.cpp_ast.Orders.{are_below};
ghost use Rattle.elab_scopes.specs.cpp_types.Typ.{typ_of};
ghost use Rattle.elab_scopes.specs.elab_ctx.Ctx.{ctx_of, special_of};
ghost use Rattle.elab_scopes.specs.elab_ctx.Says.{are_within};
ghost use Rattle.elab_scopes.specs.elab_rules.Statements.{is_trivial as is_trivial_of, is_direct_label as is_direct_label_of, class_is_skipped as class_is_skipped_of, may_be_skipped as may_be_skipped_of, is_own_name as is_own_name_of, name_of as name_of_of, block_declarator as block_declarator_of, block_declarators as block_declarators_of, block_declaration as block_declaration_of};
ghost use Rattle.elab_scopes.specs.elab_types.Shown.{declared_of};
ghost use Rattle.elab_scopes.specs.elab_types.Syntax.{syntax_of, tree_at, trees_at};
ghost use Rattle.elab_scopes.specs.States.{state_of, made};
ghost use Rattle.elab_scopes.specs.Says.{DoesAll};
ghost use Rattle.elab_locals.specs.Deducing.{declaring_of, Declares};
ghost use Rattle.elab_locals.specs.Declarators.{declared_from as declared_from_of, init_declarator as init_declarator_of, past_ctx, specified_by, DeclaresAll};

use crate::variables::variable;
use elab_scopes::below::{
    At, Declared, ElabFault, Env, IllRule, Label, NodeId, NodeKind, Nodes, Special, TNodeId,
    Tokens, Ty, class_number, elab_types_node_at as node_at, element_type, first_kid, ill, keep,
    keep_all, place, spelling, traits_of_class,
};
use elab_scopes::reading::{declared_by, specified as specified_type};
use elab_scopes::{MakeLambdas, State};
use std::alloc::{AllocError, Global};

fn is_trivial(special: Special) -> bool
    ensures { result ≡ is_trivial_of (special_of special) }
{
    match special {
        Special::Trivial => true,
        Special::Absent | Special::Function(_) => false,
    }
}

// Whether objects of a class may be passed by a jump.
fn class_is_skipped(env: &Env, class: u32) -> bool
    ensures { result ≡ class_is_skipped_of (ctx_of env.now) (Some class) }
{
    match traits_of_class(env, class) {
        Some(found) => is_trivial(found.default) && is_trivial(found.destructor),
        None => false,
    }
}

// Whether the declaration of a variable without an initialiser may be passed by a jump.
fn may_be_skipped(alloc: Global, env: &Env, ty: &Ty) -> Result<bool, AllocError>
    ensures { IfOk result (λ b. b ≡ may_be_skipped_of (ctx_of env.now) (typ_of ty.now) none) }
{
    let element = element_type(alloc, ty)?;
    match class_number(&element) {
        Some(class) => Ok(class_is_skipped(env, class)),
        None => Ok(true),
    }
}

// The same of a declaration with an initialiser, or without one.
fn is_skipped(alloc: Global, env: &Env, ty: &Ty, ids: &[NodeId]) -> Result<bool, AllocError>
    ensures { (trees : List Tree) → IfOk result (λ b. b ≡ may_be_skipped_of (ctx_of env.now) (typ_of ty.now) (trees_at trees ids.now)) }
{
    match first_kid(ids) {
        None => may_be_skipped(alloc, env, ty),
        Some(_) => Ok(false),
    }
}

fn is_direct_label(label: Label) -> bool
    ensures { result ≡ is_direct_label_of label }
{
    match label {
        Label::Direct => true,
        Label::Outside | Label::Inside | Label::InBlock => false,
    }
}

// What a declaration says to labels behind it.
fn past_declaration(alloc: Global, env: &mut Env, ty: &Ty, ids: &[NodeId]) -> Result<(), AllocError>
    ensures { (trees : List Tree) → OnOk result (ctx_of env.new ≡ past_ctx (typ_of ty.now) (trees_at trees ids.now) (ctx_of env.old)) }
{
    let skipped = is_skipped(alloc, env, ty, ids)?;
    let is_direct = is_direct_label(env.label);
    env.labels.is_past = env.labels.is_past || (is_direct && !skipped);
    Ok(())
}

// A name of its own: of no class, and of no destructor.
fn is_own_name(declared: &Declared) -> bool
    ensures { result ≡ is_own_name_of (declared_of declared.now) }
{
    declared.owner.is_none() && !declared.is_destructor
}

// The name of what is declared; nothing where it has none.
fn name_of(tokens: &Tokens, name: Option<u32>) -> &[u8]
    ensures { result.now ≡ name_of_of (lexemes_of tokens.now) name }
{
    match name {
        Some(token) => spelling(tokens, token),
        None => &[],
    }
}

// What a declarator declares, with its initialiser.
fn declared_from<L: MakeLambdas>(
    alloc: Global,
    lams: &L,
    tokens: &Tokens,
    nodes: &Nodes,
    parent: NodeId,
    ids: &[NodeId],
    st: &mut State,
    found: &Declared,
    at: At,
    auto: &mut Option<Ty>,
    list: &mut Vec<TNodeId>,
) -> Result<(), ElabFault>
    requires within { parent.0 < length nodes.now }
    requires lower { are_below parent.0 ids.now ≡ true }
    requires list { are_within (length (made st.old)) list.old.items ≡ true }
    ensures { Declares st.old st.new list.new.items auto.new result (declared_from_of (L.lambdas lams.now) (lexemes_of tokens.now) at (declaring_of st.old list.old.items auto.old) (declared_of found.now) (trees_at (syntax_of nodes.now) ids.now)) }
{
    if !is_own_name(found) {
        return Err(ill(at, IllRule::BadDeclaration));
    }
    let name = name_of(tokens, found.name);
    let made = variable(
        alloc, lams, tokens, nodes, parent, ids, st, name, &found.ty, at, auto,
    )?;
    past_declaration(alloc, &mut st.env, &found.ty, ids)?;
    keep(list, made)?;
    Ok(())
}

// What is declared of a type by a declarator that has a name, with the initialiser behind it.
fn init_declarator<L: MakeLambdas>(
    alloc: Global,
    lams: &L,
    tokens: &Tokens,
    nodes: &Nodes,
    parent: NodeId,
    kid: NodeId,
    ids: &[NodeId],
    st: &mut State,
    ty: &Ty,
    at: At,
    auto: &mut Option<Ty>,
    list: &mut Vec<TNodeId>,
) -> Result<(), ElabFault>
    requires within { parent.0 < length nodes.now }
    requires kid { kid.0 < parent.0 }
    requires lower { are_below parent.0 ids.now ≡ true }
    requires list { are_within (length (made st.old)) list.old.items ≡ true }
    ensures { Declares st.old st.new list.new.items auto.new result (init_declarator_of (L.lambdas lams.now) (lexemes_of tokens.now) at (typ_of ty.now) (declaring_of st.old list.old.items auto.old) (tree_at (syntax_of nodes.now) kid) (trees_at (syntax_of nodes.now) ids.now)) }
{
    let found = declared_by(alloc, &st.env, tokens, nodes, at, ty, kid, &mut st.work)?;
    declared_from(
        alloc, lams, tokens, nodes, parent, ids, st, &found, at, auto, list,
    )
}

// One declarator.
fn declarator<L: MakeLambdas>(
    alloc: Global,
    lams: &L,
    tokens: &Tokens,
    nodes: &Nodes,
    id: NodeId,
    st: &mut State,
    ty: &Ty,
    auto: &mut Option<Ty>,
    list: &mut Vec<TNodeId>,
) -> Result<(), ElabFault>
    requires within { id.0 < length nodes.now }
    requires list { are_within (length (made st.old)) list.old.items ≡ true }
    ensures { Declares st.old st.new list.new.items auto.new result (block_declarator_of (L.lambdas lams.now) (lexemes_of tokens.now) (typ_of ty.now) (declaring_of st.old list.old.items auto.old) (tree_at (syntax_of nodes.now) id)) }
{
    let node = node_at(nodes, id);
    let at = place(node.at);
    match node.kind {
        NodeKind::InitDeclarator => {
            let Some(kid) = first_kid(&node.kids) else {
                return Err(ill(at, IllRule::OutOfProfile));
            };
            init_declarator(
                alloc,
                lams,
                tokens,
                nodes,
                id,
                kid,
                &node.kids[1..],
                st,
                ty,
                at,
                auto,
                list,
            )
        }
        _ => Err(ill(at, IllRule::OutOfProfile)),
    }
}

// Several declarators, one behind the other.
fn declarators<L: MakeLambdas>(
    alloc: Global,
    lams: &L,
    tokens: &Tokens,
    nodes: &Nodes,
    parent: NodeId,
    ids: &[NodeId],
    st: &mut State,
    ty: &Ty,
    list: &mut Vec<TNodeId>,
) -> Result<(), ElabFault>
    requires within { parent.0 < length nodes.now }
    requires lower { are_below parent.0 ids.now ≡ true }
    requires list { are_within (length (made st.old)) list.old.items ≡ true }
    ensures { DeclaresAll st.old st.new list.new.items result (block_declarators_of (L.lambdas lams.now) (lexemes_of tokens.now) (typ_of ty.now) (declaring_of st.old list.old.items None) (trees_at (syntax_of nodes.now) ids.now)) }
{
    let mut deduced = None;
    for id in ids {
        declarator(alloc, lams, tokens, nodes, *id, st, ty, &mut deduced, list)?;
    }
    Ok(())
}

// The type of a declaration, then what it declares.
fn specified<L: MakeLambdas>(
    alloc: Global,
    lams: &L,
    tokens: &Tokens,
    nodes: &Nodes,
    parent: NodeId,
    specifiers: NodeId,
    ids: &[NodeId],
    st: &mut State,
    out: &mut Vec<TNodeId>,
) -> Result<(), ElabFault>
    requires within { parent.0 < length nodes.now }
    requires specifiers { specifiers.0 < length nodes.now }
    requires lower { are_below parent.0 ids.now ≡ true }
    requires out { are_within (length (made st.old)) out.old.items ≡ true }
    ensures { DoesAll st.old st.new out.old.items out.new.items result (specified_by (L.lambdas lams.now) (lexemes_of tokens.now) (state_of st.old) (tree_at (syntax_of nodes.now) specifiers) (trees_at (syntax_of nodes.now) ids.now)) }
{
    let ty = specified_type(alloc, &st.env, tokens, nodes, specifiers, &mut st.work)?;
    let mut list = Vec::new(alloc);
    declarators(alloc, lams, tokens, nodes, parent, ids, st, &ty, &mut list)?;
    keep_all(out, &list)?;
    Ok(())
}

/// A declaration in a block: a variable for each declarator. Attributes may stand before it.
pub fn block_declaration<L: MakeLambdas>(
    alloc: Global,
    lams: &L,
    tokens: &Tokens,
    nodes: &Nodes,
    parent: NodeId,
    ids: &[NodeId],
    st: &mut State,
    at: At,
    out: &mut Vec<TNodeId>,
) -> Result<(), ElabFault>
    requires within { parent.0 < length nodes.now }
    requires lower { are_below parent.0 ids.now ≡ true }
    requires out { are_within (length (made st.old)) out.old.items ≡ true }
    ensures { DoesAll st.old st.new out.old.items out.new.items result (block_declaration_of (L.lambdas lams.now) (lexemes_of tokens.now) (state_of st.old) at (trees_at (syntax_of nodes.now) ids.now)) }
{
    let Some(first) = first_kid(ids) else {
        return Err(ill(at, IllRule::OutOfProfile));
    };
    match node_at(nodes, first).kind {
        NodeKind::Attribute => block_declaration(
            alloc,
            lams,
            tokens,
            nodes,
            parent,
            &ids[1..],
            st,
            at,
            out,
        ),
        NodeKind::TypeSpecifierSeq => specified(
            alloc,
            lams,
            tokens,
            nodes,
            parent,
            first,
            &ids[1..],
            st,
            out,
        ),
        _ => Err(ill(at, IllRule::OutOfProfile)),
    }
}
