// What is written for the parts of an object in a constructor (C++14 12.6.2).

ghost use Rattle.std.specs.Prelude.{◌≡◌, ◌<◌, ◌++◌, ◌∷◌, [], length, true, is_none, slice_get, OnOk};
ghost use Rattle.elab_entry.specs.cpp_types.Typ.{typ_of};
ghost use Rattle.elab_entry.specs.cpp_types.Class.{classes_of};
ghost use Rattle.elab_entry.specs.cpp_ast.Orders.{are_below};
ghost use Rattle.elab_entry.specs.cpp_lex.Tokens.{lexemes_of};
ghost use Rattle.elab_entry.specs.elab_ctx.Ctx.{ctx_of};
ghost use Rattle.elab_entry.specs.elab_ctx.Says.{Tells};
ghost use Rattle.elab_entry.specs.elab_rules.Calls.{base_of_class as base_of_class_of};
ghost use Rattle.elab_entry.specs.elab_rules.Members.{is_named_class, is_base_type, given_by as given_by_of, all_given as all_given_of};
ghost use Rattle.elab_entry.specs.elab_types.Shown.{Says};
ghost use Rattle.elab_entry.specs.elab_types.Syntax.{syntax_of, tree_at, trees_at};
ghost use Rattle.elab_entry.specs.elab_scopes.States.{state_of, made};
ghost use Rattle.elab_implicit.specs.Written.{are_there, found_for};
ghost use Rattle.elab_members.specs.Giving.{giving_in, Gathers, GathersAll, part_more, member_by, base_by, base_found, member_found};

use crate::parts::part_given;
use elab_implicit::below::{
    At, ElabFault, Env, IllRule, MakeLambdas, NodeId, NodeKind, Nodes, State, Tokens, Ty,
    class_number, elab_types_node_at as node_at, ill, place, spelling, type_named,
    unqualified_type,
};
use elab_implicit::given::{Given, given_for};
use elab_implicit::parts::{base_of_class, member_of_class, member_type};
use std::alloc::{AllocError, Global};

fn keep_given(list: &mut Vec<Given>, given: Given) -> Result<(), AllocError>
    ensures { OnOk result (list.new.items ≡ list.old.items ++ given ∷ []) }
{
    list.push(given)?;
    Ok(())
}

// Whether nothing is written yet for a part.
fn is_open(list: &[Given], member: Option<u32>) -> bool
    ensures { result ≡ is_none (found_for member list.now) }
{
    given_for(list, member).is_none()
}

// A part by the values that are the kids of a node; each part is initialised at most once.
fn given_part<L: MakeLambdas>(
    alloc: Global,
    lams: &L,
    tokens: &Tokens,
    nodes: &Nodes,
    st: &mut State,
    class: u32,
    list: &mut Vec<Given>,
    member: Option<u32>,
    ty: &Ty,
    at: At,
    parent: NodeId,
    ids: &[NodeId],
) -> Result<(), ElabFault>
    requires within { parent.0 < length nodes.now }
    requires lower { are_below parent.0 ids.now ≡ true }
    requires there { are_there (length (made st.old)) list.old.items ≡ true }
    ensures { Gathers st.old st.new list.new.items result (part_more (L.lambdas lams.now) (lexemes_of tokens.now) class (giving_in st.old list.old.items) member at (typ_of ty.now) (trees_at (syntax_of nodes.now) ids.now)) }
{
    if !is_open(list, member) {
        return Err(ill(at, IllRule::Redeclared));
    }
    let init = part_given(
        alloc, lams, tokens, nodes, st, class, member, ty, at, parent, ids,
    )?;
    keep_given(list, Given { member, at, init })?;
    Ok(())
}

fn is_class(ty: &Ty, class: u32) -> bool
    ensures { result ≡ is_named_class class (typ_of ty.now) }
{
    match class_number(ty) {
        Some(found) => found == class,
        None => false,
    }
}

fn is_base(env: &Env, class: u32, ty: &Ty) -> bool
    ensures { result ≡ is_base_type (base_of_class_of (slice_get (classes_of env.now.classes.items) class)) (typ_of ty.now) }
{
    match base_of_class(env, class) {
        Some(base) => is_class(ty, base),
        None => false,
    }
}

// The type of the direct base that a name names (profile: not the class itself).
fn base_named(alloc: Global, env: &Env, class: u32, at: At, name: &[u8]) -> Result<Ty, ElabFault>
    ensures { Says typ_of result (base_found (ctx_of env.now) class at name.now) }
{
    let Some(found) = type_named(&env.types, name) else {
        return Err(ill(at, IllRule::UnknownName));
    };
    if is_class(found, class) {
        return Err(ill(at, IllRule::OutOfProfile));
    }
    if !is_base(env, class, found) {
        return Err(ill(at, IllRule::NoMember));
    }
    Ok(unqualified_type(alloc, found)?)
}

// The index of the member that a name names.
fn member_named(env: &Env, class: u32, at: At, name: &[u8]) -> Result<u32, ElabFault>
    ensures { Tells result (member_found (ctx_of env.now) class at name.now) }
{
    match member_of_class(env, class, name)? {
        Some(member) => Ok(member),
        None => Err(ill(at, IllRule::NoMember)),
    }
}

// An initialiser of the member that a token names.
fn given_member<L: MakeLambdas>(
    alloc: Global,
    lams: &L,
    tokens: &Tokens,
    nodes: &Nodes,
    st: &mut State,
    class: u32,
    list: &mut Vec<Given>,
    at: At,
    token: u32,
    parent: NodeId,
    ids: &[NodeId],
) -> Result<(), ElabFault>
    requires within { parent.0 < length nodes.now }
    requires lower { are_below parent.0 ids.now ≡ true }
    requires there { are_there (length (made st.old)) list.old.items ≡ true }
    ensures { Gathers st.old st.new list.new.items result (member_by (L.lambdas lams.now) (lexemes_of tokens.now) class (giving_in st.old list.old.items) at token (trees_at (syntax_of nodes.now) ids.now)) }
{
    let member = member_named(&st.env, class, at, spelling(tokens, token))?;
    let ty = member_type(alloc, &st.env, class, member)?;
    given_part(
        alloc,
        lams,
        tokens,
        nodes,
        st,
        class,
        list,
        Some(member),
        &ty,
        at,
        parent,
        ids,
    )
}

// An initialiser of the base that a token names.
fn given_base<L: MakeLambdas>(
    alloc: Global,
    lams: &L,
    tokens: &Tokens,
    nodes: &Nodes,
    st: &mut State,
    class: u32,
    list: &mut Vec<Given>,
    at: At,
    token: u32,
    parent: NodeId,
    ids: &[NodeId],
) -> Result<(), ElabFault>
    requires within { parent.0 < length nodes.now }
    requires lower { are_below parent.0 ids.now ≡ true }
    requires there { are_there (length (made st.old)) list.old.items ≡ true }
    ensures { Gathers st.old st.new list.new.items result (base_by (L.lambdas lams.now) (lexemes_of tokens.now) class (giving_in st.old list.old.items) at token (trees_at (syntax_of nodes.now) ids.now)) }
{
    let ty = base_named(alloc, &st.env, class, at, spelling(tokens, token))?;
    given_part(
        alloc, lams, tokens, nodes, st, class, list, None, &ty, at, parent, ids,
    )
}

// An initialiser of the base or of a member.
fn given_by<L: MakeLambdas>(
    alloc: Global,
    lams: &L,
    tokens: &Tokens,
    nodes: &Nodes,
    st: &mut State,
    class: u32,
    list: &mut Vec<Given>,
    id: NodeId,
) -> Result<(), ElabFault>
    requires within { id.0 < length nodes.now }
    requires there { are_there (length (made st.old)) list.old.items ≡ true }
    ensures { Gathers st.old st.new list.new.items result (given_by_of (L.lambdas lams.now) (lexemes_of tokens.now) class (giving_in st.old list.old.items) (tree_at (syntax_of nodes.now) id)) }
{
    let node = node_at(nodes, id);
    let at = place(node.at);
    let Some(token) = node.token else {
        return Ok(());
    };
    match node.kind {
        NodeKind::MemberInitializer => given_member(
            alloc, lams, tokens, nodes, st, class, list, at, token, id, &node.kids,
        ),
        NodeKind::BaseInitializer => given_base(
            alloc, lams, tokens, nodes, st, class, list, at, token, id, &node.kids,
        ),
        _ => Ok(()),
    }
}

/// What is written for the parts of an object, in the order of the text.
pub fn all_given<L: MakeLambdas>(
    alloc: Global,
    lams: &L,
    tokens: &Tokens,
    nodes: &Nodes,
    st: &mut State,
    class: u32,
    ids: &[NodeId],
) -> Result<Vec<Given>, ElabFault>
    requires { are_below (length nodes.now) ids.now ≡ true }
    ensures { GathersAll st.old st.new result (all_given_of (L.lambdas lams.now) (lexemes_of tokens.now) class (record { state = state_of st.old; given = [] }) (trees_at (syntax_of nodes.now) ids.now)) }
{
    let mut list = Vec::new(alloc);
    for id in ids {
        given_by(alloc, lams, tokens, nodes, st, class, &mut list, *id)?;
    }
    Ok(list)
}
