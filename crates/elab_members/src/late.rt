// Bodies of members that stand in their class: they are read behind the brace (C++14 9.2 p2).

ghost use Rattle.std.specs.Prelude.{◌≡◌, ◌<◌, ◌≤◌, length, true, OnOk};
ghost use Rattle.elab_entry.specs.cpp_ast.Orders.{are_below};
ghost use Rattle.elab_entry.specs.cpp_lex.Tokens.{lexemes_of};
ghost use Rattle.elab_entry.specs.cpp_types.Typ.{signature_of};
ghost use Rattle.elab_entry.specs.cpp_types.Equal.{typ_eq};
ghost use Rattle.elab_entry.specs.elab_ctx.Ctx.{ctx_of};
ghost use Rattle.elab_entry.specs.elab_ctx.Says.{Tells};
ghost use Rattle.elab_entry.specs.elab_rules.Initialising.{signature_result};
ghost use Rattle.elab_entry.specs.elab_rules.Members.{place_of_header as place_of_header_of};
ghost use Rattle.elab_entry.specs.elab_types.Shown.{Says};
ghost use Rattle.elab_entry.specs.elab_types.Syntax.{syntax_of, tree_at, trees_at};
ghost use Rattle.elab_entry.specs.elab_scopes.States.{state_of};
ghost use Rattle.elab_entry.specs.elab_scopes.Says.{Changes};
ghost use Rattle.class_members.specs.Shown.{Answers, definition_of, header_of};
ghost use Rattle.class_table.specs.Written.{method_shown};
ghost use Rattle.elab_members.specs.Whole.{late_found as late_found_of, late_kept, late_with, late_function as late_function_of, late_kind as late_kind_of, late_of as late_of_of, all_late as all_late_of};

use crate::methods::method_body;
use crate::syntax::kids_in;
use class_members::{Definition, first_same};
use class_table::kids::rest_from;
use class_table::method_of;
use class_table::methods::Method;
use class_table::texts::{body_end, body_in, token_end};
use cpp_types::{FnTy, equal_types};
use elab_decls::define_function;
use elab_implicit::below::{
    At, ElabFault, Env, FuncKind, Header, Home, IllRule, MakeLambdas, NodeId, NodeKind, Nodes,
    State, Tokens, elab_types_node_at as node_at, ill, place,
};
use std::alloc::Global;

// The function of the class that a header declares.
fn place_of_header(env: &Env, header: &Header) -> Result<u32, ElabFault>
    ensures { Tells result (place_of_header_of (ctx_of env.now) (header_of header.now)) }
{
    match first_same(&env.funcs, header) {
        Some(func) => Ok(func),
        None => Err(ill(header.at, IllRule::NoMember)),
    }
}

// Whether two functions have results of the same type.
#[tactic(auto, using(cpp_types::proofs::Views::signature_view))]
fn same_result(a: &FnTy, b: &FnTy) -> bool
    ensures { result ≡ typ_eq (signature_result (signature_of a.now)) (signature_result (signature_of b.now)) }
{
    equal_types(&a.ret, &b.ret)
}

// What stays of a function whose header is read again: it is the one that was declared with the body that ends here, and its
// result is the same.
fn late_found(
    alloc: Global,
    env: &Env,
    func: u32,
    header: &Header,
    closed: u32,
) -> Result<Definition, ElabFault>
    ensures { Says definition_of result (late_found_of (ctx_of env.now) func (header_of header.now) closed) }
{
    // It stands there.
    let Some(found) = env.funcs.get(func as usize) else {
        return Err(ElabFault::Memory);
    };
    if found.is_defined || found.closed_at != closed {
        return Err(ill(header.at, IllRule::Redeclared));
    }
    if !same_result(&found.rec.ty, &header.ty) {
        return Err(ill(header.at, IllRule::TypeDiffers));
    }
    let text = Vec::from_slice(alloc, &found.text)?;
    Ok(Definition {
        text,
        closed_at: found.closed_at,
    })
}

// The parameters of a function are those of its header, as it is read behind the brace.
fn keep_header(
    alloc: Global,
    env: &mut Env,
    func: u32,
    header: &Header,
    closed: u32,
) -> Result<(), ElabFault>
    ensures labels { OnOk result ((ctx_of env.new).labels ≡ (ctx_of env.old).labels) }
    ensures is { Answers (ctx_of env.new) result (late_kept (ctx_of env.old) func (header_of header.now) closed) }
{
    let found = late_found(alloc, env, func, header, closed)?;
    define_function(alloc, env, func, header, found.text, found.closed_at)?;
    Ok(())
}

// A member function with its body, which ends at this offset.
fn late_method<L: MakeLambdas>(
    alloc: Global,
    lams: &L,
    tokens: &Tokens,
    nodes: &Nodes,
    st: &mut State,
    class: u32,
    kind: FuncKind,
    method: &Method,
    kids: &[NodeId],
    closed: u32,
    body: NodeId,
) -> Result<(), ElabFault>
    requires kids { are_below (length nodes.now) kids.now ≡ true }
    requires body { body.0 < length nodes.now }
    requires count { method.now.count ≤ length kids.now }
    ensures { Changes st.old st.new result (late_with (L.lambdas lams.now) (lexemes_of tokens.now) (state_of st.old) class kind (method_shown (syntax_of nodes.now) kids.now method.now) closed (tree_at (syntax_of nodes.now) body)) }
{
    let func = place_of_header(&st.env, &method.header)?;
    keep_header(alloc, &mut st.env, func, &method.header, closed)?;
    method_body(
        alloc,
        lams,
        tokens,
        nodes,
        st,
        class,
        func,
        kind,
        &method.header,
        rest_from(kids, method.count),
        body,
    )
}

// A member function by the kids of its node, with its body if it has one.
fn late_function<L: MakeLambdas>(
    alloc: Global,
    lams: &L,
    tokens: &Tokens,
    nodes: &Nodes,
    st: &mut State,
    home: &Home,
    kind: FuncKind,
    at: At,
    kids: &[NodeId],
) -> Result<(), ElabFault>
    requires { are_below (length nodes.now) kids.now ≡ true }
    ensures { Changes st.old st.new result (late_function_of (L.lambdas lams.now) (lexemes_of tokens.now) (state_of st.old) home.now.number home.now.name.items at kind (trees_at (syntax_of nodes.now) kids.now)) }
{
    let method = method_of(
        alloc,
        &st.env,
        tokens,
        nodes,
        home.number,
        &home.name,
        at,
        kind,
        kids,
        &mut st.work,
    )?;
    let Some(body) = body_in(nodes, kids) else {
        return Ok(());
    };
    late_method(
        alloc,
        lams,
        tokens,
        nodes,
        st,
        home.number,
        kind,
        &method,
        kids,
        token_end(tokens, body_end(nodes, kids)),
        body,
    )
}

// Which function a node defines, if it defines one.
fn late_kind(kind: NodeKind) -> Option<FuncKind>
    ensures { result ≡ late_kind_of kind }
{
    match kind {
        NodeKind::FunctionDefinition => Some(FuncKind::Plain),
        NodeKind::ConstructorDefinition => Some(FuncKind::Constructor),
        NodeKind::DestructorDefinition => Some(FuncKind::Destructor),
        _ => None,
    }
}

// A member's body, if it has one.
fn late_of<L: MakeLambdas>(
    alloc: Global,
    lams: &L,
    tokens: &Tokens,
    nodes: &Nodes,
    st: &mut State,
    home: &Home,
    id: NodeId,
) -> Result<(), ElabFault>
    requires { id.0 < length nodes.now }
    ensures { Changes st.old st.new result (late_of_of (L.lambdas lams.now) (lexemes_of tokens.now) home.now.number home.now.name.items (state_of st.old) (tree_at (syntax_of nodes.now) id)) }
{
    let node = node_at(nodes, id);
    match late_kind(node.kind) {
        Some(kind) => {
            let at = place(node.at);
            late_function(
                alloc,
                lams,
                tokens,
                nodes,
                st,
                home,
                kind,
                at,
                kids_in(nodes, id),
            )
        }
        None => Ok(()),
    }
}

/// The bodies of the members of a class, in the order of the text.
pub fn all_late<L: MakeLambdas>(
    alloc: Global,
    lams: &L,
    tokens: &Tokens,
    nodes: &Nodes,
    st: &mut State,
    home: &Home,
    ids: &[NodeId],
) -> Result<(), ElabFault>
    requires { are_below (length nodes.now) ids.now ≡ true }
    ensures { Changes st.old st.new result (all_late_of (L.lambdas lams.now) (lexemes_of tokens.now) home.now.number home.now.name.items (state_of st.old) (trees_at (syntax_of nodes.now) ids.now)) }
{
    for id in ids {
        late_of(alloc, lams, tokens, nodes, st, home, *id)?;
    }
    Ok(())
}
