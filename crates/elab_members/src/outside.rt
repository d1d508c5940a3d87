// Members that are defined outside their class (C++14 9.3 p2, 12.1, 12.4).

ghost use Rattle.std.specs.Prelude.{◌≡◌, ◌<◌, ◌≤◌, List, length, drop, true, false, IfOk};
ghost use Rattle.elab_entry.specs.cpp_tree.declared.program.FuncKind.TheVariants.{Plain};
ghost use Rattle.elab_entry.specs.cpp_ast.Orders.{are_below};
ghost use Rattle.elab_entry.specs.cpp_lex.Tokens.{lexemes_of};
ghost use Rattle.elab_entry.specs.elab_ctx.Ctx.{ctx_of, work_of};
ghost use Rattle.elab_entry.specs.elab_rules.Statements.{Body};
ghost use Rattle.elab_entry.specs.elab_rules.Members.{outside_method as outside_method_of};
ghost use Rattle.elab_entry.specs.elab_types.Shown.{Says};
ghost use Rattle.elab_entry.specs.elab_types.Syntax.{syntax_of, tree_at, trees_at};
ghost use Rattle.elab_entry.specs.elab_scopes.States.{state_of};
ghost use Rattle.elab_entry.specs.elab_scopes.Says.{Changes};
ghost use Rattle.elab_entry.specs.elab_scopes.elab_expr.Unmoved.{Unmoved};
ghost use Rattle.class_members.specs.Shown.{header_of, storage_of};
ghost use Rattle.class_table.specs.Written.{method_shown, at_hand, is_plain_kind};
ghost use Rattle.elab_members.specs.Outside.{outside_plain as outside_plain_of, outside_special as outside_special_of, outside_body as outside_body_of, member_defined as member_defined_of};

use crate::defining::outside_declared;
use crate::methods::method_body;
use crate::owners::{class_name, owner_named};
use class_table::kids::{kid_at, rest_from};
use class_table::methods::{Method, declared_written, type_written};
use class_table::texts::{body_end, body_in};
use class_table::{header_in, name_of, special_header, started_from};
use elab_implicit::below::{
    At, ElabFault, Env, FuncKind, Header, IllRule, MakeLambdas, NodeId, Nodes, Shape, State,
    Storage, Tokens, Work, ill, plain_type,
};
use std::alloc::Global;

// The header of a member function that is no constructor and no destructor.
fn outside_plain(
    alloc: Global,
    env: &Env,
    tokens: &Tokens,
    nodes: &Nodes,
    at: At,
    storage: Storage,
    base: NodeId,
    declarator: NodeId,
    work: &mut Work,
) -> Result<Header, ElabFault>
    requires base { base.0 < length nodes.now }
    requires declarator { declarator.0 < length nodes.now }
    ensures says { Says header_of result (outside_plain_of (lexemes_of tokens.now) (ctx_of env.now) (work_of work.old) at (storage_of storage) (tree_at (syntax_of nodes.now) base) (tree_at (syntax_of nodes.now) declarator)) }
    ensures kept { IfOk result (λ h. Unmoved work.old work.new) }
{
    let ty = type_written(alloc, env, tokens, nodes, base, work)?;
    let found = declared_written(alloc, env, tokens, nodes, at, &ty, declarator, work)?;
    let class = owner_named(env, tokens, at, found.owner)?;
    let name = name_of(tokens, found.name);
    header_in(alloc, class, storage, FuncKind::Plain, at, name, found)
}

// The header of a constructor or a destructor.
fn outside_special(
    alloc: Global,
    env: &Env,
    tokens: &Tokens,
    nodes: &Nodes,
    at: At,
    storage: Storage,
    kind: FuncKind,
    declarator: NodeId,
    work: &mut Work,
) -> Result<Header, ElabFault>
    requires { declarator.0 < length nodes.now }
    ensures says { Says header_of result (outside_special_of (lexemes_of tokens.now) (ctx_of env.now) (work_of work.old) at (storage_of storage) kind (tree_at (syntax_of nodes.now) declarator)) }
    ensures kept { IfOk result (λ h. Unmoved work.old work.new) }
{
    let void = plain_type(Shape::Void);
    let found = declared_written(alloc, env, tokens, nodes, at, &void, declarator, work)?;
    let class = owner_named(env, tokens, at, found.owner)?;
    let name = name_of(tokens, found.name);
    special_header(
        alloc,
        class,
        class_name(env, class),
        at,
        storage,
        kind,
        found,
        name,
    )
}

// A function from its type and its declarator, which stand from a place on.
fn plain_method(
    alloc: Global,
    env: &Env,
    tokens: &Tokens,
    nodes: &Nodes,
    at: At,
    storage: Storage,
    kids: &[NodeId],
    start: usize,
    work: &mut Work,
) -> Result<Method, ElabFault>
    requires { are_below (length nodes.now) kids.now ≡ true }
    ensures method { (bodies : List Body) → Says (method_shown (syntax_of nodes.now) kids.now) result (outside_method_of (lexemes_of tokens.now) (at_hand (ctx_of env.now) (work_of work.old) bodies) at (storage_of storage) Plain (trees_at (syntax_of nodes.now) (drop start kids.now))) }
    ensures within { IfOk result (λ m. m.count ≤ length kids.now) }
    ensures kept { IfOk result (λ m. Unmoved work.old work.new) }
{
    let Some(base) = kid_at(kids, start) else {
        return Err(ill(at, IllRule::OutOfProfile));
    };
    let Some(declarator) = kid_at(kids, start + 1) else {
        return Err(ill(at, IllRule::OutOfProfile));
    };
    let header = outside_plain(
        alloc, env, tokens, nodes, at, storage, base, declarator, work,
    )?;
    Ok(Method {
        header,
        count: start + 2,
    })
}

// A constructor or a destructor from its declarator, which stands at a place.
fn special_method(
    alloc: Global,
    env: &Env,
    tokens: &Tokens,
    nodes: &Nodes,
    at: At,
    storage: Storage,
    kind: FuncKind,
    kids: &[NodeId],
    start: usize,
    work: &mut Work,
) -> Result<Method, ElabFault>
    requires below { are_below (length nodes.now) kids.now ≡ true }
    requires special { is_plain_kind kind ≡ false }
    ensures method { (bodies : List Body) → Says (method_shown (syntax_of nodes.now) kids.now) result (outside_method_of (lexemes_of tokens.now) (at_hand (ctx_of env.now) (work_of work.old) bodies) at (storage_of storage) kind (trees_at (syntax_of nodes.now) (drop start kids.now))) }
    ensures within { IfOk result (λ m. m.count ≤ length kids.now) }
    ensures kept { IfOk result (λ m. Unmoved work.old work.new) }
{
    let Some(declarator) = kid_at(kids, start) else {
        return Err(ill(at, IllRule::OutOfProfile));
    };
    let header = outside_special(
        alloc, env, tokens, nodes, at, storage, kind, declarator, work,
    )?;
    Ok(Method {
        header,
        count: start + 1,
    })
}

// Whether it is neither a constructor nor a destructor.
fn is_plain(kind: FuncKind) -> bool
    ensures { result ≡ is_plain_kind kind }
{
    match kind {
        FuncKind::Plain => true,
        FuncKind::Constructor | FuncKind::Destructor | FuncKind::ClosureCall => false,
    }
}

// The function that is defined, and what stands behind its declarator, from a place on.
fn outside_method(
    alloc: Global,
    env: &Env,
    tokens: &Tokens,
    nodes: &Nodes,
    at: At,
    storage: Storage,
    kind: FuncKind,
    kids: &[NodeId],
    start: usize,
    work: &mut Work,
) -> Result<Method, ElabFault>
    requires { are_below (length nodes.now) kids.now ≡ true }
    ensures method { (bodies : List Body) → Says (method_shown (syntax_of nodes.now) kids.now) result (outside_method_of (lexemes_of tokens.now) (at_hand (ctx_of env.now) (work_of work.old) bodies) at (storage_of storage) kind (trees_at (syntax_of nodes.now) (drop start kids.now))) }
    ensures within { IfOk result (λ m. m.count ≤ length kids.now) }
    ensures kept { IfOk result (λ m. Unmoved work.old work.new) }
{
    if is_plain(kind) {
        return plain_method(alloc, env, tokens, nodes, at, storage, kids, start, work);
    }
    special_method(
        alloc, env, tokens, nodes, at, storage, kind, kids, start, work,
    )
}

// A member with its body.
fn outside_body<L: MakeLambdas>(
    alloc: Global,
    lams: &L,
    tokens: &Tokens,
    nodes: &Nodes,
    st: &mut State,
    class: u32,
    kind: FuncKind,
    first: u32,
    last: u32,
    header: &Header,
    rest: &[NodeId],
    body: NodeId,
) -> Result<(), ElabFault>
    requires rest { are_below (length nodes.now) rest.now ≡ true }
    requires body { body.0 < length nodes.now }
    ensures { Changes st.old st.new result (outside_body_of (L.lambdas lams.now) (lexemes_of tokens.now) (state_of st.old) class kind first last (header_of header.now) (trees_at (syntax_of nodes.now) rest.now) (tree_at (syntax_of nodes.now) body)) }
{
    let func = outside_declared(alloc, tokens, &mut st.env, class, first, last, header)?;
    method_body(
        alloc, lams, tokens, nodes, st, class, func, kind, header, rest, body,
    )
}

/// A member that is defined outside its class, behind the words that are known: the kids of its node, and its first
/// token.
pub fn member_defined<L: MakeLambdas>(
    alloc: Global,
    lams: &L,
    tokens: &Tokens,
    nodes: &Nodes,
    st: &mut State,
    storage: Storage,
    at: At,
    kind: FuncKind,
    first: u32,
    kids: &[NodeId],
) -> Result<(), ElabFault>
    requires { are_below (length nodes.now) kids.now ≡ true }
    ensures { Changes st.old st.new result (member_defined_of (L.lambdas lams.now) (lexemes_of tokens.now) (storage_of storage) (state_of st.old) at kind first (trees_at (syntax_of nodes.now) kids.now)) }
{
    let started = started_from(tokens, nodes, storage, kids);
    let method = outside_method(
        alloc,
        &st.env,
        tokens,
        nodes,
        at,
        started.storage,
        kind,
        kids,
        started.count,
        &mut st.work,
    )?;
    let Some(body) = body_in(nodes, kids) else {
        return Err(ill(at, IllRule::BadDeclaration));
    };
    let Some(class) = method.header.class else {
        return Err(ill(at, IllRule::BadDeclaration));
    };
    outside_body(
        alloc,
        lams,
        tokens,
        nodes,
        st,
        class,
        kind,
        first,
        body_end(nodes, kids),
        &method.header,
        rest_from(kids, method.count),
        body,
    )
}
