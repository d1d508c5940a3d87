// Member functions, constructors and destructors as they are written (C++14 9.3, 12.1, 12.4).

ghost use Rattle.std.specs.Prelude.{◌≡◌, ◌<◌, ◌≤◌, length, true, drop, IfOk, List};
ghost use Rattle.elab_expr.specs.cpp_lex.Tokens.{lexemes_of};
ghost use Rattle.elab_expr.specs.cpp_types.Typ.{typ_of};
ghost use Rattle.elab_expr.specs.cpp_ast.Orders.{are_below};
ghost use Rattle.elab_expr.specs.elab_ctx.Ctx.{ctx_of, work_of};
ghost use Rattle.elab_expr.specs.elab_rules.Expressions.{type_of_specifiers as type_of_specifiers_of, declared_by};
ghost use Rattle.elab_expr.specs.elab_rules.Statements.{Body};
ghost use Rattle.elab_expr.specs.elab_rules.Classes.{plain_method as plain_method_of, special_method as special_method_of, method_of as method_of_of};
ghost use Rattle.elab_expr.specs.elab_types.Syntax.{syntax_of, tree_at, trees_at};
ghost use Rattle.elab_expr.specs.elab_types.Shown.{Says, declared_of};
ghost use Rattle.elab_expr.specs.Unmoved.{Unmoved};
ghost use Rattle.class_members.specs.Shown.{header_of, storage_of};
ghost use Rattle.class_table.specs.Written.{plain_header as plain_header_of, special_declared as special_declared_of, method_shown, at_hand, is_plain_kind};

use class_members::{Header, Storage};
use class_texts::headers::{header_in, name_of, special_header};
use class_texts::kids::kid_at;
use class_texts::started::{no_storage, started_from};
use elab_expr::below::{
    At, Declared, ElabFault, Env, FuncKind, IllRule, NodeId, Nodes, Shape, Tokens, Ty, Work,
    elab_init_ill as ill,
};
use elab_expr::declarators::{declared, type_of_specifiers};
use std::alloc::Global;

/// A function of a class, and how many kids of its node stand before what is behind its declarator.
#[derive(Drop)]
pub struct Method {
    pub header: Header,
    pub count: usize,
}

/// The type that specifiers of the class give. Nothing stays of what is made on the way.
pub fn type_written(
    alloc: Global,
    env: &Env,
    tokens: &Tokens,
    nodes: &Nodes,
    id: NodeId,
    work: &mut Work,
) -> Result<Ty, ElabFault>
    requires { id.0 < length nodes.now }
    ensures says { Says typ_of result (type_of_specifiers_of (lexemes_of tokens.now) (ctx_of env.now) (work_of work.old) (tree_at (syntax_of nodes.now) id)) }
    ensures kept { IfOk result (λ t. Unmoved work.old work.new) }
{
    type_of_specifiers(alloc, env, &env.closures, tokens, nodes, id, work)
}

/// What a declarator of the class declares of a type. Nothing stays of what is made on the way.
pub fn declared_written(
    alloc: Global,
    env: &Env,
    tokens: &Tokens,
    nodes: &Nodes,
    at: At,
    ty: &Ty,
    id: NodeId,
    work: &mut Work,
) -> Result<Declared, ElabFault>
    requires { id.0 < length nodes.now }
    ensures says { Says declared_of result (declared_by (lexemes_of tokens.now) (ctx_of env.now) (work_of work.old) at (typ_of ty.now) (tree_at (syntax_of nodes.now) id)) }
    ensures kept { IfOk result (λ d. Unmoved work.old work.new) }
{
    declared(alloc, env, &env.closures, tokens, nodes, at, ty, id, work)
}

fn plain_header(
    alloc: Global,
    env: &Env,
    tokens: &Tokens,
    nodes: &Nodes,
    class: u32,
    at: At,
    storage: Storage,
    base: NodeId,
    declarator: NodeId,
    work: &mut Work,
) -> Result<Header, ElabFault>
    requires base { base.0 < length nodes.now }
    requires declarator { declarator.0 < length nodes.now }
    ensures says { Says header_of result (plain_header_of (lexemes_of tokens.now) (ctx_of env.now) (work_of work.old) class at (storage_of storage) (tree_at (syntax_of nodes.now) base) (tree_at (syntax_of nodes.now) declarator)) }
    ensures kept { IfOk result (λ h. Unmoved work.old work.new) }
{
    let ty = type_written(alloc, env, tokens, nodes, base, work)?;
    let found = declared_written(alloc, env, tokens, nodes, at, &ty, declarator, work)?;
    let name = name_of(tokens, found.name);
    header_in(alloc, class, storage, FuncKind::Plain, at, name, found)
}

fn special_declared(
    alloc: Global,
    env: &Env,
    tokens: &Tokens,
    nodes: &Nodes,
    class: u32,
    class_name: &[u8],
    at: At,
    storage: Storage,
    kind: FuncKind,
    declarator: NodeId,
    work: &mut Work,
) -> Result<Header, ElabFault>
    requires { declarator.0 < length nodes.now }
    ensures says { Says header_of result (special_declared_of (lexemes_of tokens.now) (ctx_of env.now) (work_of work.old) class class_name.now at (storage_of storage) kind (tree_at (syntax_of nodes.now) declarator)) }
    ensures kept { IfOk result (λ h. Unmoved work.old work.new) }
{
    let void = Ty {
        shape: Shape::Void,
        is_const: false,
        is_volatile: false,
    };
    let found = declared_written(alloc, env, tokens, nodes, at, &void, declarator, work)?;
    let name = name_of(tokens, found.name);
    special_header(alloc, class, class_name, at, storage, kind, found, name)
}

// A function from its type and its declarator, which stand from a place on.
fn plain_method(
    alloc: Global,
    env: &Env,
    tokens: &Tokens,
    nodes: &Nodes,
    class: u32,
    at: At,
    storage: Storage,
    kids: &[NodeId],
    start: usize,
    work: &mut Work,
) -> Result<Method, ElabFault>
    requires { are_below (length nodes.now) kids.now ≡ true }
    ensures method { (bodies : List Body) → Says (method_shown (syntax_of nodes.now) kids.now) result (plain_method_of (lexemes_of tokens.now) (at_hand (ctx_of env.now) (work_of work.old) bodies) class at (storage_of storage) (trees_at (syntax_of nodes.now) (drop start kids.now))) }
    ensures within { IfOk result (λ m. m.count ≤ length kids.now) }
    ensures kept { IfOk result (λ m. Unmoved work.old work.new) }
{
    let Some(base) = kid_at(kids, start) else {
        return Err(ill(at, IllRule::OutOfProfile));
    };
    let Some(declarator) = kid_at(kids, start + 1) else {
        return Err(ill(at, IllRule::OutOfProfile));
    };
    let header = plain_header(
        alloc, env, tokens, nodes, class, at, storage, base, declarator, work,
    )?;
    Ok(Method {
        header,
        count: start + 2,
    })
}

// A constructor or a destructor from its declarator, which stands at a place.
fn special_method(
    alloc: Global,
    env: &Env,
    tokens: &Tokens,
    nodes: &Nodes,
    class: u32,
    class_name: &[u8],
    at: At,
    storage: Storage,
    kind: FuncKind,
    kids: &[NodeId],
    start: usize,
    work: &mut Work,
) -> Result<Method, ElabFault>
    requires { are_below (length nodes.now) kids.now ≡ true }
    ensures method { (bodies : List Body) → Says (method_shown (syntax_of nodes.now) kids.now) result (special_method_of (lexemes_of tokens.now) (at_hand (ctx_of env.now) (work_of work.old) bodies) class class_name.now at (storage_of storage) kind (trees_at (syntax_of nodes.now) (drop start kids.now))) }
    ensures within { IfOk result (λ m. m.count ≤ length kids.now) }
    ensures kept { IfOk result (λ m. Unmoved work.old work.new) }
{
    let Some(declarator) = kid_at(kids, start) else {
        return Err(ill(at, IllRule::OutOfProfile));
    };
    let header = special_declared(
        alloc, env, tokens, nodes, class, class_name, at, storage, kind, declarator, work,
    )?;
    Ok(Method {
        header,
        count: start + 1,
    })
}

// Whether it is neither a constructor nor a destructor.
fn is_plain(kind: FuncKind) -> bool
    ensures { result ≡ is_plain_kind kind }
{
    match kind {
        FuncKind::Plain => true,
        FuncKind::Constructor | FuncKind::Destructor | FuncKind::ClosureCall => false,
    }
}

/// The function that a member with a body defines, or a constructor or destructor without one declares, by the kids of
/// its node.
pub fn method_of(
    alloc: Global,
    env: &Env,
    tokens: &Tokens,
    nodes: &Nodes,
    class: u32,
    class_name: &[u8],
    at: At,
    kind: FuncKind,
    kids: &[NodeId],
    work: &mut Work,
) -> Result<Method, ElabFault>
    requires { are_below (length nodes.now) kids.now ≡ true }
    ensures method { (bodies : List Body) → Says (method_shown (syntax_of nodes.now) kids.now) result (method_of_of (lexemes_of tokens.now) (at_hand (ctx_of env.now) (work_of work.old) bodies) class class_name.now at kind (trees_at (syntax_of nodes.now) kids.now)) }
    ensures within { IfOk result (λ m. m.count ≤ length kids.now) }
    ensures kept { IfOk result (λ m. Unmoved work.old work.new) }
{
    let started = started_from(tokens, nodes, no_storage(), kids);
    let storage = started.storage;
    let start = started.count;
    if is_plain(kind) {
        return plain_method(
            alloc, env, tokens, nodes, class, at, storage, kids, start, work,
        );
    }
    special_method(
        alloc, env, tokens, nodes, class, class_name, at, storage, kind, kids, start, work,
    )
}
