// The members of a class, in the order of the text (C++14 9.2).

ghost use Rattle.std.specs.Prelude.{◌≡◌, ◌<◌, length, true, List, option_map, IfOk};
ghost use Rattle.elab_expr.specs.cpp_lex.Tokens.{lexemes_of};
ghost use Rattle.elab_expr.specs.cpp_types.Typ.{typ_of};
ghost use Rattle.elab_expr.specs.cpp_ast.Orders.{are_below};
ghost use Rattle.elab_expr.specs.cpp_tree.Typing.{form_in};
ghost use Rattle.elab_expr.specs.elab_ctx.Ctx.{ctx_of, work_of, Work as WorkShown};
ghost use Rattle.elab_expr.specs.elab_ctx.Steps.{each_of};
ghost use Rattle.elab_expr.specs.elab_rules.Statements.{Body, is_own_name as is_own_name_of};
ghost use Rattle.elab_expr.specs.elab_rules.Classes.{declared_method as declared_method_of, no_function_words as no_function_words_of, member_declarator as member_declarator_of, member_declaration as member_declaration_of, member_of as member_of_of, members_of as members_of_of, started_from as started_from_of};
ghost use Rattle.elab_expr.specs.elab_rules.Functions.{no_storage as no_storage_of};
ghost use Rattle.elab_expr.specs.elab_types.Syntax.{syntax_of, tree_at, trees_at};
ghost use Rattle.elab_expr.specs.elab_types.Shown.{declared_of};
ghost use Rattle.elab_expr.specs.Unmoved.{Unmoved};
ghost use Rattle.class_members.specs.Shown.{home_of, reading, Answers, definition_of, storage_of, marks_of};
ghost use Rattle.class_table.specs.Written.{defined_method as defined_method_of, is_function_form, function_declared as function_declared_of, data_declared as data_declared_of, member_declared};

use crate::methods::{declared_written, method_of, type_written};
use class_members::{Definition, Home, Marks, Members, Storage, data_member, member_function};
use class_texts::bounds::{declarator_among, member_named, within_bounds};
use class_texts::headers::{header_in, name_of};
use class_texts::kids::{kid_at, rest_from};
use class_texts::started::{no_storage, started_from};
use class_texts::texts::{body_end, definition_between};
use class_texts::words::{has_equal, has_initialiser, marks_from};
use elab_expr::below::{
    At, Declared, ElabFault, Env, FuncKind, IllRule, NodeId, NodeKind, Nodes, Shape, Tokens, Ty,
    Work, elab_init_ill as ill, elab_types_node_at as node_at, place,
};
use std::alloc::Global;

// A function with a body, or a constructor or a destructor.
fn declared_method(
    alloc: Global,
    env: &mut Env,
    tokens: &Tokens,
    nodes: &Nodes,
    home: &Home,
    members: &Members,
    kind: FuncKind,
    at: At,
    definition: Option<Definition>,
    kids: &[NodeId],
    work: &mut Work,
) -> Result<(), ElabFault>
    requires { are_below (length nodes.now) kids.now ≡ true }
    ensures members { (bodies : List Body) → Answers (reading (ctx_of env.new) (work_of work.old) bodies members.now) result (declared_method_of (lexemes_of tokens.now) (home_of home.now) (reading (ctx_of env.old) (work_of work.old) bodies members.now) kind at (option_map definition_of definition) (trees_at (syntax_of nodes.now) kids.now)) }
    ensures kept { IfOk result (λ u. Unmoved work.old work.new) }
{
    within_bounds(declarator_among(tokens, nodes, env, home.number, members, kids))?;
    let method = method_of(
        alloc,
        env,
        tokens,
        nodes,
        home.number,
        &home.name,
        at,
        kind,
        kids,
        work,
    )?;
    let marks = marks_from(tokens, nodes, rest_from(kids, method.count));
    member_function(alloc, env, home, members, &method.header, marks, definition)
}

// A member whose body stands in the class.
fn defined_method(
    alloc: Global,
    env: &mut Env,
    tokens: &Tokens,
    nodes: &Nodes,
    home: &Home,
    members: &Members,
    kind: FuncKind,
    at: At,
    token: Option<u32>,
    kids: &[NodeId],
    work: &mut Work,
) -> Result<(), ElabFault>
    requires { are_below (length nodes.now) kids.now ≡ true }
    ensures members { (bodies : List Body) → Answers (reading (ctx_of env.new) (work_of work.old) bodies members.now) result (defined_method_of (lexemes_of tokens.now) (home_of home.now) (reading (ctx_of env.old) (work_of work.old) bodies members.now) kind at token (trees_at (syntax_of nodes.now) kids.now)) }
    ensures kept { IfOk result (λ u. Unmoved work.old work.new) }
{
    let Some(first) = token else {
        return Err(ill(at, IllRule::OutOfProfile));
    };
    let last = body_end(nodes, kids);
    let definition = definition_between(alloc, tokens, first, last)?;
    declared_method(
        alloc,
        env,
        tokens,
        nodes,
        home,
        members,
        kind,
        at,
        Some(definition),
        kids,
        work,
    )
}

fn is_function(ty: &Ty) -> bool
    ensures { result ≡ is_function_form (form_in (typ_of ty.now)) }
{
    match &ty.shape {
        Shape::Func(_) => true,
        _ => false,
    }
}

// Whether what is no function may have these words.
fn no_function_words(storage: Storage, marks: Marks) -> bool
    ensures { result ≡ no_function_words_of (storage_of storage) (marks_of marks) }
{
    !storage.is_virtual && !marks.is_override && !marks.is_final
}

// A member function that a declarator declares.
fn function_declared(
    alloc: Global,
    env: &mut Env,
    tokens: &Tokens,
    nodes: &Nodes,
    home: &Home,
    members: &Members,
    at: At,
    storage: Storage,
    found: Declared,
    rest: &[NodeId],
) -> Result<(), ElabFault>
    requires { are_below (length nodes.now) rest.now ≡ true }
    ensures { (w : WorkShown) (bodies : List Body) → Answers (reading (ctx_of env.new) w bodies members.now) result (function_declared_of (lexemes_of tokens.now) (home_of home.now) (reading (ctx_of env.old) w bodies members.now) at (storage_of storage) (trees_at (syntax_of nodes.now) rest.now) (declared_of found) (form_in (typ_of found.ty))) }
{
    let marks = marks_from(tokens, nodes, rest);
    let name = name_of(tokens, found.name);
    if has_equal(nodes, rest) {
        return Err(ill(at, IllRule::BadDeclaration));
    }
    let header = header_in(
        alloc,
        home.number,
        storage,
        FuncKind::Plain,
        at,
        name,
        found,
    )?;
    member_function(alloc, env, home, members, &header, marks, None)
}

// A data member that a declarator declares.
fn data_declared(
    alloc: Global,
    env: &Env,
    tokens: &Tokens,
    nodes: &Nodes,
    home: &Home,
    members: &mut Members,
    at: At,
    storage: Storage,
    found: &Declared,
    rest: &[NodeId],
) -> Result<(), ElabFault>
    requires { are_below (length nodes.now) rest.now ≡ true }
    ensures { (w : WorkShown) (bodies : List Body) → Answers (reading (ctx_of env.now) w bodies members.new) result (data_declared_of (lexemes_of tokens.now) (home_of home.now) (reading (ctx_of env.now) w bodies members.old) at (storage_of storage) (trees_at (syntax_of nodes.now) rest.now) (declared_of found.now)) }
{
    let marks = marks_from(tokens, nodes, rest);
    let name = name_of(tokens, found.name);
    if !no_function_words(storage, marks) {
        return Err(ill(at, IllRule::BadDeclaration));
    }
    let is_initialised = has_initialiser(nodes, rest);
    data_member(
        alloc,
        env,
        home.number,
        members,
        at,
        name,
        &found.ty,
        is_initialised,
    )
}

// What a declarator declares: a function, or a data member.
fn declared_member(
    alloc: Global,
    env: &mut Env,
    tokens: &Tokens,
    nodes: &Nodes,
    home: &Home,
    members: &mut Members,
    at: At,
    storage: Storage,
    found: Declared,
    rest: &[NodeId],
) -> Result<(), ElabFault>
    requires { are_below (length nodes.now) rest.now ≡ true }
    ensures { (w : WorkShown) (bodies : List Body) → Answers (reading (ctx_of env.new) w bodies members.new) result (member_declared (lexemes_of tokens.now) (home_of home.now) (reading (ctx_of env.old) w bodies members.old) at (storage_of storage) (trees_at (syntax_of nodes.now) rest.now) (declared_of found)) }
{
    if is_function(&found.ty) {
        return function_declared(
            alloc, env, tokens, nodes, home, members, at, storage, found, rest,
        );
    }
    data_declared(
        alloc, env, tokens, nodes, home, members, at, storage, &found, rest,
    )
}

fn is_own_name(found: &Declared) -> bool
    ensures { result ≡ is_own_name_of (declared_of found.now) }
{
    found.owner.is_none() && !found.is_destructor
}

fn member_declarator(
    alloc: Global,
    env: &mut Env,
    tokens: &Tokens,
    nodes: &Nodes,
    home: &Home,
    members: &mut Members,
    storage: Storage,
    ty: &Ty,
    id: NodeId,
    work: &mut Work,
) -> Result<(), ElabFault>
    requires { id.0 < length nodes.now }
    ensures members { (bodies : List Body) → Answers (reading (ctx_of env.new) (work_of work.old) bodies members.new) result (member_declarator_of (lexemes_of tokens.now) (home_of home.now) (storage_of storage) (typ_of ty.now) (reading (ctx_of env.old) (work_of work.old) bodies members.old) (tree_at (syntax_of nodes.now) id)) }
    ensures kept { IfOk result (λ u. Unmoved work.old work.new) }
{
    let node = node_at(nodes, id);
    let at = place(node.at);
    let kids = node.kids.as_slice();
    let Some(first) = kid_at(kids, 0) else {
        return Err(ill(at, IllRule::OutOfProfile));
    };
    within_bounds(member_named(tokens, nodes, env, home.number, members, first))?;
    let found = declared_written(alloc, env, tokens, nodes, at, ty, first, work)?;
    if !is_own_name(&found) {
        return Err(ill(at, IllRule::BadDeclaration));
    }
    declared_member(
        alloc,
        env,
        tokens,
        nodes,
        home,
        members,
        at,
        storage,
        found,
        rest_from(kids, 1),
    )
}

fn member_declarators(
    alloc: Global,
    env: &mut Env,
    tokens: &Tokens,
    nodes: &Nodes,
    home: &Home,
    members: &mut Members,
    storage: Storage,
    ty: &Ty,
    ids: &[NodeId],
    work: &mut Work,
) -> Result<(), ElabFault>
    requires { are_below (length nodes.now) ids.now ≡ true }
    ensures members { (bodies : List Body) → Answers (reading (ctx_of env.new) (work_of work.old) bodies members.new) result (each_of (member_declarator_of (lexemes_of tokens.now) (home_of home.now) (storage_of storage) (typ_of ty.now)) (reading (ctx_of env.old) (work_of work.old) bodies members.old) (trees_at (syntax_of nodes.now) ids.now)) }
    ensures kept { IfOk result (λ u. Unmoved work.old work.new) }
{
    for id in ids {
        member_declarator(
            alloc, env, tokens, nodes, home, members, storage, ty, *id, work,
        )?;
    }
    Ok(())
}

fn member_declaration(
    alloc: Global,
    env: &mut Env,
    tokens: &Tokens,
    nodes: &Nodes,
    home: &Home,
    members: &mut Members,
    at: At,
    kids: &[NodeId],
    work: &mut Work,
) -> Result<(), ElabFault>
    requires { are_below (length nodes.now) kids.now ≡ true }
    ensures members { (bodies : List Body) → Answers (reading (ctx_of env.new) (work_of work.old) bodies members.new) result (member_declaration_of (lexemes_of tokens.now) (home_of home.now) (reading (ctx_of env.old) (work_of work.old) bodies members.old) at (started_from_of (lexemes_of tokens.now) no_storage_of (trees_at (syntax_of nodes.now) kids.now))) }
    ensures kept { IfOk result (λ u. Unmoved work.old work.new) }
{
    let started = started_from(tokens, nodes, no_storage(), kids);
    let storage = started.storage;
    let Some(base) = kid_at(kids, started.count) else {
        return Err(ill(at, IllRule::OutOfProfile));
    };
    let ty = type_written(alloc, env, tokens, nodes, base, work)?;
    let rest = rest_from(kids, started.count + 1);
    member_declarators(
        alloc, env, tokens, nodes, home, members, storage, &ty, rest, work,
    )
}

/// A member; what stands in bodies and initialisers comes behind the brace.
pub fn member_of(
    alloc: Global,
    env: &mut Env,
    tokens: &Tokens,
    nodes: &Nodes,
    home: &Home,
    members: &mut Members,
    id: NodeId,
    work: &mut Work,
) -> Result<(), ElabFault>
    requires { id.0 < length nodes.now }
    ensures members { (bodies : List Body) → Answers (reading (ctx_of env.new) (work_of work.old) bodies members.new) result (member_of_of (lexemes_of tokens.now) (home_of home.now) (reading (ctx_of env.old) (work_of work.old) bodies members.old) (tree_at (syntax_of nodes.now) id)) }
    ensures kept { IfOk result (λ u. Unmoved work.old work.new) }
{
    let node = node_at(nodes, id);
    let at = place(node.at);
    let token = node.token;
    let kids = node.kids.as_slice();
    match node.kind {
        NodeKind::AccessLabel => Ok(()),
        NodeKind::MemberDeclaration => {
            member_declaration(alloc, env, tokens, nodes, home, members, at, kids, work)
        }
        NodeKind::FunctionDefinition => defined_method(
            alloc,
            env,
            tokens,
            nodes,
            home,
            members,
            FuncKind::Plain,
            at,
            token,
            kids,
            work,
        ),
        NodeKind::ConstructorDeclaration => declared_method(
            alloc,
            env,
            tokens,
            nodes,
            home,
            members,
            FuncKind::Constructor,
            at,
            None,
            kids,
            work,
        ),
        NodeKind::ConstructorDefinition => defined_method(
            alloc,
            env,
            tokens,
            nodes,
            home,
            members,
            FuncKind::Constructor,
            at,
            token,
            kids,
            work,
        ),
        NodeKind::DestructorDeclaration => declared_method(
            alloc,
            env,
            tokens,
            nodes,
            home,
            members,
            FuncKind::Destructor,
            at,
            None,
            kids,
            work,
        ),
        NodeKind::DestructorDefinition => defined_method(
            alloc,
            env,
            tokens,
            nodes,
            home,
            members,
            FuncKind::Destructor,
            at,
            token,
            kids,
            work,
        ),
        _ => Err(ill(at, IllRule::OutOfProfile)),
    }
}

/// The members of a class, in the order of the text.
pub fn members_of(
    alloc: Global,
    env: &mut Env,
    tokens: &Tokens,
    nodes: &Nodes,
    home: &Home,
    members: &mut Members,
    ids: &[NodeId],
    work: &mut Work,
) -> Result<(), ElabFault>
    requires { are_below (length nodes.now) ids.now ≡ true }
    ensures members { (bodies : List Body) → Answers (reading (ctx_of env.new) (work_of work.old) bodies members.new) result (members_of_of (lexemes_of tokens.now) (home_of home.now) (reading (ctx_of env.old) (work_of work.old) bodies members.old) (trees_at (syntax_of nodes.now) ids.now)) }
    ensures kept { IfOk result (λ u. Unmoved work.old work.new) }
{
    for id in ids {
        member_of(alloc, env, tokens, nodes, home, members, *id, work)?;
    }
    Ok(())
}
