// Declarations at file scope in the order of the text (C++14 3.5, clause 7).

ghost use Rattle.std.specs.Prelude.{◌≡◌, ◌<◌, ℕ, List, length, true, false, Option, Some, None, Err, IfOk};
ghost use Rattle.elab_entry.specs.cpp_ast.Orders.{are_below};
ghost use Rattle.elab_entry.specs.cpp_ast.Trees.{Tree, node, Trees, more};
ghost use Rattle.elab_entry.specs.cpp_ast.declared.arena.At.{At as SyntaxAt};
ghost use Rattle.elab_entry.specs.cpp_ast.declared.kinds.NodeKind.TheVariants as kinds;
ghost use Rattle.elab_entry.specs.cpp_lex.Tokens.{Lexeme, lexemes_of};
ghost use Rattle.elab_entry.specs.cpp_types.Typ.{Typ, typ_of};
ghost use Rattle.elab_entry.specs.cpp_tree.declared.faults.IllRule.TheVariants.{OutOfProfile};
ghost use Rattle.elab_entry.specs.cpp_tree.declared.faults.ElabFault.TheVariants.{Ill};
ghost use Rattle.elab_entry.specs.cpp_types.declared.classes.At.{At as AtOf};
ghost use Rattle.elab_entry.specs.cpp_tree.Typing.{form_in};
ghost use Rattle.elab_entry.specs.elab_ctx.Ctx.{ctx_of, work_of};
ghost use Rattle.elab_entry.specs.elab_ctx.Says.{Tells};
ghost use Rattle.elab_entry.specs.elab_ctx.Steps.{at_of};
ghost use Rattle.elab_entry.specs.elab_rules.Expressions.{type_id_of};
ghost use Rattle.elab_entry.specs.elab_rules.Functions.{Storage as StorageOf, no_storage as no_storage_of};
ghost use Rattle.elab_entry.specs.elab_rules.Globals.{global_declared as global_declared_of};
ghost use Rattle.elab_entry.specs.elab_rules.Members.{declared_only};
ghost use Rattle.elab_entry.specs.elab_rules.Statements.{State as StateOf, is_own_name as is_own_name_of, name_of as name_of_of, bound_by_initialiser as bound_by_initialiser_of};
ghost use Rattle.elab_entry.specs.elab_rules.Units.{declared_of_type as declared_of_type_of, file_declarator as file_declarator_of, file_declarators as file_declarators_of, file_declaration as file_declaration_of, alias_of as alias_of_of, is_c as is_c_of};
ghost use Rattle.elab_entry.specs.elab_scopes.elab_expr.Unmoved.{Unmoved};
ghost use Rattle.elab_entry.specs.elab_scopes.States.{state_of};
ghost use Rattle.elab_entry.specs.elab_types.Shown.{Says, declared_of};
ghost use Rattle.elab_entry.specs.elab_types.Syntax.{syntax_of, tree_at, trees_at};
ghost use Rattle.class_members.specs.Shown.{Answers, header_of as header_shown, storage_of};
ghost use Rattle.elab_leaving.specs.Declaring.{is_function_form, file_header, has_trees, declarator_by, file_typed, c_words as c_words_of, c_checked, declaration_of as declaration_of_of, declarations_of as declarations_of_of};
ghost use Rattle.elab_units.specs.Linkage.{linkage_declared};

use crate::definitions::function_defined;
use crate::lambdas::UnitLambdas;
use class_table::kids::{kid_at, rest_from};
use class_table::started::{no_storage, started_from};
use class_table::{class_declared, header_in, name_of};
use elab_decls::{alias_declared, enum_declared, function_declared, global_declared};
use elab_entry::below::{
    At, Declared, ElabFault, Env, FuncKind, Header, IllRule, Node, NodeId, NodeKind, Nodes, Shape,
    State, Storage, Tokens, Ty, Work, bound_by_initialiser, declared_by,
    elab_types_node_at as node_at, first_kid, ill, place, specified, spelling, string_bytes,
    type_id,
};
use elab_members::{class_defined, member_defined};
use std::alloc::Global;

/// The node with an id. Its kids stand in the list, and below it.
pub fn node_in(nodes: &Nodes, id: NodeId) -> &Node
    requires { id.0 < length nodes.now }
    ensures node { tree_at (syntax_of nodes.now) id ≡ node result.now.kind result.now.at result.now.token (trees_at (syntax_of nodes.now) result.now.kids.items) }
    ensures within { are_below (length nodes.now) result.now.kids.items ≡ true }
    ensures lower { are_below id.0 result.now.kids.items ≡ true }
{
    node_at(nodes, id)
}

/// A function at file scope as it is declared.
pub fn header_of(
    alloc: Global,
    tokens: &Tokens,
    at: At,
    storage: Storage,
    declared: Declared,
) -> Result<Header, ElabFault>
    ensures { Says header_shown result (file_header (lexemes_of tokens.now) at (storage_of storage) (declared_of declared) (form_in (typ_of declared.ty))) }
{
    let name = name_of(tokens, declared.name);
    // The class is none of a member.
    let header = header_in(alloc, 0, storage, FuncKind::Plain, at, name, declared)?;
    Ok(Header {
        name: header.name,
        at: header.at,
        ty: header.ty,
        params: header.params,
        qualifiers: header.qualifiers,
        storage: header.storage,
        kind: header.kind,
        class: None,
    })
}

/// Whether a type is that of a function.
pub fn is_function(ty: &Ty) -> bool
    ensures { result ≡ is_function_form (form_in (typ_of ty.now)) }
{
    match &ty.shape {
        Shape::Func(_) => true,
        _ => false,
    }
}

// A variable that a declarator declares.
fn variable_declared(
    alloc: Global,
    tokens: &Tokens,
    nodes: &Nodes,
    st: &mut State,
    storage: Storage,
    at: At,
    found: &Declared,
    parent: NodeId,
    init: &[NodeId],
) -> Result<(), ElabFault>
    requires parent { parent.0 < length nodes.now }
    requires init { are_below parent.0 init.now ≡ true }
    ensures { Answers (state_of st.new) result (global_declared_of (lexemes_of tokens.now) (state_of st.old) (storage_of storage) at (name_of_of (lexemes_of tokens.now) found.now.name) (bound_by_initialiser_of (lexemes_of tokens.now) (typ_of found.now.ty) (trees_at (syntax_of nodes.now) init.now)) (trees_at (syntax_of nodes.now) init.now)) }
{
    let ty = bound_by_initialiser(alloc, tokens, nodes, parent, init, &found.ty)?;
    let name = name_of(tokens, found.name);
    global_declared(
        alloc,
        &mut st.env,
        &mut st.work,
        tokens,
        nodes,
        parent,
        init,
        storage,
        at,
        name,
        &ty,
    )
}

fn has_initialiser(init: &[NodeId]) -> bool
    ensures { (trees : List Tree) → result ≡ has_trees (trees_at trees init.now) }
{
    match first_kid(init) {
        Some(_) => true,
        None => false,
    }
}

// What a declarator declares: a function, or a variable with its initialiser.
fn declared_of_type(
    alloc: Global,
    tokens: &Tokens,
    nodes: &Nodes,
    st: &mut State,
    storage: Storage,
    at: At,
    found: Declared,
    parent: NodeId,
    init: &[NodeId],
) -> Result<(), ElabFault>
    requires parent { parent.0 < length nodes.now }
    requires init { are_below parent.0 init.now ≡ true }
    ensures { Answers (state_of st.new) result (declared_of_type_of (lexemes_of tokens.now) (state_of st.old) (storage_of storage) at (declared_of found) (trees_at (syntax_of nodes.now) init.now) (form_in (typ_of found.ty))) }
{
    if !is_function(&found.ty) {
        return variable_declared(alloc, tokens, nodes, st, storage, at, &found, parent, init);
    }
    if has_initialiser(init) {
        return Err(ill(at, IllRule::BadDeclaration));
    }
    let header = header_of(alloc, tokens, at, storage, found)?;
    let _func = function_declared(alloc, &mut st.env, &header, false)?;
    Ok(())
}

fn is_own_name(declared: &Declared) -> bool
    ensures { result ≡ is_own_name_of (declared_of declared.now) }
{
    declared.owner.is_none() && !declared.is_destructor
}

fn is_declarator(kind: NodeKind) -> bool
    ensures yes { result ≡ true → kind ≡ kinds.InitDeclarator }
    ensures no { (s : List Lexeme) (x : StorageOf) (t : Typ) (st : StateOf) (p : SyntaxAt) (token : Option ℕ) (kids : Trees) → result ≡ false → file_declarator_of s x t st (node kind p token kids) ≡ Err (Ill (at_of p) OutOfProfile) }
{
    match kind {
        NodeKind::InitDeclarator => true,
        _ => false,
    }
}

// What a declarator with its initialiser declares.
fn declarator_declared(
    alloc: Global,
    tokens: &Tokens,
    nodes: &Nodes,
    st: &mut State,
    storage: Storage,
    at: At,
    ty: &Ty,
    parent: NodeId,
    kids: &[NodeId],
) -> Result<(), ElabFault>
    requires parent { parent.0 < length nodes.now }
    requires lower { are_below parent.0 kids.now ≡ true }
    requires within { are_below (length nodes.now) kids.now ≡ true }
    ensures { Answers (state_of st.new) result (declarator_by (lexemes_of tokens.now) (storage_of storage) (typ_of ty.now) (state_of st.old) at (trees_at (syntax_of nodes.now) kids.now)) }
{
    let Some(first) = kid_at(kids, 0) else {
        return Err(ill(at, IllRule::OutOfProfile));
    };
    let found = declared_by(alloc, &st.env, tokens, nodes, at, ty, first, &mut st.work)?;
    if !is_own_name(&found) {
        return Err(ill(at, IllRule::BadDeclaration));
    }
    let init = rest_from(kids, 1);
    declared_of_type(alloc, tokens, nodes, st, storage, at, found, parent, init)
}

// A declarator of a declaration at file scope.
fn file_declarator(
    alloc: Global,
    tokens: &Tokens,
    nodes: &Nodes,
    st: &mut State,
    storage: Storage,
    ty: &Ty,
    id: NodeId,
) -> Result<(), ElabFault>
    requires { id.0 < length nodes.now }
    ensures { Answers (state_of st.new) result (file_declarator_of (lexemes_of tokens.now) (storage_of storage) (typ_of ty.now) (state_of st.old) (tree_at (syntax_of nodes.now) id)) }
{
    let node = node_in(nodes, id);
    let at = place(node.at);
    if !is_declarator(node.kind) {
        return Err(ill(at, IllRule::OutOfProfile));
    }
    declarator_declared(alloc, tokens, nodes, st, storage, at, ty, id, &node.kids)
}

// The declarators of a declaration.
fn file_declarators(
    alloc: Global,
    tokens: &Tokens,
    nodes: &Nodes,
    st: &mut State,
    storage: Storage,
    ty: &Ty,
    ids: &[NodeId],
) -> Result<(), ElabFault>
    requires { are_below (length nodes.now) ids.now ≡ true }
    ensures { Answers (state_of st.new) result (file_declarators_of (lexemes_of tokens.now) (storage_of storage) (typ_of ty.now) (state_of st.old) (trees_at (syntax_of nodes.now) ids.now)) }
{
    for id in ids {
        file_declarator(alloc, tokens, nodes, st, storage, ty, *id)?;
    }
    Ok(())
}

// Whether a node has the specifiers of a type.
fn is_specifiers(kind: NodeKind) -> bool
    ensures yes { result ≡ true → kind ≡ kinds.TypeSpecifierSeq }
    ensures no { (s : List Lexeme) (st : StateOf) (x : StorageOf) (at : AtOf) (p : SyntaxAt) (token : Option ℕ) (kids rest : Trees) → result ≡ false → file_typed s st x at (more (node kind p token kids) rest) ≡ Err (Ill at OutOfProfile) }
{
    match kind {
        NodeKind::TypeSpecifierSeq => true,
        _ => false,
    }
}

// The declarators of a declaration behind its type.
fn declarators_typed(
    alloc: Global,
    tokens: &Tokens,
    nodes: &Nodes,
    st: &mut State,
    storage: Storage,
    at: At,
    base: NodeId,
    rest: &[NodeId],
) -> Result<(), ElabFault>
    requires base { base.0 < length nodes.now }
    requires rest { are_below (length nodes.now) rest.now ≡ true }
    ensures { Answers (state_of st.new) result (file_typed (lexemes_of tokens.now) (state_of st.old) (storage_of storage) at (more (tree_at (syntax_of nodes.now) base) (trees_at (syntax_of nodes.now) rest.now))) }
{
    if !is_specifiers(node_at(nodes, base).kind) {
        return Err(ill(at, IllRule::OutOfProfile));
    }
    let ty = specified(alloc, &st.env, tokens, nodes, base, &mut st.work)?;
    file_declarators(alloc, tokens, nodes, st, storage, &ty, rest)
}

// A declaration with its declarators.
fn file_declaration(
    alloc: Global,
    tokens: &Tokens,
    nodes: &Nodes,
    st: &mut State,
    storage: Storage,
    at: At,
    kids: &[NodeId],
) -> Result<(), ElabFault>
    requires { are_below (length nodes.now) kids.now ≡ true }
    ensures { Answers (state_of st.new) result (file_declaration_of (lexemes_of tokens.now) (state_of st.old) (storage_of storage) at (trees_at (syntax_of nodes.now) kids.now)) }
{
    let started = started_from(tokens, nodes, storage, kids);
    let Some(base) = kid_at(kids, started.count) else {
        return Err(ill(at, IllRule::OutOfProfile));
    };
    let rest = rest_from(kids, started.count + 1);
    declarators_typed(alloc, tokens, nodes, st, started.storage, at, base, rest)
}

// The type that a type-id names.
fn type_written(
    alloc: Global,
    env: &Env,
    tokens: &Tokens,
    nodes: &Nodes,
    id: NodeId,
    work: &mut Work,
) -> Result<Ty, ElabFault>
    requires { id.0 < length nodes.now }
    ensures says { Says typ_of result (type_id_of (lexemes_of tokens.now) (ctx_of env.now) (work_of work.old) (tree_at (syntax_of nodes.now) id)) }
    ensures kept { IfOk result (λ ty. Unmoved work.old work.new) }
{
    type_id(alloc, env, &env.closures, tokens, nodes, id, work)
}

// An alias of the type that the first kid names.
fn alias_of(
    alloc: Global,
    tokens: &Tokens,
    nodes: &Nodes,
    st: &mut State,
    at: At,
    name: &[u8],
    kids: &[NodeId],
) -> Result<(), ElabFault>
    requires { are_below (length nodes.now) kids.now ≡ true }
    ensures { Answers (state_of st.new) result (alias_of_of (lexemes_of tokens.now) (state_of st.old) at name.now (trees_at (syntax_of nodes.now) kids.now)) }
{
    let Some(first) = first_kid(kids) else {
        return Err(ill(at, IllRule::OutOfProfile));
    };
    let ty = type_written(alloc, &st.env, tokens, nodes, first, &mut st.work)?;
    alias_declared(alloc, &mut st.env, at, name, &ty)
}

fn is_word_c(bytes: &[u8]) -> bool
    ensures { result ≡ is_c_of bytes.now }
{
    bytes == b"C".as_slice()
}

// Tests that the language behind `extern` is C.
fn is_c(alloc: Global, tokens: &Tokens, at: At, token: u32) -> Result<bool, ElabFault>
    ensures { Tells result (c_checked (lexemes_of tokens.now) at token) }
{
    let bytes = string_bytes(alloc, spelling(tokens, token))?;
    if !is_word_c(&bytes) {
        return Err(ill(at, IllRule::OutOfProfile));
    }
    Ok(true)
}

// The words before the declarations behind `extern "C"`, which stand in braces or not.
fn c_words(storage: Storage, is_block: bool) -> Storage
    ensures { storage_of result ≡ c_words_of (storage_of storage) is_block }
{
    Storage {
        is_static: storage.is_static,
        is_extern: storage.is_extern || !is_block,
        is_inline: storage.is_inline,
        is_virtual: storage.is_virtual,
        is_c: true,
    }
}

// A class that is only declared.
fn class_begun(alloc: Global, st: &mut State, at: At, name: &[u8]) -> Result<(), ElabFault>
    ensures { Answers (state_of st.new) result (declared_only (state_of st.old) at name.now) }
{
    let _class = class_declared(alloc, &mut st.env, at, name)?;
    Ok(())
}

// Declarations behind `extern "C"`.
#[cycle(declarations)]
fn linkage_of(
    alloc: Global,
    tokens: &Tokens,
    nodes: &Nodes,
    st: &mut State,
    storage: Storage,
    id: NodeId,
    at: At,
    token: u32,
    kids: &[NodeId],
    is_block: bool,
) -> Result<(), ElabFault>
    requires within { id.0 < length nodes.now }
    requires lower { are_below id.0 kids.now ≡ true }
    ensures { Answers (state_of st.new) result (linkage_declared (lexemes_of tokens.now) (storage_of storage) (state_of st.old) at token (trees_at (syntax_of nodes.now) kids.now) is_block) }
{
    is_c(alloc, tokens, at, token)?;
    let words = c_words(storage, is_block);
    declarations_of(alloc, tokens, nodes, st, words, id, kids)
}

// A declaration whose node has a token.
#[cycle(declarations)]
fn named_declaration(
    alloc: Global,
    tokens: &Tokens,
    nodes: &Nodes,
    st: &mut State,
    storage: Storage,
    id: NodeId,
    kind: NodeKind,
    at: At,
    token: u32,
    kids: &[NodeId],
) -> Result<(), ElabFault>
    requires within { id.0 < length nodes.now }
    requires lower { are_below id.0 kids.now ≡ true }
    requires all { are_below (length nodes.now) kids.now ≡ true }
    ensures { (p : SyntaxAt) → at ≡ at_of p → Answers (state_of st.new) result (declaration_of_of (lexemes_of tokens.now) (storage_of storage) (state_of st.old) (node kind p (Some token) (trees_at (syntax_of nodes.now) kids.now))) }
{
    match kind {
        NodeKind::EmptyDeclaration => Ok(()),
        NodeKind::SimpleDeclaration => {
            file_declaration(alloc, tokens, nodes, st, storage, at, kids)
        }
        NodeKind::LinkageSpecification => linkage_of(
            alloc, tokens, nodes, st, storage, id, at, token, kids, false,
        ),
        NodeKind::LinkageBlock => linkage_of(
            alloc, tokens, nodes, st, storage, id, at, token, kids, true,
        ),
        NodeKind::AliasDeclaration => {
            alias_of(alloc, tokens, nodes, st, at, spelling(tokens, token), kids)
        }
        NodeKind::EnumSpecifier => enum_declared(
            alloc,
            &mut st.env,
            &mut st.work,
            tokens,
            nodes,
            id,
            kids,
            at,
            spelling(tokens, token),
        ),
        NodeKind::ClassDeclaration => class_begun(alloc, st, at, spelling(tokens, token)),
        NodeKind::ClassSpecifier => class_defined(
            alloc,
            &UnitLambdas,
            tokens,
            nodes,
            st,
            at,
            spelling(tokens, token),
            kids,
        ),
        NodeKind::FunctionDefinition => {
            function_defined(alloc, tokens, nodes, st, storage, at, token, kids)
        }
        NodeKind::ConstructorDefinition => member_defined(
            alloc,
            &UnitLambdas,
            tokens,
            nodes,
            st,
            storage,
            at,
            FuncKind::Constructor,
            token,
            kids,
        ),
        NodeKind::DestructorDefinition => member_defined(
            alloc,
            &UnitLambdas,
            tokens,
            nodes,
            st,
            storage,
            at,
            FuncKind::Destructor,
            token,
            kids,
        ),
        _ => Err(ill(at, IllRule::OutOfProfile)),
    }
}

// A declaration whose node has none.
fn unnamed_declaration(
    alloc: Global,
    tokens: &Tokens,
    nodes: &Nodes,
    st: &mut State,
    storage: Storage,
    kind: NodeKind,
    at: At,
    kids: &[NodeId],
) -> Result<(), ElabFault>
    requires { are_below (length nodes.now) kids.now ≡ true }
    ensures { (p : SyntaxAt) → at ≡ at_of p → Answers (state_of st.new) result (declaration_of_of (lexemes_of tokens.now) (storage_of storage) (state_of st.old) (node kind p None (trees_at (syntax_of nodes.now) kids.now))) }
{
    match kind {
        NodeKind::EmptyDeclaration => Ok(()),
        NodeKind::SimpleDeclaration => {
            file_declaration(alloc, tokens, nodes, st, storage, at, kids)
        }
        _ => Err(ill(at, IllRule::OutOfProfile)),
    }
}

// A declaration.
#[cycle(declarations)]
fn declaration_of(
    alloc: Global,
    tokens: &Tokens,
    nodes: &Nodes,
    st: &mut State,
    storage: Storage,
    id: NodeId,
) -> Result<(), ElabFault>
    requires { id.0 < length nodes.now }
    ensures { Answers (state_of st.new) result (declaration_of_of (lexemes_of tokens.now) (storage_of storage) (state_of st.old) (tree_at (syntax_of nodes.now) id)) }
{
    let node = node_in(nodes, id);
    let kind = node.kind;
    let at = place(node.at);
    match node.token {
        Some(token) => named_declaration(
            alloc, tokens, nodes, st, storage, id, kind, at, token, &node.kids,
        ),
        None => unnamed_declaration(alloc, tokens, nodes, st, storage, kind, at, &node.kids),
    }
}

// Declarations, one behind the other; they stand below the node of which they are kids.
#[cycle(declarations)]
fn declarations_of(
    alloc: Global,
    tokens: &Tokens,
    nodes: &Nodes,
    st: &mut State,
    storage: Storage,
    parent: NodeId,
    ids: &[NodeId],
) -> Result<(), ElabFault>
    requires within { parent.0 < length nodes.now }
    requires lower { are_below parent.0 ids.now ≡ true }
    ensures { Answers (state_of st.new) result (declarations_of_of (lexemes_of tokens.now) (storage_of storage) (state_of st.old) (trees_at (syntax_of nodes.now) ids.now)) }
{
    for id in ids {
        declaration_of(alloc, tokens, nodes, st, storage, *id)?;
    }
    Ok(())
}

// What was made for a declaration and is not kept.
fn forget(st: &mut State)
    ensures { state_of st.new ≡ state_of st.old }
{
    st.work.nodes.clear();
}

/// The declarations of a unit.
pub fn all_declared(
    alloc: Global,
    tokens: &Tokens,
    nodes: &Nodes,
    st: &mut State,
    ids: &[NodeId],
) -> Result<(), ElabFault>
    requires { are_below (length nodes.now) ids.now ≡ true }
    ensures { Answers (state_of st.new) result (declarations_of_of (lexemes_of tokens.now) no_storage_of (state_of st.old) (trees_at (syntax_of nodes.now) ids.now)) }
{
    for id in ids {
        declaration_of(alloc, tokens, nodes, st, no_storage(), *id)?;
        forget(st);
    }
    Ok(())
}
