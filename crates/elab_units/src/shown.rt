// The typed form of a unit.

ghost use Rattle.std.specs.Prelude.{◌≡◌, ◌<◌, ◌≤◌, ◌∷◌, ◌++◌, [], List, length, map, true, None, Some, is_some, IfOk, OnOk, MatchOption};
ghost use Rattle.elab_entry.specs.cpp_ast.Orders.{are_below};
ghost use Rattle.elab_entry.specs.cpp_types.Typ.{typ_of};
ghost use Rattle.elab_entry.specs.cpp_types.Class.{classes_of};
ghost use Rattle.elab_entry.specs.cpp_lex.Tokens.{Lexeme, lexemes_of};
ghost use Rattle.elab_entry.specs.cpp_ast.Trees.{node, Trees};
ghost use Rattle.elab_entry.specs.cpp_ast.declared.arena.At.{At as SyntaxAt};
ghost use Rattle.elab_entry.specs.elab_ctx.Steps.{spelling as spelling_of};
ghost use Rattle.elab_entry.specs.cpp_tree.Trees.{Tree};
ghost use Rattle.elab_entry.specs.cpp_tree.Units.{func_of as typed_func_of, definition_of, unit_of};
ghost use Rattle.elab_entry.specs.elab_ctx.Ctx.{Ctx, func_of};
ghost use Rattle.elab_entry.specs.elab_ctx.Types.{named_of};
ghost use Rattle.elab_entry.specs.cpp_tree.Typing.{is_class_typ};
ghost use Rattle.elab_entry.specs.elab_rules.Initialising.{signature_result};
ghost use Rattle.elab_entry.specs.elab_rules.Types.{type_named as type_named_of};
ghost use Rattle.elab_entry.specs.elab_rules.Statements.{State as StateOf, Body as BodyOf};
ghost use Rattle.elab_entry.specs.elab_rules.Programs.{one_if as one_if_of, words_of as words_of_of, typed_func as typed_func_of_rules, typed_funcs as typed_funcs_of, definition_in as definition_in_of, definition_if, definitions_in as definitions_in_of, unit_shown as unit_shown_of};
ghost use Rattle.elab_entry.specs.elab_types.Syntax.{syntax_of, tree_at, trees_at};
ghost use Rattle.elab_units.specs.Joined.{placed_in, roots_of};
ghost use Rattle.elab_units.specs.Made.{with_body, with_bodies, state_with, class_of_typ, class_called, definition_by};
ghost use Rattle.tree_forests.specs.Forests.{HasForest, GetBodies};

use crate::declarations::node_in;
use crate::joining::{Placed, joined_bodies};
use class_table::class_text;
use elab_entry::below::{
    Body, ClassDef, ClassRec, FuncDecl, Functions, NodeId, NodeKind, Nodes, Shape, TFunc, TGlobal,
    Tokens, Ty, TypeNames, UnitTree, is_class_type, spelling, type_named,
};
use elab_globals::symbol_of;
use std::alloc::{AllocError, Global};

fn one_if(holds: bool) -> u32
    ensures is { result ≡ one_if_of holds }
    ensures small { result ≤ 1 }
{
    if holds { 1 } else { 0 }
}

// The address of a result of class type.
fn result_words(found: &FuncDecl) -> u32
    ensures is { result ≡ one_if_of (is_class_typ (signature_result (func_of found.now).declared.signature)) }
    ensures small { result ≤ 1 }
{
    one_if(is_class_type(&found.rec.ty.ret))
}

fn object_words(found: &FuncDecl) -> u32
    ensures is { result ≡ one_if_of (is_some (func_of found.now).class) }
    ensures small { result ≤ 1 }
{
    one_if(found.class.is_some())
}

// How many words a call passes: the address of a result of class type, the object, the parameters.
fn words_of(found: &FuncDecl) -> Result<u32, AllocError>
    ensures { IfOk result (λ n. n ≡ words_of_of (func_of found.now)) }
{
    let Ok(count) = u32::try_from(found.params.len()) else {
        return Err(AllocError);
    };
    let first = result_words(found) + object_words(found);
    match count.checked_add(first) {
        Some(words) => Ok(words),
        None => Err(AllocError),
    }
}

// A function without a body.
fn typed_func(alloc: Global, found: FuncDecl, classes: &[ClassRec]) -> Result<TFunc, AllocError>
    ensures shown { (trees : List Tree) → IfOk result (λ f. typed_func_of trees f ≡ typed_func_of_rules (classes_of classes.now) (func_of found) None) }
    ensures bare { IfOk result (λ f. f.body ≡ None) }
{
    let symbol = symbol_of(alloc, &found, classes)?;
    let words = words_of(&found)?;
    Ok(TFunc {
        symbol,
        rec: found.rec,
        linkage: found.linkage,
        text: found.text,
        kind: found.kind,
        class: found.class,
        implicit: found.implicit,
        words,
        params: found.params,
        frame: Vec::new(alloc),
        body: None,
        closed_at: found.closed_at,
    })
}

// The functions of a unit, without their bodies.
fn typed_funcs(
    alloc: Global,
    funcs: Vec<FuncDecl>,
    classes: &[ClassRec],
) -> Result<Vec<TFunc>, AllocError>
    ensures shown { (trees : List Tree) → IfOk result (λ v. map (typed_func_of trees) v.items ≡ map (λ f. typed_func_of_rules (classes_of classes.now) (func_of f) None) funcs.items) }
    ensures bare { IfOk result (λ v. GetBodies [] v.items []) }
{
    let mut list = Vec::new(alloc);
    for found in funcs {
        let made = typed_func(alloc, found, classes)?;
        list.push(made)?;
    }
    Ok(list)
}

// Gives a function its body, unless it has one.
fn put_body(func: &mut TFunc, body: Placed)
    ensures shown { (trees : List Tree) → typed_func_of trees func.new ≡ with_body (typed_func_of trees func.old) (Some (placed_in trees body)) }
    ensures root { GetBodies (func.old ∷ []) (func.new ∷ []) (body.tree ∷ []) }
{
    match func.body {
        Some(_) => {}
        None => {
            func.body = Some(body.tree);
            func.frame = body.frame;
        }
    }
}

// Gives a body to its function.
fn put_one(funcs: &mut Vec<TFunc>, body: Placed)
    ensures shown { (trees : List Tree) (rest : List BodyOf) → with_bodies 0 (map (typed_func_of trees) funcs.new.items) rest ≡ with_bodies 0 (map (typed_func_of trees) funcs.old.items) (placed_in trees body ∷ rest) }
    ensures root { GetBodies funcs.old.items funcs.new.items (body.tree ∷ []) }
{
    match funcs.get_mut(body.func as usize) {
        Some(func) => put_body(func, body),
        None => {}
    }
}

// Gives functions their bodies.
fn put_bodies(funcs: &mut Vec<TFunc>, bodies: Vec<Placed>)
    ensures shown { (trees : List Tree) → map (typed_func_of trees) funcs.new.items ≡ with_bodies 0 (map (typed_func_of trees) funcs.old.items) (map (placed_in trees) bodies.items) }
    ensures roots { GetBodies funcs.old.items funcs.new.items (roots_of bodies.items) }
{
    for body in bodies {
        put_one(funcs, body);
    }
}

// The functions of a unit with their bodies.
fn funcs_shown(
    alloc: Global,
    funcs: Vec<FuncDecl>,
    bodies: Vec<Placed>,
    classes: &[ClassRec],
) -> Result<Vec<TFunc>, AllocError>
    ensures shown { (trees : List Tree) (st : StateOf) → st.ctx.classes ≡ classes_of classes.now → st.bodies ≡ map (placed_in trees) bodies.items → IfOk result (λ v. map (typed_func_of trees) v.items ≡ typed_funcs_of st 0 (map func_of funcs.items)) }
    ensures roots { IfOk result (λ v. GetBodies [] v.items (roots_of bodies.items)) }
{
    let mut list = typed_funcs(alloc, funcs, classes)?;
    put_bodies(&mut list, bodies);
    Ok(list)
}

fn class_in(ty: &Ty) -> Option<u32>
    ensures { result ≡ class_of_typ (typ_of ty.now) }
{
    match &ty.shape {
        Shape::Class(class) => Some(*class),
        Shape::Void
        | Shape::Int(_)
        | Shape::Enum { .. }
        | Shape::Null
        | Shape::Ptr(_)
        | Shape::Ref(_)
        | Shape::Array(_, _)
        | Shape::Func(_)
        | Shape::Closure(_)
        | Shape::TxEx(_) => None,
    }
}

// The class that a name stands for.
fn class_named(types: &TypeNames, name: &[u8]) -> Option<u32>
    ensures { result ≡ class_called (type_named_of name.now (map named_of types.now)) }
{
    match type_named(types, name) {
        Some(ty) => class_in(ty),
        None => None,
    }
}

// The token of a class that is defined.
fn class_token(kind: NodeKind, token: Option<u32>) -> Option<u32>
    ensures { (s : List Lexeme) (c : Ctx) (at : SyntaxAt) (kids : Trees) → MatchOption result (definition_in_of s c (node kind at token kids) ≡ []) (λ t. definition_in_of s c (node kind at token kids) ≡ definition_if s (type_named_of (spelling_of s t) c.types) kids) }
{
    match kind {
        NodeKind::ClassSpecifier => token,
        _ => None,
    }
}

// Puts a definition behind others, if there is one.
fn keep_class(list: &mut Vec<ClassDef>, class: u32, text: Vec<u8>) -> Result<(), AllocError>
    ensures { OnOk result (map definition_of list.new.items ≡ map definition_of list.old.items ++ definition_by (Some class) text.items) }
{
    list.push(ClassDef { class, text })?;
    Ok(())
}

// The class with the name that a token spells.
fn keep_named(
    alloc: Global,
    tokens: &Tokens,
    nodes: &Nodes,
    types: &TypeNames,
    token: u32,
    kids: &[NodeId],
    list: &mut Vec<ClassDef>,
) -> Result<(), AllocError>
    requires { are_below (length nodes.now) kids.now ≡ true }
    ensures { OnOk result (map definition_of list.new.items ≡ map definition_of list.old.items ++ definition_if (lexemes_of tokens.now) (type_named_of (spelling_of (lexemes_of tokens.now) token) (map named_of types.now)) (trees_at (syntax_of nodes.now) kids.now)) }
{
    match class_named(types, spelling(tokens, token)) {
        Some(class) => {
            let text = class_text(alloc, tokens, nodes, kids)?;
            keep_class(list, class, text)
        }
        None => Ok(()),
    }
}

// The class that a declaration defines.
fn keep_definition(
    alloc: Global,
    tokens: &Tokens,
    nodes: &Nodes,
    types: &TypeNames,
    id: NodeId,
    list: &mut Vec<ClassDef>,
) -> Result<(), AllocError>
    requires { id.0 < length nodes.now }
    ensures { (c : Ctx) → OnOk result (map definition_of list.new.items ≡ map definition_of list.old.items ++ definition_in_of (lexemes_of tokens.now) (record c { types = map named_of types.now }) (tree_at (syntax_of nodes.now) id)) }
{
    let node = node_in(nodes, id);
    match class_token(node.kind, node.token) {
        Some(token) => keep_named(alloc, tokens, nodes, types, token, &node.kids, list),
        None => Ok(()),
    }
}

// The classes that declarations define.
fn definitions_in(
    alloc: Global,
    tokens: &Tokens,
    nodes: &Nodes,
    types: &TypeNames,
    ids: &[NodeId],
) -> Result<Vec<ClassDef>, AllocError>
    requires { are_below (length nodes.now) ids.now ≡ true }
    ensures { (c : Ctx) → IfOk result (λ v. map definition_of v.items ≡ definitions_in_of (lexemes_of tokens.now) (record c { types = map named_of types.now }) (trees_at (syntax_of nodes.now) ids.now)) }
{
    let mut list = Vec::new(alloc);
    for id in ids {
        keep_definition(alloc, tokens, nodes, types, *id, &mut list)?;
    }
    Ok(list)
}

/// What a unit has made: its functions with their bodies, its globals, and the classes that it defines.
#[derive(Drop)]
pub struct Made {
    pub types: TypeNames,
    pub funcs: Functions,
    pub globals: Vec<TGlobal>,
    pub bodies: Vec<Body>,
}

/// The typed form of a unit.
pub fn unit_shown(
    alloc: Global,
    tokens: &Tokens,
    nodes: &Nodes,
    ids: &[NodeId],
    made: Made,
    classes: &[ClassRec],
) -> Result<UnitTree, AllocError>
    requires { are_below (length nodes.now) ids.now ≡ true }
    ensures forest { IfOk result (λ u. HasForest u) }
    ensures shown { (st : StateOf) → IfOk result (λ u. unit_of u ≡ unit_shown_of (lexemes_of tokens.now) (trees_at (syntax_of nodes.now) ids.now) (state_with st made (classes_of classes.now))) }
{
    let defined = definitions_in(alloc, tokens, nodes, &made.types, ids)?;
    let joined = joined_bodies(alloc, made.bodies)?;
    let funcs = funcs_shown(alloc, made.funcs.into_list(), joined.bodies, classes)?;
    Ok(UnitTree {
        nodes: joined.nodes,
        funcs,
        globals: made.globals,
        classes: defined,
    })
}
