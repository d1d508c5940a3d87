// Names (C++14 3.4.1, 5.1.1): variables of the function stand inside its class, and that inside the file.

ghost use Rattle.std.specs.Prelude.{◌≡◌, ◌<◌, length, Some, None, IfOk, option_map};
ghost use Rattle.elab_conv.specs.cpp_types.Typ.{typ_of};
ghost use Rattle.elab_conv.specs.cpp_names.Names.{found_in};
ghost use Rattle.elab_conv.specs.cpp_names.declared.entity.Entity.{Entity};
ghost use Rattle.elab_conv.specs.cpp_tree.Arena.{trees_of, tree_at, Adds};
ghost use Rattle.elab_conv.specs.elab_ctx.Ctx.{ctx_of, work_of};
ghost use Rattle.elab_conv.specs.elab_ctx.Says.{Gives};
ghost use Rattle.elab_conv.specs.elab_rules.Names.{member_of as member_of_tree, enumerator_tree, global_tree, of_entity as of_entity_tree, is_local_entity, file_name as file_name_of, implicit_member as implicit_member_of, member_here as member_here_of, named as named_of, field};
ghost use Rattle.elab_names.specs.Members.{found_of, pointed_tree};

use crate::captures::{this_tree, variable};
use crate::members::{FoundMember, member_found};
use crate::offsets::offset_at;
use crate::parts::{free_functions, ill, member_functions, part_at, qualified_type, retyped};
use elab_conv::below::{
    At, Cat, ElabFault, Entity, EntityKind, Env, IllRule, Shape, TKind, TNode, TNodeId, Ty, Work,
    add_leaf, copy, node_at,
};
use std::alloc::{AllocError, Global};

// A data member of an object: the qualifiers of the object are those of the member too.
fn field_of(
    alloc: Global,
    env: &Env,
    nodes: &mut Vec<TNode>,
    at: At,
    object: TNodeId,
    class: u32,
    index: u32,
    ty: &Ty,
) -> Result<TNodeId, AllocError>
    requires { object.0 < length (trees_of nodes.old.items) }
    ensures { IfOk result (λ r. Adds (trees_of nodes.old.items) (trees_of nodes.new.items) r (member_of_tree (ctx_of env.now) at (tree_at (trees_of nodes.old.items) object) (field class index (typ_of ty.now)))) }
{
    let offset = offset_at(env, class, index)?;
    let around = &node_at(nodes, object).ty;
    let ty = qualified_type(alloc, around.is_const, around.is_volatile, ty)?;
    part_at(alloc, nodes, offset, ty, at, object)
}

/// A member of an object, as it was found.
pub fn member_of(
    alloc: Global,
    env: &Env,
    nodes: &mut Vec<TNode>,
    at: At,
    object: TNodeId,
    found: FoundMember<'_>,
) -> Result<TNodeId, AllocError>
    requires { object.0 < length (trees_of nodes.old.items) }
    ensures { IfOk result (λ r. Adds (trees_of nodes.old.items) (trees_of nodes.new.items) r (member_of_tree (ctx_of env.now) at (tree_at (trees_of nodes.old.items) object) (found_of found.entry))) }
{
    match found {
        FoundMember::Field { class, index, ty } => {
            field_of(alloc, env, nodes, at, object, class, index, ty)
        }
        FoundMember::Methods(first) => member_functions(alloc, nodes, at, first, object),
    }
}

// An enumerator (C++14 7.2).
fn enumerator(
    alloc: Global,
    env: &Env,
    nodes: &mut Vec<TNode>,
    at: At,
    number: u32,
) -> Result<TNodeId, ElabFault>
    ensures { Gives (trees_of nodes.old.items) (trees_of nodes.new.items) result (enumerator_tree (ctx_of env.now) at number) }
{
    let Some(found) = env.enumerators.get(number as usize) else {
        return Err(ill(at, IllRule::UnknownName));
    };
    let ty = copy(alloc, &found.ty)?;
    let kind = TKind::Literal { word: found.word };
    let made = add_leaf(alloc, nodes, kind, ty, Cat::Prvalue, at)?;
    Ok(made)
}

// A variable at file scope.
fn global(alloc: Global, work: &mut Work, at: At, global: u32) -> Result<TNodeId, ElabFault>
    ensures tree { Gives (trees_of work.old.nodes.items) (trees_of work.new.nodes.items) result (global_tree (work_of work.old) at global) }
    ensures work { work_of work.new ≡ work_of work.old }
{
    let Some(found) = work.globals.get(global as usize) else {
        return Err(ill(at, IllRule::UnknownName));
    };
    let ty = copy(alloc, &found.ty)?;
    let kind = TKind::Global { global };
    let made = add_leaf(alloc, &mut work.nodes, kind, ty, Cat::Lvalue, at)?;
    Ok(made)
}

/// What a name stands for, as an expression.
pub fn of_entity(
    alloc: Global,
    env: &Env,
    work: &mut Work,
    at: At,
    entity: Entity,
) -> Result<TNodeId, ElabFault>
    ensures tree { Gives (trees_of work.old.nodes.items) (trees_of work.new.nodes.items) result (of_entity_tree (ctx_of env.now) (work_of work.old) at entity.kind entity.id) }
    ensures work { work_of work.new ≡ work_of work.old }
{
    match entity.kind {
        EntityKind::Local => variable(alloc, env, work, at, entity.id),
        EntityKind::Global => global(alloc, work, at, entity.id),
        EntityKind::Funcs => {
            let made = free_functions(alloc, &mut work.nodes, at, entity.id)?;
            Ok(made)
        }
        EntityKind::Enumerator => enumerator(alloc, env, &mut work.nodes, at, entity.id),
        EntityKind::Member | EntityKind::Captured => Err(ill(at, IllRule::UnknownName)),
    }
}

fn is_local(entity: Option<Entity>) -> bool
    ensures { result ≡ is_local_entity entity }
{
    let Some(found) = entity else {
        return false;
    };
    match found.kind {
        EntityKind::Local => true,
        EntityKind::Global
        | EntityKind::Funcs
        | EntityKind::Enumerator
        | EntityKind::Member
        | EntityKind::Captured => false,
    }
}

// What the scopes have a name for.
fn file_name(
    alloc: Global,
    env: &Env,
    work: &mut Work,
    at: At,
    entity: Option<Entity>,
) -> Result<TNodeId, ElabFault>
    ensures tree { Gives (trees_of work.old.nodes.items) (trees_of work.new.nodes.items) result (file_name_of (ctx_of env.now) (work_of work.old) at entity) }
    ensures work { work_of work.new ≡ work_of work.old }
{
    match entity {
        Some(found) => of_entity(alloc, env, work, at, found),
        None => Err(ill(at, IllRule::UnknownName)),
    }
}

// The object to which a pointer points.
fn pointed_object(
    alloc: Global,
    nodes: &mut Vec<TNode>,
    at: At,
    pointer: TNodeId,
) -> Result<TNodeId, ElabFault>
    requires { pointer.0 < length (trees_of nodes.old.items) }
    ensures { Gives (trees_of nodes.old.items) (trees_of nodes.new.items) result (pointed_tree at (tree_at (trees_of nodes.old.items) pointer)) }
{
    let Shape::Ptr(target) = &node_at(nodes, pointer).ty.shape else {
        return Err(ill(at, IllRule::UnknownName));
    };
    let ty = copy(alloc, target)?;
    let made = retyped(alloc, nodes, at, ty, Cat::Lvalue, pointer)?;
    Ok(made)
}

// A member of the object at hand.
fn implicit_member(
    alloc: Global,
    env: &Env,
    nodes: &mut Vec<TNode>,
    at: At,
    found: FoundMember<'_>,
) -> Result<TNodeId, ElabFault>
    ensures { Gives (trees_of nodes.old.items) (trees_of nodes.new.items) result (implicit_member_of (ctx_of env.now) at (found_of found.entry)) }
{
    let pointer = this_tree(alloc, env, nodes, at)?;
    let object = pointed_object(alloc, nodes, at, pointer)?;
    let made = member_of(alloc, env, nodes, at, object, found)?;
    Ok(made)
}

// A member of the class at hand.
fn member_here<'a>(env: &'a Env, name: &[u8]) -> Result<Option<FoundMember<'a>>, AllocError>
    ensures { IfOk result (λ o. option_map found_of o ≡ member_here_of (ctx_of env.now) name.now env.now.class) }
{
    match env.class {
        Some(class) => member_found(env, name, class),
        None => Ok(None),
    }
}

/// What a name means where it stands.
pub fn named(
    alloc: Global,
    env: &Env,
    work: &mut Work,
    at: At,
    name: &[u8],
) -> Result<TNodeId, ElabFault>
    ensures tree { Gives (trees_of work.old.nodes.items) (trees_of work.new.nodes.items) result (named_of (ctx_of env.now) (work_of work.old) at name.now) }
    ensures work { work_of work.new ≡ work_of work.old }
{
    let entity = env.scopes.lookup(name);
    if is_local(entity) {
        return file_name(alloc, env, work, at, entity);
    }
    match member_here(env, name)? {
        Some(found) => implicit_member(alloc, env, &mut work.nodes, at, found),
        None => file_name(alloc, env, work, at, entity),
    }
}
