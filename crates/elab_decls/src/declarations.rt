// Variables at file scope, as they are declared (C++14 3.5, 7.1.1).

ghost use Rattle.std.specs.Prelude.{◌≡◌, List, map, length, IfOk, OnOk};
ghost use Rattle.cpp_types.specs.Typ.{Typ, typ_of};
ghost use Rattle.elab_expr.specs.cpp_tree.Typing.{form_in};
ghost use Rattle.elab_expr.specs.cpp_tree.Units.{cell_of, global_of};
ghost use Rattle.elab_expr.specs.cpp_names.Names.{innermost_of};
ghost use Rattle.elab_expr.specs.elab_ctx.Ctx.{Ctx, Work as WorkOf, ctx_of, work_of, special_of};
ghost use Rattle.elab_expr.specs.elab_ctx.Says.{Tells};
ghost use Rattle.elab_expr.specs.elab_rules.Statements.{Body, is_trivial};
ghost use Rattle.elab_expr.specs.elab_rules.Globals.{is_trivial_class, is_constant_object, is_internal_linkage, not_void, global_linkage, new_global, global_agrees, global_again, global_named, global_declarable};
ghost use Rattle.elab_expr.specs.elab_types.Shown.{Says};
ghost use Rattle.class_members.specs.Shown.{storage_of};
ghost use Rattle.elab_decls.specs.Says.{state_of, placed_in, with_global, with_cells, declared_as, linkage_by};

use class_members::Storage;
use cpp_types::{At, Shape, Ty, copy, equal_types};
use elab_expr::below::{
    ElabFault, Entity, EntityKind, Env, IllRule, InitCell, Linkage, NameFault, Special, TGlobal,
    Work, element_type, has_auto, ill, is_bounded, traits_at,
};
use elab_ops::pointers::within_if_sized;
use elab_sizes::typ_sized;
use std::alloc::{AllocError, Global};

// Whether a special member does to each part what is to be done.
fn is_trivial(special: Special) -> bool
    ensures { result ≡ is_trivial (special_of special) }
{
    match special {
        Special::Trivial => true,
        Special::Absent | Special::Function(_) => false,
    }
}

/// Whether a global of a class is allowed (profile): its objects are made and destroyed without a call.
pub fn is_trivial_class(env: &Env, class: Option<u32>) -> bool
    ensures { result ≡ is_trivial_class (ctx_of env.now) class }
{
    match class {
        Some(class) => {
            let traits = traits_at(env, class);
            is_trivial(traits.default) && is_trivial(traits.destructor)
        }
        None => true,
    }
}

// Tests that objects have the type; a reference at file scope is left out (profile).
fn not_void(at: At, ty: &Ty) -> Result<bool, ElabFault>
    ensures { Tells result (not_void at (form_in (typ_of ty.now))) }
{
    match &ty.shape {
        Shape::Void => Err(ill(at, IllRule::BadDeclaration)),
        Shape::Ref(_) => Err(ill(at, IllRule::OutOfProfile)),
        Shape::Int(_)
        | Shape::Enum { .. }
        | Shape::Null
        | Shape::Ptr(_)
        | Shape::Array(_, _)
        | Shape::Func(_)
        | Shape::Class(_)
        | Shape::Closure(_)
        | Shape::TxEx(_) => Ok(true),
    }
}

/// Tests that a variable of a name and a type may stand at file scope.
pub fn global_declarable(env: &Env, at: At, name: &[u8], ty: &Ty) -> Result<bool, ElabFault>
    ensures { (work : WorkOf) (bodies : List Body) → Tells result (global_declarable (record { ctx = ctx_of env.now; work = work; bodies = bodies }) at name.now (typ_of ty.now)) }
{
    if name == b"main".as_slice() {
        return Err(ill(at, IllRule::BadMain));
    }
    if has_auto(ty) {
        return Err(ill(at, IllRule::OutOfProfile));
    }
    let _ = not_void(at, ty)?;
    if !is_bounded(ty) {
        return Err(ill(at, IllRule::BadDeclaration));
    }
    typ_sized(env, at, ty)?;
    within_if_sized(env, at, ty)
}

// How a variable is linked (C++14 3.5 p3).
fn global_linkage(alloc: Global, storage: Storage, ty: &Ty) -> Result<Linkage, AllocError>
    ensures { IfOk result (λ l. l ≡ global_linkage (storage_of storage) (typ_of ty.now)) }
{
    let element = element_type(alloc, ty)?;
    Ok(linkage_of(storage, is_constant_object(&element)))
}

// The same, by whether its objects never change.
fn linkage_of(storage: Storage, is_constant: bool) -> Linkage
    ensures { result ≡ linkage_by (storage_of storage) is_constant }
{
    if storage.is_static || (is_constant && !storage.is_extern) {
        Linkage::Internal
    } else {
        Linkage::External
    }
}

// Whether objects of a type never change.
fn is_constant_object(ty: &Ty) -> bool
    ensures { result ≡ is_constant_object (typ_of ty.now) }
{
    ty.is_const && !ty.is_volatile
}

// A global of which nothing is known but what its declaration says.
fn new_global(alloc: Global, name: &[u8], storage: Storage, ty: &Ty) -> Result<TGlobal, AllocError>
    ensures { IfOk result (λ g. global_of g ≡ new_global name.now (storage_of storage) (typ_of ty.now)) }
{
    let linkage = global_linkage(alloc, storage, ty)?;
    let symbol = Vec::from_slice(alloc, name)?;
    let ty = copy(alloc, ty)?;
    Ok(TGlobal {
        symbol,
        ty,
        linkage,
        init: Vec::new(alloc),
        defined: false,
    })
}

/// Gives a name a meaning in the innermost scope, unless it has one there; that one is the answer.
pub fn declare(env: &mut Env, name: &[u8], entity: Entity) -> Result<Option<Entity>, AllocError>
    ensures found { IfOk result (λ old. old ≡ innermost_of env.old.scopes name.now) }
    ensures behind { IfOk result (λ old. ctx_of env.new ≡ declared_as old (ctx_of env.old) name.now entity) }
{
    if env.scopes.is_empty() {
        return Err(AllocError);
    }
    match env.scopes.declare(name, entity) {
        Ok(()) => Ok(None),
        Err(NameFault::Twice { old }) => Ok(Some(old)),
        Err(NameFault::Memory) => Err(AllocError),
    }
}

// One more global.
fn keep_global(
    alloc: Global,
    work: &mut Work,
    name: &[u8],
    storage: Storage,
    ty: &Ty,
) -> Result<(), AllocError>
    ensures { OnOk result (work_of work.new ≡ with_global (work_of work.old) name.now (storage_of storage) (typ_of ty.now)) }
{
    let global = new_global(alloc, name, storage, ty)?;
    work.globals.push(global)?;
    Ok(())
}

// The place of the next global.
fn next_global(work: &Work) -> Result<u32, AllocError>
    ensures { IfOk result (λ g. g ≡ length (work_of work.now).globals) }
{
    let Ok(place) = u32::try_from(work.globals.len()) else {
        return Err(AllocError);
    };
    Ok(place)
}

// Whether a global is of one unit.
fn is_internal(linkage: Linkage) -> bool
    ensures { result ≡ is_internal_linkage linkage }
{
    match linkage {
        Linkage::Internal => true,
        Linkage::External | Linkage::Inline => false,
    }
}

// Tests that a further declaration of a global agrees with what is known of it.
fn global_agrees(
    at: At,
    storage: Storage,
    ty: &Ty,
    defines: bool,
    global: &TGlobal,
) -> Result<bool, ElabFault>
    ensures { Tells result (global_agrees at (storage_of storage) (typ_of ty.now) defines (global_of global.now)) }
{
    if !equal_types(&global.ty, ty) {
        return Err(ill(at, IllRule::TypeDiffers));
    }
    if storage.is_static && !is_internal(global.linkage) {
        return Err(ill(at, IllRule::BadDeclaration));
    }
    if defines && global.defined {
        return Err(ill(at, IllRule::Redeclared));
    }
    Ok(true)
}

// A further declaration of a name: the place of the global that it stands for.
fn global_again(
    work: &Work,
    at: At,
    storage: Storage,
    ty: &Ty,
    defines: bool,
    entity: Entity,
) -> Result<u32, ElabFault>
    ensures { (c : Ctx) (bodies : List Body) → Says (λ g. record { state = record { ctx = c; work = work_of work.now; bodies = bodies }; place = g }) result (global_again (record { ctx = c; work = work_of work.now; bodies = bodies }) at (storage_of storage) (typ_of ty.now) defines entity.kind entity.id) }
{
    match entity.kind {
        EntityKind::Global => {
            let Some(old) = work.globals.get(entity.id as usize) else {
                return Err(ill(at, IllRule::Redeclared));
            };
            let _ = global_agrees(at, storage, ty, defines, old)?;
            Ok(entity.id)
        }
        EntityKind::Local
        | EntityKind::Funcs
        | EntityKind::Enumerator
        | EntityKind::Member
        | EntityKind::Captured => Err(ill(at, IllRule::Redeclared)),
    }
}

/// The global that a declaration names, one that was declared before or a new one; the answer is its place.
pub fn global_named(
    alloc: Global,
    env: &mut Env,
    work: &mut Work,
    at: At,
    name: &[u8],
    storage: Storage,
    ty: &Ty,
    defines: bool,
) -> Result<u32, ElabFault>
    ensures { (bodies : List Body) → Says (placed_in env.new work.new bodies) result (global_named (state_of env.old work.old bodies) at name.now (storage_of storage) (typ_of ty.now) defines (innermost_of env.old.scopes name.now)) }
{
    let place = next_global(work)?;
    let entity = Entity {
        kind: EntityKind::Global,
        id: place,
    };
    match declare(env, name, entity)? {
        Some(old) => global_again(work, at, storage, ty, defines, old),
        None => {
            keep_global(alloc, work, name, storage, ty)?;
            Ok(place)
        }
    }
}

/// The first bytes of a global, which is defined by them.
pub fn define_global(work: &mut Work, place: u32, cells: Vec<InitCell>)
    ensures { (t : Typ) → work_of work.new ≡ with_cells (work_of work.old) place t (map cell_of cells.items) }
{
    if let Some(global) = work.globals.get_mut(place as usize) {
        global.init = cells;
        global.defined = true;
    }
}
