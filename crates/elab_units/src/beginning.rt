// What every unit knows (profile).

ghost use Rattle.std.specs.Prelude.{◌≡◌, ◌∷◌, [], length, map, option_map, codes, true, false, Some, None, IfOk, OnOk};
ghost use Rattle.elab_entry.specs.cpp_types.Typ.{typ_of, typs_of, signature_of, signature, void};
ghost use Rattle.elab_entry.specs.cpp_types.Class.{classes_of};
ghost use Rattle.elab_entry.specs.elab_ctx.cpp_names.Names.{with_name};
ghost use Rattle.elab_entry.specs.elab_ctx.cpp_names.declared.entity.EntityKind.TheVariants as entities;
ghost use Rattle.elab_entry.specs.cpp_tree.Notation.{plain};
ghost use Rattle.elab_entry.specs.elab_ctx.Ctx.{func_of, labels_of, traits_of};
ghost use Rattle.elab_entry.specs.elab_rules.Statements.{no_labels as no_labels_of};
ghost use Rattle.elab_entry.specs.elab_rules.Units.{int_typ, thread_function, builtin as builtin_of, builtins as builtins_of, start};
ghost use Rattle.elab_entry.specs.elab_scopes.States.{state_of, made};
ghost use Rattle.elab_units.specs.Begun.{one_or_two, long_typ, program_with, traits_known, bare, begun_with, begun_behind};

pub use crate::known::Classes;
use class_records::no_traits;
use elab_entry::below::{
    At, Builtin, Entity, EntityKind, Env, FnTy, FuncDecl, FuncKind, FuncRec, Functions, IntKind,
    Label, Labels, Linkage, Returns, Safety, Scopes, Shape, State, Traits, Ty, TypeNames, Work,
    plain_type, pointer_to,
};
use std::alloc::{AllocError, Global};

fn int_type() -> Ty
    ensures { typ_of result ≡ int_typ }
{
    plain_type(Shape::Int(IntKind::Int))
}

fn long_type() -> Ty
    ensures { typ_of result ≡ long_typ }
{
    plain_type(Shape::Int(IntKind::Long))
}

fn void_type() -> Ty
    ensures { typ_of result ≡ plain void }
{
    plain_type(Shape::Void)
}

// A list of one type, or of two.
fn types_of(alloc: Global, first: Ty, second: Option<Ty>) -> Result<Vec<Ty>, AllocError>
    ensures { IfOk result (λ v. typs_of v.items ≡ one_or_two (typ_of first) (option_map typ_of second)) }
{
    let mut list = Vec::new(alloc);
    list.push(first)?;
    if let Some(ty) = second {
        list.push(ty)?;
    }
    Ok(list)
}

fn function_type(params: Vec<Ty>, ret: Ty) -> FnTy
    ensures { signature_of result ≡ signature (typs_of params.items) (typ_of ret) false }
{
    FnTy {
        params,
        ret,
        safe: false,
    }
}

// A function that every unit knows.
fn builtin(
    alloc: Global,
    which: Builtin,
    name: &[u8],
    params: Vec<Ty>,
    ret: Ty,
) -> Result<FuncDecl, AllocError>
    ensures { IfOk result (λ f. func_of f ≡ builtin_of which name.now (typs_of params.items) (typ_of ret)) }
{
    let name = Vec::from_slice(alloc, name)?;
    let rec = FuncRec {
        name,
        ty: function_type(params, ret),
        is_const: false,
        is_virtual: false,
        is_override: false,
        is_final: false,
        pure_virtual: false,
        safety: Safety::None,
        considered: false,
        no_except: false,
        at: At {
            source: 0,
            offset: 0,
        },
    };
    Ok(FuncDecl {
        rec,
        kind: FuncKind::Plain,
        class: None,
        linkage: Linkage::External,
        implicit: false,
        is_defined: false,
        builtin: Some(which),
        params: Vec::new(alloc),
        text: Vec::new(alloc),
        closed_at: 0,
    })
}

// The type of pointers to functions that threads run.
fn thread_type(alloc: Global) -> Result<Ty, AllocError>
    ensures { IfOk result (λ t. typ_of t ≡ thread_function) }
{
    let params = types_of(alloc, long_type(), None)?;
    let function = Box::new(alloc, function_type(params, void_type()))?;
    pointer_to(alloc, plain_type(Shape::Func(function)))
}

// The functions that every unit knows.
fn builtins(alloc: Global) -> Result<Functions, AllocError>
    ensures { IfOk result (λ v. map func_of v ≡ builtins_of) }
{
    let one_int = types_of(alloc, int_type(), None)?;
    let again = types_of(alloc, int_type(), None)?;
    let spawned = types_of(alloc, thread_type(alloc)?, Some(long_type()))?;
    let none = Vec::new(alloc);
    let put = builtin(alloc, Builtin::PutChar, b"putchar", one_int, int_type())?;
    let get = builtin(alloc, Builtin::GetChar, b"getchar", none, int_type())?;
    let spawn = builtin(alloc, Builtin::Spawn, b"__txcc_spawn", spawned, int_type())?;
    let join = builtin(alloc, Builtin::Join, b"__txcc_join", again, void_type())?;
    let mut list = Functions::new(alloc);
    list.push(put)?;
    list.push(get)?;
    list.push(spawn)?;
    list.push(join)?;
    Ok(list)
}

// Gives the name of a function that every unit knows its meaning.
fn name_builtin(scopes: &mut Scopes, name: &[u8], id: u32) -> Result<(), AllocError>
    ensures { OnOk result (scopes.new ≡ with_name scopes.old name.now (record { kind = entities.Funcs; id = id })) }
{
    if scopes.is_empty() {
        return Err(AllocError);
    }
    let entity = Entity {
        kind: EntityKind::Funcs,
        id,
    };
    match scopes.declare(name, entity) {
        Ok(()) => Ok(()),
        // It has none yet.
        Err(_) => Err(AllocError),
    }
}

// The scope of a unit, with the names of these functions.
fn unit_scopes(alloc: Global) -> Result<Scopes, AllocError>
    ensures { IfOk result (λ s. s ≡ (start 0).ctx.scopes) }
{
    let mut scopes = Scopes::new(alloc);
    scopes.push()?;
    name_builtin(&mut scopes, b"putchar", 0)?;
    name_builtin(&mut scopes, b"getchar", 1)?;
    name_builtin(&mut scopes, b"__txcc_spawn", 2)?;
    name_builtin(&mut scopes, b"__txcc_join", 3)?;
    Ok(scopes)
}

/// No classes yet.
pub fn no_classes(alloc: Global) -> Classes
    ensures known { program_with [] result ≡ record { units = []; classes = []; slots = [] } }
    ensures traits { traits_known result ≡ [] }
{
    Classes {
        classes: Vec::new(alloc),
        completed: 0,
        layouts: Vec::new(alloc),
        traits: Vec::new(alloc),
        slots: Vec::new(alloc),
    }
}

fn no_labels(alloc: Global) -> Labels
    ensures { labels_of result ≡ no_labels_of (plain void) }
{
    Labels {
        ty: void_type(),
        words: Vec::new(alloc),
        has_default: false,
        is_past: false,
    }
}

// Nothing is known of the special members of these classes.
fn bare_traits(alloc: Global, known: &[Traits]) -> Result<Vec<Traits>, AllocError>
    ensures { IfOk result (λ v. map traits_of v.items ≡ bare (map traits_of known.now)) }
{
    let mut traits = Vec::new(alloc);
    for _ in known {
        traits.push(no_traits())?;
    }
    Ok(traits)
}

fn bare_classes(alloc: Global, known: Classes) -> Result<Classes, AllocError>
    ensures program { IfOk result (λ k. program_with [] k ≡ program_with [] known) }
    ensures traits { IfOk result (λ k. traits_known k ≡ bare (traits_known known)) }
{
    let traits = bare_traits(alloc, &known.traits)?;
    Ok(Classes {
        classes: known.classes,
        completed: known.completed,
        layouts: known.layouts,
        traits,
        slots: known.slots,
    })
}

// The beginning of a unit with these classes.
fn start_with(alloc: Global, source: u32, known: Classes) -> Result<State, AllocError>
    ensures state { IfOk result (λ st. state_of st ≡ begun_with source (program_with [] known) (traits_known known)) }
    ensures nodes { IfOk result (λ st. made st ≡ []) }
{
    let scopes = unit_scopes(alloc)?;
    let funcs = builtins(alloc)?;
    let env = Env {
        source,
        scopes,
        types: TypeNames::new(alloc),
        classes: known.classes,
        completed: known.completed,
        layouts: known.layouts,
        traits: known.traits,
        slots: known.slots,
        defaults: Vec::new(alloc),
        default_nodes: Vec::new(alloc),
        funcs,
        enumerators: Vec::new(alloc),
        variables: Vec::new(alloc),
        this: None,
        class: None,
        returns: Returns::Known(void_type()),
        breaks: false,
        continues: false,
        label: Label::Outside,
        labels: no_labels(alloc),
        lambda: None,
        closures: Vec::new(alloc),
    };
    Ok(State {
        env,
        work: Work {
            nodes: Vec::new(alloc),
            frame: Vec::new(alloc),
            globals: Vec::new(alloc),
        },
        bodies: Vec::new(alloc),
    })
}

/// The beginning of a unit behind others: their classes stay; their names are gone, and their special members, which are
/// functions of those units.
pub fn start_behind(alloc: Global, source: u32, known: Classes) -> Result<State, AllocError>
    ensures state { IfOk result (λ st. state_of st ≡ begun_behind source known) }
    ensures nodes { IfOk result (λ st. made st ≡ []) }
{
    let bare = bare_classes(alloc, known)?;
    start_with(alloc, source, bare)
}
