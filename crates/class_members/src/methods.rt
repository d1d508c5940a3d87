// Member functions, constructors and destructors (C++14 9.3, 12.1, 12.4).

ghost use Rattle.std.specs.Prelude.{◌≡◌, IfOk, List, map, is_some, option_map, slice_get};
ghost use Rattle.cpp_types.specs.Typ.{signature_of, typs_of};
ghost use Rattle.cpp_types.specs.Equal.{typs_eq};
ghost use Rattle.cpp_types.specs.Class.{function_of, member_of};
ghost use Rattle.elab_init.specs.cpp_tree.Units.{param_of};
ghost use Rattle.elab_init.specs.elab_ctx.Ctx.{ctx_of, func_of, Work};
ghost use Rattle.elab_init.specs.elab_ctx.Places.{passes, first_among};
ghost use Rattle.elab_init.specs.elab_ctx.Says.{Tells};
ghost use Rattle.elab_init.specs.elab_rules.Initialising.{signature_parameters};
ghost use Rattle.elab_init.specs.elab_rules.Names.{same_variable};
ghost use Rattle.elab_init.specs.elab_rules.Statements.{Body};
ghost use Rattle.elab_init.specs.elab_rules.Functions.{param_of as declared_param, safety_of as safety_of_of, linkage_of as linkage_of_of, function_record as function_record_of, same_kind as same_kind_of, is_same_function as is_same_function_of, defines_well as defines_well_of, first_from};
ghost use Rattle.elab_init.specs.elab_rules.Classes.{as_written as as_written_of, definition_sized as definition_sized_of, member_function as member_function_of};
ghost use Rattle.elab_types.specs.Shown.{Says, parameter_of, qualifiers_of};
ghost use Rattle.class_members.specs.Shown.{header_of, storage_of, marks_of, definition_of, home_of, reading, Answers};
ghost use Rattle.class_members.specs.Parts.{method_by, member_made as member_made_of};

use crate::data_members::has_member;
use crate::lists::{add_function, keep_param};
use crate::overriding::{
    TakenOver, is_destructor_name, marks_fit, overrides_well, same_flag, same_parameters,
    taken_over,
};
use crate::records::{Definition, Header, Home, Marks, Members, Storage};
use crate::sizes::{header_sized, text_sized};
use cpp_types::{FnTy, FuncRec, MemberRec, Safety, Ty, copy, copy_function, equal_lists};
use elab_init::below::{ElabFault, Env, FuncDecl, FuncKind, Functions, IllRule, Linkage, TParam};
use elab_init::ill;
use elab_types::declarators::types_of_parameters;
use elab_types::{Parameter, Qualifiers};
use std::alloc::{AllocError, Global};

fn safety_of(qualifiers: Qualifiers) -> Safety
    ensures { result ≡ safety_of_of (qualifiers_of qualifiers) }
{
    if qualifiers.is_dynamic {
        Safety::Dynamic
    } else if qualifiers.is_safe {
        Safety::Safe
    } else {
        Safety::None
    }
}

fn linkage_of(storage: Storage) -> Linkage
    ensures { result ≡ linkage_of_of (storage_of storage) }
{
    if storage.is_static {
        Linkage::Internal
    } else if storage.is_inline {
        Linkage::Inline
    } else {
        Linkage::External
    }
}

// A function as it is declared, without what a base adds.
fn function_record(alloc: Global, header: &Header) -> Result<FuncRec, AllocError>
    ensures { IfOk result (λ f. function_of f ≡ function_record_of (header_of header.now)) }
{
    let name = Vec::from_slice(alloc, &header.name)?;
    let ty = copy_function(alloc, &header.ty)?;
    Ok(FuncRec {
        name,
        ty,
        is_const: header.qualifiers.is_const,
        is_virtual: header.storage.is_virtual,
        is_override: false,
        is_final: false,
        pure_virtual: false,
        safety: safety_of(header.qualifiers),
        considered: false,
        no_except: header.qualifiers.no_except,
        at: header.at,
    })
}

fn param_from(alloc: Global, param: &Parameter) -> Result<TParam, AllocError>
    ensures { IfOk result (λ p. param_of p ≡ declared_param (parameter_of param.now)) }
{
    let ty = copy(alloc, &param.ty)?;
    Ok(TParam { ty, at: param.at })
}

fn params_from(alloc: Global, params: &[Parameter]) -> Result<Vec<TParam>, AllocError>
    ensures { IfOk result (λ v. map param_of v.items ≡ map declared_param (map parameter_of params.now)) }
{
    let mut list = Vec::new(alloc);
    for param in params {
        let made = param_from(alloc, param)?;
        keep_param(&mut list, made)?;
    }
    Ok(list)
}

// The function that a member declares, with what it takes over from the one that it overrides.
fn method_from(
    alloc: Global,
    header: &Header,
    marks: Marks,
    over: TakenOver,
) -> Result<FuncDecl, AllocError>
    ensures { IfOk result (λ f. func_of f ≡ method_by (header_of header.now) (marks_of marks) over) }
{
    let name = Vec::from_slice(alloc, &header.name)?;
    let ty = copy_function(alloc, &header.ty)?;
    let params = params_from(alloc, &header.params)?;
    Ok(FuncDecl {
        rec: FuncRec {
            name,
            ty,
            is_const: header.qualifiers.is_const,
            is_virtual: header.storage.is_virtual || over.is_some,
            is_override: marks.is_override,
            is_final: marks.is_final,
            pure_virtual: marks.is_pure,
            safety: safety_of(header.qualifiers),
            considered: over.considered,
            no_except: header.qualifiers.no_except || is_destructor_name(&header.name),
            at: header.at,
        },
        kind: header.kind,
        class: header.class,
        linkage: linkage_of(header.storage),
        implicit: false,
        is_defined: false,
        builtin: None,
        params,
        text: Vec::new(alloc),
        closed_at: 0,
    })
}

// A function with the text that defines it, if that stands in the class: then it is inline (C++14 7.1.2, 9.3). It is
// defined behind the brace.
fn as_written(found: FuncDecl, definition: Option<Definition>) -> FuncDecl
    ensures { func_of result ≡ as_written_of (option_map definition_of definition) (func_of found) }
{
    match definition {
        Some(definition) => FuncDecl {
            rec: found.rec,
            kind: found.kind,
            class: found.class,
            linkage: Linkage::Inline,
            implicit: found.implicit,
            is_defined: found.is_defined,
            builtin: found.builtin,
            params: found.params,
            text: definition.text,
            closed_at: definition.closed_at,
        },
        None => found,
    }
}

fn same_class(a: Option<u32>, b: Option<u32>) -> bool
    ensures { result ≡ same_variable a b }
{
    match (a, b) {
        (Some(m), Some(n)) => m == n,
        (None, None) => true,
        _ => false,
    }
}

/// Whether two kinds of functions are the same.
pub fn same_kind(a: FuncKind, b: FuncKind) -> bool
    ensures { result ≡ same_kind_of a b }
{
    match (a, b) {
        (FuncKind::Plain, FuncKind::Plain)
        | (FuncKind::Constructor, FuncKind::Constructor)
        | (FuncKind::Destructor, FuncKind::Destructor)
        | (FuncKind::ClosureCall, FuncKind::ClosureCall) => true,
        _ => false,
    }
}

// Whether a function is the one that is declared: its name, its class, its parameters and `const` (C++14 13.1), and its
// kind.
fn is_same_function(header: &Header, found: &FuncDecl) -> bool
    ensures { result ≡ is_same_function_of (header_of header.now) (func_of found.now) }
{
    found.rec.name.as_slice() == header.name.as_slice()
        && same_class(found.class, header.class)
        && same_parameters(&found.rec.ty, &header.ty)
        && same_flag(found.rec.is_const, header.qualifiers.is_const)
        && same_kind(found.kind, header.kind)
}

// Whether the function at a place is the one that is declared.
fn is_same_at(funcs: &Functions, place: u32, header: &Header) -> bool
    ensures { result ≡ passes (λ f. is_same_function_of (header_of header.now) (func_of f)) (slice_get funcs.now place) }
{
    match funcs.get(place as usize) {
        Some(found) => is_same_function(header, found),
        None => false,
    }
}

// The places of the functions of the same class, or of the same name at file scope.
fn places_like<'a>(funcs: &'a Functions, header: &Header) -> &'a [u32]
    ensures { first_among (λ f. is_same_function_of (header_of header.now) (func_of f)) funcs.now result.now ≡ first_from (is_same_function_of (header_of header.now)) 0 (map func_of funcs.now) }
{
    match header.class {
        Some(class) => funcs.of_class(class),
        None => funcs.of_name(&header.name),
    }
}

/// The place of the function that is declared, if it was declared before.
pub fn first_same(funcs: &Functions, header: &Header) -> Option<u32>
    ensures { result ≡ first_from (is_same_function_of (header_of header.now)) 0 (map func_of funcs.now) }
{
    let places = places_like(funcs, header);
    for place in places {
        if is_same_at(funcs, *place, header) {
            return Some(*place);
        }
    }
    None
}

// Whether the function was declared before.
fn is_declared(funcs: &Functions, header: &Header) -> bool
    ensures { result ≡ is_some (first_from (is_same_function_of (header_of header.now)) 0 (map func_of funcs.now)) }
{
    first_same(funcs, header).is_some()
}

fn definition_sized(header: &Header, definition: &Option<Definition>) -> Result<bool, ElabFault>
    ensures { Tells result (definition_sized_of header.now.at (option_map definition_of definition.now)) }
{
    match definition {
        Some(found) => text_sized(header.at, &found.text),
        None => Ok(true),
    }
}

// The function that a member declares.
fn member_made(
    alloc: Global,
    env: &Env,
    home: &Home,
    members: &[MemberRec],
    header: &Header,
    marks: Marks,
    definition: Option<Definition>,
) -> Result<FuncDecl, ElabFault>
    ensures { Says func_of result (member_made_of (ctx_of env.now) (home_of home.now) (map member_of members.now) (header_of header.now) (marks_of marks) (option_map definition_of definition)) }
{
    let declared = function_record(alloc, header)?;
    if is_declared(&env.funcs, header) || has_member(members, &header.name) {
        return Err(ill(header.at, IllRule::Redeclared));
    }
    overrides_well(env, home.base, header, &declared)?;
    let over = taken_over(env, home.base, &declared);
    marks_fit(
        header,
        marks,
        over.is_some,
        header.storage.is_virtual || over.is_some,
    )?;
    header_sized(env, header)?;
    definition_sized(header, &definition)?;
    let made = method_from(alloc, header, marks, over)?;
    Ok(as_written(made, definition))
}

/// A member function, a constructor or a destructor that is declared in a class, with its text where that stands there.
pub fn member_function(
    alloc: Global,
    env: &mut Env,
    home: &Home,
    members: &Members,
    header: &Header,
    marks: Marks,
    definition: Option<Definition>,
) -> Result<(), ElabFault>
    ensures { (w : Work) (bodies : List Body) → Answers (reading (ctx_of env.new) w bodies members.now) result (member_function_of (home_of home.now) (reading (ctx_of env.old) w bodies members.now) (header_of header.now) (marks_of marks) (option_map definition_of definition)) }
{
    let made = member_made(
        alloc,
        env,
        home,
        &members.members,
        header,
        marks,
        definition,
    )?;
    add_function(env, made)?;
    Ok(())
}

// Whether these are the types of the parameters of a function.
#[tactic(auto, using(cpp_types::proofs::Views::signature_view))]
fn takes(types: &[Ty], function: &FnTy) -> bool
    ensures { result ≡ typs_eq (typs_of types.now) (signature_parameters (signature_of function.now)) }
{
    equal_lists(types, &function.params)
}

/// Tests that a function which is defined has the parameters that its declarator writes: another name of its type does
/// not do (C++14 8.3.5 p10).
pub fn defines_well(alloc: Global, header: &Header) -> Result<bool, ElabFault>
    ensures { Tells result (defines_well_of (header_of header.now)) }
{
    let types = types_of_parameters(alloc, &header.params)?;
    if !takes(&types, &header.ty) {
        return Err(ill(header.at, IllRule::BadDeclaration));
    }
    Ok(true)
}
