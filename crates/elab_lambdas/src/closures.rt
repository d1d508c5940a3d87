// The class of a lambda (C++14 5.1.2 p3, p7): its members are the captures, its one function is the call.

ghost use Rattle.std.specs.Prelude.{◌≡◌, ◌++◌, ◌∷◌, [], map, length, IfOk, OnOk};
ghost use Rattle.elab_entry.specs.cpp_types.Typ.{typ_of, signature_of};
ghost use Rattle.elab_entry.specs.cpp_types.Class.{class_of, member_of, function_of};
ghost use Rattle.elab_entry.specs.elab_ctx.Ctx.{ctx_of, func_of, capture_of, traits_of};
ghost use Rattle.elab_entry.specs.elab_rules.Functions.{safety_of as safety_of_of};
ghost use Rattle.elab_entry.specs.elab_rules.Lambdas.{capture_members, with_closure};
ghost use Rattle.elab_entry.specs.elab_types.Shown.{parameter_of, qualifiers_of};
ghost use Rattle.elab_lambdas.specs.Shown.{call_of};
ghost use Rattle.elab_lambdas.specs.Steps.{closure_class, with_class, with_call};

use crate::traits::closure_traits;
use class_records::{next_completion, push_class};
use elab_decls::functions::params_from;
use elab_entry::below::{
    At, Capture, ClassRec, Env, FnTy, FuncDecl, FuncKind, FuncRec, Linkage, MemberRec, Parameter,
    Qualifiers, Safety, TParam, Traits, copy, copy_function,
};
use std::alloc::{AllocError, Global};

fn safety_of(qualifiers: Qualifiers) -> Safety
    ensures { result ≡ safety_of_of (qualifiers_of qualifiers) }
{
    if qualifiers.is_dynamic {
        Safety::Dynamic
    } else if qualifiers.is_safe {
        Safety::Safe
    } else {
        Safety::None
    }
}

/// What a lambda says of its call.
#[derive(Clone, Copy)]
pub struct CallWords {
    pub at: At,
    pub qualifiers: Qualifiers,
    pub is_mutable: bool,
    /// The byte behind the brace.
    pub closed: u32,
}

// The call of a lambda.
fn call_record(alloc: Global, words: CallWords, ty: &FnTy) -> Result<FuncRec, AllocError>
    ensures { IfOk result (λ f. function_of f ≡ call_of words (signature_of ty.now)) }
{
    let ty = copy_function(alloc, ty)?;
    Ok(FuncRec {
        name: Vec::new(alloc),
        ty,
        is_const: !words.is_mutable,
        is_virtual: false,
        is_override: false,
        is_final: false,
        pure_virtual: false,
        safety: safety_of(words.qualifiers),
        considered: false,
        no_except: words.qualifiers.no_except,
        at: words.at,
    })
}

fn call_function(
    alloc: Global,
    class: u32,
    words: CallWords,
    ty: &FnTy,
    params: &[Parameter],
) -> Result<FuncDecl, AllocError>
    ensures { IfOk result (λ f. func_of f ≡ with_call class (call_of words (signature_of ty.now)) (map parameter_of params.now) words.closed) }
{
    let params = params_from(alloc, params)?;
    let rec = call_record(alloc, words, ty)?;
    Ok(FuncDecl {
        rec,
        kind: FuncKind::ClosureCall,
        class: Some(class),
        linkage: Linkage::Internal,
        implicit: false,
        is_defined: true,
        builtin: None,
        params,
        text: Vec::new(alloc),
        closed_at: words.closed,
    })
}

fn member_from(alloc: Global, capture: &Capture) -> Result<MemberRec, AllocError>
    ensures { IfOk result (λ m. member_of m ≡ record { name = []; typ = typ_of capture.now.ty }) }
{
    let ty = copy(alloc, &capture.ty)?;
    Ok(MemberRec {
        name: Vec::new(alloc),
        ty,
    })
}

// The members of the class: the captures.
fn members_from(alloc: Global, captures: &[Capture]) -> Result<Vec<MemberRec>, AllocError>
    ensures { IfOk result (λ v. map member_of v.items ≡ capture_members (map capture_of captures.now)) }
{
    let mut list = Vec::new(alloc);
    for found in captures {
        let made = member_from(alloc, found)?;
        list.push(made)?;
    }
    Ok(list)
}

// The record of the class.
fn class_record(
    alloc: Global,
    captures: &[Capture],
    call: FuncRec,
    number: u32,
) -> Result<ClassRec, AllocError>
    ensures { IfOk result (λ c. class_of c ≡ closure_class (map capture_of captures.now) (function_of call) number) }
{
    let members = members_from(alloc, captures)?;
    let mut functions = Vec::new(alloc);
    functions.push(call)?;
    Ok(ClassRec {
        name: Vec::new(alloc),
        base: None,
        members,
        functions,
        is_final: false,
        complete: Some(number),
    })
}

/// The number of the next class.
pub fn next_class(env: &Env) -> Result<u32, AllocError>
    ensures { IfOk result (λ n. n ≡ length (ctx_of env.now).classes) }
{
    let Ok(class) = u32::try_from(env.classes.len()) else {
        return Err(AllocError);
    };
    Ok(class)
}

// One more class, that of a lambda.
fn add_closure_class(
    alloc: Global,
    env: &mut Env,
    captures: &[Capture],
    words: CallWords,
    ty: &FnTy,
) -> Result<(), AllocError>
    ensures { OnOk result (ctx_of env.new ≡ with_class (ctx_of env.old) (map capture_of captures.now) (call_of words (signature_of ty.now))) }
{
    let number = next_completion(env);
    let call = call_record(alloc, words, ty)?;
    let made = class_record(alloc, captures, call, number)?;
    push_class(alloc, env, made)?;
    Ok(())
}

// One more row of what holds of classes, of their final overriders too.
fn add_rows(alloc: Global, env: &mut Env, traits: Traits) -> Result<(), AllocError>
    ensures { OnOk result (ctx_of env.new ≡ record (ctx_of env.old) { traits = (ctx_of env.old).traits ++ traits_of traits ∷ []; slots = (ctx_of env.old).slots ++ [] ∷ [] }) }
{
    env.traits.push(traits)?;
    env.slots.push(Vec::new(alloc))?;
    Ok(())
}

fn add_call(env: &mut Env, call: FuncDecl) -> Result<(), AllocError>
    ensures { OnOk result (ctx_of env.new ≡ record (ctx_of env.old) { funcs = (ctx_of env.old).funcs ++ func_of call ∷ [] }) }
{
    env.funcs.push(call)?;
    Ok(())
}

/// Declares the class of a lambda, and its call.
pub fn add_closure(
    alloc: Global,
    env: &mut Env,
    captures: &[Capture],
    words: CallWords,
    ty: &FnTy,
    params: &[Parameter],
) -> Result<(), AllocError>
    ensures { OnOk result (ctx_of env.new ≡ with_closure (ctx_of env.old) (map capture_of captures.now) (call_of words (signature_of ty.now)) (map parameter_of params.now) words.closed) }
{
    let class = next_class(env)?;
    let traits = closure_traits(env, captures);
    let call = call_function(alloc, class, words, ty, params)?;
    add_closure_class(alloc, env, captures, words, ty)?;
    add_rows(alloc, env, traits)?;
    add_call(env, call)?;
    Ok(())
}
