// Which function of a base a member overrides, and whether it may (C++14 10.3; the TS, [class.virtual]).

ghost use Rattle.std.specs.Prelude.{◌≡◌, MatchOption, None, Some, map};
ghost use Rattle.cpp_types.specs.Typ.{typ_of, typs_of, signature_of};
ghost use Rattle.cpp_types.specs.Class.{classes_of, function_of};
ghost use Rattle.cpp_types.specs.Equal.{flag_eq, typ_eq, typs_eq};
ghost use Rattle.cpp_types.specs.Trivial.{is_destructor_name as is_destructor_name_of};
ghost use Rattle.elab_init.specs.cpp_tree.Units.{slot_of};
ghost use Rattle.elab_init.specs.elab_ctx.Ctx.{ctx_of};
ghost use Rattle.elab_init.specs.elab_ctx.Says.{Tells};
ghost use Rattle.elab_init.specs.elab_ctx.Steps.{check as check_of};
ghost use Rattle.elab_init.specs.elab_rules.Initialising.{signature_parameters, signature_result};
ghost use Rattle.elab_init.specs.elab_rules.Classes.{same_virtual as same_virtual_of, slot_function as slot_function_of, overridden_from, base_slots as base_slots_of, overridden as overridden_of, is_safe as is_safe_of, is_dynamic as is_dynamic_of, stops_exceptions as stops_exceptions_of, overrides_well as overrides_well_of, marks_fit as marks_fit_of, is_considered as is_considered_of};
ghost use Rattle.class_members.specs.Shown.{header_of, marks_of};
ghost use Rattle.class_members.specs.Parts.{overridden_at, taken_over_of};

use crate::bases::keeps;
use crate::records::{Header, Marks};
use cpp_types::{At, ClassRec, FnTy, FuncRec, Safety, equal_lists, equal_types};
use elab_init::below::{ElabFault, Env, IllRule, OverrideRule, SlotRec};
use elab_init::ill;

/// Whether a name begins with `~`.
pub fn is_destructor_name(name: &[u8]) -> bool
    ensures { result ≡ is_destructor_name_of name.now }
{
    match name {
        [first, ..] => *first == b'~',
        [] => false,
    }
}

/// Whether two functions have parameters of the same types.
#[tactic(auto, using(cpp_types::proofs::Views::signature_view))]
pub fn same_parameters(a: &FnTy, b: &FnTy) -> bool
    ensures { result ≡ typs_eq (signature_parameters (signature_of a.now)) (signature_parameters (signature_of b.now)) }
{
    equal_lists(&a.params, &b.params)
}

#[tactic(auto, using(cpp_types::proofs::Views::signature_view))]
fn same_result(a: &FnTy, b: &FnTy) -> bool
    ensures { result ≡ typ_eq (signature_result (signature_of a.now)) (signature_result (signature_of b.now)) }
{
    equal_types(&a.ret, &b.ret)
}

/// Whether two flags are the same.
pub fn same_flag(a: bool, b: bool) -> bool
    ensures { result ≡ flag_eq a b }
{
    if a { b } else { !b }
}

/// Whether one function overrides the other, where that is virtual and of a base.
pub fn same_virtual(g: &FuncRec, f: &FuncRec) -> bool
    ensures { result ≡ same_virtual_of (function_of g.now) (function_of f.now) }
{
    is_destructor_name(&g.name) && is_destructor_name(&f.name)
        || g.name.as_slice() == f.name.as_slice()
            && same_parameters(&g.ty, &f.ty)
            && same_flag(g.is_const, f.is_const)
}

/// The final overrider that stands in a slot.
pub fn slot_function<'a>(classes: &'a [ClassRec], slot: &SlotRec) -> Option<&'a FuncRec>
    ensures { MatchOption result (slot_function_of (classes_of classes.now) (slot_of slot.now) ≡ None) (λ f. slot_function_of (classes_of classes.now) (slot_of slot.now) ≡ Some (function_of f.now)) }
{
    match classes.get(slot.class as usize) {
        Some(found) => found.functions.get(slot.func as usize),
        None => None,
    }
}

// The function in a slot, where it is overridden.
fn overridden_in<'a>(classes: &'a [ClassRec], g: &FuncRec, slot: &SlotRec) -> Option<&'a FuncRec>
    ensures { MatchOption result (overridden_at (classes_of classes.now) (function_of g.now) (slot_of slot.now) ≡ None) (λ f. overridden_at (classes_of classes.now) (function_of g.now) (slot_of slot.now) ≡ Some (function_of f.now)) }
{
    match slot_function(classes, slot) {
        Some(found) => {
            if same_virtual(g, found) {
                Some(found)
            } else {
                None
            }
        }
        None => None,
    }
}

fn overridden_among<'a>(
    classes: &'a [ClassRec],
    g: &FuncRec,
    slots: &[SlotRec],
) -> Option<&'a FuncRec>
    ensures { MatchOption result (overridden_from (classes_of classes.now) (function_of g.now) (map slot_of slots.now) ≡ None) (λ f. overridden_from (classes_of classes.now) (function_of g.now) (map slot_of slots.now) ≡ Some (function_of f.now)) }
{
    for slot in slots {
        match overridden_in(classes, g, slot) {
            Some(found) => return Some(found),
            None => {}
        }
    }
    None
}

/// The slots of a base.
pub fn base_slots(env: &Env, base: Option<u32>) -> &[SlotRec]
    ensures { map slot_of result.now ≡ base_slots_of (ctx_of env.now) base }
{
    match base {
        Some(class) => match env.slots.get(class as usize) {
            Some(slots) => slots.as_slice(),
            None => &[],
        },
        None => &[],
    }
}

/// The function of a base that a function overrides.
pub fn overridden<'a>(env: &'a Env, base: Option<u32>, g: &FuncRec) -> Option<&'a FuncRec>
    ensures { MatchOption result (overridden_of (ctx_of env.now) base (function_of g.now) ≡ None) (λ f. overridden_of (ctx_of env.now) base (function_of g.now) ≡ Some (function_of f.now)) }
{
    overridden_among(&env.classes, g, base_slots(env, base))
}

/// Whether a function is declared `transaction_safe`.
pub fn is_safe(safety: Safety) -> bool
    ensures { result ≡ is_safe_of safety }
{
    match safety {
        Safety::Safe => true,
        Safety::None | Safety::Dynamic => false,
    }
}

/// Whether a function is declared `transaction_safe_dynamic`.
pub fn is_dynamic(safety: Safety) -> bool
    ensures { result ≡ is_dynamic_of safety }
{
    match safety {
        Safety::Dynamic => true,
        Safety::None | Safety::Safe => false,
    }
}

/// What a function that overrides another takes over from it.
#[derive(Clone, Copy)]
pub struct TakenOver {
    pub is_some: bool,
    pub considered: bool,
}

/// What is taken over from the function that is overridden.
pub fn taken_over(env: &Env, base: Option<u32>, g: &FuncRec) -> TakenOver
    ensures { result ≡ taken_over_of (overridden_of (ctx_of env.now) base (function_of g.now)) }
{
    match overridden(env, base, g) {
        Some(found) => TakenOver {
            is_some: true,
            considered: is_safe(found.safety) || found.considered,
        },
        None => TakenOver {
            is_some: false,
            considered: false,
        },
    }
}

fn stops_exceptions(header: &Header) -> bool
    ensures { result ≡ stops_exceptions_of (header_of header.now) }
{
    header.qualifiers.no_except || is_destructor_name(&header.name)
}

// Whether a function may override another.
fn may_override(header: &Header, f: &FuncRec) -> Result<bool, ElabFault>
    ensures { Tells result (overrides_well_of (header_of header.now) (Some (function_of f.now))) }
{
    keeps(header.at, OverrideRule::OverridesFinal, !f.is_final)?;
    keeps(
        header.at,
        OverrideRule::ReturnDiffers,
        same_result(&header.ty, &f.ty),
    )?;
    keeps(
        header.at,
        OverrideRule::LooserNoexcept,
        !f.no_except || stops_exceptions(header),
    )?;
    keeps(
        header.at,
        OverrideRule::DynamicOverSafe,
        !(header.qualifiers.is_dynamic && (is_safe(f.safety) || f.considered)),
    )
}

/// Whether a function may override what it overrides.
pub fn overrides_well(
    env: &Env,
    base: Option<u32>,
    header: &Header,
    g: &FuncRec,
) -> Result<bool, ElabFault>
    ensures { Tells result (overrides_well_of (header_of header.now) (overridden_of (ctx_of env.now) base (function_of g.now))) }
{
    match overridden(env, base, g) {
        Some(found) => may_override(header, found),
        None => Ok(true),
    }
}

fn check(at: At, rule: IllRule, holds: bool) -> Result<bool, ElabFault>
    ensures { Tells result (check_of at rule holds) }
{
    if !holds {
        return Err(ill(at, rule));
    }
    Ok(true)
}

/// Whether the words behind a function fit what it is.
pub fn marks_fit(
    header: &Header,
    marks: Marks,
    overrides: bool,
    is_virtual: bool,
) -> Result<bool, ElabFault>
    ensures { Tells result (marks_fit_of (header_of header.now) (marks_of marks) overrides is_virtual) }
{
    let at = header.at;
    keeps(
        at,
        OverrideRule::OverrideNothing,
        overrides || !marks.is_override,
    )?;
    keeps(
        at,
        OverrideRule::OverrideNothing,
        is_virtual || !marks.is_final,
    )?;
    keeps(
        at,
        OverrideRule::DynamicNotVirtual,
        is_virtual || !header.qualifiers.is_dynamic,
    )?;
    check(at, IllRule::BadDeclaration, is_virtual || !marks.is_pure)
}
