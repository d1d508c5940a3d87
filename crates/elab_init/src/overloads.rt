// Which function of several is meant (C++14 13.3).

ghost use Rattle.std.specs.Prelude.{◌≡◌, ◌<◌, ◌^◌, ◌++◌, ◌∷◌, [], ◌&&◌, IfOk, OnOk, map, length, slice_get, true, false, None, Some, if◌then◌else◌};
ghost use Rattle.cpp_types.specs.Typ.{typ_of, typs_of, shape_form, typ, ref};
ghost use Rattle.cpp_types.specs.Class.{classes_of};
ghost use Rattle.elab_conv.specs.cpp_overload.Overload.{candidate_of, argument_of};
ghost use Rattle.elab_conv.specs.cpp_overload.Choosing.{chosen};
ghost use Rattle.elab_conv.specs.cpp_tree.Arena.{trees_of};
ghost use Rattle.elab_conv.specs.cpp_tree.Notation.{plain};
ghost use Rattle.elab_conv.specs.elab_ctx.Ctx.{ctx_of, func_of, special_of};
ghost use Rattle.elab_conv.specs.elab_ctx.Places.{passes};
ghost use Rattle.elab_conv.specs.elab_ctx.Operands.{operand_in, operands_in, are_in};
ghost use Rattle.elab_conv.specs.elab_ctx.Says.{Tells};
ghost use Rattle.elab_conv.specs.elab_rules.Initialising.{argument, arguments, candidate, candidates_at, maker, func_at, owner_form, is_constructor, trivial_copy, copy_candidates, constructors as constructors_of, makers as makers_of, makes as makes_of, places_from, parameters_at as parameters_at_of, meant as meant_of};

use crate::types::traits_at;
use cpp_types::{At, ClassRec, FnTy, Shape, Ty, copy, copy_function};
use elab_conv::below::{
    Arg, Cand, ElabFault, Env, FuncDecl, FuncKind, Functions, IllRule, NoBest, Operand, Special,
    TNode, choose, function_at, node_at,
};
use std::alloc::{AllocError, Global};

// The class of a member function, which is a lambda's where it is its call.
fn owner_shape(kind: FuncKind, class: u32) -> Shape
    ensures { shape_form result ≡ owner_form kind class }
{
    match kind {
        FuncKind::ClosureCall => Shape::Closure(class),
        FuncKind::Plain | FuncKind::Constructor | FuncKind::Destructor => Shape::Class(class),
    }
}

// A reference to an object.
fn reference_to(alloc: Global, shape: Shape, is_const: bool) -> Result<Ty, AllocError>
    ensures { IfOk result (λ t. typ_of t ≡ plain (ref (typ (shape_form shape) is_const false))) }
{
    let object = Ty {
        shape,
        is_const,
        is_volatile: false,
    };
    Ok(Ty {
        shape: Shape::Ref(Box::new(alloc, object)?),
        is_const: false,
        is_volatile: false,
    })
}

// A function as overload resolution sees it, with its object if it has one.
fn candidate_from(alloc: Global, found: &FuncDecl) -> Result<Cand, AllocError>
    ensures { IfOk result (λ k. candidate_of k ≡ candidate (func_of found.now)) }
{
    let ty = copy_function(alloc, &found.rec.ty)?;
    match found.class {
        Some(class) => Ok(Cand {
            ty,
            this: Some(reference_to(alloc, owner_shape(found.kind, class), found.rec.is_const)?),
        }),
        None => Ok(Cand { ty, this: None }),
    }
}

// A constructor as overload resolution sees it.
fn maker_from(alloc: Global, found: &FuncDecl) -> Result<Cand, AllocError>
    ensures { IfOk result (λ k. candidate_of k ≡ maker (func_of found.now)) }
{
    Ok(Cand {
        ty: copy_function(alloc, &found.rec.ty)?,
        this: None,
    })
}

fn candidate_at(alloc: Global, env: &Env, place: u32) -> Result<Cand, AllocError>
    ensures { IfOk result (λ k. candidate_of k ≡ candidate (func_at (ctx_of env.now).funcs place)) }
{
    match function_at(env, place) {
        Some(found) => candidate_from(alloc, found),
        // No place is asked for where no function stands.
        None => Err(AllocError),
    }
}

fn maker_at(alloc: Global, env: &Env, place: u32) -> Result<Cand, AllocError>
    ensures { IfOk result (λ k. candidate_of k ≡ maker (func_at (ctx_of env.now).funcs place)) }
{
    match function_at(env, place) {
        Some(found) => maker_from(alloc, found),
        None => Err(AllocError),
    }
}

fn keep_candidate(list: &mut Vec<Cand>, cand: Cand) -> Result<(), AllocError>
    ensures { OnOk result (map candidate_of list.new.items ≡ map candidate_of list.old.items ++ candidate_of cand ∷ []) }
{
    list.push(cand)?;
    Ok(())
}

/// The functions in these places, as overload resolution sees them.
pub fn candidates(alloc: Global, env: &Env, places: &[u32]) -> Result<Vec<Cand>, AllocError>
    ensures { IfOk result (λ cands. map candidate_of cands.items ≡ candidates_at candidate (ctx_of env.now).funcs places.now) }
{
    let mut list = Vec::new(alloc);
    for place in places {
        let cand = candidate_at(alloc, env, *place)?;
        keep_candidate(&mut list, cand)?;
    }
    Ok(list)
}

// The constructors in these places.
fn makers_in(alloc: Global, env: &Env, places: &[u32]) -> Result<Vec<Cand>, AllocError>
    ensures { IfOk result (λ cands. map candidate_of cands.items ≡ candidates_at maker (ctx_of env.now).funcs places.now) }
{
    let mut list = Vec::new(alloc);
    for place in places {
        let cand = maker_at(alloc, env, *place)?;
        keep_candidate(&mut list, cand)?;
    }
    Ok(list)
}

// Whether a function is a constructor of a class.
fn constructs(found: &FuncDecl, class: u32) -> bool
    ensures { result ≡ is_constructor class (func_of found.now) }
{
    let is_member = match found.class {
        Some(owner) => owner == class,
        None => false,
    };
    is_member && makes(found.kind)
}

fn makes(kind: FuncKind) -> bool
    ensures { result ≡ makes_of kind }
{
    match kind {
        FuncKind::Constructor => true,
        FuncKind::Plain | FuncKind::Destructor | FuncKind::ClosureCall => false,
    }
}

// Adds a place where a test holds.
fn keep_if(list: &mut Vec<u32>, holds: bool, place: u32) -> Result<(), AllocError>
    ensures { OnOk result (list.new.items ≡ (if holds then list.old.items ++ place ∷ [] else list.old.items)) }
{
    if holds {
        list.push(place)?;
    }
    Ok(())
}

/// The places of the constructors of a class.
pub fn constructors(alloc: Global, env: &Env, class: u32) -> Result<Vec<u32>, AllocError>
    ensures { IfOk result (λ places. places.items ≡ constructors_of (ctx_of env.now) class) }
{
    places_of_constructors(alloc, &env.funcs, class)
}

// Whether the function at a place is a constructor of a class.
fn constructs_at(funcs: &Functions, place: u32, class: u32) -> bool
    ensures { result ≡ passes (λ f. is_constructor class (func_of f)) (slice_get funcs.now place) }
{
    match funcs.get(place as usize) {
        Some(found) => constructs(found, class),
        None => false,
    }
}

fn places_of_constructors(
    alloc: Global,
    funcs: &Functions,
    class: u32,
) -> Result<Vec<u32>, AllocError>
    ensures { IfOk result (λ places. places.items ≡ places_from (is_constructor class) 0 (map func_of funcs.now)) }
{
    let members = funcs.of_class(class);
    let mut list = Vec::new(alloc);
    for place in members {
        let holds = constructs_at(funcs, *place, class);
        keep_if(&mut list, holds, *place)?;
    }
    Ok(list)
}

// The copy that no function makes, as overload resolution sees it.
fn copy_candidate(alloc: Global, class: u32, takes_const: bool) -> Result<Cand, AllocError>
    ensures { IfOk result (λ k. candidate_of k ≡ trivial_copy class takes_const) }
{
    let mut params = Vec::new(alloc);
    params.push(reference_to(alloc, Shape::Class(class), takes_const)?)?;
    Ok(Cand {
        ty: FnTy {
            params,
            ret: Ty {
                shape: Shape::Void,
                is_const: false,
                is_volatile: false,
            },
            safe: false,
        },
        this: None,
    })
}

// Adds the copy of a class where no function makes it.
fn add_copy(
    alloc: Global,
    list: &mut Vec<Cand>,
    class: u32,
    takes_const: bool,
    special: Special,
) -> Result<(), AllocError>
    ensures { OnOk result (map candidate_of list.new.items ≡ map candidate_of list.old.items ++ copy_candidates class takes_const (special_of special)) }
{
    match special {
        Special::Trivial => {
            let cand = copy_candidate(alloc, class, takes_const)?;
            keep_candidate(list, cand)
        }
        Special::Absent | Special::Function(_) => Ok(()),
    }
}

/// What makes an object of a class: its constructors, which stand in these places, and its copy where that is trivial.
pub fn makers(alloc: Global, env: &Env, class: u32, places: &[u32]) -> Result<Vec<Cand>, AllocError>
    requires { places.now ≡ constructors_of (ctx_of env.now) class }
    ensures { IfOk result (λ cands. map candidate_of cands.items ≡ makers_of (ctx_of env.now) class) }
{
    let mut list = makers_in(alloc, env, places)?;
    let traits = traits_at(env, class);
    add_copy(alloc, &mut list, class, traits.copies_const, traits.copy)?;
    Ok(list)
}

/// The types of the parameters of a function.
#[tactic(auto, using(cpp_types::proofs::Views::signature_view))]
pub fn parameters_at(env: &Env, func: u32) -> Result<&[Ty], AllocError>
    ensures { IfOk result (λ params. typs_of params.now ≡ parameters_at_of (ctx_of env.now).funcs func) }
{
    match function_at(env, func) {
        Some(found) => Ok(&found.rec.ty.params),
        // No place is asked for where no function stands.
        None => Err(AllocError),
    }
}

// An argument, as overload resolution sees it.
fn argument_at(alloc: Global, nodes: &Vec<TNode>, o: Operand) -> Result<Arg, AllocError>
    requires { o.id.0 < length (trees_of nodes.now.items) }
    ensures { IfOk result (λ a. argument_of a ≡ argument (operand_in (trees_of nodes.now.items) o)) }
{
    let node = node_at(nodes, o.id);
    Ok(Arg {
        ty: copy(alloc, &node.ty)?,
        cat: node.cat,
        null_constant: o.zero,
    })
}

fn keep_argument(list: &mut Vec<Arg>, arg: Arg) -> Result<(), AllocError>
    ensures { OnOk result (map argument_of list.new.items ≡ map argument_of list.old.items ++ argument_of arg ∷ []) }
{
    list.push(arg)?;
    Ok(())
}

// The arguments of a call.
fn all_arguments(alloc: Global, nodes: &Vec<TNode>, os: &[Operand]) -> Result<Vec<Arg>, AllocError>
    requires { are_in (length (trees_of nodes.now.items)) os.now ≡ true }
    ensures { IfOk result (λ v. map argument_of v.items ≡ arguments (operands_in (trees_of nodes.now.items) os.now)) }
{
    let mut list = Vec::new(alloc);
    for o in os {
        let arg = argument_at(alloc, nodes, *o)?;
        keep_argument(&mut list, arg)?;
    }
    Ok(list)
}

// The index of the candidate that is meant.
fn chosen_index(
    classes: &[ClassRec],
    at: At,
    cands: &[Cand],
    args: &[Arg],
) -> Result<u32, ElabFault>
    requires { length cands.now < 2 ^ 32 }
    ensures { Tells result (meant_of at (chosen (classes_of classes.now) (map candidate_of cands.now) (map argument_of args.now))) }
{
    match choose(cands, args, classes) {
        Ok(i) => Ok(i),
        Err(NoBest::NoViable) => Err(ElabFault::Ill {
            at,
            rule: IllRule::NoViable,
        }),
        Err(NoBest::Ambiguous { .. }) => Err(ElabFault::Ill {
            at,
            rule: IllRule::Ambiguous,
        }),
    }
}

/// Which of the candidates a call with these arguments means, by its index.
pub fn meant(
    alloc: Global,
    env: &Env,
    nodes: &Vec<TNode>,
    at: At,
    cands: &[Cand],
    os: &[Operand],
) -> Result<u32, ElabFault>
    requires { are_in (length (trees_of nodes.now.items)) os.now ≡ true }
    ensures { Tells result (meant_of at (chosen (classes_of env.now.classes.items) (map candidate_of cands.now) (arguments (operands_in (trees_of nodes.now.items) os.now)))) }
{
    let args = all_arguments(alloc, nodes, os)?;
    let Ok(_) = u32::try_from(cands.len()) else {
        return Err(ElabFault::Memory);
    };
    chosen_index(&env.classes, at, cands, &args)
}
