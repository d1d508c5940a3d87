//! Whether an image and a bound program agree.

ghost use Rattle.std.specs.Prelude.{◌≡◌, ℕ, [], true, false, map, length, Some, None, IfOk, Option, option_map};
ghost use Rattle.tx_code.specs.Images.{image_func_view, image_class_view};
ghost use Rattle.tx_code.specs.Views.{image_view};
ghost use Rattle.cpp_tree.specs.cpp_types.Equal.{flag_eq};
ghost use Rattle.cpp_tree.specs.declared.program.Program.{Program as Units};
ghost use Rattle.cpp_tree.specs.Units.{definition_of, unit_of};
ghost use Rattle.src_mean.specs.Links.{kept_funcs as funcs_kept, kept_classes as classes_kept};
ghost use Rattle.src_mean.specs.Source.{thread_signature};
ghost use Rattle.src_bind.specs.Defs.{defs_of};
ghost use Rattle.src_bind.specs.Infos.{info_of};
ghost use Rattle.src_bind.specs.Tables.{Given, typed, linked_of};
ghost use Rattle.src_bind.specs.Bounds.{given};
ghost use Rattle.image_links.specs.Books.{all_places, same_number, pointed_pass as pass_by_type};
ghost use Rattle.image_links.specs.Agreeing.{same_func, same_funcs, symbols_of, same_slot, same_slots, same_classes, class_agrees, definitions_agree, units_agree, threads_agree, spawned_agree, main_agrees, counts_agree, agrees, AreLinked};

use crate::calls::{func_gives, func_takes, is_same, numbered, pointed_pass};
use crate::lookups::{class_address, class_at, func_address, slot, spawned};
use cpp_tree::below::STACK_SIZE;
use cpp_tree::{ClassDef, Program, UnitTree};
use src_bind::defs::Found;
use src_bind::lists::{kept_classes, kept_funcs};
use src_bind::{Bound, Choices, FuncInfo};
use std::alloc::{AllocError, Global};
use tx_code::{Image, ImageClass, ImageFunc};

// Whether both are one number, or both none.
pub(crate) fn same_number(a: Option<u32>, b: Option<u32>) -> bool
    ensures { result ≡ same_number a b }
{
    match a {
        Some(m) => match b {
            Some(n) => m == n,
            None => false,
        },
        None => b.is_none(),
    }
}

// Whether a function of an image is this one of the program.
fn same_func(func: &ImageFunc, info: &FuncInfo) -> bool
    ensures { (program : Units) → result ≡ same_func (image_func_view func.now) (Some (info_of program info.now)) }
{
    func.frame == info.size
        && (is_same(func.no_except, info.stops)
            && (is_same(func.safe.is_some(), info.safe) && u64::from(info.size) <= STACK_SIZE))
}

// Whether it is the one with this number.
fn is_numbered(func: &ImageFunc, bound: &Bound<'_>, number: u32) -> bool
    ensures { result ≡ same_func (image_func_view func.now) ((linked_of (given bound.now)).func number) }
{
    match bound.info(number) {
        Some(info) => same_func(func, info),
        None => false,
    }
}

// Whether all functions of the image are.
fn same_funcs(image: &Image, bound: &Bound<'_>) -> Result<bool, AllocError>
    ensures { IfOk result (λ b. b ≡ same_funcs (linked_of (given bound.now)) 0 (image_view image.now).funcs) }
{
    for (n, func) in image.funcs.iter().enumerate() {
        let number = numbered(n)?;
        if !is_numbered(func, bound, number) {
            return Ok(false);
        }
    }
    Ok(true)
}

// Whether one slot of the class with the number `at` is the same, looked up as that of the class `class` of the image and
// as that of the class `of` of the program.
fn same_slot(image: &Image, bound: &Bound<'_>, class: u64, of: u32, at: u32, place: u32) -> bool
    ensures { result ≡ same_slot (image_view image.now) (given bound.now) class of at place }
{
    let address = class_address(at);
    same_number(
        slot(image, class, address, place),
        bound.slot(address, of, place),
    )
}

// Whether the slots are that have numbers in a list.
fn slots_agree<T>(
    image: &Image,
    bound: &Bound<'_>,
    class: u64,
    of: u32,
    at: u32,
    slots: &[T],
) -> Result<bool, AllocError>
    ensures { IfOk result (λ b. b ≡ all_places (same_slot (image_view image.now) (given bound.now) class of at) 0 slots.now) }
{
    for (n, _) in slots.iter().enumerate() {
        let place = numbered(n)?;
        if !same_slot(image, bound, class, of, at, place) {
            return Ok(false);
        }
    }
    Ok(true)
}

// The symbols that the slots of a kept class name.
fn symbols_of<'a>(choices: &'a Choices, kept: &[Found<'_>], at: u32) -> &'a [Option<Vec<u8>>]
    ensures { (g : Given) → defs_of kept.now ≡ classes_kept (typed g) → choices.now ≡ g.choices → result.now ≡ symbols_of g at }
{
    match kept.get(at as usize) {
        Some(def) => match choices.symbols.get(def.place as usize) {
            Some(row) => row,
            None => &[],
        },
        None => &[],
    }
}

// Whether all slots of one class are.
fn same_slots(
    image: &Image,
    bound: &Bound<'_>,
    class: u64,
    of: u32,
    at: u32,
    found: &ImageClass,
    symbols: &[Option<Vec<u8>>],
) -> Result<bool, AllocError>
    requires { symbols.now ≡ symbols_of (given bound.now) at }
    ensures { IfOk result (λ b. b ≡ same_slots (image_view image.now) (given bound.now) class of at (image_class_view found.now)) }
{
    if !slots_agree(image, bound, class, of, at, &found.slots)? {
        return Ok(false);
    }
    slots_agree(image, bound, class, of, at, symbols)
}

// Whether the slots of all classes are.
fn same_classes(
    image: &Image,
    bound: &Bound<'_>,
    choices: &Choices,
    kept: &[Found<'_>],
    class: u64,
    of: u32,
) -> Result<bool, AllocError>
    requires choices { choices.now ≡ (given bound.now).choices }
    requires kept { defs_of kept.now ≡ classes_kept (typed (given bound.now)) }
    ensures { IfOk result (λ b. b ≡ same_classes (image_view image.now) (given bound.now) class of 0 (image_view image.now).classes) }
{
    for (d, found) in image.classes.iter().enumerate() {
        let at = numbered(d)?;
        let symbols = symbols_of(choices, kept, at);
        if !same_slots(image, bound, class, of, at, found, symbols)? {
            return Ok(false);
        }
    }
    Ok(true)
}

// Whether a class of the program has the slots that the class of its address has in the image.
fn class_agrees(
    image: &Image,
    bound: &Bound<'_>,
    choices: &Choices,
    kept: &[Found<'_>],
    of: u32,
) -> Result<bool, AllocError>
    requires choices { choices.now ≡ (given bound.now).choices }
    requires kept { defs_of kept.now ≡ classes_kept (typed (given bound.now)) }
    ensures { IfOk result (λ b. b ≡ class_agrees (image_view image.now) (given bound.now) of) }
{
    match class_at(bound.table(of)) {
        Some(class) => same_classes(image, bound, choices, kept, class, of),
        None => Ok(true),
    }
}

// Whether the classes do that a unit defines.
fn definitions_agree(
    image: &Image,
    bound: &Bound<'_>,
    choices: &Choices,
    kept: &[Found<'_>],
    definitions: &[ClassDef],
) -> Result<bool, AllocError>
    requires choices { choices.now ≡ (given bound.now).choices }
    requires kept { defs_of kept.now ≡ classes_kept (typed (given bound.now)) }
    ensures { IfOk result (λ b. b ≡ definitions_agree (image_view image.now) (given bound.now) (map definition_of definitions.now)) }
{
    for definition in definitions {
        if !class_agrees(image, bound, choices, kept, definition.class)? {
            return Ok(false);
        }
    }
    Ok(true)
}

// Whether the classes of all units do.
fn units_agree(
    image: &Image,
    bound: &Bound<'_>,
    choices: &Choices,
    kept: &[Found<'_>],
    units: &[UnitTree],
) -> Result<bool, AllocError>
    requires choices { choices.now ≡ (given bound.now).choices }
    requires kept { defs_of kept.now ≡ classes_kept (typed (given bound.now)) }
    ensures { IfOk result (λ b. b ≡ units_agree (image_view image.now) (given bound.now) (map unit_of units.now)) }
{
    for unit in units {
        if !definitions_agree(image, bound, choices, kept, &unit.classes)? {
            return Ok(false);
        }
    }
    Ok(true)
}

// The function with an address, where a thread may start in it.
fn thread_func(bound: &Bound<'_>, address: u64) -> Option<u32>
    ensures { result ≡ (linked_of (given bound.now)).pointed address thread_signature }
{
    bound.pointed(address, b"void(long)")
}

// Whether threads may start in the same functions.
fn spawned_agree(image: &Image, bound: &Bound<'_>) -> Result<bool, AllocError>
    ensures { IfOk result (λ b. b ≡ spawned_agree (image_view image.now) (given bound.now)) }
{
    for (n, _) in image.funcs.iter().enumerate() {
        let address = func_address(numbered(n)?);
        if !same_number(spawned(image, address), thread_func(bound, address)) {
            return Ok(false);
        }
    }
    Ok(true)
}

// Whether these take one word, and hand back none.
fn threads_take(image: &Image, bound: &Bound<'_>) -> Result<bool, AllocError>
    ensures { IfOk result (λ b. b ≡ pass_by_type (image_view image.now) (linked_of (given bound.now)) (typed (given bound.now)) thread_signature 1 false) }
{
    pointed_pass(image, bound, b"void(long)", 1, false)
}

// Whether both hold.
fn threads_agree(image: &Image, bound: &Bound<'_>) -> Result<bool, AllocError>
    ensures { IfOk result (λ b. b ≡ threads_agree (image_view image.now) (given bound.now)) }
{
    if !spawned_agree(image, bound)? {
        return Ok(false);
    }
    threads_take(image, bound)
}

// Whether thread 0 starts in the same function, which takes no words and hands back one.
fn main_agrees(image: &Image, bound: &Bound<'_>) -> bool
    ensures { result ≡ main_agrees (image_view image.now) (given bound.now) }
{
    image.main == bound.main()
        && (func_takes(bound, image.main) == 0 && func_gives(image, image.main))
}

// Whether there are as many functions and classes in both, with numbers of 32 bits.
fn counts_agree(
    image: &Image,
    bound: &Bound<'_>,
    funcs: &[Found<'_>],
    classes: &[Found<'_>],
) -> bool
    requires funcs { defs_of funcs.now ≡ funcs_kept (typed (given bound.now)) }
    requires classes { defs_of classes.now ≡ classes_kept (typed (given bound.now)) }
    ensures { result ≡ counts_agree (image_view image.now) (given bound.now) }
{
    (image.funcs.len() == funcs.len() && image.funcs.len() <= 4_294_967_295)
        && (image.classes.len() == classes.len() && image.classes.len() <= 4_294_967_295)
}

// Whether both agree, where the classes that are kept are these and the counts agree.
fn parts_agree(
    image: &Image,
    bound: &Bound<'_>,
    choices: &Choices,
    program: &Program,
    kept: &[Found<'_>],
) -> Result<bool, AllocError>
    requires choices { choices.now ≡ (given bound.now).choices }
    requires program { program.now ≡ (given bound.now).program }
    requires kept { defs_of kept.now ≡ classes_kept (typed (given bound.now)) }
    requires counts { counts_agree (image_view image.now) (given bound.now) ≡ true }
    ensures { IfOk result (λ b. b ≡ agrees (image_view image.now) (given bound.now)) }
{
    if !same_funcs(image, bound)? {
        return Ok(false);
    }
    if !units_agree(image, bound, choices, kept, &program.units)? {
        return Ok(false);
    }
    if !threads_agree(image, bound)? {
        return Ok(false);
    }
    Ok(main_agrees(image, bound))
}

// Whether both agree, where the functions and the classes that are kept are these.
fn kept_agree(
    image: &Image,
    bound: &Bound<'_>,
    choices: &Choices,
    program: &Program,
    funcs: &[Found<'_>],
    classes: &[Found<'_>],
) -> Result<bool, AllocError>
    requires choices { choices.now ≡ (given bound.now).choices }
    requires program { program.now ≡ (given bound.now).program }
    requires funcs { defs_of funcs.now ≡ funcs_kept (typed (given bound.now)) }
    requires classes { defs_of classes.now ≡ classes_kept (typed (given bound.now)) }
    ensures { IfOk result (λ b. b ≡ agrees (image_view image.now) (given bound.now)) }
{
    if !counts_agree(image, bound, funcs, classes) {
        return Ok(false);
    }
    parts_agree(image, bound, choices, program, classes)
}

// Whether both agree.
fn program_agrees(
    alloc: Global,
    image: &Image,
    bound: &Bound<'_>,
    choices: &Choices,
    program: &Program,
) -> Result<bool, AllocError>
    requires choices { choices.now ≡ (given bound.now).choices }
    requires program { program.now ≡ (given bound.now).program }
    ensures { IfOk result (λ b. b ≡ agrees (image_view image.now) (given bound.now)) }
{
    let funcs = kept_funcs(alloc, program)?;
    let classes = kept_classes(alloc, program)?;
    kept_agree(image, bound, choices, program, &funcs, &classes)
}

/// Whether an image and a program that is bound by these choices agree. Where they do, and the bodies of the image are
/// checked, the image is that of the program.
pub fn agrees(
    alloc: Global,
    image: &Image,
    bound: &Bound<'_>,
    choices: &Choices,
) -> Result<bool, AllocError>
    requires { choices.now ≡ (given bound.now).choices }
    ensures is { IfOk result (λ b. b ≡ agrees (image_view image.now) (given bound.now)) }
    ensures linked { IfOk result (λ b. b ≡ true → AreLinked (image_view image.now) (given bound.now)) }
{
    program_agrees(alloc, image, bound, choices, bound.program())
}
