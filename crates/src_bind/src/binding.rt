//! Binding.

ghost use Rattle.std.specs.Prelude.{◌≡◌, ◌<◌, true, length, map, IfOk, Some};
ghost use Rattle.std.specs.List.{list_all};
ghost use Rattle.cpp_tree.specs.cpp_types.Typ.{Signature};
ghost use Rattle.cpp_tree.specs.cpp_types.Class.{classes_of};
ghost use Rattle.cpp_tree.specs.Units.{program_of};
ghost use Rattle.src_bind.specs.declared.infos.FuncInfo.{FuncInfo};
ghost use Rattle.src_bind.specs.Defs.{defs_of};
ghost use Rattle.src_bind.specs.Infos.{info_of, body_found, is_of_type, type_found, has_body};
ghost use Rattle.src_bind.specs.Tables.{CanBind, func_found, place_in};
ghost use Rattle.src_bind.specs.Bounds.{given};

use crate::bound_program::Bound;
use crate::choices::Choices;
use crate::defs::Found;
use crate::globals::{offsets, unit_addresses};
use crate::infos::{FuncInfo, info};
use crate::lists::{kept_classes, kept_funcs, kept_globals};
use crate::numbers::{class_numbers, number_named, slot_table, unit_numbers};
use cpp_tree::Program;
use std::alloc::{AllocError, Global};

// The records of the functions that are kept, as many as have numbers of 32 bits. More count as want of memory.
fn infos_of(
    alloc: Global,
    program: &Program,
    choices: &Choices,
    kept: &[Found<'_>],
) -> Result<Vec<FuncInfo>, AllocError>
    requires can { CanBind (program_of program.now) }
    requires there { list_all (has_body (program_of program.now)) (defs_of kept.now) ≡ true }
    ensures few { IfOk result (λ v. length v.items < 4294967296) }
    ensures infos { IfOk result (λ v. map (λ (i : FuncInfo). Some (info_of program.now i)) v.items ≡ map (func_found (record { program = program.now; choices = choices.now })) (defs_of kept.now)) }
    ensures bodies { IfOk result (λ v. map (λ (i : FuncInfo). Some i.body) v.items ≡ map (body_found program.now) (defs_of kept.now)) }
    ensures types { (sig : Signature) → IfOk result (λ v. map (is_of_type (classes_of program.now.classes.items) sig) v.items ≡ map (type_found (program_of program.now) sig) (defs_of kept.now)) }
{
    let mut infos = Vec::new(alloc);
    for def in kept {
        infos.push(info(alloc, program, &choices.safe, def)?)?;
    }
    if infos.len() > 4_294_967_295 {
        return Err(AllocError);
    }
    Ok(infos)
}

// The classes, by their numbers.
fn places_of(alloc: Global, kept: &[Found<'_>]) -> Result<Vec<u32>, AllocError>
    ensures { IfOk result (λ v. v.items ≡ map place_in (defs_of kept.now)) }
{
    let mut places = Vec::new(alloc);
    for def in kept {
        places.push(def.place)?;
    }
    Ok(places)
}

/// Binds the symbols of a program to their kept definitions. Its time grows with the number of definitions times that
/// of the kept ones.
pub fn bind<'a>(
    alloc: Global,
    program: &'a Program,
    choices: &'a Choices,
) -> Result<Bound<'a>, AllocError>
    requires { CanBind (program_of program.now) }
    ensures { IfOk result (λ b. given b ≡ record { program = program.now; choices = choices.now }) }
{
    let func_defs = kept_funcs(alloc, program)?;
    let global_defs = kept_globals(alloc, program)?;
    let class_defs = kept_classes(alloc, program)?;
    let funcs = func_defs.as_slice();
    let globals = global_defs.as_slice();
    let classes = class_defs.as_slice();
    let offsets = offsets(alloc, program, globals)?;
    let infos = infos_of(alloc, program, choices, funcs)?;
    let numbers = unit_numbers(alloc, program, funcs)?;
    let addresses = unit_addresses(alloc, program, globals, &offsets)?;
    let class_numbers = class_numbers(alloc, &program.classes, classes)?;
    let nameless = number_named(b"", classes)?;
    let places = places_of(alloc, classes)?;
    let slots = slot_table(alloc, &choices.symbols, funcs)?;
    let main = number_named(&choices.main, funcs)?;
    Ok(Bound {
        program,
        choices,
        infos,
        numbers,
        globals: addresses,
        classes: class_numbers,
        nameless,
        places,
        slots,
        main,
    })
}
