//! The types that kept bodies name.
ghost use Rattle.std.specs.Prelude.{◌≡◌, ◌<◌, ◌+◌, ◌^◌, ◌++◌, ◌∷◌, if◌then◌else◌, [], Bool, List, true, map, length, slice_index, IfOk, OnOk};
ghost use Rattle.std.specs.List.{flat_map};
ghost use Rattle.std.specs.Option.{option_map};
ghost use Rattle.tx_code.specs.Objects.{body_view, bytes_of};
ghost use Rattle.tx_code.specs.WellFormed.{ascends, bytes_lt, named_by_row};
ghost use Rattle.tx_code.specs.Linked.{named_types};
ghost use Rattle.link_faults.specs.Unlisted.{AreMarks};
ghost use Rattle.link_tables.specs.Homes.{home_view, names_at};
ghost use Rattle.link_tables.specs.Found.{func_row};
ghost use Rattle.link_parts.specs.Types.{Adds, list_of, marked, ranks_in_body, ranks_in_row, ranks_in_rows, ranks_in_some, number_in};

use link_tables::found::FoundFunc;
use link_tables::homes::Home;
use std::alloc::{AllocError, Global};
use tx_code::{Body, Instr, Row};

fn mark(marks: &mut Vec<bool>, rank: u32)
    ensures { Adds (rank ∷ []) marks.old.items marks.new.items }
{
    if (rank as usize) < marks.len() {
        marks[rank as usize] = true;
    }
}

fn rank_at(ranks: &[u32], start: u32, name: u32) -> u32
    ensures { result ≡ slice_index ranks.now (start + name) }
{
    match ranks.get(start as usize + name as usize) {
        Some(rank) => *rank,
        None => 0,
    }
}

/// The type that an instruction names.
fn type_in(instr: Instr) -> Option<u32>
    ensures { list_of result ≡ named_types instr }
{
    match instr {
        Instr::CallIndirect { ty, words: _ } => Some(ty),
        Instr::TCallIndirect { ty, words: _ } => Some(ty),
        Instr::NewException(ty) => Some(ty),
        _ => None,
    }
}

/// The type that a row handles.
fn type_of(row: Row) -> Option<u32>
    ensures { list_of result ≡ named_by_row row }
{
    if row.what == 1 { Some(row.ty) } else { None }
}

fn mark_some(marks: &mut Vec<bool>, ranks: &[u32], start: u32, ty: Option<u32>)
    ensures { Adds (map (λ n. slice_index ranks.now (start + n)) (list_of ty)) marks.old.items marks.new.items }
{
    if let Some(ty) = ty {
        mark(marks, rank_at(ranks, start, ty));
    }
}

fn mark_code(marks: &mut Vec<bool>, ranks: &[u32], start: u32, code: &[Instr])
    ensures { Adds (map (λ n. slice_index ranks.now (start + n)) (flat_map named_types code.now)) marks.old.items marks.new.items }
{
    for instr in code {
        mark_some(marks, ranks, start, type_in(*instr));
    }
}

fn mark_rows(marks: &mut Vec<bool>, ranks: &[u32], start: u32, rows: &[Row])
    ensures { Adds (map (λ n. slice_index ranks.now (start + n)) (flat_map named_by_row rows.now)) marks.old.items marks.new.items }
{
    for row in rows {
        mark_some(marks, ranks, start, type_of(*row));
    }
}

fn mark_body(marks: &mut Vec<bool>, ranks: &[u32], start: u32, body: &Body)
    ensures { Adds (ranks_in_body ranks.now start (body_view body.now)) marks.old.items marks.new.items }
{
    mark_code(marks, ranks, start, &body.code);
    mark_rows(marks, ranks, start, &body.rows);
}

fn mark_some_body(marks: &mut Vec<bool>, ranks: &[u32], start: u32, body: &Option<Body>)
    ensures { Adds (ranks_in_some ranks.now start (option_map body_view body.now)) marks.old.items marks.new.items }
{
    if let Some(body) = body {
        mark_body(marks, ranks, start, body);
    }
}

fn mark_func(marks: &mut Vec<bool>, ranks: &[u32], found: FoundFunc<'_>)
    ensures { Adds (ranks_in_row ranks.now (func_row found.entry)) marks.old.items marks.new.items }
{
    mark_some_body(marks, ranks, found.home.start, &found.func.plain);
    mark_some_body(marks, ranks, found.home.start, &found.func.safe);
}

/// Of each name whether it is a type that a kept body names.
fn type_marks(
    alloc: Global,
    names: usize,
    ranks: &[u32],
    kept: &[FoundFunc<'_>],
) -> Result<Vec<bool>, AllocError>
    ensures marks { IfOk result (λ v. AreMarks (ranks_in_rows ranks.now (map func_row kept.now)) v.items) }
    ensures length { IfOk result (λ v. length v.items ≡ names) }
{
    let mut marks = no_types(alloc, names)?;
    for func in kept {
        mark_func(&mut marks, ranks, *func);
    }
    Ok(marks)
}

fn no_types(alloc: Global, names: usize) -> Result<Vec<bool>, AllocError>
    ensures marks { IfOk result (λ v. AreMarks [] v.items) }
    ensures length { IfOk result (λ v. length v.items ≡ names) }
{
    vec![in alloc; false; names]
}

/// A copy of a name where it is marked.
fn push_marked(
    alloc: Global,
    types: &mut Vec<Vec<u8>>,
    name: &Vec<u8>,
    marked: bool,
) -> Result<(), AllocError>
    ensures { OnOk result (map bytes_of types.new.items ≡ map bytes_of types.old.items ++ (if marked then name.now.items ∷ [] else [])) }
{
    if marked {
        let copy = Vec::from_slice(alloc, name.as_slice())?;
        types.push(copy)?;
    }
    Ok(())
}

/// Copies of the names that are marked.
fn marked_names(alloc: Global, all: &[Vec<u8>], marks: &[bool]) -> Result<Vec<Vec<u8>>, AllocError>
    requires { length marks.now ≡ length all.now }
    ensures { IfOk result (λ v. map bytes_of v.items ≡ marked (map bytes_of all.now) marks.now) }
{
    let mut types = Vec::new(alloc);
    let mut i = 0;
    for name in all {
        push_marked(alloc, &mut types, name, marks[i])?;
        i += 1;
    }
    Ok(types)
}

/// The types that kept bodies name, ascending.
pub fn types_named(
    alloc: Global,
    all: &[Vec<u8>],
    ranks: &[u32],
    kept: &[FoundFunc<'_>],
) -> Result<Vec<Vec<u8>>, AllocError>
    ensures { IfOk result (λ v. (marks : List Bool) × (AreMarks (ranks_in_rows ranks.now (map func_row kept.now)) marks × (length marks ≡ length all.now) × (map bytes_of v.items ≡ marked (map bytes_of all.now) marks))) }
{
    let marks = type_marks(alloc, all.len(), ranks, kept)?;
    marked_names(alloc, all, &marks)
}

/// The position of a name among the types.
fn number_of_type(types: &[Vec<u8>], name: &Vec<u8>) -> Option<u32>
    requires ascend { ascends bytes_lt (map bytes_of types.now) ≡ true }
    requires few { length types.now < 2 ^ 32 }
    ensures { result ≡ number_in (map bytes_of types.now) name.now.items }
{
    match types.binary_search(name) {
        Ok(i) => Some(i as u32),
        Err(_) => None,
    }
}

fn add_type_numbers(
    types: &[Vec<u8>],
    home: Home<'_>,
    numbers: &mut Vec<Option<u32>>,
) -> Result<(), AllocError>
    requires ascend { ascends bytes_lt (map bytes_of types.now) ≡ true }
    requires few { length types.now < 2 ^ 32 }
    ensures { OnOk result (numbers.new.items ≡ numbers.old.items ++ map (number_in (map bytes_of types.now)) (map bytes_of home.entry.object.now.names.items)) }
{
    for name in &home.object.names {
        numbers.push(number_of_type(types, name))?;
    }
    Ok(())
}

/// The number of the type that the name at each place spells.
pub fn type_numbers(
    alloc: Global,
    types: &[Vec<u8>],
    homes: &[Home<'_>],
) -> Result<Vec<Option<u32>>, AllocError>
    requires ascend { ascends bytes_lt (map bytes_of types.now) ≡ true }
    requires few { length types.now < 2 ^ 32 }
    ensures { IfOk result (λ v. v.items ≡ map (number_in (map bytes_of types.now)) (flat_map names_at (map home_view homes.now))) }
{
    let mut numbers = Vec::new(alloc);
    for home in homes {
        add_type_numbers(types, *home, &mut numbers)?;
    }
    Ok(numbers)
}
