//! The entries of functions.
ghost use Rattle.std.specs.Prelude.{◌≡◌, ◌≤◌, ◌++◌, ◌∷◌, [], ◌||◌, ◌&&◌, not, cond, map, is_some, None, Some, MatchOption, IfOk, OnOk, List};
ghost use Rattle.cpp_tree.specs.cpp_types.Class.{classes_of, function_of};
ghost use Rattle.cpp_tree.specs.Trees.{Tree};
ghost use Rattle.cpp_tree.specs.Arena.{trees_of};
ghost use Rattle.cpp_tree.specs.Units.{func_of, definition_of, unit_of};
ghost use Rattle.tx_code.specs.Objects.{bytes_of, func_view};
ghost use Rattle.tx_code.specs.WellFormed.{bit};
ghost use Rattle.link_faults.specs.Faults.{text_in};
ghost use Rattle.unit_entries.specs.Records.{naming, func_record};
ghost use Rattle.unit_entries.specs.Marked.{marks_in};
ghost use Rattle.unit_entries.specs.Uses.{is_of_class as is_same_class, is_set as is_mark_set};
ghost use Rattle.unit_entries.specs.Entries.{linkage_number as number_of_linkage, is_inline as is_inline_linkage, is_declared as is_declared_safety, is_promised as is_promised_function, class_text as text_of_class, definition_text as text_of_definition, inline_text as text_of_inline, frame_of as frame_of_func, func_entry_of, has_entry as has_unit_entry, func_entries_at, funcs_from};

use crate::places::{place_and_one, place_of};
use crate::sizes::frame_of;
use crate::texts::type_text;
use crate::uses::{Uses, is_set};
use cpp_tree::below::{ClassRec, Safety};
use cpp_tree::{ClassDef, Linkage, Program, TFunc, UnitTree};
use std::alloc::{AllocError, Global};
use tx_code::ObjFunc;

/// What the entries of a unit are made by.
#[derive(Clone, Copy)]
pub struct Setting<'a> {
    /// The names of the object, in the order of their bytes.
    pub names: &'a [Vec<u8>],
    pub program: &'a Program,
    pub unit: &'a UnitTree,
    pub uses: &'a Uses,
    /// Which functions of the unit are safe.
    pub safe: &'a [bool],
}

fn linkage_number(linkage: Linkage) -> u8
    ensures { result ≡ number_of_linkage linkage }
{
    match linkage {
        Linkage::External => 0,
        Linkage::Internal => 1,
        Linkage::Inline => 2,
    }
}

fn is_inline(linkage: Linkage) -> bool
    ensures { result ≡ is_inline_linkage linkage }
{
    matches!(linkage, Linkage::Inline)
}

fn is_declared(safety: Safety) -> bool
    ensures { result ≡ is_declared_safety safety }
{
    match safety {
        Safety::None => false,
        Safety::Safe | Safety::Dynamic => true,
    }
}

// Whether the unit declares the function safe, or considers it so.
#[tactic(auto, using(cpp_types::proofs::Views::signature_view))]
fn is_promised(func: &TFunc) -> bool
    ensures { result ≡ is_promised_function (function_of func.now.rec) }
{
    func.rec.ty.safe || func.rec.considered || is_declared(func.rec.safety)
}

fn flag(is_set: bool, place: u8) -> u8
    ensures value { result ≡ cond is_set place 0 }
    ensures bound { result ≤ place }
{
    if is_set { place } else { 0 }
}

fn flags(defined: bool, safe: bool, wanted: bool, no_except: bool) -> u8
    ensures defined { bit 0 result ≡ defined }
    ensures safe { bit 1 result ≡ safe }
    ensures wanted { bit 2 result ≡ wanted }
    ensures no_except { bit 3 result ≡ no_except }
{
    flag(defined, 1) + flag(safe, 2) + flag(wanted, 4) + flag(no_except, 8)
}

fn is_of_class(class: u32, of: Option<u32>) -> bool
    ensures { result ≡ is_same_class class of }
{
    match of {
        Some(other) => other == class,
        None => false,
    }
}

// The definition text of a class; where no definition is of it, another text.
fn class_text<'a>(class: Option<u32>, defs: &'a [ClassDef], text: &'a [u8]) -> &'a [u8]
    ensures { result.now ≡ text_of_class class (map definition_of defs.now) text.now }
{
    for def in defs {
        if is_of_class(def.class, class) {
            return &def.text;
        }
    }
    text
}

/// The definition text of an inline function; of one that no text declares, that of its class.
pub fn definition_text<'a>(defs: &'a [ClassDef], func: &'a TFunc) -> &'a [u8]
    ensures { (trees : List Tree) → result.now ≡ text_of_definition (map definition_of defs.now) (func_of trees func.now) }
{
    if !func.implicit {
        return &func.text;
    }
    if func.text.len() != 0 {
        return &func.text;
    }
    class_text(func.class, defs, &func.text)
}

/// The definition text of what is defined inline.
pub fn inline_text<'a>(defs: &'a [ClassDef], func: &'a TFunc) -> Option<&'a [u8]>
    ensures { (trees : List Tree) → MatchOption result (text_of_inline (map definition_of defs.now) (func_of trees func.now) ≡ None) (λ t. text_of_inline (map definition_of defs.now) (func_of trees func.now) ≡ Some t.now) }
{
    match func.body {
        Some(_) => {
            if is_inline(func.linkage) {
                Some(definition_text(defs, func))
            } else {
                None
            }
        }
        None => None,
    }
}

// The place of the definition text of what is defined inline, and 1.
fn text_place(names: &[Vec<u8>], defs: &[ClassDef], func: &TFunc) -> Result<u32, AllocError>
    ensures { IfOk result (λ n. (trees : List Tree) → text_in (naming (map bytes_of names.now)) n ≡ text_of_inline (map definition_of defs.now) (func_of trees func.now)) }
{
    match inline_text(defs, func) {
        Some(text) => place_and_one(names, text),
        None => Ok(0),
    }
}

fn frame_size(alloc: Global, classes: &[ClassRec], func: &TFunc) -> Result<u32, AllocError>
    ensures { IfOk result (λ n. (trees : List Tree) → n ≡ frame_of_func (classes_of classes.now) (func_of trees func.now)) }
{
    match func.body {
        Some(_) => Ok(frame_of(alloc, &func.frame, classes)?.size),
        None => Ok(0),
    }
}

// The entry of a function with this index, without bodies.
fn func_entry(
    alloc: Global,
    setting: Setting<'_>,
    func: &TFunc,
    index: usize,
) -> Result<ObjFunc, AllocError>
    ensures { IfOk result (λ f. (trees : List Tree) → func_record (naming (map bytes_of setting.entry.names.now)) (func_view f) ≡ func_entry_of (classes_of setting.entry.program.now.classes.items) (map definition_of setting.entry.unit.now.classes.items) (marks_in setting.entry.uses.now) setting.entry.safe.now index (func_of trees func.now)) }
{
    let classes = setting.program.classes.as_slice();
    let type_text = type_text(alloc, func, classes)?;
    let defined = func.body.is_some();
    Ok(ObjFunc {
        symbol: place_of(setting.names, &func.symbol)?,
        ty: place_of(setting.names, &type_text)?,
        linkage: linkage_number(func.linkage),
        flags: flags(
            defined,
            defined && is_set(setting.safe, index),
            is_promised(func) || is_set(&setting.uses.wanted, index),
            func.rec.no_except,
        ),
        text: text_place(setting.names, &setting.unit.classes, func)?,
        frame: frame_size(alloc, classes, func)?,
        plain: None,
        safe: None,
    })
}

/// Whether a function with this index has an entry.
pub fn has_entry(uses: &Uses, func: &TFunc, index: usize) -> bool
    ensures { (trees : List Tree) → result ≡ has_unit_entry (marks_in uses.now) index (func_of trees func.now) }
{
    func.body.is_some() || (is_set(&uses.funcs, index) && !func.rec.pure_virtual)
}

// Adds the entry of a function, if it has one.
fn add_func(
    alloc: Global,
    setting: Setting<'_>,
    funcs: &mut Vec<ObjFunc>,
    func: &TFunc,
    index: usize,
) -> Result<(), AllocError>
    ensures { OnOk result ((trees : List Tree) → map (func_record (naming (map bytes_of setting.entry.names.now))) (map func_view funcs.new.items) ≡ map (func_record (naming (map bytes_of setting.entry.names.now))) (map func_view funcs.old.items) ++ func_entries_at (classes_of setting.entry.program.now.classes.items) (map definition_of setting.entry.unit.now.classes.items) (marks_in setting.entry.uses.now) setting.entry.safe.now index (func_of trees func.now)) }
{
    if has_entry(setting.uses, func, index) {
        funcs.push(func_entry(alloc, setting, func, index)?)?;
    }
    Ok(())
}

/// The entries of the functions that the unit defines or refers to, in its order and without bodies.
pub fn func_entries(alloc: Global, setting: Setting<'_>) -> Result<Vec<ObjFunc>, AllocError>
    ensures { IfOk result (λ v. map (func_record (naming (map bytes_of setting.entry.names.now))) (map func_view v.items) ≡ funcs_from (classes_of setting.entry.program.now.classes.items) (map definition_of setting.entry.unit.now.classes.items) (marks_in setting.entry.uses.now) setting.entry.safe.now 0 (unit_of setting.entry.unit.now).funcs) }
{
    let mut funcs = Vec::new(alloc);
    for (i, func) in setting.unit.funcs.iter().enumerate() {
        add_func(alloc, setting, &mut funcs, func, i)?;
    }
    Ok(funcs)
}
