//! The object so far, line by line.
ghost use Rattle.std.specs.Prelude.{◌≡◌, ◌&&◌, true, map, nat_lt, Some};
ghost use Rattle.std.specs.Option.{option_map};
ghost use Rattle.tx_code.specs.Objects.{ClassView, GlobalView, FuncView, bytes_of, class_view, global_view, func_view, object_view};
ghost use Rattle.tx_code.specs.WellFormed.{bytes_lt, is_length, flags_fit, text_fits, ascends_by};
ghost use Rattle.object_bytes.specs.Fields.{above};
ghost use Rattle.code_asm.specs.Steps as spec;
ghost use Rattle.code_asm.specs.Views.{Stepped, state_of, place_of};
ghost use Rattle.assembly_text.specs.Views.{line_view};

use crate::bodies::has_room;
use crate::entries::{
    add_to_class, add_to_func, add_to_global, func_takes_code, has_bit, has_bodies,
};
use crate::fault::Stop;
use assembly_text::{ClassHead, FuncHead, GlobalHead, Line, Record};
use object_bytes::{is_whole, source_name};
use std::alloc::Global;
use tx_code::{Instr, LONGEST_NAME, ObjClass, ObjFunc, ObjGlobal, Object};

/// Where the next line stands, with the entry that has not ended.
#[derive(Drop)]
pub(crate) enum Place {
    Start,
    Names,
    /// Behind the source, where no entry has begun.
    Between,
    Class(ObjClass),
    Global(ObjGlobal),
    Func(ObjFunc),
    Ended,
}

/// An object of which some lines were read.
#[derive(Drop)]
pub(crate) struct Assembly {
    /// Without the entry that has not ended.
    pub object: Object,
    pub place: Place,
}

/// No line was read.
pub(crate) fn start(alloc: Global) -> Assembly
    ensures { state_of result ≡ spec.start }
{
    Assembly {
        object: empty_object(alloc, 0),
        place: Place::Start,
    }
}

fn empty_object(alloc: Global, version: u32) -> Object
    ensures { object_view result ≡ spec.empty_object version }
{
    Object {
        version,
        names: Vec::new(alloc),
        source: None,
        classes: Vec::new(alloc),
        globals: Vec::new(alloc),
        funcs: Vec::new(alloc),
    }
}

/// The first line.
fn begin(alloc: Global, assembly: Assembly, version: u32) -> Result<Assembly, Stop>
    ensures { Stepped state_of result (spec.begun (object_view assembly.object) (place_of assembly.place) version) }
{
    let Place::Start = assembly.place else {
        return Err(Stop::Wrong);
    };
    if version != 1 && version != 2 {
        return Err(Stop::Wrong);
    }
    Ok(Assembly {
        object: empty_object(alloc, version),
        place: Place::Names,
    })
}

fn is_length(name: &[u8]) -> bool
    ensures { result ≡ is_length name.now }
{
    !name.is_empty() && name.len() <= LONGEST_NAME as usize
}

fn is_next_name(names: &[Vec<u8>], name: &[u8]) -> bool
    ensures { result ≡ above bytes_lt (spec.last_of (map bytes_of names.now)) name.now }
{
    match names.last() {
        None => true,
        Some(before) => before.as_slice().cmp(name).is_lt(),
    }
}

fn takes_name(object: &Object, name: &[u8]) -> bool
    ensures { result ≡ (is_length name.now && spec.has_room (map bytes_of object.now.names.items) && above bytes_lt (spec.last_of (map bytes_of object.now.names.items)) name.now) }
{
    is_length(name) && has_room(object.names.len()) && is_next_name(&object.names, name)
}

fn add_name(assembly: Assembly, name: Vec<u8>) -> Result<Assembly, Stop>
    ensures { Stepped state_of result (spec.named (object_view assembly.object) (place_of assembly.place) name.items) }
{
    let Assembly { mut object, place } = assembly;
    let Place::Names = place else {
        return Err(Stop::Wrong);
    };
    if !takes_name(&object, &name) {
        return Err(Stop::Wrong);
    }
    object.names.push(name)?;
    Ok(Assembly {
        object,
        place: Place::Names,
    })
}

fn add_source(alloc: Global, assembly: Assembly, number: u32) -> Result<Assembly, Stop>
    ensures { Stepped state_of result (spec.sourced (object_view assembly.object) (place_of assembly.place) number) }
{
    let Assembly { mut object, place } = assembly;
    let Place::Names = place else {
        return Err(Stop::Wrong);
    };
    if object.version != 2 || number as usize > object.names.len() {
        return Err(Stop::Wrong);
    }
    object.source = source_name(alloc, &object.names, number)?;
    Ok(Assembly {
        object,
        place: Place::Between,
    })
}

fn add_class(object: Object, class: ObjClass) -> Result<Object, Stop>
    ensures { Stepped object_view result (Some (spec.with_class (object_view object) (class_view class))) }
{
    let mut object = object;
    object.classes.push(class)?;
    Ok(object)
}

fn add_global(object: Object, global: ObjGlobal) -> Result<Object, Stop>
    ensures { Stepped object_view result (Some (spec.with_global (object_view object) (global_view global))) }
{
    let mut object = object;
    object.globals.push(global)?;
    Ok(object)
}

fn add_func(object: Object, func: ObjFunc) -> Result<Object, Stop>
    ensures { Stepped object_view result (Some (spec.with_func (object_view object) (func_view func))) }
{
    let mut object = object;
    object.funcs.push(func)?;
    Ok(object)
}

/// The object with its last entry, where that can end here.
fn closed(assembly: Assembly) -> Result<Object, Stop>
    ensures { Stepped object_view result (spec.closed (object_view assembly.object) (place_of assembly.place)) }
{
    let Assembly { object, place } = assembly;
    match place {
        Place::Start => Err(Stop::Wrong),
        Place::Names => {
            if object.version == 1 {
                Ok(object)
            } else {
                Err(Stop::Wrong)
            }
        }
        Place::Between => Ok(object),
        Place::Class(class) => add_class(object, class),
        Place::Global(global) => add_global(object, global),
        Place::Func(func) => {
            if has_bodies(&func) {
                add_func(object, func)
            } else {
                Err(Stop::Wrong)
            }
        }
        Place::Ended => Err(Stop::Wrong),
    }
}

fn is_above(before: Option<u32>, name: u32) -> bool
    ensures { result ≡ above nat_lt before name }
{
    match before {
        None => true,
        Some(before) => before < name,
    }
}

fn last_class(classes: &[ObjClass]) -> Option<u32>
    ensures { result ≡ option_map (λ (c : ClassView). c.name) (spec.last_of (map class_view classes.now)) }
{
    match classes.last() {
        None => None,
        Some(class) => Some(class.name),
    }
}

fn last_global(globals: &[ObjGlobal]) -> Option<u32>
    ensures { result ≡ option_map (λ (g : GlobalView). g.symbol) (spec.last_of (map global_view globals.now)) }
{
    match globals.last() {
        None => None,
        Some(global) => Some(global.symbol),
    }
}

fn last_func(funcs: &[ObjFunc]) -> Option<u32>
    ensures { result ≡ option_map (λ (f : FuncView). f.symbol) (spec.last_of (map func_view funcs.now)) }
{
    match funcs.last() {
        None => None,
        Some(func) => Some(func.symbol),
    }
}

fn class_begins(object: &Object, head: ClassHead) -> bool
    ensures { result ≡ spec.class_begins (object_view object.now) head }
{
    let names = object.names.len();
    object.globals.is_empty()
        && object.funcs.is_empty()
        && has_room(object.classes.len())
        && (head.name as usize) < names
        && is_above(last_class(&object.classes), head.name)
        && head.base as usize <= names
        && (head.text as usize) < names
}

fn global_begins(object: &Object, head: GlobalHead) -> bool
    ensures { result ≡ spec.global_begins (object_view object.now) head }
{
    let names = object.names.len();
    object.funcs.is_empty()
        && has_room(object.globals.len())
        && (head.symbol as usize) < names
        && is_above(last_global(&object.globals), head.symbol)
        && (head.ty as usize) < names
        && head.linkage < 2
        && head.defined < 2
        && (head.defined == 0) == (head.size == 0)
}

fn flags_fit(flags: u8) -> bool
    ensures { result ≡ flags_fit flags }
{
    flags < 16 && (!has_bit(flags, 2) || has_bit(flags, 1))
}

/// Whether a function has its text exactly where it is an inline definition.
fn text_fits(head: FuncHead, names: usize) -> bool
    ensures { result ≡ text_fits names (spec.func_of head) }
{
    head.text as usize <= names && (head.linkage == 2 && has_bit(head.flags, 1)) == (head.text > 0)
}

fn func_begins(object: &Object, head: FuncHead) -> bool
    ensures { result ≡ spec.func_begins (object_view object.now) head }
{
    let names = object.names.len();
    has_room(object.funcs.len())
        && (head.symbol as usize) < names
        && is_above(last_func(&object.funcs), head.symbol)
        && (head.ty as usize) < names
        && head.linkage < 3
        && flags_fit(head.flags)
        && text_fits(head, names)
        && (has_bit(head.flags, 1) || head.frame == 0)
}

fn begin_class(alloc: Global, object: Object, head: ClassHead) -> Result<Assembly, Stop>
    ensures { Stepped state_of result (spec.begin_class head (object_view object)) }
{
    if !class_begins(&object, head) {
        return Err(Stop::Wrong);
    }
    let class = ObjClass {
        name: head.name,
        size: head.size,
        align: head.align,
        base: head.base,
        pointer: head.pointer,
        text: head.text,
        members: Vec::new(alloc),
        slots: Vec::new(alloc),
    };
    Ok(Assembly {
        object,
        place: Place::Class(class),
    })
}

fn begin_global(alloc: Global, object: Object, head: GlobalHead) -> Result<Assembly, Stop>
    ensures { Stepped state_of result (spec.begin_global head (object_view object)) }
{
    if !global_begins(&object, head) {
        return Err(Stop::Wrong);
    }
    let global = ObjGlobal {
        symbol: head.symbol,
        ty: head.ty,
        linkage: head.linkage,
        defined: head.defined,
        size: head.size,
        cells: Vec::new(alloc),
    };
    Ok(Assembly {
        object,
        place: Place::Global(global),
    })
}

fn begin_func(object: Object, head: FuncHead) -> Result<Assembly, Stop>
    ensures { Stepped state_of result (spec.begin_func head (object_view object)) }
{
    if !func_begins(&object, head) {
        return Err(Stop::Wrong);
    }
    let func = ObjFunc {
        symbol: head.symbol,
        ty: head.ty,
        linkage: head.linkage,
        flags: head.flags,
        text: head.text,
        frame: head.frame,
        plain: None,
        safe: None,
    };
    Ok(Assembly {
        object,
        place: Place::Func(func),
    })
}

/// Adds a line that stands in an entry.
fn add_inner(alloc: Global, assembly: Assembly, line: Record) -> Result<Assembly, Stop>
    ensures { Stepped state_of result (spec.inner (object_view assembly.object) (place_of assembly.place) line) }
{
    let Assembly { object, place } = assembly;
    let names = object.names.len();
    match place {
        Place::Class(class) => {
            let class = add_to_class(class, names, line)?;
            Ok(Assembly {
                object,
                place: Place::Class(class),
            })
        }
        Place::Global(global) => {
            let global = add_to_global(global, names, line)?;
            Ok(Assembly {
                object,
                place: Place::Global(global),
            })
        }
        Place::Func(func) => {
            let func = add_to_func(alloc, func, object.version, names, line)?;
            Ok(Assembly {
                object,
                place: Place::Func(func),
            })
        }
        _ => Err(Stop::Wrong),
    }
}

fn place_takes_code(place: &Place) -> bool
    ensures { result ≡ spec.place_takes_code (place_of place.now) }
{
    match place {
        Place::Func(func) => func_takes_code(func),
        _ => false,
    }
}

/// Ends the object.
fn end(alloc: Global, object: Object) -> Result<Assembly, Stop>
    requires { ascends_by (λ (c : ClassView). c.name) (map class_view object.classes.items) ≡ true }
    ensures { Stepped state_of result (spec.ended (object_view object)) }
{
    if !is_whole(alloc, &object)? {
        return Err(Stop::Wrong);
    }
    Ok(Assembly {
        object,
        place: Place::Ended,
    })
}

/// `end`, in a body or at the end of the text.
fn add_end(alloc: Global, assembly: Assembly, is_last: bool) -> Result<Assembly, Stop>
    requires { spec.IsSorted (object_view assembly.object) (place_of assembly.place) }
    ensures { Stepped state_of result (spec.end_step (object_view assembly.object) (place_of assembly.place) is_last) }
{
    if !is_last && place_takes_code(&assembly.place) {
        return add_inner(alloc, assembly, Record::Code(Instr::End));
    }
    let object = closed(assembly)?;
    end(alloc, object)
}

#[tactic(auto, unfolding(crate::specs::Steps::record_step))]
fn add_record(
    alloc: Global,
    assembly: Assembly,
    line: Record,
    is_last: bool,
) -> Result<Assembly, Stop>
    requires { spec.IsSorted (object_view assembly.object) (place_of assembly.place) }
    ensures { Stepped state_of result (spec.record_step (state_of assembly) line is_last) }
{
    match line {
        Record::Txob(version) => begin(alloc, assembly, version),
        Record::Source(number) => add_source(alloc, assembly, number),
        Record::Class(head) => {
            let object = closed(assembly)?;
            begin_class(alloc, object, head)
        }
        Record::Global(head) => {
            let object = closed(assembly)?;
            begin_global(alloc, object, head)
        }
        Record::Func(head) => {
            let object = closed(assembly)?;
            begin_func(object, head)
        }
        Record::End => add_end(alloc, assembly, is_last),
        _ => add_inner(alloc, assembly, line),
    }
}

/// Adds a line, behind which the text ends where it is the last one.
pub(crate) fn add_line(
    alloc: Global,
    assembly: Assembly,
    line: Line,
    is_last: bool,
) -> Result<Assembly, Stop>
    requires { spec.IsSorted (object_view assembly.object) (place_of assembly.place) }
    ensures { Stepped state_of result (spec.step (state_of assembly) (line_view line) is_last) }
{
    match line {
        Line::Name(name) => add_name(assembly, name),
        Line::Of(words) => add_record(alloc, assembly, words, is_last),
    }
}
