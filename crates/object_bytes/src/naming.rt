//! What an object names.
ghost use Rattle.std.specs.Prelude.{◌≡◌, ◌++◌, ◌∷◌, [], map, MatchOption, OnOk, IfOk};
ghost use Rattle.std.specs.List.{flat_map};
ghost use Rattle.std.specs.Option.{option_map};
ghost use Rattle.tx_code.specs.Objects.{body_view, class_view, global_view, func_view, object_view};
ghost use Rattle.tx_code.specs.WellFormed.{named_by, named_by_row, named_by_body, named_or_none, named_by_member, named_by_class, named_by_cell, named_by_global, named_by_some, named_by_func, named_in};

use std::alloc::{AllocError, Global};
use tx_code::{Body, Instr, ObjCell, ObjClass, ObjFunc, ObjGlobal, ObjMember, Object, Row};

/// Adds the name with this number minus 1, if it is not 0.
fn add_or_none(out: &mut Vec<u32>, number: u32) -> Result<(), AllocError>
    ensures { OnOk result (out.new.items ≡ out.old.items ++ named_or_none number) }
{
    if number == 0 {
        return Ok(());
    }
    Ok(out.push(number - 1)?)
}

/// The name that an instruction names, if it names one.
pub fn instr_name(instr: Instr) -> Option<u32>
    ensures { MatchOption result (named_by instr ≡ []) (λ name. named_by instr ≡ name ∷ []) }
{
    match instr {
        Instr::GlobalAddr(symbol) => Some(symbol),
        Instr::FuncAddr(symbol) => Some(symbol),
        Instr::ClassAddr(symbol) => Some(symbol),
        Instr::Call { func, words: _ } => Some(func),
        Instr::TCall { func, words: _ } => Some(func),
        Instr::CallIndirect { ty, words: _ } => Some(ty),
        Instr::TCallIndirect { ty, words: _ } => Some(ty),
        Instr::Slot { class, slot: _ } => Some(class),
        Instr::NewException(ty) => Some(ty),
        Instr::Push(_) | Instr::Dup | Instr::Pop | Instr::Swap | Instr::FrameAddr(_) => None,
        Instr::Load(_) | Instr::Store(_) | Instr::TLoad(_) | Instr::TStore(_) => None,
        Instr::VLoad(_) | Instr::VStore(_) | Instr::Bin { op: _, kind: _ } | Instr::Neg(_) => None,
        Instr::Conv { from: _, to: _ } | Instr::Jump(_) | Instr::JumpZero(_) | Instr::Ret(_) =>
            None,
        Instr::Begin(_) | Instr::End | Instr::BeginSync | Instr::EndSync | Instr::Out => None,
        Instr::Inp | Instr::Spawn | Instr::Join | Instr::Abort => None,
        Instr::PutException { offset: _, kind: _ } | Instr::Throw | Instr::Rethrow => None,
        Instr::GetException { offset: _, kind: _ } => None,
        Instr::EndHandler | Instr::Resume | Instr::Over => None,
    }
}

fn add_of_instr(out: &mut Vec<u32>, instr: Instr) -> Result<(), AllocError>
    ensures { OnOk result (out.new.items ≡ out.old.items ++ named_by instr) }
{
    match instr_name(instr) {
        None => Ok(()),
        Some(name) => Ok(out.push(name)?),
    }
}

fn add_of_code(out: &mut Vec<u32>, code: &[Instr]) -> Result<(), AllocError>
    ensures { OnOk result (out.new.items ≡ out.old.items ++ flat_map named_by code.now) }
{
    for instr in code {
        add_of_instr(out, *instr)?;
    }
    Ok(())
}

fn add_of_row(out: &mut Vec<u32>, row: &Row) -> Result<(), AllocError>
    ensures { OnOk result (out.new.items ≡ out.old.items ++ named_by_row row.now) }
{
    if row.what == 1 {
        return Ok(out.push(row.ty)?);
    }
    Ok(())
}

fn add_of_rows(out: &mut Vec<u32>, rows: &[Row]) -> Result<(), AllocError>
    ensures { OnOk result (out.new.items ≡ out.old.items ++ flat_map named_by_row rows.now) }
{
    for row in rows {
        add_of_row(out, row)?;
    }
    Ok(())
}

fn add_of_body(out: &mut Vec<u32>, body: &Body) -> Result<(), AllocError>
    ensures { OnOk result (out.new.items ≡ out.old.items ++ named_by_body (body_view body.now)) }
{
    add_of_code(out, &body.code)?;
    add_of_rows(out, &body.rows)
}

fn add_of_some(out: &mut Vec<u32>, body: &Option<Body>) -> Result<(), AllocError>
    ensures { OnOk result (out.new.items ≡ out.old.items ++ named_by_some (option_map body_view body.now)) }
{
    match body {
        None => Ok(()),
        Some(body) => add_of_body(out, body),
    }
}

fn add_of_member(out: &mut Vec<u32>, member: &ObjMember) -> Result<(), AllocError>
    ensures { OnOk result (out.new.items ≡ out.old.items ++ named_by_member member.now) }
{
    out.push(member.name)?;
    Ok(out.push(member.ty)?)
}

fn add_of_members(out: &mut Vec<u32>, members: &[ObjMember]) -> Result<(), AllocError>
    ensures { OnOk result (out.new.items ≡ out.old.items ++ flat_map named_by_member members.now) }
{
    for member in members {
        add_of_member(out, member)?;
    }
    Ok(())
}

fn add_of_slots(out: &mut Vec<u32>, slots: &[u32]) -> Result<(), AllocError>
    ensures { OnOk result (out.new.items ≡ out.old.items ++ flat_map named_or_none slots.now) }
{
    for slot in slots {
        add_or_none(out, *slot)?;
    }
    Ok(())
}

fn add_of_class(out: &mut Vec<u32>, class: &ObjClass) -> Result<(), AllocError>
    ensures { OnOk result (out.new.items ≡ out.old.items ++ named_by_class (class_view class.now)) }
{
    out.push(class.name)?;
    out.push(class.text)?;
    add_or_none(out, class.base)?;
    add_of_members(out, &class.members)?;
    add_of_slots(out, &class.slots)
}

fn add_of_classes(out: &mut Vec<u32>, classes: &[ObjClass]) -> Result<(), AllocError>
    ensures { OnOk result (out.new.items ≡ out.old.items ++ flat_map named_by_class (map class_view classes.now)) }
{
    for class in classes {
        add_of_class(out, class)?;
    }
    Ok(())
}

fn add_of_cells(out: &mut Vec<u32>, cells: &[ObjCell]) -> Result<(), AllocError>
    ensures { OnOk result (out.new.items ≡ out.old.items ++ flat_map named_by_cell cells.now) }
{
    for cell in cells {
        add_or_none(out, cell.symbol)?;
    }
    Ok(())
}

fn add_of_global(out: &mut Vec<u32>, global: &ObjGlobal) -> Result<(), AllocError>
    ensures { OnOk result (out.new.items ≡ out.old.items ++ named_by_global (global_view global.now)) }
{
    out.push(global.symbol)?;
    out.push(global.ty)?;
    add_of_cells(out, &global.cells)
}

fn add_of_globals(out: &mut Vec<u32>, globals: &[ObjGlobal]) -> Result<(), AllocError>
    ensures { OnOk result (out.new.items ≡ out.old.items ++ flat_map named_by_global (map global_view globals.now)) }
{
    for global in globals {
        add_of_global(out, global)?;
    }
    Ok(())
}

fn add_of_func(out: &mut Vec<u32>, func: &ObjFunc) -> Result<(), AllocError>
    ensures { OnOk result (out.new.items ≡ out.old.items ++ named_by_func (func_view func.now)) }
{
    out.push(func.symbol)?;
    out.push(func.ty)?;
    add_or_none(out, func.text)?;
    add_of_some(out, &func.plain)?;
    add_of_some(out, &func.safe)
}

fn add_of_funcs(out: &mut Vec<u32>, funcs: &[ObjFunc]) -> Result<(), AllocError>
    ensures { OnOk result (out.new.items ≡ out.old.items ++ flat_map named_by_func (map func_view funcs.now)) }
{
    for func in funcs {
        add_of_func(out, func)?;
    }
    Ok(())
}

/// All that an object names by its number.
pub fn names_used(alloc: Global, object: &Object) -> Result<Vec<u32>, AllocError>
    ensures { IfOk result (λ v. v.items ≡ named_in (object_view object.now)) }
{
    let mut out = Vec::new(alloc);
    add_of_classes(&mut out, &object.classes)?;
    add_of_globals(&mut out, &object.globals)?;
    add_of_funcs(&mut out, &object.funcs)?;
    Ok(out)
}
