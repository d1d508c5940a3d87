// String literals (C++14 2.14.5): a global of its own for each place.

ghost use Rattle.std.specs.Prelude.{◌≡◌, ◌++◌, ◌∷◌, [], map, true, false, IfOk, OnOk};
ghost use Rattle.elab_forms.specs.tx_ints.declared.kinds.IntKind.TheVariants.{Char};
ghost use Rattle.elab_forms.specs.cpp_types.Typ.{typ_of, typ, int};
ghost use Rattle.elab_forms.specs.cpp_tree.Arena.{trees_of};
ghost use Rattle.elab_forms.specs.cpp_tree.Units.{cell_of, global_of};
ghost use Rattle.elab_forms.specs.elab_ctx.Ctx.{work_of};
ghost use Rattle.elab_forms.specs.elab_ctx.Says.{Puts};
ghost use Rattle.elab_forms.specs.elab_rules.Casts.{string_symbol, string_type, byte_cells, string_global, string_made};

use elab_forms::below::{
    At, Cat, CellKind, InitCell, IntKind, Linkage, Shape, TGlobal, TKind, TNodeId, Ty, Work,
    add_leaf,
};
use itoa::Buffer;
use std::alloc::{AllocError, Global};

// The symbol of a string at a place.
fn string_symbol(alloc: Global, at: At) -> Result<Vec<u8>, AllocError>
    ensures { IfOk result (λ name. name.items ≡ string_symbol at) }
{
    let mut source = Buffer::new();
    let mut offset = Buffer::new();
    let mut name = Vec::from_slice(alloc, b"string:")?;
    name.extend_from_slice(source.format(at.source).as_bytes())?;
    name.extend_from_slice(b":")?;
    name.extend_from_slice(offset.format(at.offset).as_bytes())?;
    Ok(name)
}

// The type of the elements of a string.
fn char_type() -> Ty
    ensures { typ_of result ≡ typ (int Char) true false }
{
    Ty {
        shape: Shape::Int(IntKind::Char),
        is_const: true,
        is_volatile: false,
    }
}

// The type of a string of these bytes. Where no number is left for its length, that counts as want of memory.
fn string_type(alloc: Global, bytes: &[u8]) -> Result<Ty, AllocError>
    ensures { IfOk result (λ t. typ_of t ≡ string_type bytes.now) }
{
    let Ok(length) = u32::try_from(bytes.len()) else {
        return Err(AllocError);
    };
    let Some(count) = length.checked_add(1) else {
        return Err(AllocError);
    };
    let element = Box::new(alloc, char_type())?;
    Ok(Ty {
        shape: Shape::Array(element, count),
        is_const: false,
        is_volatile: false,
    })
}

// The cell of a byte, unless that is 0.
fn keep_byte(
    alloc: Global,
    cells: &mut Vec<InitCell>,
    offset: u32,
    byte: u8,
) -> Result<(), AllocError>
    ensures { OnOk result (map cell_of cells.new.items ≡ map cell_of cells.old.items ++ byte_cells offset (byte ∷ [])) }
{
    if byte != 0 {
        cells.push(InitCell {
            offset,
            size: 1,
            what: CellKind::Number,
            value: u64::from(byte),
            symbol: Vec::new(alloc),
        })?;
    }
    Ok(())
}

// The cells of these bytes.
fn byte_cells(alloc: Global, bytes: &[u8]) -> Result<Vec<InitCell>, AllocError>
    ensures { IfOk result (λ cells. map cell_of cells.items ≡ byte_cells 0 bytes.now) }
{
    let mut cells = Vec::new(alloc);
    let mut offset: u32 = 0;
    for byte in bytes {
        keep_byte(alloc, &mut cells, offset, *byte)?;
        let Some(next) = offset.checked_add(1) else {
            return Err(AllocError);
        };
        offset = next;
    }
    Ok(cells)
}

// The global of a string.
fn string_global(alloc: Global, at: At, bytes: &[u8]) -> Result<TGlobal, AllocError>
    ensures { IfOk result (λ g. global_of g ≡ string_global at bytes.now) }
{
    let symbol = string_symbol(alloc, at)?;
    let init = byte_cells(alloc, bytes)?;
    let ty = string_type(alloc, bytes)?;
    Ok(TGlobal {
        symbol,
        ty,
        linkage: Linkage::Internal,
        init,
        defined: true,
    })
}

/// A string of these bytes, as a global.
pub fn string_made(
    alloc: Global,
    work: &mut Work,
    at: At,
    bytes: &[u8],
) -> Result<TNodeId, AllocError>
    ensures { IfOk result (λ r. Puts (trees_of work.old.nodes.items) (trees_of work.new.nodes.items) (work_of work.new) r (string_made (work_of work.old) at bytes.now)) }
{
    let Ok(global) = u32::try_from(work.globals.len()) else {
        return Err(AllocError);
    };
    let found = string_global(alloc, at, bytes)?;
    let ty = string_type(alloc, bytes)?;
    work.globals.push(found)?;
    add_leaf(
        alloc,
        &mut work.nodes,
        TKind::Global { global },
        ty,
        Cat::Lvalue,
        at,
    )
}
