// The first bytes of globals (C++14 3.6.2): a cell for each scalar that is not zero.

ghost use Rattle.std.specs.Prelude.{◌≡◌, ◌<◌, ◌+◌, ◌++◌, ◌%◌, ◌^◌, ◌*◌, ◌∷◌, [], length, map, slice_get, true, Ok, IfOk, OnOk, option_map};
ghost use Rattle.elab_rules.specs.cpp_layout.Layout.{kind_size};
ghost use Rattle.elab_rules.specs.cpp_tree.Trees.{kids_of as kids_in};
ghost use Rattle.elab_rules.specs.cpp_tree.Arena.{trees_of, tree_at, trees_at, are_below};
ghost use Rattle.elab_rules.specs.cpp_tree.Units.{cell_of, global_of};
ghost use Rattle.elab_rules.specs.elab_ctx.Ctx.{ctx_of, work_of};
ghost use Rattle.elab_rules.specs.elab_ctx.Says.{are_within, place_in};
ghost use Rattle.elab_types.specs.Shown.{Says};
ghost use Rattle.elab_consts.specs.Shown.{address_of};
ghost use Rattle.elab_rules.specs.Globals.{number_cell, global_symbol, address_cell, scalar_cells, moved_cells, repeated_cells, element_cells, cells_of, cells_of_all};
ghost use Rattle.elab_globals.specs.Says.{cells_shown};
ghost use Rattle.elab_globals.specs.Cells.{stored_cells, piece_cells, cells_by};

use crate::symbols::symbol_of;
use cpp_types::At;
use elab_consts::{AddressOf, address, constant};
use elab_rules::below::{
    CellKind, ElabFault, Env, IllRule, InitCell, IntKind, TGlobal, TKind, TNodeId, Work,
    function_at, kids_at, node_at,
};
use elab_types::specifiers::ill;
use std::alloc::{AllocError, Global};

// The size of a number of a kind, in bytes.
fn kind_size(kind: IntKind) -> u8
    ensures { result ≡ kind_size kind }
{
    match kind {
        IntKind::Bool | IntKind::Char | IntKind::SChar | IntKind::UChar => 1,
        IntKind::Short | IntKind::UShort => 2,
        IntKind::Int | IntKind::UInt => 4,
        IntKind::Long | IntKind::ULong | IntKind::LLong | IntKind::ULLong => 8,
    }
}

// As much of a word as a number of a kind has.
fn cut(kind: IntKind, word: u64) -> u64
    ensures { result ≡ word % 2 ^ (8 * kind_size kind) }
{
    match kind {
        IntKind::Bool | IntKind::Char | IntKind::SChar | IntKind::UChar => word % 256,
        IntKind::Short | IntKind::UShort => word % 65_536,
        IntKind::Int | IntKind::UInt => word % 4_294_967_296,
        IntKind::Long | IntKind::ULong | IntKind::LLong | IntKind::ULLong => word,
    }
}

fn keep_cell(cells: &mut Vec<InitCell>, cell: InitCell) -> Result<(), AllocError>
    ensures { OnOk result (map cell_of cells.new.items ≡ map cell_of cells.old.items ++ cell_of cell ∷ []) }
{
    cells.push(cell)?;
    Ok(())
}

fn keep_cells(cells: &mut Vec<InitCell>, others: Vec<InitCell>) -> Result<(), AllocError>
    ensures { OnOk result (map cell_of cells.new.items ≡ map cell_of cells.old.items ++ map cell_of others.items) }
{
    let mut others = others;
    cells.append(&mut others)
}

// The cell of a number, unless that is 0.
fn number_cell(
    alloc: Global,
    offset: u32,
    kind: IntKind,
    word: u64,
) -> Result<Vec<InitCell>, AllocError>
    ensures { IfOk result (λ v. map cell_of v.items ≡ number_cell offset kind word) }
{
    let mut cells = Vec::new(alloc);
    let value = cut(kind, word);
    if value != 0 {
        keep_cell(
            &mut cells,
            InitCell {
                offset,
                size: kind_size(kind),
                what: CellKind::Number,
                value,
                symbol: Vec::new(alloc),
            },
        )?;
    }
    Ok(cells)
}

// The symbol of a global; of a number that no global has, nothing.
fn global_symbol(alloc: Global, globals: &Vec<TGlobal>, global: u32) -> Result<Vec<u8>, AllocError>
    ensures { IfOk result (λ s. s.items ≡ global_symbol (slice_get (map global_of globals.now.items) global)) }
{
    match globals.get(global as usize) {
        Some(found) => Vec::from_slice(alloc, &found.symbol),
        None => Ok(Vec::new(alloc)),
    }
}

// The cell of an address.
fn address_cell(
    alloc: Global,
    env: &Env,
    work: &Work,
    offset: u32,
    found: AddressOf,
) -> Result<InitCell, AllocError>
    ensures { IfOk result (λ x. cell_of x ≡ address_cell (ctx_of env.now) (work_of work.now) offset (address_of found)) }
{
    match found {
        AddressOf::Global(global) => {
            let symbol = global_symbol(alloc, &work.globals, global)?;
            Ok(InitCell {
                offset,
                size: 8,
                what: CellKind::GlobalAddr,
                value: 0,
                symbol,
            })
        }
        AddressOf::Function(func) => {
            // No address is that of a function that does not stand there.
            let Some(decl) = function_at(env, func) else {
                return Err(AllocError);
            };
            let symbol = symbol_of(alloc, decl, &env.classes)?;
            Ok(InitCell {
                offset,
                size: 8,
                what: CellKind::FuncAddr,
                value: 0,
                symbol,
            })
        }
    }
}

fn one_cell(alloc: Global, cell: InitCell) -> Result<Vec<InitCell>, AllocError>
    ensures { IfOk result (λ v. map cell_of v.items ≡ cell_of cell ∷ []) }
{
    let mut cells = Vec::new(alloc);
    keep_cell(&mut cells, cell)?;
    Ok(cells)
}

// The cells of a scalar from its constant, or from the address that it is.
fn scalar_cells(
    alloc: Global,
    env: &Env,
    work: &Work,
    offset: u32,
    kind: IntKind,
    at: At,
    word: Option<u64>,
    found: Option<AddressOf>,
) -> Result<Vec<InitCell>, ElabFault>
    ensures { Says cells_shown result (scalar_cells (ctx_of env.now) (work_of work.now) offset kind at word (option_map address_of found)) }
{
    if let Some(word) = word {
        let cells = number_cell(alloc, offset, kind, word)?;
        return Ok(cells);
    }
    let Some(found) = found else {
        return Err(ill(at, IllRule::NotConstant));
    };
    let cell = address_cell(alloc, env, work, offset, found)?;
    let cells = one_cell(alloc, cell)?;
    Ok(cells)
}

// A cell at a place that is further behind.
fn moved_cell(alloc: Global, by: u32, cell: &InitCell) -> Result<InitCell, AllocError>
    ensures { IfOk result (λ x. moved_cells by (cell_of cell.now ∷ []) ≡ cell_of x ∷ []) }
{
    let Some(offset) = cell.offset.checked_add(by) else {
        return Err(AllocError);
    };
    let symbol = Vec::from_slice(alloc, &cell.symbol)?;
    Ok(InitCell {
        offset,
        size: cell.size,
        what: cell.what,
        value: cell.value,
        symbol,
    })
}

// Adds cells at places that are further behind.
fn keep_moved(
    alloc: Global,
    cells: &mut Vec<InitCell>,
    by: u32,
    others: &[InitCell],
) -> Result<(), AllocError>
    ensures { OnOk result (map cell_of cells.new.items ≡ map cell_of cells.old.items ++ moved_cells by (map cell_of others.now)) }
{
    for other in others {
        let cell = moved_cell(alloc, by, other)?;
        keep_cell(cells, cell)?;
    }
    Ok(())
}

fn moved_cells(alloc: Global, by: u32, others: &[InitCell]) -> Result<Vec<InitCell>, AllocError>
    ensures { IfOk result (λ v. map cell_of v.items ≡ moved_cells by (map cell_of others.now)) }
{
    let mut cells = Vec::new(alloc);
    keep_moved(alloc, &mut cells, by, others)?;
    Ok(cells)
}

// The cells of so many elements that are alike.
fn element_cells(
    alloc: Global,
    count: u32,
    stride: u32,
    others: &[InitCell],
) -> Result<Vec<InitCell>, AllocError>
    ensures { IfOk result (λ v. map cell_of v.items ≡ element_cells count stride (map cell_of others.now)) }
{
    let mut cells = Vec::new(alloc);
    if others.is_empty() {
        return Ok(cells);
    }
    let mut offset: u32 = 0;
    for _i in 0..count {
        keep_moved(alloc, &mut cells, offset, others)?;
        let Some(next) = offset.checked_add(stride) else {
            return Err(AllocError);
        };
        offset = next;
    }
    Ok(cells)
}

// The cells of a scalar that has the value of its only kid.
fn stored_cells(
    alloc: Global,
    env: &Env,
    work: &Work,
    kind: IntKind,
    volatile: bool,
    at: At,
    kids: &[TNodeId],
) -> Result<Vec<InitCell>, ElabFault>
    requires { are_within (length (trees_of work.now.nodes.items)) kids.now ≡ true }
    ensures { Says cells_shown result (stored_cells (ctx_of env.now) (work_of work.now) (TKind.Store kind volatile) at (trees_at (trees_of work.now.nodes.items) kids.now)) }
{
    if kids.len() != 1 {
        return Err(ill(at, IllRule::NotConstant));
    }
    let word = constant(&work.globals, &work.nodes, kids[0])?;
    let found = address(&work.nodes, kids[0])?;
    let place = node_at(&work.nodes, kids[0]).at;
    scalar_cells(alloc, env, work, 0, kind, place, word, found)
}

/// The cells of an initialiser that stands at a node; NotConstant where it is no constant.
#[cycle(cells)]
pub fn cells_of(
    alloc: Global,
    env: &Env,
    work: &Work,
    id: TNodeId,
) -> Result<Vec<InitCell>, ElabFault>
    requires { id.0 < length (trees_of work.now.nodes.items) }
    ensures { Says cells_shown result (cells_of (ctx_of env.now) (work_of work.now) (tree_at (trees_of work.now.nodes.items) id)) }
{
    let kids = kids_at(&work.nodes, id)?;
    let node = node_at(&work.nodes, id);
    cells_by(alloc, env, work, node.kind, node.at, id.0, kids)
}

// The same, by what the node is.
#[cycle(cells)]
fn cells_by(
    alloc: Global,
    env: &Env,
    work: &Work,
    kind: TKind,
    at: At,
    limit: u32,
    kids: &[TNodeId],
) -> Result<Vec<InitCell>, ElabFault>
    requires within { are_within (length (trees_of work.now.nodes.items)) kids.now ≡ true }
    requires lower { are_below limit kids.now ≡ true }
    ensures { Says cells_shown result (cells_by (ctx_of env.now) (work_of work.now) kind at (trees_at (trees_of work.now.nodes.items) kids.now)) }
{
    match kind {
        TKind::Store { kind, volatile } => {
            stored_cells(alloc, env, work, kind, volatile, at, kids)
        }
        TKind::Pieces => cells_of_all(alloc, env, work, limit, kids),
        _ => piece_cells(alloc, env, work, kind, at, limit, kids),
    }
}

// The cells of a part, or of elements that are built alike, from those of the first kid.
#[cycle(cells)]
fn piece_cells(
    alloc: Global,
    env: &Env,
    work: &Work,
    kind: TKind,
    at: At,
    limit: u32,
    kids: &[TNodeId],
) -> Result<Vec<InitCell>, ElabFault>
    requires within { are_within (length (trees_of work.now.nodes.items)) kids.now ≡ true }
    requires lower { are_below limit kids.now ≡ true }
    ensures { Says cells_shown result (piece_cells (ctx_of env.now) (work_of work.now) kind at (trees_at (trees_of work.now.nodes.items) kids.now)) }
{
    match kind {
        TKind::Piece { offset } => {
            let Some(first) = kids.first() else {
                return Err(ill(at, IllRule::NotConstant));
            };
            let cells = cells_of(alloc, env, work, *first)?;
            let moved = moved_cells(alloc, offset, &cells)?;
            Ok(moved)
        }
        TKind::Elements { count, stride } => {
            let Some(first) = kids.first() else {
                return Err(ill(at, IllRule::NotConstant));
            };
            let cells = cells_of(alloc, env, work, *first)?;
            let all = element_cells(alloc, count, stride, &cells)?;
            Ok(all)
        }
        _ => Err(ill(at, IllRule::NotConstant)),
    }
}

// The cells of some initialisers, one behind the other.
#[cycle(cells)]
fn cells_of_all(
    alloc: Global,
    env: &Env,
    work: &Work,
    limit: u32,
    kids: &[TNodeId],
) -> Result<Vec<InitCell>, ElabFault>
    requires within { are_within (length (trees_of work.now.nodes.items)) kids.now ≡ true }
    requires lower { are_below limit kids.now ≡ true }
    ensures { Says cells_shown result (cells_of_all (ctx_of env.now) (work_of work.now) (trees_at (trees_of work.now.nodes.items) kids.now)) }
{
    let mut cells = Vec::new(alloc);
    for kid in kids {
        let more = cells_of(alloc, env, work, *kid)?;
        keep_cells(&mut cells, more)?;
    }
    Ok(cells)
}
