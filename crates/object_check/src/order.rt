//! Lists that ascend.
ghost use Rattle.std.specs.Prelude.{◌≡◌, map, nat_lt};
ghost use Rattle.tx_code.specs.declared.object.ObjClass.{ObjClass};
ghost use Rattle.tx_code.specs.declared.object.ObjGlobal.{ObjGlobal};
ghost use Rattle.tx_code.specs.declared.object.ObjFunc.{ObjFunc};
ghost use Rattle.tx_code.specs.Objects.{ClassView, GlobalView, FuncView, bytes_of, class_view, global_view, func_view};
ghost use Rattle.tx_code.specs.WellFormed.{bytes_lt, ascends, ascends_by, cell_after as is_cell_after, line_after as is_line_after};
ghost use Rattle.object_bytes.specs.Fields.{lent};
ghost use Rattle.object_check.specs.Order.{follows as follows_by};

use tx_code::{LineRow, ObjCell, ObjClass, ObjFunc, ObjGlobal};

fn is_next_name(before: Option<&[u8]>, name: &[u8]) -> bool
    ensures { result ≡ follows_by bytes_lt (lent before.entry) name.now }
{
    match before {
        None => true,
        Some(before) => before.cmp(name).is_lt(),
    }
}

/// Whether names ascend strictly by bytes.
#[tactic(auto, using(crate::proofs::Orders::behind_more, crate::proofs::Orders::behind_none))]
pub fn names_ascend(names: &[Vec<u8>]) -> bool
    ensures { result ≡ ascends bytes_lt (map bytes_of names.now) }
{
    let mut before = None;
    for name in names {
        let name = name.as_slice();
        if !is_next_name(before, name) {
            return false;
        }
        before = Some(name);
    }
    true
}

fn is_next(before: Option<u32>, number: u32) -> bool
    ensures { result ≡ follows_by nat_lt before number }
{
    match before {
        None => true,
        Some(before) => before < number,
    }
}

#[tactic(auto, using(crate::proofs::Orders::behind_more, crate::proofs::Orders::behind_none))]
fn class_names_ascend(classes: &[ObjClass]) -> bool
    ensures { result ≡ ascends nat_lt (map (λ (c : ObjClass). c.name) classes.now) }
{
    let mut before = None;
    for class in classes {
        if !is_next(before, class.name) {
            return false;
        }
        before = Some(class.name);
    }
    true
}

/// Whether the names of classes ascend strictly.
#[tactic(auto, using(crate::proofs::Orders::keyed))]
pub fn classes_ascend(classes: &[ObjClass]) -> bool
    ensures { result ≡ ascends_by (λ (c : ClassView). c.name) (map class_view classes.now) }
{
    class_names_ascend(classes)
}

#[tactic(auto, using(crate::proofs::Orders::behind_more, crate::proofs::Orders::behind_none))]
fn global_symbols_ascend(globals: &[ObjGlobal]) -> bool
    ensures { result ≡ ascends nat_lt (map (λ (g : ObjGlobal). g.symbol) globals.now) }
{
    let mut before = None;
    for global in globals {
        if !is_next(before, global.symbol) {
            return false;
        }
        before = Some(global.symbol);
    }
    true
}

/// Whether the symbols of globals ascend strictly.
#[tactic(auto, using(crate::proofs::Orders::keyed))]
pub fn globals_ascend(globals: &[ObjGlobal]) -> bool
    ensures { result ≡ ascends_by (λ (g : GlobalView). g.symbol) (map global_view globals.now) }
{
    global_symbols_ascend(globals)
}

#[tactic(auto, using(crate::proofs::Orders::behind_more, crate::proofs::Orders::behind_none))]
fn func_symbols_ascend(funcs: &[ObjFunc]) -> bool
    ensures { result ≡ ascends nat_lt (map (λ (f : ObjFunc). f.symbol) funcs.now) }
{
    let mut before = None;
    for func in funcs {
        if !is_next(before, func.symbol) {
            return false;
        }
        before = Some(func.symbol);
    }
    true
}

/// Whether the symbols of functions ascend strictly.
#[tactic(auto, using(crate::proofs::Orders::keyed))]
pub fn funcs_ascend(funcs: &[ObjFunc]) -> bool
    ensures { result ≡ ascends_by (λ (f : FuncView). f.symbol) (map func_view funcs.now) }
{
    func_symbols_ascend(funcs)
}

fn is_next_cell(before: Option<ObjCell>, cell: ObjCell) -> bool
    ensures { result ≡ follows_by is_cell_after before cell }
{
    match before {
        None => true,
        Some(before) => {
            before.offset < cell.offset
                && u64::from(before.offset) + u64::from(before.size) <= u64::from(cell.offset)
        }
    }
}

/// Whether cells ascend strictly and do not overlap.
#[tactic(auto, using(crate::proofs::Orders::behind_more, crate::proofs::Orders::behind_none))]
pub fn cells_ascend(cells: &[ObjCell]) -> bool
    ensures { result ≡ ascends is_cell_after cells.now }
{
    let mut before = None;
    for cell in cells {
        if !is_next_cell(before, *cell) {
            return false;
        }
        before = Some(*cell);
    }
    true
}

fn is_next_line(before: Option<LineRow>, line: LineRow) -> bool
    ensures { result ≡ follows_by is_line_after before line }
{
    match before {
        None => true,
        Some(before) => before.from < line.from && before.line != line.line,
    }
}

/// Whether line rows ascend strictly, with the lines of neighbours different.
#[tactic(auto, using(crate::proofs::Orders::behind_more, crate::proofs::Orders::behind_none))]
pub fn lines_ascend(lines: &[LineRow]) -> bool
    ensures { result ≡ ascends is_line_after lines.now }
{
    let mut before = None;
    for line in lines {
        if !is_next_line(before, *line) {
            return false;
        }
        before = Some(*line);
    }
    true
}
