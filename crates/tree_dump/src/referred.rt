// Which strings a unit names.

use cpp_tree::{InitCell, TGlobal, TKind, TNode, UnitTree};

fn is_named_by_node(nodes: &[TNode], global: u32) -> bool {
    for node in nodes {
        if let TKind::Global { global: found } = node.kind
            && found == global
        {
            return true;
        }
    }
    false
}

fn is_in_cells(cells: &[InitCell], symbol: &[u8]) -> bool {
    for cell in cells {
        if cell.symbol.as_slice() == symbol {
            return true;
        }
    }
    false
}

fn is_named_by_cell(globals: &[TGlobal], symbol: &[u8]) -> bool {
    for found in globals {
        if is_in_cells(&found.init, symbol) {
            return true;
        }
    }
    false
}

fn is_string(symbol: &[u8]) -> bool {
    symbol.starts_with(b"string:")
}

/// Whether a global is shown: one that the unit defines, or a string that it names.
pub fn is_shown(unit: &UnitTree, index: u32, global: &TGlobal) -> bool {
    if !global.defined {
        return false;
    }
    !is_string(&global.symbol)
        || is_named_by_node(&unit.nodes, index)
        || is_named_by_cell(&unit.globals, &global.symbol)
}
