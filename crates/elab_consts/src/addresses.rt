// Address constants (C++14 5.19), read off typed nodes.

ghost use Rattle.std.specs.Prelude.{◌≡◌, ◌<◌, length, IfOk, option_map};
ghost use Rattle.elab_rules.specs.cpp_tree.Arena.{trees_of, tree_at};
ghost use Rattle.elab_rules.specs.Constants.{address};
ghost use Rattle.elab_consts.specs.Shown.{address_of};

use elab_rules::below::{TKind, TNode, TNodeId, kids_at, node_at};
use std::alloc::AllocError;

/// Whose address a constant is.
#[derive(Clone, Copy, Debug, PartialEq, Eq)]
pub enum AddressOf {
    Global(u32),
    Function(u32),
}

/// Whose address an expression is: that of a global or a function, whatever its type was made; `None` where it is none.
pub fn address(nodes: &Vec<TNode>, id: TNodeId) -> Result<Option<AddressOf>, AllocError>
    requires { id.0 < length (trees_of nodes.now.items) }
    ensures { IfOk result (λ x. option_map address_of x ≡ address (tree_at (trees_of nodes.now.items) id)) }
{
    let kids = kids_at(nodes, id)?;
    match node_at(nodes, id).kind {
        TKind::Global { global } => Ok(Some(AddressOf::Global(global))),
        TKind::Function { func } => Ok(Some(AddressOf::Function(func))),
        TKind::Retype => {
            if kids.len() == 1 {
                address(nodes, kids[0])
            } else {
                Ok(None)
            }
        }
        _ => Ok(None),
    }
}
