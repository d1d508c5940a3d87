// What stands in the definitions of functions.

ghost use Rattle.std.specs.Prelude.{◌≡◌, [], IfOk, fold, map};
ghost use Rattle.std.specs.List.{flat_map};
ghost use Rattle.cpp_tree.specs.Arena.{IsOrdered, trees_of};
ghost use Rattle.cpp_tree.specs.Rows.{is_constructor};
ghost use Rattle.cpp_tree.specs.Units.{func_of, param_of};
ghost use Rattle.tx_unsafe.specs.Volatile.{marked};
ghost use Rattle.tx_unsafe.specs.Unsafe.{where_so, counted, param_findings, builds_volatile, head_findings, own_findings, calls_of};
ghost use Rattle.tx_unsafe.specs.First.{sooner};
ghost use Rattle.tx_unsafe.specs.Roots.{HasRoot};

use crate::finding::Finding;
use crate::table::noted;
use crate::volatility::{has_volatile, is_marked};
use crate::walk::{Contents, add_tree};
use cpp_tree::{FuncKind, TFunc, TNode, TParam, UnsafeReason};
use std::alloc::{AllocError, Global};

// A constructor of a class with a volatile part.
fn is_volatile_constructor(func: &TFunc, volatile: &[bool]) -> bool
    ensures { result ≡ builds_volatile (marked volatile.now) (func_of [] func.now) }
{
    is_constructor_kind(func.kind) && is_marked(func.class, volatile)
}

fn is_constructor_kind(kind: FuncKind) -> bool
    ensures { result ≡ is_constructor kind }
{
    match kind {
        FuncKind::Constructor => true,
        FuncKind::Plain | FuncKind::Destructor | FuncKind::ClosureCall => false,
    }
}

// The first of what was found and of the parameters that are volatile or have a volatile part.
fn with_params(params: &[TParam], volatile: &[bool], found: Option<Finding>) -> Option<Finding>
    ensures { result ≡ fold sooner found (flat_map (param_findings (marked volatile.now)) (map param_of params.now)) }
{
    let mut found = found;
    for param in params {
        found = noted(
            found,
            has_volatile(&param.ty, volatile),
            param.at,
            UnsafeReason::VolatileParam,
        );
    }
    found
}

// What a function's declaration alone is unsafe for.
fn with_head(func: &TFunc, volatile: &[bool], found: Option<Finding>) -> Option<Finding>
    ensures { result ≡ fold sooner found (head_findings (marked volatile.now) (func_of [] func.now)) }
{
    let found = noted(
        found,
        is_volatile_constructor(func, volatile),
        func.rec.at,
        UnsafeReason::VolatileWrite,
    );
    with_params(&func.params, volatile, found)
}

// The same, where all of the definition counts.
fn with_counted_head(
    func: &TFunc,
    volatile: &[bool],
    whole: bool,
    found: Option<Finding>,
) -> Option<Finding>
    ensures { result ≡ fold sooner found (counted whole (head_findings (marked volatile.now) (func_of [] func.now))) }
{
    if whole {
        with_head(func, volatile, found)
    } else {
        found
    }
}

/// What stands in a function's definition: all of it, or only its atomic blocks; the first unsafe node is that of these
/// and what was found before.
pub fn contents_of(
    alloc: Global,
    nodes: &[TNode],
    volatile: &[bool],
    func: &TFunc,
    whole: bool,
    found: Option<Finding>,
) -> Result<Contents, AllocError>
    requires ordered { IsOrdered nodes.now }
    requires root { HasRoot nodes.now func.now }
    ensures first { IfOk result (λ c. c.first ≡ fold sooner found (own_findings (marked volatile.now) whole (func_of (trees_of nodes.now) func.now))) }
    ensures calls { IfOk result (λ c. c.calls.items ≡ calls_of whole (func_of (trees_of nodes.now) func.now)) }
{
    let mut contents = Contents {
        first: with_counted_head(func, volatile, whole, found),
        calls: Vec::new(alloc),
    };
    match func.body {
        Some(root) => add_tree(nodes, volatile, root, whole, &mut contents)?,
        None => {}
    }
    Ok(contents)
}
