// The first unsafe node of a list of functions.

ghost use Rattle.std.specs.Prelude.{◌≡◌, ◌<◌, ◌==◌, IfOk, cond, fold, length, map};
ghost use Rattle.cpp_tree.specs.Arena.{IsOrdered, trees_of};
ghost use Rattle.cpp_tree.specs.Units.{func_of};
ghost use Rattle.tx_unsafe.specs.Volatile.{marked};
ghost use Rattle.tx_safety.specs.Safe.{unit_end, is_allowed, call_findings, func_findings, funcs_findings};
ghost use Rattle.tx_unsafe.specs.First.{sooner};
ghost use Rattle.tx_safety.specs.Marks.{may_from, HaveRoots};
ghost use Rattle.tx_unsafe.specs.Roots.{HasRoot};

use crate::marks::{may_call_at, promises_safety};
use cpp_tree::{TFunc, TNode, UnsafeReason};
use std::alloc::{AllocError, Global};
use tx_unsafe::{CallSite, Finding, contents_of, noted};

// Where a call is judged: at its place, that of the function itself as its definition is.
fn judged_place(n: u32, site: CallSite) -> u32
    ensures { result ≡ cond (site.func == n) unit_end site.at.offset }
{
    if site.func == n {
        u32::MAX
    } else {
        site.at.offset
    }
}

fn is_allowed_call(marks: &[Option<u32>], n: u32, site: CallSite) -> bool
    ensures { result ≡ is_allowed (may_from marks.now) n site }
{
    may_call_at(marks, judged_place(n, site), site.func)
}

// The first of what was found and of the calls that are not allowed.
fn with_calls(
    calls: &[CallSite],
    marks: &[Option<u32>],
    n: u32,
    found: Option<Finding>,
) -> Option<Finding>
    ensures { result ≡ fold sooner found (call_findings (may_from marks.now) n calls.now) }
{
    let mut found = found;
    for site in calls {
        found = noted(
            found,
            !is_allowed_call(marks, n, *site),
            site.at,
            UnsafeReason::CallsUnsafe,
        );
    }
    found
}

// The first of what was found and of the unsafe parts of a function.
fn with_func(
    alloc: Global,
    nodes: &[TNode],
    volatile: &[bool],
    func: &TFunc,
    marks: &[Option<u32>],
    n: u32,
    found: Option<Finding>,
) -> Result<Option<Finding>, AllocError>
    requires ordered { IsOrdered nodes.now }
    requires root { HasRoot nodes.now func.now }
    ensures { IfOk result (λ first. first ≡ fold sooner found (func_findings (marked volatile.now) (may_from marks.now) n (func_of (trees_of nodes.now) func.now))) }
{
    let contents = contents_of(alloc, nodes, volatile, func, promises_safety(func), found)?;
    Ok(with_calls(&contents.calls, marks, n, contents.first))
}

/// The first of what was found and of the unsafe parts of a unit's functions, with these marks.
pub(crate) fn with_funcs(
    alloc: Global,
    nodes: &[TNode],
    volatile: &[bool],
    funcs: &[TFunc],
    marks: &[Option<u32>],
    found: Option<Finding>,
) -> Result<Option<Finding>, AllocError>
    requires ordered { IsOrdered nodes.now }
    requires roots { HaveRoots nodes.now funcs.now }
    requires limit { length funcs.now < 4294967296 }
    ensures { IfOk result (λ first. first ≡ fold sooner found (funcs_findings (marked volatile.now) (may_from marks.now) 0 (map (func_of (trees_of nodes.now)) funcs.now))) }
{
    let mut found = found;
    for n in 0..funcs.len() {
        found = with_func(alloc, nodes, volatile, &funcs[n], marks, n as u32, found)?;
    }
    Ok(found)
}
