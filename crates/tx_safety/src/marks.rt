// Which functions of a unit are safe, and from which place on.

ghost use Rattle.std.specs.Prelude.{◌≡◌, ◌<◌, ◌≤◌, ◌&&◌, ℕ, cond, true, false, None, Some, IfOk, OnOk, fold, is_some, is_none, length, map, max, option_map, List};
ghost use Rattle.std.specs.List.{list_all};
ghost use Rattle.cpp_tree.specs.Trees.{Tree};
ghost use Rattle.cpp_tree.specs.Arena.{IsOrdered, trees_of};
ghost use Rattle.cpp_tree.specs.Units.{func_of};
ghost use Rattle.tx_unsafe.specs.Volatile.{marked};
ghost use Rattle.tx_safety.specs.Safe.{is_declared, is_promised, safe};
ghost use Rattle.tx_safety.specs.Marks.{mark_at, may_from, is_marked_call, later, latest, mark_by, mark_of, new_mark, with_mark, count_marks, SoundMarks, ClosedMarks, AreContents, IsContents, HaveRoots};

use cpp_tree::below::Safety;
use cpp_tree::{TFunc, TNode};
use std::alloc::{AllocError, Global};
use tx_unsafe::{CallSite, Contents, contents_of};

fn declares_safe(safety: Safety) -> bool
    ensures { result ≡ is_declared safety }
{
    match safety {
        Safety::None => false,
        Safety::Safe | Safety::Dynamic => true,
    }
}

/// Whether a function is declared safe, or counts so because of what it overrides.
pub(crate) fn promises_safety(func: &TFunc) -> bool
    ensures { (trees : List Tree) → result ≡ is_promised (func_of trees func.now) }
{
    declares_safe(func.rec.safety) || func.rec.considered
}

// The mark of a function, where it has one.
fn mark_of_func(marks: &[Option<u32>], n: u32) -> Option<u32>
    ensures { result ≡ mark_at marks.now n }
{
    if (n as usize) < marks.len() {
        marks[n as usize]
    } else {
        None
    }
}

/// Whether a function may be called at a place.
pub(crate) fn may_call_at(marks: &[Option<u32>], place: u32, n: u32) -> bool
    ensures { result ≡ may_from marks.now place n }
{
    match mark_of_func(marks, n) {
        Some(from) => from <= place,
        None => false,
    }
}

// Whether a call in the definition of a function is allowed where it stands.
fn is_allowed_there(marks: &[Option<u32>], n: u32, site: CallSite) -> bool
    ensures { result ≡ is_marked_call marks.now n site }
{
    site.func == n || may_call_at(marks, site.at.offset, site.func)
}

fn are_allowed_there(marks: &[Option<u32>], n: u32, calls: &[CallSite]) -> bool
    ensures { result ≡ list_all (is_marked_call marks.now n) calls.now }
{
    for site in calls {
        if !is_allowed_there(marks, n, *site) {
            return false;
        }
    }
    true
}

// The later of a place and the mark of a function that is called.
fn later_of(marks: &[Option<u32>], n: u32, from: Option<u32>, site: CallSite) -> Option<u32>
    ensures { result ≡ later marks.now n from site }
{
    match from {
        Some(from) => {
            if site.func == n {
                Some(from)
            } else {
                later_mark(from, mark_of_func(marks, site.func))
            }
        }
        None => None,
    }
}

fn later_mark(from: u32, mark: Option<u32>) -> Option<u32>
    ensures { result ≡ option_map (max from) mark }
{
    match mark {
        Some(other) => Some(if from < other { other } else { from }),
        None => None,
    }
}

// The place from which on all calls in a definition are allowed.
fn latest_of(marks: &[Option<u32>], n: u32, calls: &[CallSite]) -> Option<u32>
    ensures { result ≡ latest marks.now n calls.now }
{
    let mut from = Some(0);
    for site in calls {
        from = later_of(marks, n, from, *site);
    }
    from
}

// The mark of a function whose definition has nothing that is unsafe by itself.
fn mark_by_calls(func: &TFunc, calls: &[CallSite], marks: &[Option<u32>], n: u32) -> Option<u32>
    ensures { result ≡ mark_by false true func.now.implicit func.now.rec.is_virtual (list_all (is_marked_call marks.now n) calls.now) (latest marks.now n calls.now) func.now.closed_at }
{
    if func.implicit {
        latest_of(marks, n, calls)
    } else if !func.rec.is_virtual && are_allowed_there(marks, n, calls) {
        Some(func.closed_at)
    } else {
        None
    }
}

// The mark of a function that is promised to be safe or not, and whose definition is clean but for its calls or not.
fn mark_of_definition(
    func: &TFunc,
    promised: bool,
    clean: bool,
    calls: &[CallSite],
    marks: &[Option<u32>],
    n: u32,
) -> Option<u32>
    ensures { result ≡ mark_by promised clean func.now.implicit func.now.rec.is_virtual (list_all (is_marked_call marks.now n) calls.now) (latest marks.now n calls.now) func.now.closed_at }
{
    if promised {
        Some(0)
    } else if clean {
        mark_by_calls(func, calls, marks, n)
    } else {
        None
    }
}

// Whether there is a definition, in which nothing is unsafe by itself.
fn is_clean(func: &TFunc, contents: &Contents) -> bool
    ensures { (trees : List Tree) → result ≡ (is_some (func_of trees func.now).body && is_none contents.now.first) }
{
    func.body.is_some() && contents.first.is_none()
}

// The mark that a function gets from its declaration and from what stands in its definition.
fn mark_from(func: &TFunc, contents: &Contents, marks: &[Option<u32>], n: u32) -> Option<u32>
    ensures { (trees : List Tree) → result ≡ mark_of marks.now n (func_of trees func.now) (is_none contents.now.first) contents.now.calls.items }
{
    let promised = promises_safety(func);
    let clean = is_clean(func, contents);
    mark_of_definition(func, promised, clean, &contents.calls, marks, n)
}

// The mark that a function without one gets.
fn new_mark_at(func: &TFunc, contents: &Contents, marks: &[Option<u32>], n: u32) -> Option<u32>
    ensures { (trees : List Tree) → result ≡ cond (is_some (mark_at marks.now n)) None (mark_of marks.now n (func_of trees func.now) (is_none contents.now.first) contents.now.calls.items) }
{
    if mark_of_func(marks, n).is_some() {
        None
    } else {
        mark_from(func, contents, marks, n)
    }
}

// The mark that a function of the list gets, if it has none.
fn new_mark_in(
    nodes: &[TNode],
    volatile: &[bool],
    funcs: &[TFunc],
    all: &[Contents],
    marks: &[Option<u32>],
    n: u32,
) -> Option<u32>
    requires within { n < length funcs.now }
    requires length { length all.now ≡ length funcs.now }
    requires contents { AreContents (marked volatile.now) (trees_of nodes.now) funcs.now all.now }
    ensures { result ≡ new_mark (marked volatile.now) (map (func_of (trees_of nodes.now)) funcs.now) marks.now n }
{
    new_mark_at(&funcs[n as usize], &all[n as usize], marks, n)
}

// Sets a mark, if there is one, and tells whether there is.
fn set_mark(marks: &mut Vec<Option<u32>>, n: u32, new: Option<u32>) -> bool
    requires within { n < length marks.old.items }
    ensures is { result ≡ is_some new }
    ensures marks { marks.new.items ≡ with_mark marks.old.items n new }
{
    match new {
        Some(from) => {
            marks[n as usize] = Some(from);
            true
        }
        None => false,
    }
}

// Sets the mark that a function gets, and tells whether it gets one.
fn mark(
    nodes: &[TNode],
    volatile: &[bool],
    funcs: &[TFunc],
    all: &[Contents],
    marks: &mut Vec<Option<u32>>,
    n: u32,
) -> bool
    requires within { n < length funcs.now }
    requires length { length all.now ≡ length funcs.now }
    requires long { length marks.old.items ≡ length funcs.now }
    requires contents { AreContents (marked volatile.now) (trees_of nodes.now) funcs.now all.now }
    ensures is { result ≡ is_some (new_mark (marked volatile.now) (map (func_of (trees_of nodes.now)) funcs.now) marks.old.items n) }
    ensures marks { marks.new.items ≡ with_mark marks.old.items n (new_mark (marked volatile.now) (map (func_of (trees_of nodes.now)) funcs.now) marks.old.items n) }
{
    let new = new_mark_in(nodes, volatile, funcs, all, marks, n);
    set_mark(marks, n, new)
}

// Sets the mark that a function of this index gets, if there is one.
fn mark_if(
    nodes: &[TNode],
    volatile: &[bool],
    funcs: &[TFunc],
    all: &[Contents],
    marks: &mut Vec<Option<u32>>,
    n: u32,
)
    requires length { length all.now ≡ length funcs.now }
    requires long { length marks.old.items ≡ length funcs.now }
    requires contents { AreContents (marked volatile.now) (trees_of nodes.now) funcs.now all.now }
    requires sound { SoundMarks (marked volatile.now) (map (func_of (trees_of nodes.now)) funcs.now) marks.old.items }
    ensures long { length marks.new.items ≡ length funcs.now }
    ensures sound { SoundMarks (marked volatile.now) (map (func_of (trees_of nodes.now)) funcs.now) marks.new.items }
    ensures kept { count_marks marks.old.items ≤ count_marks marks.new.items }
{
    if (n as usize) < funcs.len() {
        mark(nodes, volatile, funcs, all, marks, n);
    }
}

// Sets the mark of each function of an order that gets one.
fn mark_in_order(
    nodes: &[TNode],
    volatile: &[bool],
    funcs: &[TFunc],
    all: &[Contents],
    order: &[u32],
    marks: &mut Vec<Option<u32>>,
)
    requires length { length all.now ≡ length funcs.now }
    requires long { length marks.old.items ≡ length funcs.now }
    requires contents { AreContents (marked volatile.now) (trees_of nodes.now) funcs.now all.now }
    requires sound { SoundMarks (marked volatile.now) (map (func_of (trees_of nodes.now)) funcs.now) marks.old.items }
    ensures long { length marks.new.items ≡ length funcs.now }
    ensures sound { SoundMarks (marked volatile.now) (map (func_of (trees_of nodes.now)) funcs.now) marks.new.items }
    ensures kept { count_marks marks.old.items ≤ count_marks marks.new.items }
{
    for n in order {
        mark_if(nodes, volatile, funcs, all, marks, *n);
    }
}

// Sets the mark of each function that gets one, in one round, and tells whether one did.
fn mark_round(
    nodes: &[TNode],
    volatile: &[bool],
    funcs: &[TFunc],
    all: &[Contents],
    marks: &mut Vec<Option<u32>>,
) -> bool
    requires length { length all.now ≡ length funcs.now }
    requires limit { length funcs.now < 4294967296 }
    requires long { length marks.old.items ≡ length funcs.now }
    requires contents { AreContents (marked volatile.now) (trees_of nodes.now) funcs.now all.now }
    requires sound { SoundMarks (marked volatile.now) (map (func_of (trees_of nodes.now)) funcs.now) marks.old.items }
    ensures long { length marks.new.items ≡ length funcs.now }
    ensures sound { SoundMarks (marked volatile.now) (map (func_of (trees_of nodes.now)) funcs.now) marks.new.items }
    ensures closed { result ≡ false → ClosedMarks (marked volatile.now) (map (func_of (trees_of nodes.now)) funcs.now) marks.new.items (length funcs.now) }
    ensures more { result ≡ true → count_marks marks.old.items < count_marks marks.new.items }
{
    let mut changed = false;
    for n in 0..funcs.len() {
        changed |= mark(nodes, volatile, funcs, all, marks, n as u32);
    }
    changed
}

// What stands in each function's definition.
fn all_contents(
    alloc: Global,
    nodes: &[TNode],
    volatile: &[bool],
    funcs: &[TFunc],
) -> Result<Vec<Contents>, AllocError>
    requires ordered { IsOrdered nodes.now }
    requires roots { HaveRoots nodes.now funcs.now }
    ensures length { IfOk result (λ all. length all.items ≡ length funcs.now) }
    ensures contents { IfOk result (λ all. AreContents (marked volatile.now) (trees_of nodes.now) funcs.now all.items) }
{
    let mut all = Vec::new(alloc);
    for func in funcs {
        all.push(contents_of(alloc, nodes, volatile, func, true, None)?)?;
    }
    Ok(all)
}

// Where a function is closed.
fn closing_place(funcs: &[TFunc], n: u32) -> u32 {
    if (n as usize) < funcs.len() {
        funcs[n as usize].closed_at
    } else {
        0
    }
}

// The functions in the order in which they are closed. Only how many rounds it takes hangs on it.
fn text_order(alloc: Global, funcs: &[TFunc]) -> Result<Vec<u32>, AllocError>
    requires { length funcs.now < 4294967296 }
{
    let mut order = Vec::new(alloc);
    for n in 0..funcs.len() {
        order.push(n as u32)?;
    }
    order.sort_by_key(|n| closing_place(funcs, *n))?;
    Ok(order)
}

/// For each function of a unit the place from which on it is safe, if there is one. The functions are gone through in the
/// order in which they are closed, and then in that of the list, until nothing changes: twice, since a safe function calls
/// what is closed before it, and once more for each implicit member, in a chain of calls, that calls what is closed behind
/// it.
pub(crate) fn safe_marks(
    alloc: Global,
    nodes: &[TNode],
    volatile: &[bool],
    funcs: &[TFunc],
) -> Result<Vec<Option<u32>>, AllocError>
    requires ordered { IsOrdered nodes.now }
    requires roots { HaveRoots nodes.now funcs.now }
    requires limit { length funcs.now < 4294967296 }
    ensures { IfOk result (λ marks. (place n : ℕ) → may_from marks.items place n ≡ safe (marked volatile.now) (map (func_of (trees_of nodes.now)) funcs.now) place n) }
{
    let all = all_contents(alloc, nodes, volatile, funcs)?;
    let order = text_order(alloc, funcs)?;
    let mut marks = Vec::from_elem(alloc, None, funcs.len())?;
    'rounds: loop {
        mark_in_order(nodes, volatile, funcs, &all, &order, &mut marks);
        if !mark_round(nodes, volatile, funcs, &all, &mut marks) {
            return Ok(marks);
        }
    }
}
