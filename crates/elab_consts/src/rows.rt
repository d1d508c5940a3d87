// Constants of nodes from those of their kids.

ghost use Rattle.std.specs.Prelude.{◌≡◌, map, slice_get, List};
ghost use Rattle.elab_rules.specs.cpp_tree.Units.{global_of};
ghost use Rattle.elab_rules.specs.cpp_types.Typ.{typ_of};
ghost use Rattle.elab_rules.specs.Constants.{is_constant_type, number_in, value_of_global, branch};
ghost use Rattle.elab_consts.specs.FromKids.{word_at, from_one, from_two, from_three, loaded};
ghost use Rattle.elab_rules.specs.cpp_tree.Units.{cell_of};

use crate::words::{applied, word_in};
use elab_rules::below::{Cat, InitCell, IntKind, Shape, TGlobal, TKind, Ty};

/// The word of a literal.
pub fn word_at(kind: TKind) -> Option<u64>
    ensures { result ≡ word_at kind }
{
    match kind {
        TKind::Literal { word } => Some(word),
        _ => None,
    }
}

/// From the constant of the only kid.
pub fn from_one(kind: TKind, cat: Cat, kid: Option<u64>) -> Option<u64>
    ensures { result ≡ from_one kind cat kid }
{
    match kind {
        TKind::Literal { word } => Some(word),
        TKind::Convert { to } => {
            let word = kid?;
            Some(word_in(to, word))
        }
        TKind::Retype => match cat {
            Cat::Prvalue => kid,
            Cat::Lvalue => None,
        },
        _ => None,
    }
}

/// From the constants of two kids.
pub fn from_two(kind: TKind, cat: Cat, left: Option<u64>, right: Option<u64>) -> Option<u64>
    ensures { result ≡ from_two kind cat left right }
{
    match kind {
        TKind::Literal { word } => Some(word),
        TKind::Binary { op, kind } => match cat {
            Cat::Prvalue => {
                let left = left?;
                let right = right?;
                applied(op, kind, left, right)
            }
            Cat::Lvalue => None,
        },
        _ => None,
    }
}

// The branch that a test takes, where all three are constants.
fn branch(test: Option<u64>, yes: Option<u64>, no: Option<u64>) -> Option<u64>
    ensures { result ≡ branch test yes no }
{
    let test = test?;
    let yes = yes?;
    let no = no?;
    if test == 0 { Some(no) } else { Some(yes) }
}

/// From the constants of three kids.
pub fn from_three(
    kind: TKind,
    cat: Cat,
    test: Option<u64>,
    yes: Option<u64>,
    no: Option<u64>,
) -> Option<u64>
    ensures { result ≡ from_three kind cat test yes no }
{
    match kind {
        TKind::Literal { word } => Some(word),
        TKind::Conditional => match cat {
            Cat::Prvalue => branch(test, yes, no),
            Cat::Lvalue => None,
        },
        _ => None,
    }
}

// The number in the first bytes of a global, 0 where nothing is said of them.
fn number_in(kind: IntKind, cells: &Vec<InitCell>) -> u64
    ensures { result ≡ number_in kind (map cell_of cells.now.items) }
{
    match cells.first() {
        Some(cell) => word_in(kind, cell.value),
        None => 0,
    }
}

// Whether objects of the type are integers or enums that never change.
fn is_constant_type(ty: &Ty) -> bool
    ensures { result ≡ is_constant_type (typ_of ty.now) }
{
    match &ty.shape {
        Shape::Int(_) | Shape::Enum { .. } => ty.is_const && !ty.is_volatile,
        Shape::Void
        | Shape::Null
        | Shape::Ptr(_)
        | Shape::Ref(_)
        | Shape::Array(_, _)
        | Shape::Func(_)
        | Shape::Class(_)
        | Shape::Closure(_)
        | Shape::TxEx(_) => false,
    }
}

// The value of a `const` integer at file scope.
fn value_of_global(kind: IntKind, globals: &Vec<TGlobal>, global: u32) -> Option<u64>
    ensures { result ≡ value_of_global kind (slice_get (map global_of globals.now.items) global) }
{
    let global = globals.get(global as usize)?;
    if is_constant_type(&global.ty) && global.defined {
        Some(number_in(kind, &global.init))
    } else {
        None
    }
}

/// The constant that is read of a global, where the node reads one.
pub fn loaded(
    globals: &Vec<TGlobal>,
    kind: IntKind,
    volatile: bool,
    global: Option<u32>,
) -> Option<u64>
    ensures { result ≡ loaded (map global_of globals.now.items) kind volatile global }
{
    if volatile {
        return None;
    }
    let global = global?;
    value_of_global(kind, globals, global)
}
