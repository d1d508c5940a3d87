//! What a thread asks of a function.

ghost use Rattle.std.specs.Prelude.{◌≡◌, ◌≤◌, ◌&&◌, true, false, [], not, is_some, map, IfOk, MatchOption, None, Some, option_copied, option_map};
ghost use Rattle.cpp_tree.specs.cpp_types.Typ.{Signature, typ, func, typ_of, signature_of};
ghost use Rattle.cpp_tree.specs.cpp_types.Class.{InOrder, classes_of};
ghost use Rattle.cpp_tree.specs.cpp_types.Spelling.{function_spelling};
ghost use Rattle.cpp_tree.specs.Units.{func_of, program_of};
ghost use Rattle.src_mean.specs.Links.{func_at as func_found, word_kind as kind_of_word, is_marked as is_marked_typ, word_places, linked_func, is_plain_func, unsafe as without_safety};
ghost use Rattle.src_bind.specs.Defs.{def_of};
ghost use Rattle.src_bind.specs.Infos.{own_func, body_found, trees_in, word_of, info_of, is_of_type, type_found, says, has_body, HasFrame};

use crate::defs::Found;
use cpp_tree::below::{ClassRec, FnTy, IntKind, Shape, Ty, copy_function, frame, spell};
use cpp_tree::{FuncKind, Program, TFunc, TNodeId};
use std::alloc::{AllocError, Global};

/// Where a call stores a word in the frame that it opens, and how.
#[derive(Clone, Copy, Debug, PartialEq, Eq)]
pub struct WordAt {
    pub offset: u32,
    pub kind: IntKind,
    pub volatile: bool,
}

/// A function that is kept.
#[derive(Drop)]
pub struct FuncInfo {
    pub unit: u32,
    /// The size of its frame.
    pub size: u32,
    /// The offsets of the places in its frame.
    pub places: Vec<u32>,
    /// The words of a call.
    pub words: Vec<WordAt>,
    /// No exception leaves it.
    pub stops: bool,
    /// It has a safe body.
    pub safe: bool,
    pub body: TNodeId,
    /// It is no member.
    pub free: bool,
    /// The spelling of its type without `transaction_safe`.
    pub ty: Vec<u8>,
}

/// The function with these indexes.
pub fn func_at(program: &Program, unit: u32, place: u32) -> Option<&TFunc>
    ensures own { option_copied result ≡ own_func program.now unit place }
    ensures found { MatchOption result (func_found (program_of program.now) unit place ≡ None) (λ f. func_found (program_of program.now) unit place ≡ Some (func_of (trees_in program.now unit) f.now)) }
{
    match program.units.get(unit as usize) {
        Some(tree) => tree.funcs.get(place as usize),
        None => None,
    }
}

// The kind by which a word of this type is stored.
fn word_kind(ty: &Ty) -> IntKind
    ensures { result ≡ kind_of_word (typ_of ty.now) }
{
    match &ty.shape {
        Shape::Int(kind) => *kind,
        Shape::Enum { .. } => IntKind::Int,
        Shape::Void
        | Shape::Null
        | Shape::Ptr(_)
        | Shape::Ref(_)
        | Shape::Array(..)
        | Shape::Func(_)
        | Shape::Class(_)
        | Shape::Closure(_)
        | Shape::TxEx(_) => IntKind::ULong,
    }
}

// The words of a call: the first items of the frame.
fn words_of(
    alloc: Global,
    count: u32,
    offsets: &[u32],
    items: &[Ty],
) -> Result<Vec<WordAt>, AllocError>
    ensures { IfOk result (λ v. map word_of v.items ≡ word_places count offsets.now (map typ_of items.now)) }
{
    let mut words = Vec::new(alloc);
    for i in 0..count {
        let Some(offset) = offsets.get(i as usize) else {
            return Ok(words);
        };
        let Some(item) = items.get(i as usize) else {
            return Ok(words);
        };
        words.push(WordAt {
            offset: *offset,
            kind: word_kind(item),
            volatile: item.is_volatile,
        })?;
    }
    Ok(words)
}

// Whether it is a function, or a member function of no special sort.
fn is_plain(kind: FuncKind) -> bool
    ensures { result ≡ is_plain_func kind }
{
    match kind {
        FuncKind::Plain => true,
        FuncKind::Constructor | FuncKind::Destructor | FuncKind::ClosureCall => false,
    }
}

// A copy of a function's type without `transaction_safe`.
fn bare(alloc: Global, ty: &FnTy) -> Result<FnTy, AllocError>
    ensures { IfOk result (λ f. signature_of f ≡ without_safety (signature_of ty.now)) }
{
    let FnTy {
        params,
        ret,
        safe: _,
    } = copy_function(alloc, ty)?;
    Ok(FnTy {
        params,
        ret,
        safe: false,
    })
}

// A function's type as a type.
fn function_ty(alloc: Global, ty: FnTy) -> Result<Ty, AllocError>
    ensures { IfOk result (λ t. typ_of t ≡ typ (func (signature_of ty)) false false) }
{
    Ok(Ty {
        shape: Shape::Func(Box::new(alloc, ty)?),
        is_const: false,
        is_volatile: false,
    })
}

/// The spelling of a function's type without `transaction_safe`.
pub fn type_text(alloc: Global, ty: &FnTy, classes: &[ClassRec]) -> Result<Vec<u8>, AllocError>
    ensures { IfOk result (λ text. text.items ≡ function_spelling (classes_of classes.now) (without_safety (signature_of ty.now)) []) }
{
    let whole = function_ty(alloc, bare(alloc, ty)?)?;
    spell(alloc, &whole, classes)
}

// Whether the table says that the function has a safe body.
fn is_safe(table: &[Vec<bool>], unit: u32, place: u32) -> bool
    ensures { result ≡ says table.now unit place }
{
    match table.get(unit as usize) {
        Some(row) => match row.get(place as usize) {
            Some(safe) => *safe,
            None => false,
        },
        None => false,
    }
}

/// What a thread asks of a function that has a body.
pub fn info(
    alloc: Global,
    program: &Program,
    safe: &[Vec<bool>],
    def: &Found<'_>,
) -> Result<FuncInfo, AllocError>
    requires in_order { InOrder (classes_of program.now.classes.items) }
    requires there { has_body (program_of program.now) (def_of def.now) ≡ true }
    requires frame { HasFrame (program_of program.now) (def_of def.now) }
    ensures shown { IfOk result (λ i. Some (info_of program.now i) ≡ option_map (linked_func (says safe.now) (classes_of program.now.classes.items) (def_of def.now)) (func_found (program_of program.now) def.now.unit def.now.place)) }
    ensures body { IfOk result (λ i. Some i.body ≡ body_found program.now (def_of def.now)) }
    ensures types { (sig : Signature) → IfOk result (λ i. is_of_type (classes_of program.now.classes.items) sig i ≡ type_found (program_of program.now) sig (def_of def.now)) }
{
    let Some(func) = func_at(program, def.unit, def.place) else {
        unreachable!()
    };
    let Some(body) = func.body else {
        unreachable!()
    };
    let Ok(lies) = frame(alloc, &func.frame, &program.classes) else {
        return Err(AllocError);
    };
    let words = words_of(alloc, func.words, &lies.offsets, &func.frame)?;
    let ty = type_text(alloc, &func.rec.ty, &program.classes)?;
    Ok(FuncInfo {
        unit: def.unit,
        size: lies.size,
        places: lies.offsets,
        words,
        stops: func.rec.no_except,
        safe: is_safe(safe, def.unit, def.place),
        body,
        free: is_plain(func.kind) && func.class.is_none(),
        ty,
    })
}
