//! Shapes of indexes, and what an instruction makes of one.
ghost use Rattle.std.specs.Prelude.{◌≡◌, ◌<◌, length, IfOk, true, Some, is_some, slice_get};
ghost use Rattle.std.specs.Option.{option_map};
ghost use Rattle.tx_code.specs.Shapes as spec;
ghost use Rattle.tx_code.specs.Shapes.{less, grown, fewer, landed};
ghost use Rattle.tx_code.specs.Sound.{is_building, is_flying};
ghost use Rattle.tx_code.specs.Views.{image_view};
ghost use Rattle.tx_code.specs.Sound.{table_of};
ghost use Rattle.code_walk.specs.Bodies.{same_hand, same_shape};
ghost use Rattle.code_walk.specs.ShapeViews.{hand_of, shape_of, fits, change_of, changed, found, opened_in, Leads};
ghost use Rattle.code_walk.specs.Nests.{nest};
ghost use Rattle.code_walk.specs.declared.shapes.Change.TheVariants.{Returns};
ghost use Rattle.tx_code.specs.Meaning.{block_kinds};

use crate::names::{gives, type_gives};
use crate::nests::{Block, Nests};
use std::alloc::AllocError;
use tx_code::{Image, Instr, block_kind};

/// No exception is there, one is being built, or one is in flight.
#[derive(Clone, Copy)]
pub enum Hand {
    Empty,
    Builds,
    Flies,
}

/// How many operands there are, the number of the nest of open blocks, the number of entered handlers, and the exception.
#[derive(Clone, Copy)]
pub struct Shape {
    pub depth: usize,
    pub nest: usize,
    pub handlers: usize,
    pub hand: Hand,
}

/// What an instruction does to a shape.
#[derive(Clone, Copy)]
pub enum Change {
    Moves { takes: usize, gives: usize },
    Stays,
    Returns(u8),
    Begins(u8),
    Ends,
    BeginsSync,
    EndsSync,
    BuildsException,
    LeavesHandler,
}

impl Hand {
    /// No exception is there.
    pub fn is_free(self) -> bool
        ensures { result ≡ spec.is_free (hand_of self) }
    {
        match self {
            Hand::Empty => true,
            Hand::Builds | Hand::Flies => false,
        }
    }

    /// One is being built.
    pub fn is_building(self) -> bool
        ensures { result ≡ is_building (hand_of self) }
    {
        match self {
            Hand::Builds => true,
            Hand::Empty | Hand::Flies => false,
        }
    }

    /// One is in flight.
    pub fn is_flying(self) -> bool
        ensures { result ≡ is_flying (hand_of self) }
    {
        match self {
            Hand::Flies => true,
            Hand::Empty | Hand::Builds => false,
        }
    }

    fn is_same(self, other: Hand) -> bool
        ensures { result ≡ same_hand (hand_of self) (hand_of other) }
    {
        match (self, other) {
            (Hand::Empty, Hand::Empty) => true,
            (Hand::Empty, Hand::Builds) => false,
            (Hand::Empty, Hand::Flies) => false,
            (Hand::Builds, Hand::Empty) => false,
            (Hand::Builds, Hand::Builds) => true,
            (Hand::Builds, Hand::Flies) => false,
            (Hand::Flies, Hand::Empty) => false,
            (Hand::Flies, Hand::Builds) => false,
            (Hand::Flies, Hand::Flies) => true,
        }
    }
}

/// The shapes are the same.
pub fn is_same(nests: &Nests, a: Shape, b: Shape) -> bool
    requires a { fits nests.now a ≡ true }
    requires b { fits nests.now b ≡ true }
    ensures { result ≡ same_shape (shape_of nests.now a) (shape_of nests.now b) }
{
    a.depth == b.depth
        && nests.is_same(a.nest, b.nest)
        && a.handlers == b.handlers
        && a.hand.is_same(b.hand)
}

// What an instruction does.
fn what_does(image: &Image, instr: Instr) -> Change
    ensures { result ≡ change_of (table_of (image_view image.now)) instr }
{
    match instr {
        Instr::Push(_) => Change::Moves { takes: 0, gives: 1 },
        Instr::Dup => Change::Moves { takes: 1, gives: 2 },
        Instr::Pop => Change::Moves { takes: 1, gives: 0 },
        Instr::Swap => Change::Moves { takes: 2, gives: 2 },
        Instr::Over => Change::Moves { takes: 2, gives: 3 },
        Instr::FrameAddr(_) => Change::Moves { takes: 0, gives: 1 },
        Instr::GlobalAddr(_) => Change::Moves { takes: 0, gives: 1 },
        Instr::FuncAddr(_) => Change::Moves { takes: 0, gives: 1 },
        Instr::ClassAddr(_) => Change::Moves { takes: 0, gives: 1 },
        Instr::Load(_) => Change::Moves { takes: 1, gives: 1 },
        Instr::Store(_) => Change::Moves { takes: 2, gives: 0 },
        Instr::TLoad(_) => Change::Moves { takes: 1, gives: 1 },
        Instr::TStore(_) => Change::Moves { takes: 2, gives: 0 },
        Instr::VLoad(_) => Change::Moves { takes: 1, gives: 1 },
        Instr::VStore(_) => Change::Moves { takes: 2, gives: 0 },
        Instr::Bin { op: _, kind: _ } => Change::Moves { takes: 2, gives: 1 },
        Instr::Neg(_) => Change::Moves { takes: 1, gives: 1 },
        Instr::Conv { from: _, to: _ } => Change::Moves { takes: 1, gives: 1 },
        Instr::Jump(_) => Change::Stays,
        Instr::JumpZero(_) => Change::Moves { takes: 1, gives: 0 },
        Instr::Call { func, words } => Change::Moves {
            takes: words as usize,
            gives: gives(image, func),
        },
        Instr::TCall { func, words } => Change::Moves {
            takes: words as usize,
            gives: gives(image, func),
        },
        Instr::CallIndirect { ty, words } => Change::Moves {
            takes: words as usize + 1,
            gives: type_gives(image, ty),
        },
        Instr::TCallIndirect { ty, words } => Change::Moves {
            takes: words as usize + 1,
            gives: type_gives(image, ty),
        },
        Instr::Slot { class: _, slot: _ } => Change::Moves { takes: 1, gives: 1 },
        Instr::Ret(words) => Change::Returns(words),
        Instr::Begin(kind) => Change::Begins(kind),
        Instr::End => Change::Ends,
        Instr::BeginSync => Change::BeginsSync,
        Instr::EndSync => Change::EndsSync,
        Instr::Out => Change::Moves { takes: 1, gives: 1 },
        Instr::Inp => Change::Moves { takes: 0, gives: 1 },
        Instr::Spawn => Change::Moves { takes: 2, gives: 1 },
        Instr::Join => Change::Moves { takes: 1, gives: 0 },
        Instr::Abort => Change::Stays,
        Instr::NewException(_) => Change::BuildsException,
        Instr::PutException { offset: _, kind: _ } => Change::Moves { takes: 1, gives: 0 },
        Instr::Throw => Change::Stays,
        Instr::Rethrow => Change::Stays,
        Instr::GetException { offset: _, kind: _ } => Change::Moves { takes: 0, gives: 1 },
        Instr::EndHandler => Change::LeavesHandler,
        Instr::Resume => Change::Stays,
    }
}

// So many operands fewer, if there are as many, and then so many more.
#[tactic(auto, using(crate::proofs::Depths::less_some, crate::proofs::Depths::less_none, crate::proofs::Depths::more_is))]
fn moved_depth(depth: usize, takes: usize, gives: usize) -> Result<Option<usize>, AllocError>
    ensures { IfOk result (λ o. o ≡ grown gives (less takes depth)) }
{
    match depth.checked_sub(takes) {
        None => Ok(None),
        Some(rest) => match rest.checked_add(gives) {
            None => Err(AllocError),
            Some(depth) => Ok(Some(depth)),
        },
    }
}

// The shape with that many operands fewer and more.
fn moved(
    nests: &Nests,
    shape: Shape,
    takes: usize,
    gives: usize,
) -> Result<Option<Shape>, AllocError>
    requires { fits nests.now shape ≡ true }
    ensures { IfOk result (λ o. Leads nests.now nests.now o (spec.moves takes gives (shape_of nests.now shape))) }
{
    match moved_depth(shape.depth, takes, gives)? {
        None => Ok(None),
        Some(depth) => Ok(Some(Shape {
            depth,
            nest: shape.nest,
            handlers: shape.handlers,
            hand: shape.hand,
        })),
    }
}

// No block is open, no handler entered and no exception built or in flight.
fn is_at_rest(nests: &Nests, shape: Shape) -> bool
    requires { fits nests.now shape ≡ true }
    ensures { result ≡ spec.at_rest (shape_of nests.now shape) }
{
    nests.is_empty(shape.nest) && shape.handlers == 0 && shape.hand.is_free()
}

// The shape without its innermost block, where that is of the right sort.
fn closed(nests: &Nests, is_right: bool, shape: Shape) -> Shape
    requires { fits nests.now shape ≡ true }
    ensures is { Some (shape_of nests.now result) ≡ spec.closed is_right (shape_of nests.now shape) }
    ensures fit { fits nests.now result ≡ true }
{
    if is_right {
        Shape {
            depth: shape.depth,
            nest: nests.outer(shape.nest),
            handlers: shape.handlers,
            hand: shape.hand,
        }
    } else {
        shape
    }
}

// The shape within one more block.
fn within(nests: &mut Nests, block: Block, shape: Shape) -> Result<Option<Shape>, AllocError>
    requires { fits nests.old shape ≡ true }
    ensures { IfOk result (λ o. Leads nests.old nests.new o (Some (opened_in block (shape_of nests.old shape)))) }
{
    let nest = nests.enter(block, shape.nest)?;
    Ok(Some(Shape {
        depth: shape.depth,
        nest,
        handlers: shape.handlers,
        hand: shape.hand,
    }))
}

// The shape behind `begin`; a kind that is none opens no block.
fn begun(nests: &mut Nests, kind: u8, shape: Shape) -> Result<Option<Shape>, AllocError>
    requires { fits nests.old shape ≡ true }
    ensures { IfOk result (λ o. Leads nests.old nests.new o (spec.opened (shape_of nests.old shape) (slice_get block_kinds kind))) }
{
    match block_kind(kind) {
        None => Ok(Some(shape)),
        Some(kind) => within(nests, Block::Atomic(kind), shape),
    }
}

// The shape behind `ret`.
fn returned(nests: &Nests, own: usize, words: u8, shape: Shape) -> Result<Option<Shape>, AllocError>
    requires { fits nests.now shape ≡ true }
    ensures { IfOk result (λ o. Leads nests.now nests.now o (changed own (Returns words) (shape_of nests.now shape))) }
{
    if words as usize == own && is_at_rest(nests, shape) {
        moved(nests, shape, words as usize, 0)
    } else {
        Ok(None)
    }
}

// The shape behind a change, if it finds its operands.
fn changed(
    nests: &mut Nests,
    own: usize,
    change: Change,
    shape: Shape,
) -> Result<Option<Shape>, AllocError>
    requires { fits nests.old shape ≡ true }
    ensures { IfOk result (λ o. Leads nests.old nests.new o (changed own change (shape_of nests.old shape))) }
{
    match change {
        Change::Moves { takes, gives } => moved(nests, shape, takes, gives),
        Change::Stays => Ok(Some(shape)),
        Change::Returns(words) => returned(nests, own, words, shape),
        Change::Begins(kind) => begun(nests, kind, shape),
        Change::Ends => Ok(Some(closed(nests, nests.in_atomic(shape.nest), shape))),
        Change::BeginsSync => within(nests, Block::Sync, shape),
        Change::EndsSync => Ok(Some(closed(nests, nests.in_sync(shape.nest), shape))),
        Change::BuildsException => Ok(Some(Shape {
            depth: shape.depth,
            nest: shape.nest,
            handlers: shape.handlers,
            hand: Hand::Builds,
        })),
        Change::LeavesHandler => Ok(Some(Shape {
            depth: shape.depth,
            nest: shape.nest,
            handlers: shape.handlers.saturating_sub(1),
            hand: shape.hand,
        })),
    }
}

/// The shape behind an instruction of a function that hands back so many words, if it finds its operands. Want of
/// memory also stands for more operands than a machine of 64 bits has.
pub fn outgoing(
    image: &Image,
    own: usize,
    nests: &mut Nests,
    instr: Instr,
    shape: Shape,
) -> Result<Option<Shape>, AllocError>
    requires { fits nests.old shape ≡ true }
    ensures { IfOk result (λ o. Leads nests.old nests.new o (spec.outgoing (table_of (image_view image.now)) own instr (shape_of nests.old shape))) }
{
    changed(nests, own, what_does(image, instr), shape)
}

// The operands of a change are there.
fn has_operands(nests: &Nests, own: usize, change: Change, shape: Shape) -> bool
    requires { fits nests.now shape ≡ true }
    ensures { result ≡ found own change (shape_of nests.now shape) }
{
    match change {
        Change::Moves { takes, gives: _ } => takes <= shape.depth,
        Change::Returns(words) => {
            words as usize == own && is_at_rest(nests, shape) && words as usize <= shape.depth
        }
        _ => true,
    }
}

/// An instruction finds its operands.
#[tactic(auto, using(crate::proofs::Depths::finds_is))]
pub fn finds(image: &Image, own: usize, nests: &Nests, instr: Instr, shape: Shape) -> bool
    requires { fits nests.now shape ≡ true }
    ensures { result ≡ is_some (spec.outgoing (table_of (image_view image.now)) own instr (shape_of nests.now shape)) }
{
    has_operands(nests, own, what_does(image, instr), shape)
}

/// The shape at the target of a row; want of memory also stands for more handlers than a machine of 64 bits has.
pub fn landed(nests: &Nests, what: u8, depth: u32, shape: Shape) -> Result<Shape, AllocError>
    requires { fits nests.now shape ≡ true }
    ensures is { IfOk result (λ s. shape_of nests.now s ≡ landed what depth (nest nests.now shape.nest) shape.handlers) }
    ensures fit { IfOk result (λ s. fits nests.now s ≡ true) }
{
    let depth = depth as usize;
    if what == 0 {
        return Ok(Shape {
            depth,
            nest: shape.nest,
            handlers: shape.handlers,
            hand: Hand::Flies,
        });
    }
    if what >= 3 {
        return Ok(Shape {
            depth,
            nest: nests.outer(shape.nest),
            handlers: shape.handlers,
            hand: Hand::Flies,
        });
    }
    match shape.handlers.checked_add(1) {
        None => Err(AllocError),
        Some(handlers) => Ok(Shape {
            depth,
            nest: shape.nest,
            handlers,
            hand: Hand::Empty,
        }),
    }
}
