//! Nests of open blocks, numbered in a table, so that indexes of one nest share it.
ghost use Rattle.std.specs.Prelude.{◌≡◌, ◌<◌, ◌++◌, [], ◌∷◌, not, length, MatchOption, IfOk};
ghost use Rattle.tx_events.specs.Thread.{in_atomic, in_sync, in_kind, no_atomic, rest_of, same_kind};
ghost use Rattle.tx_events.specs.Thread as thread;
ghost use Rattle.code_walk.specs.Nests.{open_of, nest, IsLink};
ghost use Rattle.code_walk.specs.Bodies.{same_open, same_opens};

use std::alloc::{AllocError, Global};
use std::marker::Model;
use tx_events::BlockKind;

/// An open block (the TS, [stmt.tx] and [stmt.sync]).
#[derive(Clone, Copy)]
pub enum Block {
    Atomic(BlockKind),
    Sync,
}

/// A nest's innermost block, the nest around it, and whether one of its blocks is atomic.
#[derive(Clone, Copy)]
pub struct Link {
    pub block: Block,
    pub outer: usize,
    pub atomic: bool,
}

/// The table: nest 0 is empty, and nest n + 1 has the link n.
#[derive(Drop)]
pub struct Nests {
    links: Vec<Link>,
}

impl Model for Nests {
    ghost use Rattle.std.specs.Prelude.{List};
    ghost use Rattle.tx_events.specs.Thread.{Open};
    ghost use Rattle.code_walk.specs.Nests.{table_of_links, AreLinks};

    ghost Value = { List (List Open) };

    ghost view = { λ nests. table_of_links nests.links.items };

    ghost invariant = { λ nests. AreLinks nests.links.items };
}

// Kinds are the same.
fn is_same_kind(a: BlockKind, b: BlockKind) -> bool
    ensures { result ≡ same_kind a b }
{
    match (a, b) {
        (BlockKind::NoExcept, BlockKind::NoExcept) => true,
        (BlockKind::NoExcept, BlockKind::Commit) => false,
        (BlockKind::NoExcept, BlockKind::Cancel) => false,
        (BlockKind::Commit, BlockKind::NoExcept) => false,
        (BlockKind::Commit, BlockKind::Commit) => true,
        (BlockKind::Commit, BlockKind::Cancel) => false,
        (BlockKind::Cancel, BlockKind::NoExcept) => false,
        (BlockKind::Cancel, BlockKind::Commit) => false,
        (BlockKind::Cancel, BlockKind::Cancel) => true,
    }
}

// Blocks are of the same sort.
fn is_same_block(a: Block, b: Block) -> bool
    ensures { result ≡ same_open (open_of a) (open_of b) }
{
    match (a, b) {
        (Block::Atomic(a), Block::Atomic(b)) => is_same_kind(a, b),
        (Block::Atomic(_), Block::Sync) => false,
        (Block::Sync, Block::Atomic(_)) => false,
        (Block::Sync, Block::Sync) => true,
    }
}

impl Nests {
    /// The table of the empty nest alone.
    pub fn new(alloc: Global) -> Nests
        ensures { result ≡ [] ∷ [] }
    {
        Nests {
            links: Vec::new(alloc),
        }
    }

    // The link of a nest that is not empty.
    fn link(&self, number: usize) -> Option<Link>
        requires { number < length self.now }
        ensures { MatchOption result (nest self.now number ≡ []) (λ l. IsLink self.now number l) }
    {
        match number.checked_sub(1) {
            None => None,
            Some(before) => self.links.get(before).copied(),
        }
    }

    /// No block is open.
    pub fn is_empty(&self, number: usize) -> bool
        requires { number < length self.now }
        ensures { result ≡ thread.is_empty (nest self.now number) }
    {
        self.link(number).is_none()
    }

    /// The innermost block is atomic.
    pub fn in_atomic(&self, number: usize) -> bool
        requires { number < length self.now }
        ensures { result ≡ in_atomic (nest self.now number) }
    {
        match self.link(number) {
            None => false,
            Some(link) => match link.block {
                Block::Atomic(_) => true,
                Block::Sync => false,
            },
        }
    }

    /// The innermost block is atomic and of this kind.
    pub fn in_kind(&self, kind: BlockKind, number: usize) -> bool
        requires { number < length self.now }
        ensures { result ≡ in_kind kind (nest self.now number) }
    {
        match self.link(number) {
            None => false,
            Some(link) => match link.block {
                Block::Atomic(other) => is_same_kind(kind, other),
                Block::Sync => false,
            },
        }
    }

    /// The innermost block is synchronized.
    pub fn in_sync(&self, number: usize) -> bool
        requires { number < length self.now }
        ensures { result ≡ in_sync (nest self.now number) }
    {
        match self.link(number) {
            None => false,
            Some(link) => match link.block {
                Block::Atomic(_) => false,
                Block::Sync => true,
            },
        }
    }

    /// A block of the nest is atomic.
    pub fn has_atomic(&self, number: usize) -> bool
        requires { number < length self.now }
        ensures { result ≡ not (no_atomic (nest self.now number)) }
    {
        match self.link(number) {
            None => false,
            Some(link) => link.atomic,
        }
    }

    /// The nest without its innermost block.
    pub fn outer(&self, number: usize) -> usize
        requires { number < length self.now }
        ensures is { nest self.now result ≡ rest_of (nest self.now number) }
        ensures within { result < length self.now }
    {
        match self.link(number) {
            None => number,
            Some(link) => link.outer,
        }
    }

    /// The nests are the same. Nests of one number are so at once; those of two are followed outwards.
    pub fn is_same(&self, one: usize, other: usize) -> bool
        requires one { one < length self.now }
        requires other { other < length self.now }
        ensures { result ≡ same_opens (nest self.now one) (nest self.now other) }
    {
        let mut a = one;
        let mut b = other;
        'outwards: while a != b {
            match (self.link(a), self.link(b)) {
                (Some(x), Some(y)) => {
                    if !is_same_block(x.block, y.block) {
                        return false;
                    }
                    a = x.outer;
                    b = y.outer;
                }
                (None, None) => return true,
                (None, Some(_)) => return false,
                (Some(_), None) => return false,
            }
        }
        true
    }

    // A nest of a block within another one has an atomic block.
    fn is_atomic(&self, block: Block, outer: usize) -> bool
        requires { outer < length self.now }
        ensures { result ≡ not (no_atomic (open_of block ∷ nest self.now outer)) }
    {
        match block {
            Block::Atomic(_) => true,
            Block::Sync => self.has_atomic(outer),
        }
    }

    /// One more nest: a block within another nest.
    pub fn enter(&mut self, block: Block, outer: usize) -> Result<usize, AllocError>
        requires { outer < length self.old }
        ensures { IfOk result (λ number. (number ≡ length self.old) × (self.new ≡ self.old ++ (open_of block ∷ nest self.old outer) ∷ [])) }
    {
        let atomic = self.is_atomic(block, outer);
        self.links.push(Link {
            block,
            outer,
            atomic,
        })?;
        Ok(self.links.len())
    }
}
