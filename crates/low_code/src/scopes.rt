//! What lies around an instruction.

ghost use Rattle.std.specs.Prelude.{◌≡◌};
ghost use Rattle.low_code.specs.Scopes.{same_owner as is_one_owner, rows_within as innermost_rows, edge_within as innermost_edge, opens_atomic as opens_atomic_block, is_full as is_full_scope, is_inner as is_inner_scope, block_of as block_led_from, led_to as scope_led_to};

use cpp_tree::TNodeId;

/// Whose objects wait.
#[derive(Clone, Copy, Debug, PartialEq, Eq)]
pub enum Owner {
    /// A block's.
    Block,
    /// The argument objects of a call.
    Call,
    /// Those of an object that is built part by part.
    Parts,
    /// The temporaries of a full-expression.
    Full,
}

/// Where the address of a waiting object comes from.
#[derive(Clone, Copy, Debug, PartialEq, Eq)]
pub enum Address {
    /// The frame, at this offset.
    Frame(u32),
    /// The word on top where it waits, which stays there, plus this offset.
    Word(u32),
    /// What this node gives when the object is destroyed.
    Node(TNodeId),
}

/// What a scope is.
#[derive(Clone, Copy, Debug, PartialEq, Eq)]
pub enum ScopeKind {
    /// The function.
    Function,
    /// Where waiting objects of this owner begin.
    Mark(Owner),
    /// An object waits for its destruction: the `Destroy`s of a node from a kid on. It is destroyed on each way out of
    /// its owner, or, if not `always`, only when an exception leaves it.
    Waits {
        owner: Owner,
        always: bool,
        address: Address,
        node: TNodeId,
        first: u32,
    },
    /// The elements of an array that are built. The address of the next one and how many are left lie on top, in a copy
    /// with the address of the source between them.
    Each {
        node: TNodeId,
        copies: bool,
    },
    Loop,
    Switch,
    /// The body of a `try`.
    Try,
    /// An entered handler.
    Handler,
    /// A block, by the number of its edge: 3, 4 and 5 an atomic block that is noexcept, commit or cancel, 6 a synchronized
    /// block.
    Block(u8),
    /// Not a scope in which code runs: the way out of the block `block`, seen from a handler in it. With this handler
    /// left, it goes on at the way out `next`; `outer` is that of the block around, 0 if there is none.
    Behind {
        block: u32,
        next: u32,
        outer: u32,
    },
}

/// A scope.
#[derive(Clone, Copy, Debug, PartialEq, Eq)]
pub struct Scope {
    pub kind: ScopeKind,
    /// The scope around it, with a lower number.
    pub parent: u32,
    /// How many operands its way out finds.
    pub depth: u32,
    /// The innermost scope, from this one on outward, that has unwind rows.
    pub rows: u32,
    /// The way out of the innermost open block; 0 where none is open.
    pub edge: u32,
    /// Whether an atomic block is open.
    pub atomic: bool,
    /// Whether code in it can be reached; else it has no way out.
    pub live: bool,
    /// Where its objects have their place in the source.
    pub at: cpp_tree::below::At,
}

/// Whether two owners are one.
pub fn same_owner(owner: Owner, other: Owner) -> bool
    ensures { result ≡ is_one_owner owner other }
{
    match (owner, other) {
        (Owner::Block, Owner::Block) => true,
        (Owner::Call, Owner::Call) => true,
        (Owner::Parts, Owner::Parts) => true,
        (Owner::Full, Owner::Full) => true,
        _ => false,
    }
}

// The innermost scope with unwind rows, from the scope with a number on, where `around` is that of its parent.
pub(crate) fn rows_within(kind: ScopeKind, number: u32, around: u32) -> u32
    ensures { result ≡ innermost_rows kind number around }
{
    match kind {
        ScopeKind::Function | ScopeKind::Mark(_) | ScopeKind::Loop | ScopeKind::Switch => around,
        ScopeKind::Waits { .. }
        | ScopeKind::Each { .. }
        | ScopeKind::Try
        | ScopeKind::Handler
        | ScopeKind::Block(_)
        | ScopeKind::Behind { .. } => number,
    }
}

// The way out of the innermost open block, likewise.
pub(crate) fn edge_within(kind: ScopeKind, number: u32, around: u32) -> u32
    ensures { result ≡ innermost_edge kind number around }
{
    match kind {
        ScopeKind::Block(_) => number,
        _ => around,
    }
}

// Whether it opens an atomic block.
pub(crate) fn opens_atomic(kind: ScopeKind) -> bool
    ensures { result ≡ opens_atomic_block kind }
{
    match kind {
        ScopeKind::Block(what) => what < 6,
        _ => false,
    }
}

// Whether temporaries of a full-expression are added right in such a scope.
pub(crate) fn is_full(kind: ScopeKind) -> bool
    ensures { result ≡ is_full_scope kind }
{
    match kind {
        ScopeKind::Mark(owner) => same_owner(owner, Owner::Full),
        ScopeKind::Waits { owner, .. } => same_owner(owner, Owner::Full),
        _ => false,
    }
}

// Whether such a scope stays inside those of a full-expression.
pub(crate) fn is_inner(kind: ScopeKind) -> bool
    ensures { result ≡ is_inner_scope kind }
{
    match kind {
        ScopeKind::Mark(owner) => same_owner(owner, Owner::Call) || same_owner(owner, Owner::Parts),
        ScopeKind::Waits { .. } | ScopeKind::Each { .. } => true,
        _ => false,
    }
}

// The block of a way out: its own, or that which it is behind.
pub(crate) fn block_of(kind: ScopeKind, number: u32) -> u32
    ensures { result ≡ block_led_from kind number }
{
    match kind {
        ScopeKind::Behind { block, .. } => block,
        _ => number,
    }
}

// The scope with `outer` as the way out of the block around.
pub(crate) fn led_to(outer: u32, kind: ScopeKind) -> ScopeKind
    ensures { result ≡ scope_led_to outer kind }
{
    match kind {
        ScopeKind::Behind { block, next, .. } => ScopeKind::Behind { block, next, outer },
        _ => kind,
    }
}
