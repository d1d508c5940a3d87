//! Whether parts of frames are the same: trees, blocks, owners and what is called.

ghost use Rattle.std.specs.Prelude.{ℕ, ◌≡◌, ◌↔◌, IsTrue};
ghost use Rattle.cpp_tree.specs.cpp_types.Typ.{Typ};
ghost use Rattle.cpp_tree.specs.declared.program.Program.{Program};
ghost use Rattle.src_frames.specs.Shown.{open_shown};
ghost use Rattle.symbolic_terms.specs.Meanings.{Meaning, Agrees};
ghost use Rattle.symbolic_terms.specs.Shown.{way_of, exit_of, spot_of, waiting_of, all_waiting, callee_of};

use cpp_tree::below::{BinOp, End, IntKind};
use src_frames::frames::{Change, LoopParts, Open, Owner};
use src_frames::trees::{KidsAt, TreeAt};
use symbolic_terms::comparison::{equal_thrown, equal_words};
use symbolic_terms::frames::{Callee, Exit, Spot, Waiting, Waitings, Way};
use symbolic_terms::words::Words;

/// Whether two places of trees are one.
pub fn equal_trees(left: TreeAt, right: TreeAt) -> bool
    ensures { IsTrue result ↔ (left ≡ right) }
{
    match (left, right) {
        (
            TreeAt::Node { unit, id },
            TreeAt::Node {
                unit: other_unit,
                id: other_id,
            },
        ) => unit == other_unit && id.0 == other_id.0,
        (TreeAt::Word(word), TreeAt::Word(other_word)) => word == other_word,
        _ => false,
    }
}

/// Whether two places of kids are one.
pub fn equal_kids(left: KidsAt, right: KidsAt) -> bool
    ensures { IsTrue result ↔ (left ≡ right) }
{
    equal_trees(left.of, right.of) && left.from == right.from
}

/// Whether two owners are one.
pub fn equal_owners(left: Owner, right: Owner) -> bool
    ensures { IsTrue result ↔ (left ≡ right) }
{
    left == right
}

/// Whether two operators at a kind are one.
pub fn equal_operators(op: BinOp, kind: IntKind, other_op: BinOp, other_kind: IntKind) -> bool
    ensures { IsTrue result ↔ ((op ≡ other_op) × (kind ≡ other_kind)) }
{
    op == other_op && kind == other_kind
}

// Whether two updates work at one kind, with the same mark, and give the same value.
fn equal_modes(left: Change, right: Change) -> bool
    ensures { IsTrue result ↔ ((left.operation ≡ right.operation) × ((left.volatile ≡ right.volatile) × (left.old ≡ right.old))) }
{
    left.operation == right.operation && left.volatile == right.volatile && left.old == right.old
}

/// Whether two updates are one.
#[tactic(auto, using(crate::proofs::Changes::same_change))]
pub fn equal_changes(left: Change, right: Change) -> bool
    ensures { IsTrue result ↔ (left ≡ right) }
{
    equal_operators(left.op, left.stored, right.op, right.stored) && equal_modes(left, right)
}

/// Whether two blocks are one.
pub fn equal_opens(left: Open, right: Open) -> bool
    ensures { IsTrue result ↔ (open_shown left ≡ open_shown right) }
{
    match (left, right) {
        (Open::Atomic(kind), Open::Atomic(other_kind)) => kind == other_kind,
        (Open::Sync, Open::Sync) => true,
        _ => false,
    }
}

/// Whether the parts of two loops are the same.
pub fn equal_parts(left: LoopParts, right: LoopParts) -> bool
    ensures { IsTrue result ↔ (left ≡ right) }
{
    equal_trees(left.test, right.test)
        && equal_trees(left.body, right.body)
        && equal_trees(left.step, right.step)
}

/// Whether two ends are one.
pub fn equal_ends(left: End, right: End) -> bool
    ensures { IsTrue result ↔ (left ≡ right) }
{
    left == right
}

/// Whether two are the same: how a node is run.
pub fn equal_ways(words: &Words<'_>, left: &Way, right: &Way) -> bool
    ensures shows { IsTrue result → (types : ℕ → Typ) (m : Meaning) → Agrees types m words.now → way_of types m left.now ≡ way_of types m right.now }
{
    match (left, right) {
        (Way::Value, Way::Value) => true,
        (
            Way::Into { target, source },
            Way::Into {
                target: other_target,
                source: other_source,
            },
        ) => equal_words(words, *target, *other_target)
            && equal_words(words, *source, *other_source),
        _ => false,
    }
}

/// Whether two are the same: what goes outward.
pub fn equal_exits(words: &Words<'_>, left: &Exit, right: &Exit) -> bool
    ensures shows { IsTrue result → (types : ℕ → Typ) (m : Meaning) → Agrees types m words.now → exit_of types m left.now ≡ exit_of types m right.now }
{
    match (left, right) {
        (Exit::Throws(exception), Exit::Throws(other_exception)) => equal_thrown(
            words,
            *exception,
            *other_exception,
        ),
        (Exit::Returns(word), Exit::Returns(other_word)) => equal_words(words, *word, *other_word),
        (Exit::Breaks, Exit::Breaks) => true,
        (Exit::Continues, Exit::Continues) => true,
        _ => false,
    }
}

/// Whether two are the same: what gives the address of a waiting object.
pub fn equal_spots(words: &Words<'_>, left: &Spot, right: &Spot) -> bool
    ensures shows { IsTrue result → (types : ℕ → Typ) (m : Meaning) (p : Program) → Agrees types m words.now → spot_of types m p left.now ≡ spot_of types m p right.now }
{
    match (left, right) {
        (Spot::Word(word), Spot::Word(other_word)) => equal_words(words, *word, *other_word),
        (Spot::Tree(tree), Spot::Tree(other_tree)) => equal_trees(*tree, *other_tree),
        _ => false,
    }
}

/// Whether two are the same: what is called.
pub fn equal_callees(words: &Words<'_>, left: &Callee, right: &Callee) -> bool
    ensures shows { IsTrue result → (types : ℕ → Typ) (m : Meaning) (p : Program) → Agrees types m words.now → callee_of types m p left.now ≡ callee_of types m p right.now }
{
    match (left, right) {
        (Callee::Known(number), Callee::Known(other_number)) => *number == *other_number,
        (
            Callee::Virtual {
                class,
                slot,
                address,
            },
            Callee::Virtual {
                class: other_class,
                slot: other_slot,
                address: other_address,
            },
        ) => *class == *other_class
            && *slot == *other_slot
            && equal_words(words, *address, *other_address),
        (
            Callee::Pointer { address, pointer },
            Callee::Pointer {
                address: other_address,
                pointer: other_pointer,
            },
        ) => equal_words(words, *address, *other_address) && equal_trees(*pointer, *other_pointer),
        (Callee::Builtin(which), Callee::Builtin(other_which)) => *which == *other_which,
        _ => false,
    }
}

/// Whether two are the same: objects that wait.
pub fn equal_waiting(words: &Words<'_>, left: &Waiting, right: &Waiting) -> bool
    ensures shows { IsTrue result → (types : ℕ → Typ) (m : Meaning) (p : Program) → Agrees types m words.now → waiting_of types m p left.now ≡ waiting_of types m p right.now }
{
    equal_spots(words, &left.address, &right.address) && equal_kids(left.destroys, right.destroys)
}

/// Whether two are the same: lists of objects that wait.
pub fn equal_waitings(words: &Words<'_>, left: &Waitings<'_>, right: &Waitings<'_>) -> bool
    ensures shows { IsTrue result → (types : ℕ → Typ) (m : Meaning) (p : Program) → Agrees types m words.now → all_waiting types m p left.now ≡ all_waiting types m p right.now }
{
    match (left, right) {
        (Waitings::Empty, Waitings::Empty) => true,
        (Waitings::More(waiting, rest), Waitings::More(other_waiting, others)) => {
            equal_waiting(words, waiting, other_waiting) && equal_waitings(words, rest, others)
        }
        _ => false,
    }
}
