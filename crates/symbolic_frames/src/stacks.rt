//! What is done with lists of frames and of objects that wait.

ghost use Rattle.std.specs.Prelude.{ℕ, ◌≡◌, true, IfOk, MatchOption, None, Some};
ghost use Rattle.cpp_tree.specs.cpp_types.Typ.{Typ};
ghost use Rattle.cpp_tree.specs.declared.program.Program.{Program};
ghost use Rattle.src_mean.specs.Linked.{Func};
ghost use Rattle.src_mean.specs.Frames.{same_owner as is_same_owner};
ghost use Rattle.src_frames.specs.Shown.{owner_shown};
ghost use Rattle.src_frames.specs.Trees.{kids_shown};
ghost use Rattle.symbolic_source.specs.Frames.{spot_frame as frame_of_spot, puts, puts_some, waiting as waits_with, handled as exception_handled, blocks_in as blocks_among};
ghost use Rattle.symbolic_terms.specs.Meanings.{Meaning, thrown_of};
ghost use Rattle.symbolic_terms.specs.Shown.{spot_of, waiting_of, all_waiting, object_of, frame_of, frames_of, opens_of, program_in};
ghost use Rattle.symbolic_frames.specs.Sorts.{is_scope_of, is_scope_in, waits_too, handling_at, handling_in, open_at, open_in as open_among};

use bumpalo::Bump;
use src_bind::Bound;
use src_frames::frames::{Open, Owner};
use src_frames::trees::is_past;
use symbolic_terms::arena::keep;
use symbolic_terms::frames::{
    BlockFrame, ExceptionFrame, Frame, Frames, ObjectFrame, Spot, Waiting, Waitings, Way,
};
use symbolic_terms::ids::ExceptionId;
use symbolic_terms::places::Opens;
use symbolic_terms::refusal::Refusal;

/// The frame in which the address of a waiting object is found.
pub fn spot_frame<'a>(spot: Spot) -> Frame<'a>
    ensures { (types : ℕ → Typ) (m : Meaning) (p : Program) (f : Func) → frame_of types m p f result ≡ frame_of_spot (spot_of types m p spot) }
{
    match spot {
        Spot::Word(word) => Frame::Address(word),
        Spot::Tree(tree) => Frame::Run(Way::Value, tree),
    }
}

/// Whether two owners are one.
pub fn same_owner(owner: Owner, other: Owner) -> bool
    ensures { result ≡ is_same_owner (owner_shown owner) (owner_shown other) }
{
    match (owner, other) {
        (Owner::Block, Owner::Block) => true,
        (Owner::Call, Owner::Call) => true,
        (Owner::Pieces, Owner::Pieces) => true,
        _ => false,
    }
}

// Whether it is a scope of that owner.
fn is_scope(owner: Owner, frame: Frame<'_>) -> bool
    ensures { result ≡ is_scope_of owner frame.entry }
{
    match frame {
        Frame::Object(inner) => is_scope_object(owner, inner),
        _ => false,
    }
}

fn is_scope_object(owner: Owner, frame: ObjectFrame<'_>) -> bool
    ensures { result ≡ is_scope_in owner frame.entry }
{
    match frame {
        ObjectFrame::Scope { owner: other, .. } => same_owner(owner, other),
        _ => false,
    }
}

// A scope with more objects.
#[tactic(auto, using(crate::proofs::Scopes::no_other_scope))]
fn with_objects<'a>(
    arena: &'a Bump,
    owner: Owner,
    waiting: Waiting,
    frame: Frame<'a>,
) -> Result<Frame<'a>, Refusal>
    requires { is_scope_of owner frame ≡ true }
    ensures { IfOk result (λ g. (types : ℕ → Typ) (m : Meaning) (p : Program) (f : Func) → frame_of types m p f g ≡ waits_too (waiting_of types m p waiting) (frame_of types m p f frame.entry)) }
{
    match frame {
        Frame::Object(inner) => { Ok(Frame::Object(with_object(arena, owner, waiting, inner)?)) }
        other => Ok(other),
    }
}

#[tactic(auto, using(crate::proofs::Scopes::no_object_scope))]
fn with_object<'a>(
    arena: &'a Bump,
    owner: Owner,
    waiting: Waiting,
    frame: ObjectFrame<'a>,
) -> Result<ObjectFrame<'a>, Refusal>
    requires { is_scope_in owner frame ≡ true }
    ensures { IfOk result (λ g. (types : ℕ → Typ) (m : Meaning) (p : Program) → object_of types m p g ≡ waits_too (waiting_of types m p waiting) (object_of types m p frame.entry)) }
{
    match frame {
        ObjectFrame::Scope {
            owner: of,
            always,
            waiting: others,
        } => {
            let waiting = Waitings::More(waiting, keep(arena, others)?);
            Ok(ObjectFrame::Scope {
                owner: of,
                always,
                waiting,
            })
        }
        other => Ok(other),
    }
}

/// Puts objects that wait into the nearest scope of that owner; none where the function has no such scope.
#[tactic(auto, using(crate::proofs::Scopes::put_here, crate::proofs::Scopes::put_below, crate::proofs::Scopes::put_nowhere))]
pub fn put_waiting<'a>(
    arena: &'a Bump,
    owner: Owner,
    waiting: Waiting,
    frames: Frames<'a>,
) -> Result<Option<Frames<'a>>, Refusal>
    ensures { IfOk result (λ o. (types : ℕ → Typ) (m : Meaning) (p : Program) (f : Func) → MatchOption o (puts (owner_shown owner) (waiting_of types m p waiting) (frames_of types m p f frames.entry) ≡ None) (λ k. puts (owner_shown owner) (waiting_of types m p waiting) (frames_of types m p f frames.entry) ≡ Some (frames_of types m p f k))) }
{
    match frames {
        Frames::Empty => Ok(None),
        Frames::More(frame, rest) => {
            if is_scope(owner, frame) {
                let scope = with_objects(arena, owner, waiting, frame)?;
                return Ok(Some(Frames::More(scope, rest)));
            }
            match put_waiting(arena, owner, waiting, *rest)? {
                Some(others) => Ok(Some(Frames::More(frame, keep(arena, others)?))),
                None => Ok(None),
            }
        }
    }
}

/// Puts objects that wait into the nearest scope of that owner, where there is something to destroy.
pub fn put_some<'a>(
    arena: &'a Bump,
    bound: &Bound<'_>,
    owner: Owner,
    waiting: Waiting,
    frames: Frames<'a>,
) -> Result<Option<Frames<'a>>, Refusal>
    ensures { IfOk result (λ o. (types : ℕ → Typ) (m : Meaning) (f : Func) → MatchOption o (puts_some (owner_shown owner) (spot_of types m (program_in bound.now) waiting.address) (kids_shown (program_in bound.now) waiting.destroys) (frames_of types m (program_in bound.now) f frames.entry) ≡ None) (λ k. puts_some (owner_shown owner) (spot_of types m (program_in bound.now) waiting.address) (kids_shown (program_in bound.now) waiting.destroys) (frames_of types m (program_in bound.now) f frames.entry) ≡ Some (frames_of types m (program_in bound.now) f k))) }
{
    if is_past(bound, waiting.destroys) {
        return Ok(Some(frames));
    }
    put_waiting(arena, owner, waiting, frames)
}

/// The objects that wait, with these too where there is something to destroy.
pub fn with_waiting<'a>(
    arena: &'a Bump,
    bound: &Bound<'_>,
    waiting: Waiting,
    others: Waitings<'a>,
) -> Result<Waitings<'a>, Refusal>
    ensures { IfOk result (λ c. (types : ℕ → Typ) (m : Meaning) → all_waiting types m (program_in bound.now) c ≡ waits_with (spot_of types m (program_in bound.now) waiting.address) (kids_shown (program_in bound.now) waiting.destroys) (all_waiting types m (program_in bound.now) others.entry)) }
{
    if is_past(bound, waiting.destroys) {
        return Ok(others);
    }
    Ok(Waitings::More(waiting, keep(arena, others)?))
}

// The exception of the handler that is entered in a frame.
fn handling(frame: Frame<'_>) -> Option<ExceptionId>
    ensures { result ≡ handling_at frame.entry }
{
    match frame {
        Frame::Exception(inner) => handling_exception(inner),
        _ => None,
    }
}

fn handling_exception(frame: ExceptionFrame) -> Option<ExceptionId>
    ensures { result ≡ handling_in frame }
{
    match frame {
        ExceptionFrame::Handling(exception) => Some(exception),
        _ => None,
    }
}

/// The exception of the innermost entered handler of this function.
#[tactic(auto, using(crate::proofs::Below::handled_here, crate::proofs::Below::handled_below))]
pub fn handled(frames: Frames<'_>) -> Option<ExceptionId>
    ensures { MatchOption result ((types : ℕ → Typ) (m : Meaning) (p : Program) (f : Func) → exception_handled (frames_of types m p f frames.entry) ≡ None) (λ e. (types : ℕ → Typ) (m : Meaning) (p : Program) (f : Func) → exception_handled (frames_of types m p f frames.entry) ≡ Some (thrown_of m e)) }
{
    match frames {
        Frames::Empty => None,
        Frames::More(frame, rest) => match handling(frame) {
            Some(exception) => Some(exception),
            None => handled(*rest),
        },
    }
}

// The block that is open in a frame.
fn open_in(frame: Frame<'_>) -> Option<Open>
    ensures { result ≡ open_at frame.entry }
{
    match frame {
        Frame::Block(inner) => open_block(inner),
        _ => None,
    }
}

fn open_block(frame: BlockFrame) -> Option<Open>
    ensures { result ≡ open_among frame }
{
    match frame {
        BlockFrame::Opens(_, _) => None,
        BlockFrame::Within(block) => Some(block),
        BlockFrame::Closes(block) => Some(block),
    }
}

/// The open blocks of this function.
#[tactic(auto, using(crate::proofs::Below::blocks_here, crate::proofs::Below::blocks_below))]
pub fn blocks_in<'a>(arena: &'a Bump, frames: Frames<'a>) -> Result<Opens<'a>, Refusal>
    ensures { IfOk result (λ c. (types : ℕ → Typ) (m : Meaning) (p : Program) (f : Func) → opens_of c ≡ blocks_among (frames_of types m p f frames.entry)) }
{
    match frames {
        Frames::Empty => Ok(Opens::Empty),
        Frames::More(frame, rest) => {
            let outer = blocks_in(arena, *rest)?;
            match open_in(frame) {
                Some(block) => Ok(Opens::More(block, keep(arena, outer)?)),
                None => Ok(outer),
            }
        }
    }
}
