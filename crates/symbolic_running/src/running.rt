//! What a node does first.

ghost use Rattle.std.specs.Prelude.{ℕ, ◌≡◌, IfOk};
ghost use Rattle.cpp_tree.specs.cpp_types.Typ.{Typ};
ghost use Rattle.cpp_tree.specs.Trees.{kind_of as root_kind, kids_of as kids_in};
ghost use Rattle.src_frames.specs.Bounds.{tree_of, all_kids};
ghost use Rattle.symbolic_terms.specs.Meanings.{Meaning, Agrees};
ghost use Rattle.symbolic_terms.specs.Shown.{way_of};
ghost use Rattle.symbolic_leaving.specs.Source.{types_at};
ghost use Rattle.symbolic_running.specs.Next.{next_of, runs_as};

use crate::calls::{rethrow, run_builtin, run_call, run_throw, run_virtual};
use crate::leaves::{function_word, global_word, literal, place_word, table_word, zero};
use crate::next::{Going, leaving, running};
use crate::objects::{
    construct, copy_construct, copy_scalar, run_argument, run_elements, run_full, run_piece,
    run_pieces, run_temporary,
};
use crate::operations::{
    open, run_conditional, run_copy, run_first, run_from, run_operand, run_pointer, run_store,
};
use crate::statements::{run_block, run_defer, run_init, run_loop, run_return};
use bumpalo::Bump;
use cpp_tree::{Builtin, TKind};
use src_frames::frames::{Change, Open};
use src_frames::trees::{KidsAt, TreeAt, first, kids_of, kind_of, rest as rest_of, second};
use std::alloc::Global;
use symbolic_leaving::answers::CaseAnswers;
use symbolic_leaving::source::Source;
use symbolic_terms::frames::{ExceptionFrame, Exit, Frame, StatementFrame, ValueFrame, Way};
use symbolic_terms::made::global;
use symbolic_terms::outcomes::{Doing, Rest};
use symbolic_terms::refusal::Refusal;
use symbolic_terms::words::Words;

/// What a node does first; a leaf gives its word at once.
pub fn run<'a>(
    alloc: Global,
    arena: &'a Bump,
    words: &mut Words<'a>,
    source: &Source<'a>,
    answers: CaseAnswers<'_>,
    rest: Rest<'a>,
    way: Way,
    tree: TreeAt,
) -> Going<'a>
    ensures is { IfOk result (λ o. (m : Meaning) → Agrees (types_at source.now) m words.new → next_of source.now m answers.entry rest.entry o ≡ runs_as source.now m answers.entry rest.entry (way_of (types_at source.now) m way) (root_kind (tree_of source.now.bound.now tree)) (kids_in (tree_of source.now.bound.now tree))) }
    ensures grows { (types : ℕ → Typ) (m : Meaning) → Agrees types m words.new → Agrees types m words.old }
{
    let kind = kind_of(source.bound, tree);
    let kids = kids_of(source.bound, tree);
    run_kind(alloc, arena, words, source, answers, rest, way, kind, kids)
}

// What a node of this kind with these kids does first.
fn run_kind<'a>(
    alloc: Global,
    arena: &'a Bump,
    words: &mut Words<'a>,
    source: &Source<'a>,
    answers: CaseAnswers<'_>,
    rest: Rest<'a>,
    way: Way,
    kind: TKind,
    kids: KidsAt,
) -> Going<'a>
    ensures is { IfOk result (λ o. (m : Meaning) → Agrees (types_at source.now) m words.new → next_of source.now m answers.entry rest.entry o ≡ runs_as source.now m answers.entry rest.entry (way_of (types_at source.now) m way) kind (all_kids source.now.bound.now kids)) }
    ensures grows { (types : ℕ → Typ) (m : Meaning) → Agrees types m words.new → Agrees types m words.old }
{
    match kind {
        TKind::Literal { .. }
        | TKind::Local { .. }
        | TKind::Global { .. }
        | TKind::Function { .. }
        | TKind::ClassTable { .. }
        | TKind::Case { .. }
        | TKind::Default
        | TKind::Handler { .. }
        | TKind::Destroy { .. }
        | TKind::Field { .. } => run_leaf(words, source, answers, rest, way, kind, kids),
        TKind::Load { .. }
        | TKind::Convert { .. }
        | TKind::Retype
        | TKind::Binary { .. }
        | TKind::Conditional
        | TKind::Comma
        | TKind::Assign { .. }
        | TKind::Update { .. }
        | TKind::CopyAssign
        | TKind::FullExpression => run_operation(arena, source, answers, rest, way, kind, kids),
        TKind::Materialize { .. }
        | TKind::Call { .. }
        | TKind::VirtualCall { .. }
        | TKind::PointerCall
        | TKind::Builtin { .. }
        | TKind::Throw
        | TKind::Rethrow
        | TKind::Construct { .. }
        | TKind::CopyConstruct { .. } => run_invocation(
            alloc, arena, words, source, answers, rest, way, kind, kids,
        ),
        TKind::Store { .. }
        | TKind::CopyScalar { .. }
        | TKind::CopyFrom
        | TKind::Pieces
        | TKind::Piece { .. }
        | TKind::Elements { .. }
        | TKind::Init
        | TKind::Defer => run_building(arena, words, source, answers, rest, way, kind, kids),
        TKind::Block { .. }
        | TKind::Loop { .. }
        | TKind::Switch
        | TKind::Break
        | TKind::Continue
        | TKind::Return
        | TKind::Try
        | TKind::Atomic { .. }
        | TKind::Synchronized => run_statement(
            arena, words, source, answers, rest, way, kind, kids,
        ),
    }
}

// What a leaf does first, and what a node does that is run nowhere but by the one above it. No other kinds are asked for.
fn run_leaf<'a>(
    words: &mut Words<'a>,
    source: &Source<'a>,
    answers: CaseAnswers<'_>,
    rest: Rest<'a>,
    way: Way,
    kind: TKind,
    kids: KidsAt,
) -> Going<'a>
    ensures is { IfOk result (λ o. (m : Meaning) → Agrees (types_at source.now) m words.new → next_of source.now m answers.entry rest.entry o ≡ runs_as source.now m answers.entry rest.entry (way_of (types_at source.now) m way) kind (all_kids source.now.bound.now kids)) }
    ensures grows { (types : ℕ → Typ) (m : Meaning) → Agrees types m words.new → Agrees types m words.old }
{
    let _way = way;
    let _kids = kids;
    match kind {
        TKind::Literal { word } => literal(words, source, answers, rest, word),
        TKind::Local { place } => place_word(words, source, answers, rest, place),
        TKind::Global { global } => global_word(words, source, answers, rest, global),
        TKind::Function { func } => function_word(words, source, answers, rest, func),
        TKind::ClassTable { class } => table_word(words, source, answers, rest, class),
        TKind::Case { word: _ } => zero(words, source, answers, rest),
        TKind::Default => zero(words, source, answers, rest),
        TKind::Handler { place: _ } => zero(words, source, answers, rest),
        TKind::Destroy { .. } => zero(words, source, answers, rest),
        TKind::Field { .. } => zero(words, source, answers, rest),
        _ => Err(Refusal::Beyond),
    }
}

// What an operation on values does first. No other kinds are asked for.
fn run_operation<'a>(
    arena: &'a Bump,
    source: &Source<'a>,
    answers: CaseAnswers<'_>,
    rest: Rest<'a>,
    way: Way,
    kind: TKind,
    kids: KidsAt,
) -> Going<'a>
    ensures { IfOk result (λ o. (m : Meaning) → next_of source.now m answers.entry rest.entry o ≡ runs_as source.now m answers.entry rest.entry (way_of (types_at source.now) m way) kind (all_kids source.now.bound.now kids)) }
{
    match kind {
        TKind::Load { kind, volatile } => {
            let then = ValueFrame::Loads(kind, volatile);
            run_operand(arena, source, answers, rest, kids, then)
        }
        TKind::Convert { to } => {
            run_operand(arena, source, answers, rest, kids, ValueFrame::Converts(to))
        }
        TKind::Retype => {
            let operand = first(source.bound, kids);
            running(arena, source, answers, rest, Way::Value, operand)
        }
        TKind::Binary { op, kind } => {
            let then = ValueFrame::Right(op, kind, second(source.bound, kids));
            run_operand(arena, source, answers, rest, kids, then)
        }
        TKind::Conditional => run_conditional(arena, source, answers, rest, way, kids),
        TKind::Comma => {
            let then = Frame::Then(way, second(source.bound, kids));
            run_first(arena, source, answers, rest, kids, then)
        }
        TKind::Assign { kind, volatile } => {
            let then = ValueFrame::AssignTo(kind, volatile, second(source.bound, kids));
            run_operand(arena, source, answers, rest, kids, then)
        }
        TKind::Update {
            op,
            stored,
            operation,
            volatile,
            old,
        } => {
            let change = Change {
                op,
                stored,
                operation,
                volatile,
                old,
            };
            let then = ValueFrame::UpdateAt(change, second(source.bound, kids));
            run_operand(arena, source, answers, rest, kids, then)
        }
        TKind::CopyAssign => run_copy(arena, source, answers, rest, kids),
        TKind::FullExpression => run_full(arena, source, answers, rest, way, kids),
        _ => Err(Refusal::Beyond),
    }
}

// What a call, a temporary or a `throw` does first. No other kinds are asked for.
fn run_invocation<'a>(
    alloc: Global,
    arena: &'a Bump,
    words: &mut Words<'a>,
    source: &Source<'a>,
    answers: CaseAnswers<'_>,
    rest: Rest<'a>,
    way: Way,
    kind: TKind,
    kids: KidsAt,
) -> Going<'a>
    ensures is { IfOk result (λ o. (m : Meaning) → Agrees (types_at source.now) m words.new → next_of source.now m answers.entry rest.entry o ≡ runs_as source.now m answers.entry rest.entry (way_of (types_at source.now) m way) kind (all_kids source.now.bound.now kids)) }
    ensures grows { (types : ℕ → Typ) (m : Meaning) → Agrees types m words.new → Agrees types m words.old }
{
    match kind {
        TKind::Materialize { place, argument } => {
            if argument {
                run_argument(arena, words, source, answers, rest, place, kids)
            } else {
                run_temporary(arena, words, source, answers, rest, place, kids)
            }
        }
        TKind::Call { func } => run_call(arena, words, source, answers, rest, way, func, kids),
        TKind::VirtualCall {
            func: _,
            class,
            slot,
            pointer,
        } => run_virtual(
            arena, source, answers, rest, way, class, slot, pointer, kids,
        ),
        TKind::PointerCall => run_pointer(arena, source, answers, rest, way, kids),
        TKind::Builtin { which } => run_builtin(arena, words, source, answers, rest, which, kids),
        TKind::Throw => run_throw(alloc, arena, source, answers, rest, kids),
        TKind::Rethrow => rethrow(arena, words, source, answers, rest),
        TKind::Construct { func } => construct(
            arena, words, source, answers, rest, way, func, kids,
        ),
        TKind::CopyConstruct { func } => copy_construct(
            arena, words, source, answers, rest, way, func,
        ),
        _ => Err(Refusal::Beyond),
    }
}

// What the building of an object does first. No other kinds are asked for.
fn run_building<'a>(
    arena: &'a Bump,
    words: &mut Words<'a>,
    source: &Source<'a>,
    answers: CaseAnswers<'_>,
    rest: Rest<'a>,
    way: Way,
    kind: TKind,
    kids: KidsAt,
) -> Going<'a>
    ensures is { IfOk result (λ o. (m : Meaning) → Agrees (types_at source.now) m words.new → next_of source.now m answers.entry rest.entry o ≡ runs_as source.now m answers.entry rest.entry (way_of (types_at source.now) m way) kind (all_kids source.now.bound.now kids)) }
    ensures grows { (types : ℕ → Typ) (m : Meaning) → Agrees types m words.new → Agrees types m words.old }
{
    match kind {
        TKind::Store { kind, volatile } => {
            run_store(
                arena, words, source, answers, rest, way, kind, volatile, kids,
            )
        }
        TKind::CopyScalar { kind, volatile } => {
            copy_scalar(arena, words, source, answers, rest, way, kind, volatile)
        }
        TKind::CopyFrom => run_from(arena, words, source, answers, rest, way, kids),
        TKind::Pieces => run_pieces(arena, words, source, answers, rest, way, kids),
        TKind::Piece { offset } => run_piece(
            arena, words, source, answers, rest, way, offset, kids,
        ),
        TKind::Elements { count, stride } => {
            run_elements(
                arena, words, source, answers, rest, way, count, stride, kids,
            )
        }
        TKind::Init => run_init(arena, source, answers, rest, kids),
        TKind::Defer => run_defer(arena, source, answers, rest, kids),
        _ => Err(Refusal::Beyond),
    }
}

// What a statement does first. No other kinds are asked for.
fn run_statement<'a>(
    arena: &'a Bump,
    words: &mut Words<'a>,
    source: &Source<'a>,
    answers: CaseAnswers<'_>,
    rest: Rest<'a>,
    way: Way,
    kind: TKind,
    kids: KidsAt,
) -> Going<'a>
    ensures is { IfOk result (λ o. (m : Meaning) → Agrees (types_at source.now) m words.new → next_of source.now m answers.entry rest.entry o ≡ runs_as source.now m answers.entry rest.entry (way_of (types_at source.now) m way) kind (all_kids source.now.bound.now kids)) }
    ensures grows { (types : ℕ → Typ) (m : Meaning) → Agrees types m words.new → Agrees types m words.old }
{
    let _way = way;
    match kind {
        TKind::Block { subobjects } => run_block(arena, source, answers, rest, subobjects, kids),
        TKind::Loop { test_first } => run_loop(arena, source, answers, rest, test_first, kids),
        TKind::Switch => {
            let then = Frame::Statement(StatementFrame::Picks(rest_of(source.bound, kids)));
            run_first(arena, source, answers, rest, kids, then)
        }
        TKind::Break => leaving(arena, words, source, answers, rest, Exit::Breaks),
        TKind::Continue => leaving(arena, words, source, answers, rest, Exit::Continues),
        TKind::Return => run_return(arena, words, source, answers, rest, kids),
        TKind::Try => {
            let then = Frame::Exception(ExceptionFrame::Tries(rest_of(source.bound, kids)));
            run_first(arena, source, answers, rest, kids, then)
        }
        TKind::Atomic { kind } => {
            let doing = Doing::BeginsAtomic(kind);
            open(
                arena,
                source,
                answers,
                rest,
                doing,
                Open::Atomic(kind),
                kids,
            )
        }
        TKind::Synchronized => {
            open(
                arena,
                source,
                answers,
                rest,
                Doing::BeginsSync,
                Open::Sync,
                kids,
            )
        }
        _ => Err(Refusal::Beyond),
    }
}
