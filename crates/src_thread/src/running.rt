//! What a node does first.

ghost use Rattle.std.specs.Prelude.{◌≡◌, ◌∷◌, IfOk};
ghost use Rattle.cpp_tree.specs.tx_events.declared.Event.TheVariants.{Silent};
ghost use Rattle.cpp_tree.specs.Trees.{kind_of as root_kind, kids_of as kids_in, first as first_kid, second as second_kid, third as third_kid};
ghost use Rattle.src_mean.specs.Source.{give, run_node, target_of as target_in};
ghost use Rattle.src_mean.specs.Frames.{at, value as for_value, Run as Runs, Opens as OpensSo, StoreTo as StoresTo};
ghost use Rattle.src_bind.specs.Bounds.{given};
ghost use Rattle.src_bind.specs.Tables.{Given};
ghost use Rattle.src_frames.specs.Shown.{way_shown, open_shown, value_shown, frame_shown};
ghost use Rattle.src_frames.specs.Bounds.{tree_of, all_kids, here_of, frames_of, linked_in, after, runs_as};

use crate::giving::{run_before, run_into};
use crate::leaving::{leave, rethrow};
use crate::statements::{run_body, run_test};
use cpp_tree::TKind;
use cpp_tree::below::{Event, IntKind, fn_addr};
use src_bind::Bound;
use src_frames::calls::{source_of, target_of};
use src_frames::frames::{
    BlockFrame, CallFrame, Callee, Change, ExceptionFrame, Exit, Frame, LoopParts, ObjectFrame,
    Open, Owner, StatementFrame, ValueFrame, Waiting, Way,
};
use src_frames::state::{Going, State, place_address, unit_of};
use src_frames::trees::{KidsAt, TreeAt, first, head, kids_of, kind_of, rest, second, third};
use src_frames::words::plus;
use std::mem;

// The parts of a loop.
fn loop_parts(bound: &Bound<'_>, kids: KidsAt) -> LoopParts
    ensures test { tree_of bound.now result.test ≡ first_kid (all_kids bound.now kids) }
    ensures body { tree_of bound.now result.body ≡ second_kid (all_kids bound.now kids) }
    ensures step { tree_of bound.now result.step ≡ third_kid (all_kids bound.now kids) }
{
    LoopParts {
        test: first(bound, kids),
        body: second(bound, kids),
        step: third(bound, kids),
    }
}

// Stores a scalar into an object, and gives 0 then.
fn stores(way: Way, kind: IntKind, volatile: bool) -> Frame
    ensures { (g : Given) → frame_shown g result ≡ StoresTo (target_in (way_shown way)) kind volatile 0 }
{
    Frame::Value(ValueFrame::StoreTo {
        address: target_of(way),
        kind,
        volatile,
        answer: 0,
    })
}

/// What a node does first; a leaf gives its word at once.
pub(crate) fn run(state: &mut State, bound: &Bound<'_>, way: Way, tree: TreeAt) -> Going
    ensures { IfOk result (λ o. after bound.now o state.new ≡ run_node (linked_in bound.now) (here_of bound.now state.old) (way_shown way) (root_kind (tree_of bound.now tree)) (kids_in (tree_of bound.now tree)) (λ w. give (linked_in bound.now) (here_of bound.now state.old) w (frames_of bound.now state.old)) (frames_of bound.now state.old)) }
{
    run_kind(
        state,
        bound,
        way,
        kind_of(bound, tree),
        kids_of(bound, tree),
    )
}

// What a node of this kind with these kids does first.
fn run_kind(state: &mut State, bound: &Bound<'_>, way: Way, kind: TKind, kids: KidsAt) -> Going
    ensures { IfOk result (λ o. after bound.now o state.new ≡ runs_as bound.now state.old way kind kids) }
{
    match kind {
        TKind::Literal { word } => Ok(Some(word)),
        TKind::Local { place } => Ok(Some(place_address(bound, &state.here, place))),
        TKind::Global { global } => Ok(Some(bound.global(unit_of(bound, &state.here), global))),
        TKind::Function { func } => Ok(Some(fn_addr(number_of(state, bound, func)))),
        TKind::ClassTable { class } => Ok(Some(bound.table(class))),
        TKind::Load { kind, volatile } => {
            run_operand(state, bound, kids, ValueFrame::Loads(kind, volatile))
        }
        TKind::Convert { to } => run_operand(state, bound, kids, ValueFrame::Converts(to)),
        TKind::Retype => state.run_next(bound, Way::Value, first(bound, kids)),
        TKind::Binary { op, kind } => {
            let right = second(bound, kids);
            run_operand(state, bound, kids, ValueFrame::Right(op, kind, right))
        }
        TKind::Conditional => run_conditional(state, bound, way, kids),
        TKind::Comma => {
            let then = Frame::Then(way, second(bound, kids));
            run_before(state, bound, first(bound, kids), then)
        }
        TKind::Assign { kind, volatile } => {
            let right = second(bound, kids);
            run_operand(
                state,
                bound,
                kids,
                ValueFrame::AssignTo(kind, volatile, right),
            )
        }
        TKind::Update {
            op,
            stored,
            operation,
            volatile,
            old,
        } => {
            let change = Change {
                op,
                stored,
                operation,
                volatile,
                old,
            };
            let right = second(bound, kids);
            run_operand(state, bound, kids, ValueFrame::UpdateAt(change, right))
        }
        TKind::CopyAssign => run_copy(state, bound, kids),
        TKind::Materialize { place, argument } => {
            run_temporary(state, bound, place, argument, kids)
        }
        TKind::FullExpression => run_full(state, bound, way, kids),
        TKind::Call { func } => {
            let before = state.result_words(way)?;
            let number = number_of(state, bound, func);
            state.call(bound, Callee::Known(number), before, kids)
        }
        TKind::VirtualCall {
            func: _,
            class,
            slot,
            pointer,
        } => run_virtual(state, bound, way, class, slot, pointer, kids),
        TKind::PointerCall => run_pointer(state, bound, way, kids),
        TKind::Builtin { which } => {
            let none = Vec::new(state.alloc);
            state.next_word(bound, Callee::Builtin(which), none, kids)
        }
        TKind::Throw => run_throw(state, bound, kids),
        TKind::Rethrow => {
            let handled = state.handled(bound);
            rethrow(state, bound, handled)
        }
        TKind::Store { kind, volatile } => {
            run_before(
                state,
                bound,
                first(bound, kids),
                stores(way, kind, volatile),
            )
        }
        TKind::CopyScalar { kind, volatile } => {
            state.push(bound, stores(way, kind, volatile))?;
            state.read(bound, source_of(way), kind, volatile)
        }
        TKind::Construct { func } => {
            let words = state.one_word(target_of(way))?;
            let number = number_of(state, bound, func);
            state.call(bound, Callee::Known(number), words, kids)
        }
        TKind::CopyConstruct { func } => {
            let words = state.two_words(target_of(way), source_of(way))?;
            let number = number_of(state, bound, func);
            state.enter(bound, words, number)
        }
        TKind::CopyFrom => {
            let then = ValueFrame::From {
                target: target_of(way),
                init: second(bound, kids),
            };
            run_operand(state, bound, kids, then)
        }
        TKind::Pieces => run_pieces(state, bound, way, kids),
        TKind::Piece { offset } => run_piece(state, bound, way, offset, kids),
        TKind::Elements { count, stride } => {
            run_elements(state, bound, way, count, stride, kids)
        }
        TKind::Block { subobjects } => {
            state.push_scope(bound, Owner::Block, !subobjects)?;
            state.goes(bound, Frame::Statement(StatementFrame::Items(kids)))
        }
        TKind::Init => run_init(state, bound, kids),
        TKind::Defer => run_defer(state, bound, kids),
        TKind::Loop { test_first } => {
            if test_first {
                run_test(state, bound, loop_parts(bound, kids))
            } else {
                run_body(state, bound, loop_parts(bound, kids))
            }
        }
        TKind::Switch => {
            let then = StatementFrame::Picks(rest(bound, kids));
            run_before(state, bound, first(bound, kids), Frame::Statement(then))
        }
        TKind::Case { word: _ } => Ok(Some(0)),
        TKind::Default => Ok(Some(0)),
        TKind::Break => leave(state, bound, Exit::Breaks),
        TKind::Continue => leave(state, bound, Exit::Continues),
        TKind::Return => run_return(state, bound, kids),
        TKind::Try => {
            let then = ExceptionFrame::Tries(rest(bound, kids));
            run_before(state, bound, first(bound, kids), Frame::Exception(then))
        }
        TKind::Handler { place: _ } => Ok(Some(0)),
        TKind::Atomic { kind } => {
            let event = Event::BeginAtomic { kind };
            open(state, bound, event, Open::Atomic(kind), kids)
        }
        TKind::Synchronized => open(state, bound, Event::BeginSync, Open::Sync, kids),
        TKind::Destroy { .. } => Ok(Some(0)),
        TKind::Field { .. } => Ok(Some(0)),
    }
}

// The number of a function of the unit at hand.
fn number_of(state: &State, bound: &Bound<'_>, func: u32) -> u32
    ensures { result ≡ (linked_in bound.now).number (here_of bound.now state.now).unit func }
{
    bound.number(unit_of(bound, &state.here), func)
}

// The first kid is run for its value, and then this frame goes on.
fn run_operand(state: &mut State, bound: &Bound<'_>, kids: KidsAt, then: ValueFrame) -> Going
    ensures { IfOk result (λ o. after bound.now o state.new ≡ at Silent (here_of bound.now state.old) (Runs for_value (first_kid (all_kids bound.now kids)) ∷ value_shown (given bound.now).program then ∷ (frames_of bound.now state.old))) }
{
    run_before(state, bound, first(bound, kids), Frame::Value(then))
}

// A block of the TS begins.
fn open(state: &mut State, bound: &Bound<'_>, event: Event, block: Open, kids: KidsAt) -> Going
    ensures { IfOk result (λ o. after bound.now o state.new ≡ at event (here_of bound.now state.old) (OpensSo (open_shown block) (first_kid (all_kids bound.now kids)) ∷ (frames_of bound.now state.old))) }
{
    let frame = BlockFrame::Opens(block, first(bound, kids));
    state.comes(bound, event, Frame::Block(frame))
}

// `? :`, `&&`, `||` and `if`.
fn run_conditional(state: &mut State, bound: &Bound<'_>, way: Way, kids: KidsAt) -> Going
    ensures { IfOk result (λ o. after bound.now o state.new ≡ runs_as bound.now state.old way (TKind.Conditional) kids) }
{
    let then = ValueFrame::Choose {
        way,
        chosen: second(bound, kids),
        other: third(bound, kids),
    };
    run_operand(state, bound, kids, then)
}

// The implicit copy assignment of a class.
fn run_copy(state: &mut State, bound: &Bound<'_>, kids: KidsAt) -> Going
    ensures { IfOk result (λ o. after bound.now o state.new ≡ runs_as bound.now state.old Way.Value (TKind.CopyAssign) kids) }
{
    let then = ValueFrame::CopyTo {
        source: second(bound, kids),
        init: third(bound, kids),
    };
    run_operand(state, bound, kids, then)
}

// An object of the frame.
fn run_temporary(
    state: &mut State,
    bound: &Bound<'_>,
    place: u32,
    argument: bool,
    kids: KidsAt,
) -> Going
    ensures { IfOk result (λ o. after bound.now o state.new ≡ runs_as bound.now state.old Way.Value (TKind.Materialize place argument) kids) }
{
    let address = place_address(bound, &state.here, place);
    let waiting = Waiting {
        address: TreeAt::Word(address),
        destroys: rest(bound, kids),
    };
    let then = if argument {
        ObjectFrame::Waits(Owner::Call, waiting)
    } else {
        ObjectFrame::Keeps(waiting)
    };
    state.push(bound, Frame::Gives(address))?;
    state.push(bound, Frame::Object(then))?;
    run_into(state, bound, address, 0, first(bound, kids))
}

// An expression at whose end its temporaries are destroyed.
fn run_full(state: &mut State, bound: &Bound<'_>, way: Way, kids: KidsAt) -> Going
    ensures { IfOk result (λ o. after bound.now o state.new ≡ runs_as bound.now state.old way (TKind.FullExpression) kids) }
{
    let none = Vec::new(state.alloc);
    let outer = mem::replace(&mut state.here.temporaries, none);
    state.push(bound, Frame::Object(ObjectFrame::Full { outer }))?;
    state.run_next(bound, way, first(bound, kids))
}

// A call of a virtual function.
fn run_virtual(
    state: &mut State,
    bound: &Bound<'_>,
    way: Way,
    class: u32,
    slot: u32,
    pointer: u32,
    kids: KidsAt,
) -> Going
    ensures { IfOk result (λ o. after bound.now o state.new ≡ runs_as bound.now state.old way (TKind.VirtualCall 0 class slot pointer) kids) }
{
    let before = state.result_words(way)?;
    let then = CallFrame::Object {
        before,
        class,
        slot,
        pointer,
        rest: rest(bound, kids),
    };
    run_before(state, bound, first(bound, kids), Frame::Call(then))
}

// A call through a pointer.
fn run_pointer(state: &mut State, bound: &Bound<'_>, way: Way, kids: KidsAt) -> Going
    ensures { IfOk result (λ o. after bound.now o state.new ≡ runs_as bound.now state.old way (TKind.PointerCall) kids) }
{
    let before = state.result_words(way)?;
    let pointer = first(bound, kids);
    let then = CallFrame::Pointer {
        before,
        pointer,
        rest: rest(bound, kids),
    };
    run_before(state, bound, pointer, Frame::Call(then))
}

// An exception is thrown.
fn run_throw(state: &mut State, bound: &Bound<'_>, kids: KidsAt) -> Going
    ensures { IfOk result (λ o. after bound.now o state.new ≡ runs_as bound.now state.old Way.Value (TKind.Throw) kids) }
{
    let thrown = first(bound, kids);
    let then = ExceptionFrame::Throws {
        thrown,
        fields: rest(bound, kids),
    };
    run_before(state, bound, thrown, Frame::Exception(then))
}

// A class or an array is built part by part.
fn run_pieces(state: &mut State, bound: &Bound<'_>, way: Way, kids: KidsAt) -> Going
    ensures { IfOk result (λ o. after bound.now o state.new ≡ runs_as bound.now state.old way (TKind.Pieces) kids) }
{
    state.push_scope(bound, Owner::Pieces, false)?;
    let frame = ObjectFrame::Parts {
        kids,
        target: target_of(way),
        source: source_of(way),
    };
    state.goes(bound, Frame::Object(frame))
}

// A part is built.
fn run_piece(state: &mut State, bound: &Bound<'_>, way: Way, offset: u32, kids: KidsAt) -> Going
    ensures { IfOk result (λ o. after bound.now o state.new ≡ runs_as bound.now state.old way (TKind.Piece offset) kids) }
{
    let target = plus(target_of(way), u64::from(offset));
    let source = plus(source_of(way), u64::from(offset));
    let waiting = Waiting {
        address: TreeAt::Word(target),
        destroys: rest(bound, kids),
    };
    state.push(
        bound,
        Frame::Object(ObjectFrame::Waits(Owner::Pieces, waiting)),
    )?;
    run_into(state, bound, target, source, first(bound, kids))
}

// An array is built of elements that are alike.
fn run_elements(
    state: &mut State,
    bound: &Bound<'_>,
    way: Way,
    count: u32,
    stride: u32,
    kids: KidsAt,
) -> Going
    ensures { IfOk result (λ o. after bound.now o state.new ≡ runs_as bound.now state.old way (TKind.Elements count stride) kids) }
{
    state.push_scope(bound, Owner::Pieces, false)?;
    let frame = ObjectFrame::Each {
        init: first(bound, kids),
        destroys: rest(bound, kids),
        stride,
        left: count,
        target: target_of(way),
        source: source_of(way),
    };
    state.goes(bound, Frame::Object(frame))
}

// A variable, or a base or member in a constructor.
fn run_init(state: &mut State, bound: &Bound<'_>, kids: KidsAt) -> Going
    ensures { IfOk result (λ o. after bound.now o state.new ≡ runs_as bound.now state.old Way.Value (TKind.Init) kids) }
{
    let then = ObjectFrame::InitAt {
        init: second(bound, kids),
        destroys: rest(bound, rest(bound, kids)),
    };
    run_before(state, bound, first(bound, kids), Frame::Object(then))
}

// A base or member of an object that is being destroyed.
fn run_defer(state: &mut State, bound: &Bound<'_>, kids: KidsAt) -> Going
    ensures { IfOk result (λ o. after bound.now o state.new ≡ runs_as bound.now state.old Way.Value (TKind.Defer) kids) }
{
    let waiting = Waiting {
        address: first(bound, kids),
        destroys: rest(bound, kids),
    };
    state.goes(
        bound,
        Frame::Object(ObjectFrame::Waits(Owner::Block, waiting)),
    )
}

// `return`.
#[tactic(auto, using(crate::proofs::Steps::return_more, crate::proofs::Steps::return_none))]
fn run_return(state: &mut State, bound: &Bound<'_>, kids: KidsAt) -> Going
    ensures { IfOk result (λ o. after bound.now o state.new ≡ runs_as bound.now state.old Way.Value (TKind.Return) kids) }
{
    match head(bound, kids) {
        Some(value) => {
            run_before(
                state,
                bound,
                value,
                Frame::Statement(StatementFrame::Returning),
            )
        }
        None => leave(state, bound, Exit::Returns(0)),
    }
}
