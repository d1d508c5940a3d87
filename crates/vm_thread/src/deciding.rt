//! What a thread does next.
ghost use Rattle.std.specs.Prelude.{◌≡◌, ◌<◌, ◌≤◌, ◌+◌, ◌%◌, ◌∷◌, [], true, false, drop, take, reverse, MatchOption, length, slice_get, nat_eq, if◌then◌else◌};
ghost use Rattle.tx_ints.specs.declared.kinds.IntKind.TheVariants.{Int};
ghost use Rattle.tx_ints.specs.Integers.{apply_of};
ghost use Rattle.tx_ints.specs.Words.{word_of, value_of_word};
ghost use Rattle.tx_events.specs.declared.End.TheVariants.{Abort as Aborted, Terminate, Trapped};
ghost use Rattle.tx_events.specs.declared.Event.TheVariants.{Stop, Out as OutOf, Inp, Join as JoinOf, BeginAtomic, BeginSync, Raise};
ghost use Rattle.tx_events.specs.Thread.{Atomic, Sync};
ghost use Rattle.tx_code.specs.Program.{names_of};
ghost use Rattle.tx_code.specs.Views.{image_view};
ghost use Rattle.tx_code.specs.Meaning as meaning;
ghost use Rattle.vm_frames.specs.Frames.{exception_of};
ghost use Rattle.vm_frames.specs.FrameStacks.{top_of, rest_of, shown};
ghost use Rattle.vm_thread.specs.Modes.{InMode, KnowsMode, Modes};
ghost use Rattle.vm_frames.specs.declared.step.Step.TheVariants.{Ends};
ghost use Rattle.vm_frames.specs.Steps.{Means};

use crate::lookups::{self, stack_end};
use tx_code::{Image, Instr, block_kind, int_kind, operator, size};
use tx_events::{BlockKind, End, Event, Trap};
use tx_ints::{ArithTrap, BinOp, IntKind, apply, convert, negate, value_of_word, word_of};
use vm_frames::frames::FrameStack;
use vm_frames::parts::{Block, Exception, Held};
use vm_frames::stack::Two;
use vm_frames::step::{Callee, Change, Given, Landing, Step};
use vm_frames::values::{bits, number_in, with_number, zeros};

/// `load`, `tload` and `vload`.
#[inline(always)]
pub(crate) fn load(frames: &FrameStack, kind: u8, volatile: bool) -> Step
    requires { frames.now.top.index < 18446744073709551615 }
    ensures { Means result (meaning.load_act kind volatile (top_of frames.now) (rest_of frames.now)) (top_of frames.now) (rest_of frames.now) }
{
    let Some(kind) = int_kind(kind) else {
        return Step::Lost;
    };
    match frames.words.top() {
        None => Step::Lost,
        Some(address) => Step::Does {
            event: Event::Load {
                addr: address,
                size: size(kind),
                volatile,
            },
            change: Change::Operate {
                taken: 1,
                given: Given::Loaded(kind),
                index: frames.top.index + 1,
            },
        },
    }
}

/// `store`, `tstore` and `vstore`.
#[inline(always)]
pub(crate) fn store(frames: &FrameStack, kind: u8, volatile: bool) -> Step
    requires { frames.now.top.index < 18446744073709551615 }
    ensures { Means result (meaning.store_act kind volatile (top_of frames.now) (rest_of frames.now)) (top_of frames.now) (rest_of frames.now) }
{
    let Some(kind) = int_kind(kind) else {
        return Step::Lost;
    };
    match frames.words.top_two() {
        None => Step::Lost,
        Some(two) => Step::Does {
            event: Event::Store {
                addr: two.low,
                size: size(kind),
                value: bits(kind, two.high),
                volatile,
            },
            change: Change::Operate {
                taken: 2,
                given: Given::Nothing,
                index: frames.top.index + 1,
            },
        },
    }
}

/// A silent step that takes operands off and leaves a word.
#[inline(always)]
pub(crate) fn leave_word(frames: &FrameStack, taken: u8, word: u64) -> Step
    requires { frames.now.top.index < 18446744073709551615 }
    ensures { Means result (meaning.goes (meaning.Runs (meaning.on_with (top_of frames.now) (word ∷ drop taken (top_of frames.now).words)) (rest_of frames.now))) (top_of frames.now) (rest_of frames.now) }
{
    Step::Does {
        event: Event::Silent,
        change: Change::Operate {
            taken,
            given: Given::Word(word),
            index: frames.top.index + 1,
        },
    }
}

// The trap of an operator.
fn trap_of(trap: ArithTrap) -> Trap
    ensures { result ≡ meaning.trap_of trap }
{
    match trap {
        ArithTrap::Overflow => Trap::Overflow,
        ArithTrap::DivideByZero => Trap::DivideByZero,
        ArithTrap::ShiftRange => Trap::ShiftRange,
    }
}

// The step that traps so.
fn traps(trap: Trap) -> Step
    ensures { result ≡ Ends (Stop (Trapped trap)) }
{
    Step::Ends(Event::Stop {
        end: End::Trapped(trap),
    })
}

// What an operator comes to, the operands being taken off.
#[inline(always)]
fn value_step(frames: &FrameStack, taken: u8, value: Result<i128, ArithTrap>) -> Step
    requires { frames.now.top.index < 18446744073709551615 }
    ensures { Means result (meaning.result_act value (λ v. meaning.goes (meaning.Runs (meaning.on_with (top_of frames.now) (word_of v ∷ drop taken (top_of frames.now).words)) (rest_of frames.now)))) (top_of frames.now) (rest_of frames.now) }
{
    match value {
        Ok(value) => leave_word(frames, taken, word_of(value)),
        Err(trap) => traps(trap_of(trap)),
    }
}

// The kind of a right operand.
#[inline(always)]
fn right_kind(operator: BinOp, kind: IntKind) -> IntKind
    ensures { result ≡ meaning.right_kind operator kind }
{
    match operator {
        BinOp::Shl | BinOp::Shr => IntKind::ULong,
        _ => kind,
    }
}

// An operator on two words.
#[inline(always)]
fn operate(operator: BinOp, kind: IntKind, two: Two<u64>) -> Result<i128, ArithTrap>
    ensures { result ≡ apply_of operator kind (value_of_word kind two.low) (value_of_word (meaning.right_kind operator kind) two.high) }
{
    let left = value_of_word(kind, two.low);
    let right = value_of_word(right_kind(operator, kind), two.high);
    apply(operator, kind, left, right)
}

/// `bin`.
#[inline(always)]
pub(crate) fn bin(frames: &FrameStack, op: u8, kind: u8) -> Step
    requires { frames.now.top.index < 18446744073709551615 }
    ensures { Means result (meaning.bin_act op kind (top_of frames.now) (rest_of frames.now)) (top_of frames.now) (rest_of frames.now) }
{
    let Some(operator) = operator(op) else {
        return Step::Lost;
    };
    let Some(kind) = int_kind(kind) else {
        return Step::Lost;
    };
    match frames.words.top_two() {
        None => Step::Lost,
        Some(two) => {
            let value = operate(operator, kind, two);
            value_step(frames, 2, value)
        }
    }
}

/// `neg`.
#[inline(always)]
pub(crate) fn neg(frames: &FrameStack, kind: u8) -> Step
    requires { frames.now.top.index < 18446744073709551615 }
    ensures { Means result (meaning.neg_act kind (top_of frames.now) (rest_of frames.now)) (top_of frames.now) (rest_of frames.now) }
{
    let Some(kind) = int_kind(kind) else {
        return Step::Lost;
    };
    match frames.words.top() {
        None => Step::Lost,
        Some(word) => value_step(frames, 1, negate(kind, value_of_word(kind, word))),
    }
}

/// `conv`.
#[inline(always)]
pub(crate) fn conv(frames: &FrameStack, from: u8, to: u8) -> Step
    requires { frames.now.top.index < 18446744073709551615 }
    ensures { Means result (meaning.conv_act from to (top_of frames.now) (rest_of frames.now)) (top_of frames.now) (rest_of frames.now) }
{
    let Some(from) = int_kind(from) else {
        return Step::Lost;
    };
    let Some(to) = int_kind(to) else {
        return Step::Lost;
    };
    match frames.words.top() {
        None => Step::Lost,
        Some(word) => {
            let value = convert(to, value_of_word(from, word));
            leave_word(frames, 1, word_of(value))
        }
    }
}

/// `dup`.
#[inline(always)]
pub(crate) fn dup(frames: &FrameStack) -> Step
    requires { frames.now.top.index < 18446744073709551615 }
    ensures { Means result (meaning.one (top_of frames.now).words (λ w ws. meaning.goes (meaning.Runs (meaning.on_with (top_of frames.now) (w ∷ w ∷ ws)) (rest_of frames.now)))) (top_of frames.now) (rest_of frames.now) }
{
    match frames.words.top() {
        None => Step::Lost,
        Some(word) => leave_word(frames, 0, word),
    }
}

/// `over`.
#[inline(always)]
pub(crate) fn over(frames: &FrameStack) -> Step
    requires { frames.now.top.index < 18446744073709551615 }
    ensures { Means result (meaning.two (top_of frames.now).words (λ a b ws. meaning.goes (meaning.Runs (meaning.on_with (top_of frames.now) (a ∷ b ∷ a ∷ ws)) (rest_of frames.now)))) (top_of frames.now) (rest_of frames.now) }
{
    match frames.words.top_two() {
        None => Step::Lost,
        Some(two) => leave_word(frames, 0, two.low),
    }
}

/// `drop`.
#[inline(always)]
pub(crate) fn pop(frames: &FrameStack) -> Step
    requires { frames.now.top.index < 18446744073709551615 }
    ensures { Means result (meaning.one (top_of frames.now).words (λ w ws. meaning.goes (meaning.Runs (meaning.on_with (top_of frames.now) ws) (rest_of frames.now)))) (top_of frames.now) (rest_of frames.now) }
{
    match frames.words.top() {
        None => Step::Lost,
        Some(_) => Step::Does {
            event: Event::Silent,
            change: Change::Operate {
                taken: 1,
                given: Given::Nothing,
                index: frames.top.index + 1,
            },
        },
    }
}

// `swap`.
fn swap(frames: &FrameStack) -> Step
    requires { frames.now.top.index < 18446744073709551615 }
    ensures { Means result (meaning.two (top_of frames.now).words (λ a b ws. meaning.goes (meaning.Runs (meaning.on_with (top_of frames.now) (a ∷ b ∷ ws)) (rest_of frames.now)))) (top_of frames.now) (rest_of frames.now) }
{
    match frames.words.top_two() {
        None => Step::Lost,
        Some(_) => Step::Does {
            event: Event::Silent,
            change: Change::Exchange {
                index: frames.top.index + 1,
            },
        },
    }
}

/// `jump`.
#[inline(always)]
pub(crate) fn jump(frames: &FrameStack, target: u32) -> Step
    ensures { Means result (meaning.goes (meaning.Runs (meaning.at (top_of frames.now) target (top_of frames.now).words) (rest_of frames.now))) (top_of frames.now) (rest_of frames.now) }
{
    Step::Does {
        event: Event::Silent,
        change: Change::Operate {
            taken: 0,
            given: Given::Nothing,
            index: target as usize,
        },
    }
}

/// `jzero`.
#[inline(always)]
pub(crate) fn jump_zero(frames: &FrameStack, target: u32) -> Step
    requires { frames.now.top.index < 18446744073709551615 }
    ensures { Means result (meaning.one (top_of frames.now).words (λ w ws. meaning.goes (meaning.Runs (meaning.at (top_of frames.now) (if nat_eq w 0 then target else ((top_of frames.now).index + 1)) ws) (rest_of frames.now)))) (top_of frames.now) (rest_of frames.now) }
{
    match frames.words.top() {
        None => Step::Lost,
        Some(word) => Step::Does {
            event: Event::Silent,
            change: Change::Operate {
                taken: 1,
                given: Given::Nothing,
                index: if word == 0 {
                    target as usize
                } else {
                    frames.top.index + 1
                },
            },
        },
    }
}

// `out`.
fn out(frames: &FrameStack) -> Step
    requires { frames.now.top.index < 18446744073709551615 }
    ensures { Means result (meaning.one (top_of frames.now).words (λ v ws. meaning.asks (OutOf (v % 256)) (meaning.Runs (meaning.on_with (top_of frames.now) (v % 256 ∷ ws)) (rest_of frames.now)))) (top_of frames.now) (rest_of frames.now) }
{
    match frames.words.top() {
        None => Step::Lost,
        Some(word) => Step::Does {
            event: Event::Out {
                byte: (word % 256) as u8,
            },
            change: Change::Operate {
                taken: 1,
                given: Given::Word(word % 256),
                index: frames.top.index + 1,
            },
        },
    }
}

// `spawn`.
fn spawn(image: &Image, frames: &FrameStack) -> Step
    requires { frames.now.top.index < 18446744073709551615 }
    ensures { Means result (meaning.spawn_act (names_of (image_view image.now)) (top_of frames.now) (rest_of frames.now)) (top_of frames.now) (rest_of frames.now) }
{
    let Some(two) = frames.words.top_two() else {
        return Step::Lost;
    };
    match lookups::spawned(image, two.low) {
        None => traps(Trap::BadCall),
        Some(func) => Step::Does {
            event: Event::Spawn {
                func: u64::from(func),
                arg: value_of_word(IntKind::Long, two.high) as i64,
            },
            change: Change::Operate {
                taken: 2,
                given: Given::Answered,
                index: frames.top.index + 1,
            },
        },
    }
}

// `join`.
fn join(frames: &FrameStack) -> Step
    requires { frames.now.top.index < 18446744073709551615 }
    ensures { Means result (meaning.one (top_of frames.now).words (λ v ws. meaning.asks (JoinOf (value_of_word Int v)) (meaning.Runs (meaning.on_with (top_of frames.now) ws) (rest_of frames.now)))) (top_of frames.now) (rest_of frames.now) }
{
    match frames.words.top() {
        None => Step::Lost,
        Some(word) => Step::Does {
            event: Event::Join {
                id: value_of_word(IntKind::Int, word) as i32,
            },
            change: Change::Operate {
                taken: 1,
                given: Given::Nothing,
                index: frames.top.index + 1,
            },
        },
    }
}

// `begin`.
fn begin(frames: &FrameStack, kind: u8) -> Step
    requires { frames.now.top.index < 18446744073709551615 }
    ensures { Means result (meaning.if_some (slice_get meaning.block_kinds kind) meaning.Lost (λ k. meaning.asks (BeginAtomic k) (meaning.Runs (meaning.on_in (top_of frames.now) (meaning.opening (top_of frames.now).nest (Atomic k))) (rest_of frames.now)))) (top_of frames.now) (rest_of frames.now) }
{
    match block_kind(kind) {
        None => Step::Lost,
        Some(kind) => Step::Does {
            event: Event::BeginAtomic { kind },
            change: Change::Open {
                block: Block::Atomic(kind),
                index: frames.top.index + 1,
            },
        },
    }
}

// `slot`.
fn slot(image: &Image, frames: &FrameStack, class: u32, slot: u32) -> Step
    requires { frames.now.top.index < 18446744073709551615 }
    ensures { Means result (meaning.slot_act (names_of (image_view image.now)) class slot (top_of frames.now) (rest_of frames.now)) (top_of frames.now) (rest_of frames.now) }
{
    let Some(address) = frames.words.top() else {
        return Step::Lost;
    };
    match lookups::slot(image, class, address, slot) {
        None => traps(Trap::BadVirtual),
        Some(func) => leave_word(frames, 1, lookups::func_address(func)),
    }
}

// The last event of a thread, and the status that it hands on.
fn finish(thread: u8, status: i32) -> Step
    ensures { result ≡ Ends (meaning.finish thread status) }
{
    if thread == 0 {
        Step::Ends(Event::Stop {
            end: End::Exit(status),
        })
    } else {
        Step::Ends(Event::Done)
    }
}

// `ret 0`.
fn ret_none(frames: &FrameStack) -> Step
    ensures { Means result (meaning.back_act (top_of frames.now).home [] (rest_of frames.now)) (top_of frames.now) (rest_of frames.now) }
{
    if frames.is_outermost() {
        finish(frames.thread, 0)
    } else {
        Step::Does {
            event: Event::Silent,
            change: Change::Return(None),
        }
    }
}

// `ret 1`.
fn ret_word(frames: &FrameStack) -> Step
    ensures { Means result (meaning.one (top_of frames.now).words (λ w ws. meaning.back_act (top_of frames.now).home (w ∷ []) (rest_of frames.now))) (top_of frames.now) (rest_of frames.now) }
{
    let Some(word) = frames.words.top() else {
        return Step::Lost;
    };
    if frames.is_outermost() {
        finish(frames.thread, value_of_word(IntKind::Int, word) as i32)
    } else {
        Step::Does {
            event: Event::Silent,
            change: Change::Return(Some(word)),
        }
    }
}

// The address of the frame of a function that is called, where it fits the thread's stack.
fn address(image: &Image, frames: &FrameStack, func: u32, safe: bool) -> Option<u32>
    ensures { MatchOption result (meaning.fits (names_of (image_view image.now)) (meaning.next_home (names_of (image_view image.now)) (top_of frames.now).home func safe) ≡ false) (λ a. (a ≡ frames.now.top.address + (names_of (image_view image.now)).frame frames.now.top.func) × (meaning.fits (names_of (image_view image.now)) (meaning.next_home (names_of (image_view image.now)) (top_of frames.now).home func safe) ≡ true)) }
{
    let address = u64::from(frames.top.address)
        + u64::from(lookups::frame_size(image, frames.top.func));
    if address + u64::from(lookups::frame_size(image, func)) <= stack_end(frames.thread) {
        Some(address as u32)
    } else {
        None
    }
}

// `call` and `tcall`.
fn call(image: &Image, frames: &FrameStack, func: u32, safe: bool, words: u8) -> Step
    requires { frames.now.top.index < 18446744073709551615 }
    ensures { Means result (meaning.call_act (names_of (image_view image.now)) func safe words (top_of frames.now) (rest_of frames.now)) (top_of frames.now) (rest_of frames.now) }
{
    if frames.words.count() < usize::from(words) {
        return Step::Lost;
    }
    if !lookups::has_body(image, func, safe) {
        return Step::Lost;
    }
    match address(image, frames, func, safe) {
        None => traps(Trap::StackOverflow),
        Some(address) => Step::Does {
            event: Event::Silent,
            change: Change::Call(Callee {
                func,
                safe,
                address,
                words,
            }),
        },
    }
}

// What is called by an address.
fn enter_indirect(image: &Image, frames: &FrameStack, func: u32, safe: bool, words: u8) -> Step
    requires index { frames.now.top.index < 18446744073709551615 }
    requires words { words < length (top_of frames.now).words }
    ensures { Means result (meaning.entered_act (names_of (image_view image.now)) func safe (reverse (take words (top_of frames.now).words)) (meaning.at (top_of frames.now) (top_of frames.now).index (drop (words + 1) (top_of frames.now).words)) (rest_of frames.now)) (top_of frames.now) (rest_of frames.now) }
{
    if !lookups::has_body(image, func, safe) {
        return Step::Lost;
    }
    match address(image, frames, func, safe) {
        None => traps(Trap::StackOverflow),
        Some(address) => Step::Does {
            event: Event::Silent,
            change: Change::CallIndirect(Callee {
                func,
                safe,
                address,
                words,
            }),
        },
    }
}

// `calli` and `tcalli`.
fn call_indirect(image: &Image, frames: &FrameStack, ty: u32, safe: bool, words: u8) -> Step
    requires index { frames.now.top.index < 18446744073709551615 }
    requires mode { meaning.in_transaction (top_of frames.now) (rest_of frames.now) ≡ safe }
    ensures { Means result (meaning.call_indirect_act (names_of (image_view image.now)) ty safe words (top_of frames.now) (rest_of frames.now)) (top_of frames.now) (rest_of frames.now) }
{
    let Some(address) = frames.words.item(usize::from(words)) else {
        return Step::Lost;
    };
    let Some(func) = lookups::called(image, ty, address) else {
        return traps(Trap::BadCall);
    };
    if lookups::is_unsafe(image, func, safe) {
        return traps(Trap::UnsafeCall);
    }
    enter_indirect(image, frames, func, safe, words)
}

// `xnew`.
fn new_exception(frames: &FrameStack, ty: u32) -> Step
    requires { frames.now.top.index < 18446744073709551615 }
    ensures { Means result (meaning.goes (meaning.Runs (meaning.on_in (top_of frames.now) (meaning.holding (top_of frames.now).nest (meaning.Building (meaning.new_exception ty)))) (rest_of frames.now))) (top_of frames.now) (rest_of frames.now) }
{
    Step::Does {
        event: Event::Silent,
        change: Change::Hold {
            taken: 0,
            held: Held::Building(zeros(ty)),
            index: frames.top.index + 1,
        },
    }
}

// `xput`.
fn put_exception(frames: &FrameStack, offset: u8, kind: u8) -> Step
    requires { frames.now.top.index < 18446744073709551615 }
    ensures { Means result (meaning.put_act offset kind (top_of frames.now) (rest_of frames.now)) (top_of frames.now) (rest_of frames.now) }
{
    let Some(kind) = int_kind(kind) else {
        return Step::Lost;
    };
    match frames.top.held {
        Held::Building(exception) => match frames.words.top() {
            None => Step::Lost,
            Some(word) => Step::Does {
                event: Event::Silent,
                change: Change::Hold {
                    taken: 1,
                    held: Held::Building(with_number(exception, offset, kind, word)),
                    index: frames.top.index + 1,
                },
            },
        },
        Held::Free | Held::Flying(_) => Step::Lost,
    }
}

// `xget`.
fn get_exception(frames: &FrameStack, offset: u8, kind: u8) -> Step
    requires { frames.now.top.index < 18446744073709551615 }
    ensures { Means result (meaning.get_act offset kind (top_of frames.now) (rest_of frames.now)) (top_of frames.now) (rest_of frames.now) }
{
    let Some(kind) = int_kind(kind) else {
        return Step::Lost;
    };
    match frames.current() {
        None => Step::Lost,
        Some(exception) => leave_word(frames, 0, number_in(exception, offset, kind)),
    }
}

// Begins to unwind.
fn fly(frames: &FrameStack, exception: Exception) -> Step
    ensures { Means result (meaning.unwinding (exception_of exception) (top_of frames.now) (rest_of frames.now)) (top_of frames.now) (rest_of frames.now) }
{
    Step::Does {
        event: Event::Silent,
        change: Change::Fly(exception),
    }
}

// `throw`.
fn throw(frames: &FrameStack) -> Step
    ensures { Means result (meaning.built (top_of frames.now).nest.held (λ e. meaning.unwinding e (top_of frames.now) (rest_of frames.now))) (top_of frames.now) (rest_of frames.now) }
{
    match frames.top.held {
        Held::Building(exception) => fly(frames, exception),
        Held::Free | Held::Flying(_) => Step::Lost,
    }
}

// `resume`.
fn resume(frames: &FrameStack) -> Step
    ensures { Means result (meaning.flown (top_of frames.now).nest.held (λ e. meaning.unwinding e (top_of frames.now) (rest_of frames.now))) (top_of frames.now) (rest_of frames.now) }
{
    match frames.top.held {
        Held::Flying(exception) => fly(frames, exception),
        Held::Free | Held::Building(_) => Step::Lost,
    }
}

// The program ends as `std::terminate` does.
fn terminates() -> Step
    ensures { result ≡ Ends (Stop Terminate) }
{
    Step::Ends(Event::Stop {
        end: End::Terminate,
    })
}

// `rethrow`.
fn rethrow(frames: &FrameStack) -> Step
    ensures { Means result (meaning.if_some (meaning.current (top_of frames.now ∷ rest_of frames.now)) (meaning.Ends (Stop Terminate)) (λ e. meaning.unwinding e (top_of frames.now) (rest_of frames.now))) (top_of frames.now) (rest_of frames.now) }
{
    match frames.current() {
        None => terminates(),
        Some(exception) => fly(frames, exception),
    }
}

// `xdone`.
fn end_handler(frames: &FrameStack) -> Step
    requires { frames.now.top.index < 18446744073709551615 }
    ensures { Means result (meaning.in_handler (top_of frames.now).nest.caught (meaning.goes (meaning.Runs (meaning.on_in (top_of frames.now) (meaning.handled (top_of frames.now).nest)) (rest_of frames.now)))) (top_of frames.now) (rest_of frames.now) }
{
    match frames.caught.top() {
        None => Step::Lost,
        Some(_) => Step::Does {
            event: Event::Silent,
            change: Change::EndHandler {
                index: frames.top.index + 1,
            },
        },
    }
}

// `ret`.
fn ret(frames: &FrameStack, words: u8) -> Step
    ensures { Means result (meaning.ret_act words (top_of frames.now) (rest_of frames.now)) (top_of frames.now) (rest_of frames.now) }
{
    if words == 0 {
        ret_none(frames)
    } else if words == 1 {
        ret_word(frames)
    } else {
        Step::Lost
    }
}

// `end` and `esync`.
fn end_block(frames: &FrameStack, event: Event) -> Step
    requires { frames.now.top.index < 18446744073709551615 }
    ensures { Means result (meaning.asks event (meaning.Runs (meaning.on_in (top_of frames.now) (meaning.closing (top_of frames.now).nest)) (rest_of frames.now))) (top_of frames.now) (rest_of frames.now) }
{
    Step::Does {
        event,
        change: Change::Close {
            index: frames.top.index + 1,
        },
    }
}

// `bsync`.
fn begin_sync(frames: &FrameStack) -> Step
    requires { frames.now.top.index < 18446744073709551615 }
    ensures { Means result (meaning.asks BeginSync (meaning.Runs (meaning.on_in (top_of frames.now) (meaning.opening (top_of frames.now).nest Sync)) (rest_of frames.now))) (top_of frames.now) (rest_of frames.now) }
{
    Step::Does {
        event: Event::BeginSync,
        change: Change::Open {
            block: Block::Sync,
            index: frames.top.index + 1,
        },
    }
}

// `inp`.
fn inp(frames: &FrameStack) -> Step
    requires { frames.now.top.index < 18446744073709551615 }
    ensures { Means result (meaning.Does Inp (λ r. meaning.Runs (meaning.on_with (top_of frames.now) (word_of (meaning.answered r) ∷ (top_of frames.now).words)) (rest_of frames.now))) (top_of frames.now) (rest_of frames.now) }
{
    Step::Does {
        event: Event::Inp,
        change: Change::Operate {
            taken: 0,
            given: Given::Answered,
            index: frames.top.index + 1,
        },
    }
}

// `abort`.
fn aborts() -> Step
    ensures { result ≡ Ends (Stop Aborted) }
{
    Step::Ends(Event::Stop { end: End::Abort })
}

/// An address in the frame.
pub(crate) fn frame_address(frames: &FrameStack, offset: u32) -> u64
    ensures { result ≡ meaning.offset_by frames.now.top.address offset }
{
    u64::from(frames.top.address) + u64::from(offset)
}

// An instruction.
fn operate_on(image: &Image, frames: &FrameStack, instr: Instr) -> Step
    requires index { frames.now.top.index < 18446744073709551615 }
    requires mode { InMode instr (top_of frames.now) (rest_of frames.now) }
    ensures { Means result (meaning.act (names_of (image_view image.now)) instr (top_of frames.now) (rest_of frames.now)) (top_of frames.now) (rest_of frames.now) }
{
    match instr {
        Instr::Push(word) => leave_word(frames, 0, word),
        Instr::Dup => dup(frames),
        Instr::Pop => pop(frames),
        Instr::Swap => swap(frames),
        Instr::Over => over(frames),
        Instr::FrameAddr(offset) => leave_word(frames, 0, frame_address(frames, offset)),
        Instr::GlobalAddr(offset) => leave_word(frames, 0, lookups::global_address(offset)),
        Instr::FuncAddr(func) => leave_word(frames, 0, lookups::func_address(func)),
        Instr::ClassAddr(class) => leave_word(frames, 0, lookups::class_address(class)),
        Instr::Load(kind) | Instr::TLoad(kind) => load(frames, kind, false),
        Instr::Store(kind) | Instr::TStore(kind) => store(frames, kind, false),
        Instr::VLoad(kind) => load(frames, kind, true),
        Instr::VStore(kind) => store(frames, kind, true),
        Instr::Bin { op, kind } => bin(frames, op, kind),
        Instr::Neg(kind) => neg(frames, kind),
        Instr::Conv { from, to } => conv(frames, from, to),
        Instr::Jump(target) => jump(frames, target),
        Instr::JumpZero(target) => jump_zero(frames, target),
        Instr::Call { func, words } => call(image, frames, func, false, words),
        Instr::TCall { func, words } => call(image, frames, func, true, words),
        Instr::CallIndirect { ty, words } => call_indirect(image, frames, ty, false, words),
        Instr::TCallIndirect { ty, words } => call_indirect(image, frames, ty, true, words),
        Instr::Slot { class, slot } => self::slot(image, frames, class, slot),
        Instr::Ret(words) => ret(frames, words),
        Instr::Begin(kind) => begin(frames, kind),
        Instr::End => end_block(frames, Event::EndAtomic),
        Instr::BeginSync => begin_sync(frames),
        Instr::EndSync => end_block(frames, Event::EndSync),
        Instr::Out => out(frames),
        Instr::Inp => inp(frames),
        Instr::Spawn => spawn(image, frames),
        Instr::Join => join(frames),
        Instr::Abort => aborts(),
        Instr::NewException(ty) => new_exception(frames, ty),
        Instr::PutException { offset, kind } => put_exception(frames, offset, kind),
        Instr::Throw => throw(frames),
        Instr::Rethrow => rethrow(frames),
        Instr::GetException { offset, kind } => get_exception(frames, offset, kind),
        Instr::EndHandler => end_handler(frames),
        Instr::Resume => resume(frames),
    }
}

// The edge of an atomic block.
fn cross(image: &Image, frames: &FrameStack, kind: BlockKind, to: Landing) -> Step
    ensures { Means result (meaning.edge_act (Raise kind ((names_of (image_view image.now)).cancels to.exception.ty)) to.target (meaning.cut to.depth (top_of frames.now).words) (exception_of to.exception) (top_of frames.now) (rest_of frames.now)) (top_of frames.now) (rest_of frames.now) }
{
    Step::Does {
        event: Event::Raise {
            kind,
            cancels: lookups::cancels(image, to.exception.ty),
        },
        change: Change::Cross(to),
    }
}

// A row that takes an exception.
fn land(image: &Image, frames: &FrameStack, what: u8, to: Landing) -> Step
    ensures { Means result (meaning.row_act (names_of (image_view image.now)) what to.target (meaning.cut to.depth (top_of frames.now).words) (exception_of to.exception) (top_of frames.now) (rest_of frames.now)) (top_of frames.now) (rest_of frames.now) }
{
    match what {
        0 => Step::Does {
            event: Event::Silent,
            change: Change::Clean(to),
        },
        1 | 2 => Step::Does {
            event: Event::Silent,
            change: Change::Handle(to),
        },
        3 => cross(image, frames, BlockKind::NoExcept, to),
        4 => cross(image, frames, BlockKind::Commit, to),
        5 => cross(image, frames, BlockKind::Cancel, to),
        6 => Step::Does {
            event: Event::EndSync,
            change: Change::Cross(to),
        },
        _ => Step::Lost,
    }
}

// No row takes it.
fn leave(image: &Image, frames: &FrameStack, exception: Exception) -> Step
    ensures { Means result (meaning.leave_act (names_of (image_view image.now)) (exception_of exception) (top_of frames.now) (rest_of frames.now)) (top_of frames.now) (rest_of frames.now) }
{
    if frames.is_outermost() || lookups::is_no_except(image, frames.top.func) {
        terminates()
    } else {
        Step::Does {
            event: Event::Silent,
            change: Change::Leave(exception),
        }
    }
}

// A frame that an exception unwinds.
fn unwind(image: &Image, frames: &FrameStack, exception: Exception) -> Step
    ensures { Means result (meaning.step_act (names_of (image_view image.now)) (meaning.Unwinds (exception_of exception) (top_of frames.now) (rest_of frames.now))) (top_of frames.now) (rest_of frames.now) }
{
    let frame = &frames.top;
    match lookups::row(image, frame.func, frame.safe, frame.index, exception.ty) {
        None => leave(image, frames, exception),
        Some(row) => land(
            image,
            frames,
            row.what,
            Landing {
                exception,
                target: row.target,
                depth: row.depth,
            },
        ),
    }
}

// A frame that runs.
fn run(image: &Image, frames: &FrameStack) -> Step
    requires { KnowsMode (names_of (image_view image.now)) (top_of frames.now) (rest_of frames.now) }
    ensures { Means result (meaning.step_act (names_of (image_view image.now)) (meaning.Runs (top_of frames.now) (rest_of frames.now))) (top_of frames.now) (rest_of frames.now) }
{
    let frame = &frames.top;
    match lookups::instr(image, frame.func, frame.safe, frame.index) {
        None => Step::Lost,
        Some(instr) => operate_on(image, frames, instr),
    }
}

/// The next step of a thread of an image.
pub(crate) fn next_step(image: &Image, frames: &FrameStack) -> Step
    requires { Modes (names_of (image_view image.now)) (shown frames.now) }
    ensures { Means result (meaning.step_act (names_of (image_view image.now)) (shown frames.now)) (top_of frames.now) (rest_of frames.now) }
{
    match frames.flight {
        None => run(image, frames),
        Some(exception) => unwind(image, frames, exception),
    }
}
