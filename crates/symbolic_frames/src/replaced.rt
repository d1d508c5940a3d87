//! Terms in the place of the variables of frames.

ghost use Rattle.std.specs.Prelude.{ℕ, ◌≡◌, IfOk};
ghost use Rattle.cpp_tree.specs.cpp_types.Typ.{Typ};
ghost use Rattle.cpp_tree.specs.declared.program.Program.{Program};
ghost use Rattle.src_mean.specs.Linked.{Func};
ghost use Rattle.symbolic_source.specs.Replacing.{in_way, in_exit, in_spot, in_waiting, in_waitings, in_callee, in_frame, in_frames};
ghost use Rattle.symbolic_terms.specs.Meanings.{Meaning, Agrees};
ghost use Rattle.symbolic_terms.specs.Replaced.{replacing_of};
ghost use Rattle.symbolic_terms.specs.Shown.{way_of, exit_of, spot_of, waiting_of, all_waiting, callee_of, value_of, call_of, object_of, statement_of, throwing_of, frame_of, frames_of};

use bumpalo::Bump;
use symbolic_terms::arena::keep;
use symbolic_terms::frames::{
    CallFrame, Callee, ExceptionFrame, Exit, Frame, Frames, ObjectFrame, Spot, StatementFrame,
    ValueFrame, Waiting, Waitings, Way,
};
use symbolic_terms::refusal::Refusal;
use symbolic_terms::replacing::{
    Replacing, replaced_given, replaced_thrown, replaced_word, replaced_words,
};
use symbolic_terms::words::Words;

/// The same with these terms in the place of variables: how a node is run.
pub fn replaced_way<'a>(
    arena: &'a Bump,
    words: &mut Words<'a>,
    with: Replacing<'a>,
    way: Way,
) -> Result<Way, Refusal>
    ensures is { IfOk result (λ c. (types : ℕ → Typ) (m : Meaning) → Agrees types m words.new → way_of types m c ≡ in_way (replacing_of types with.entry) (way_of types m way)) }
    ensures grows { (types : ℕ → Typ) (m : Meaning) → Agrees types m words.new → Agrees types m words.old }
{
    match way {
        Way::Value => Ok(Way::Value),
        Way::Into { target, source } => Ok(Way::Into {
            target: replaced_word(arena, words, with, target)?,
            source: replaced_word(arena, words, with, source)?,
        }),
    }
}

/// The same with these terms in the place of variables: what goes outward.
pub fn replaced_exit<'a>(
    arena: &'a Bump,
    words: &mut Words<'a>,
    with: Replacing<'a>,
    exit: Exit,
) -> Result<Exit, Refusal>
    ensures is { IfOk result (λ c. (types : ℕ → Typ) (m : Meaning) → Agrees types m words.new → exit_of types m c ≡ in_exit (replacing_of types with.entry) (exit_of types m exit)) }
    ensures grows { (types : ℕ → Typ) (m : Meaning) → Agrees types m words.new → Agrees types m words.old }
{
    match exit {
        Exit::Throws(exception) => Ok(Exit::Throws(replaced_thrown(
            arena, words, with, exception,
        )?)),
        Exit::Returns(word) => Ok(Exit::Returns(replaced_word(arena, words, with, word)?)),
        Exit::Breaks => Ok(Exit::Breaks),
        Exit::Continues => Ok(Exit::Continues),
    }
}

/// The same with these terms in the place of variables: what gives the address of a waiting object.
pub fn replaced_spot<'a>(
    arena: &'a Bump,
    words: &mut Words<'a>,
    with: Replacing<'a>,
    spot: Spot,
) -> Result<Spot, Refusal>
    ensures is { IfOk result (λ c. (types : ℕ → Typ) (m : Meaning) (p : Program) → Agrees types m words.new → spot_of types m p c ≡ in_spot (replacing_of types with.entry) (spot_of types m p spot)) }
    ensures grows { (types : ℕ → Typ) (m : Meaning) → Agrees types m words.new → Agrees types m words.old }
{
    match spot {
        Spot::Word(word) => Ok(Spot::Word(replaced_word(arena, words, with, word)?)),
        Spot::Tree(tree) => Ok(Spot::Tree(tree)),
    }
}

/// The same with these terms in the place of variables: objects that wait.
pub fn replaced_waiting<'a>(
    arena: &'a Bump,
    words: &mut Words<'a>,
    with: Replacing<'a>,
    waiting: Waiting,
) -> Result<Waiting, Refusal>
    ensures is { IfOk result (λ c. (types : ℕ → Typ) (m : Meaning) (p : Program) → Agrees types m words.new → waiting_of types m p c ≡ in_waiting (replacing_of types with.entry) (waiting_of types m p waiting)) }
    ensures grows { (types : ℕ → Typ) (m : Meaning) → Agrees types m words.new → Agrees types m words.old }
{
    Ok(Waiting {
        address: replaced_spot(arena, words, with, waiting.address)?,
        destroys: waiting.destroys,
    })
}

/// The same with these terms in the place of variables: a list of objects that wait.
pub fn replaced_waitings<'a>(
    arena: &'a Bump,
    words: &mut Words<'a>,
    with: Replacing<'a>,
    waitings: Waitings<'a>,
) -> Result<Waitings<'a>, Refusal>
    ensures is { IfOk result (λ c. (types : ℕ → Typ) (m : Meaning) (p : Program) → Agrees types m words.new → all_waiting types m p c ≡ in_waitings (replacing_of types with.entry) (all_waiting types m p waitings.entry)) }
    ensures grows { (types : ℕ → Typ) (m : Meaning) → Agrees types m words.new → Agrees types m words.old }
{
    match waitings {
        Waitings::Empty => Ok(Waitings::Empty),
        Waitings::More(waiting, rest) => {
            let waiting = replaced_waiting(arena, words, with, waiting)?;
            let rest = keep(arena, replaced_waitings(arena, words, with, *rest)?)?;
            Ok(Waitings::More(waiting, rest))
        }
    }
}

/// The same with these terms in the place of variables: what is called.
pub fn replaced_callee<'a>(
    arena: &'a Bump,
    words: &mut Words<'a>,
    with: Replacing<'a>,
    callee: Callee,
) -> Result<Callee, Refusal>
    ensures is { IfOk result (λ c. (types : ℕ → Typ) (m : Meaning) (p : Program) → Agrees types m words.new → callee_of types m p c ≡ in_callee (replacing_of types with.entry) (callee_of types m p callee)) }
    ensures grows { (types : ℕ → Typ) (m : Meaning) → Agrees types m words.new → Agrees types m words.old }
{
    match callee {
        Callee::Known(number) => Ok(Callee::Known(number)),
        Callee::Virtual {
            class,
            slot,
            address,
        } => Ok(Callee::Virtual {
            class,
            slot,
            address: replaced_word(arena, words, with, address)?,
        }),
        Callee::Pointer { address, pointer } => Ok(Callee::Pointer {
            address: replaced_word(arena, words, with, address)?,
            pointer,
        }),
        Callee::Builtin(which) => Ok(Callee::Builtin(which)),
    }
}

/// The same with these terms in the place of variables: what is done with the value of an operand.
pub fn replaced_value<'a>(
    arena: &'a Bump,
    words: &mut Words<'a>,
    with: Replacing<'a>,
    value: ValueFrame,
) -> Result<ValueFrame, Refusal>
    ensures is { IfOk result (λ c. (types : ℕ → Typ) (m : Meaning) (p : Program) → Agrees types m words.new → value_of types m p c ≡ in_frame (replacing_of types with.entry) (value_of types m p value)) }
    ensures grows { (types : ℕ → Typ) (m : Meaning) → Agrees types m words.new → Agrees types m words.old }
{
    match value {
        ValueFrame::Loads(kind, volatile) => Ok(ValueFrame::Loads(kind, volatile)),
        ValueFrame::Loaded(kind) => Ok(ValueFrame::Loaded(kind)),
        ValueFrame::Replied => Ok(ValueFrame::Replied),
        ValueFrame::StoreTo {
            address,
            kind,
            volatile,
            answer,
        } => Ok(ValueFrame::StoreTo {
            address: replaced_word(arena, words, with, address)?,
            kind,
            volatile,
            answer: replaced_word(arena, words, with, answer)?,
        }),
        ValueFrame::Converts(kind) => Ok(ValueFrame::Converts(kind)),
        ValueFrame::Right(op, kind, tree) => Ok(ValueFrame::Right(op, kind, tree)),
        ValueFrame::Apply(op, kind, left) => Ok(ValueFrame::Apply(
            op,
            kind,
            replaced_word(arena, words, with, left)?,
        )),
        ValueFrame::Choose { way, chosen, other } => Ok(ValueFrame::Choose {
            way: replaced_way(arena, words, with, way)?,
            chosen,
            other,
        }),
        ValueFrame::AssignTo(kind, volatile, tree) => Ok(ValueFrame::AssignTo(
            kind, volatile, tree,
        )),
        ValueFrame::UpdateAt(change, tree) => Ok(ValueFrame::UpdateAt(change, tree)),
        ValueFrame::UpdateOld(change, address, tree) => Ok(ValueFrame::UpdateOld(
            change,
            replaced_word(arena, words, with, address)?,
            tree,
        )),
        ValueFrame::UpdateBy {
            change,
            address,
            old,
        } => Ok(ValueFrame::UpdateBy {
            change,
            address: replaced_word(arena, words, with, address)?,
            old: replaced_word(arena, words, with, old)?,
        }),
        ValueFrame::CopyTo { source, init } => Ok(ValueFrame::CopyTo { source, init }),
        ValueFrame::CopyBy { target, init } => Ok(ValueFrame::CopyBy {
            target: replaced_word(arena, words, with, target)?,
            init,
        }),
        ValueFrame::From { target, init } => Ok(ValueFrame::From {
            target: replaced_word(arena, words, with, target)?,
            init,
        }),
    }
}

/// The same with these terms in the place of variables: what a call is at.
pub fn replaced_call<'a>(
    arena: &'a Bump,
    words: &mut Words<'a>,
    with: Replacing<'a>,
    call: CallFrame<'a>,
) -> Result<CallFrame<'a>, Refusal>
    ensures is { IfOk result (λ c. (types : ℕ → Typ) (m : Meaning) (p : Program) (f : Func) → Agrees types m words.new → call_of types m p f c ≡ in_frame (replacing_of types with.entry) (call_of types m p f call.entry)) }
    ensures grows { (types : ℕ → Typ) (m : Meaning) → Agrees types m words.new → Agrees types m words.old }
{
    match call {
        CallFrame::Words {
            callee,
            before,
            rest,
        } => Ok(CallFrame::Words {
            callee: replaced_callee(arena, words, with, callee)?,
            before: replaced_words(arena, words, with, before)?,
            rest,
        }),
        CallFrame::Object {
            before,
            class,
            slot,
            pointer,
            rest,
        } => Ok(CallFrame::Object {
            before: replaced_words(arena, words, with, before)?,
            class,
            slot,
            pointer,
            rest,
        }),
        CallFrame::Slot {
            before,
            class,
            slot,
            rest,
        } => Ok(CallFrame::Slot {
            before: replaced_words(arena, words, with, before)?,
            class,
            slot,
            rest,
        }),
        CallFrame::Pointer {
            before,
            pointer,
            rest,
        } => Ok(CallFrame::Pointer {
            before: replaced_words(arena, words, with, before)?,
            pointer,
            rest,
        }),
        CallFrame::Passes {
            words: passed,
            from,
        } => Ok(CallFrame::Passes {
            words: replaced_words(arena, words, with, passed)?,
            from,
        }),
    }
}

/// The same with these terms in the place of variables: what is done for objects.
pub fn replaced_object<'a>(
    arena: &'a Bump,
    words: &mut Words<'a>,
    with: Replacing<'a>,
    object: ObjectFrame<'a>,
) -> Result<ObjectFrame<'a>, Refusal>
    ensures is { IfOk result (λ c. (types : ℕ → Typ) (m : Meaning) (p : Program) → Agrees types m words.new → object_of types m p c ≡ in_frame (replacing_of types with.entry) (object_of types m p object.entry)) }
    ensures grows { (types : ℕ → Typ) (m : Meaning) → Agrees types m words.new → Agrees types m words.old }
{
    match object {
        ObjectFrame::Full { outer } => Ok(ObjectFrame::Full {
            outer: replaced_waitings(arena, words, with, outer)?,
        }),
        ObjectFrame::Keeps(waiting) => Ok(ObjectFrame::Keeps(replaced_waiting(
            arena, words, with, waiting,
        )?)),
        ObjectFrame::Scope {
            owner,
            always,
            waiting,
        } => Ok(ObjectFrame::Scope {
            owner,
            always,
            waiting: replaced_waitings(arena, words, with, waiting)?,
        }),
        ObjectFrame::Waits(owner, waiting) => Ok(ObjectFrame::Waits(
            owner,
            replaced_waiting(arena, words, with, waiting)?,
        )),
        ObjectFrame::InitAt { init, destroys } => Ok(ObjectFrame::InitAt { init, destroys }),
        ObjectFrame::Cleans(waiting) => Ok(ObjectFrame::Cleans(replaced_waitings(
            arena, words, with, waiting,
        )?)),
        ObjectFrame::Due(destroys) => Ok(ObjectFrame::Due(destroys)),
        ObjectFrame::Destroys {
            number,
            address,
            stride,
            left,
        } => Ok(ObjectFrame::Destroys {
            number,
            address: replaced_word(arena, words, with, address)?,
            stride,
            left: replaced_word(arena, words, with, left)?,
        }),
        ObjectFrame::Parts {
            kids,
            target,
            source,
        } => Ok(ObjectFrame::Parts {
            kids,
            target: replaced_word(arena, words, with, target)?,
            source: replaced_word(arena, words, with, source)?,
        }),
        ObjectFrame::Each {
            init,
            destroys,
            stride,
            left,
            target,
            source,
        } => Ok(ObjectFrame::Each {
            init,
            destroys,
            stride,
            left: replaced_word(arena, words, with, left)?,
            target: replaced_word(arena, words, with, target)?,
            source: replaced_word(arena, words, with, source)?,
        }),
    }
}

/// The same with these terms in the place of variables: what a statement is at.
pub fn replaced_statement<'a>(
    arena: &'a Bump,
    words: &mut Words<'a>,
    with: Replacing<'a>,
    statement: StatementFrame,
) -> Result<StatementFrame, Refusal>
    ensures is { IfOk result (λ c. (types : ℕ → Typ) (m : Meaning) (p : Program) → Agrees types m words.new → statement_of types m p c ≡ in_frame (replacing_of types with.entry) (statement_of types m p statement)) }
    ensures grows { (types : ℕ → Typ) (m : Meaning) → Agrees types m words.new → Agrees types m words.old }
{
    match statement {
        StatementFrame::Items(items) => Ok(StatementFrame::Items(items)),
        StatementFrame::Test(parts) => Ok(StatementFrame::Test(parts)),
        StatementFrame::Body(parts) => Ok(StatementFrame::Body(parts)),
        StatementFrame::Step(parts) => Ok(StatementFrame::Step(parts)),
        StatementFrame::Picks(items) => Ok(StatementFrame::Picks(items)),
        StatementFrame::Compares {
            word,
            label,
            behind,
            items,
        } => Ok(StatementFrame::Compares {
            word: replaced_word(arena, words, with, word)?,
            label,
            behind,
            items,
        }),
        StatementFrame::Switches => Ok(StatementFrame::Switches),
        StatementFrame::Returning => Ok(StatementFrame::Returning),
    }
}

/// The same with these terms in the place of variables: what an exception or a handler is at.
pub fn replaced_throwing<'a>(
    arena: &'a Bump,
    words: &mut Words<'a>,
    with: Replacing<'a>,
    throwing: ExceptionFrame,
) -> Result<ExceptionFrame, Refusal>
    ensures is { IfOk result (λ c. (types : ℕ → Typ) (m : Meaning) (p : Program) → Agrees types m words.new → throwing_of types m p c ≡ in_frame (replacing_of types with.entry) (throwing_of types m p throwing)) }
    ensures grows { (types : ℕ → Typ) (m : Meaning) → Agrees types m words.new → Agrees types m words.old }
{
    match throwing {
        ExceptionFrame::Throws { typ, fields } => Ok(ExceptionFrame::Throws { typ, fields }),
        ExceptionFrame::Fills {
            typ,
            from,
            fields,
            puts,
        } => Ok(ExceptionFrame::Fills {
            typ,
            from: replaced_word(arena, words, with, from)?,
            fields,
            puts: replaced_given(arena, words, with, puts)?,
        }),
        ExceptionFrame::Filled {
            typ,
            from,
            offset,
            kind,
            fields,
            puts,
        } => Ok(ExceptionFrame::Filled {
            typ,
            from: replaced_word(arena, words, with, from)?,
            offset,
            kind,
            fields,
            puts: replaced_given(arena, words, with, puts)?,
        }),
        ExceptionFrame::Tries(handlers) => Ok(ExceptionFrame::Tries(handlers)),
        ExceptionFrame::Trying {
            exception,
            handler,
            others,
        } => Ok(ExceptionFrame::Trying {
            exception: replaced_thrown(arena, words, with, exception)?,
            handler,
            others,
        }),
        ExceptionFrame::Takes {
            exception,
            base,
            fields,
        } => Ok(ExceptionFrame::Takes {
            exception: replaced_thrown(arena, words, with, exception)?,
            base: replaced_word(arena, words, with, base)?,
            fields,
        }),
        ExceptionFrame::Taking {
            exception,
            base,
            offset,
            kind,
        } => Ok(ExceptionFrame::Taking {
            exception: replaced_thrown(arena, words, with, exception)?,
            base: replaced_word(arena, words, with, base)?,
            offset,
            kind,
        }),
        ExceptionFrame::Handling(exception) => Ok(ExceptionFrame::Handling(replaced_thrown(
            arena, words, with, exception,
        )?)),
    }
}

/// The same with these terms in the place of variables: a frame.
pub fn replaced_frame<'a>(
    arena: &'a Bump,
    words: &mut Words<'a>,
    with: Replacing<'a>,
    frame: Frame<'a>,
) -> Result<Frame<'a>, Refusal>
    ensures is { IfOk result (λ c. (types : ℕ → Typ) (m : Meaning) (p : Program) (f : Func) → Agrees types m words.new → frame_of types m p f c ≡ in_frame (replacing_of types with.entry) (frame_of types m p f frame.entry)) }
    ensures grows { (types : ℕ → Typ) (m : Meaning) → Agrees types m words.new → Agrees types m words.old }
{
    match frame {
        Frame::Run(way, tree) => Ok(Frame::Run(replaced_way(arena, words, with, way)?, tree)),
        Frame::Address(word) => Ok(Frame::Address(replaced_word(arena, words, with, word)?)),
        Frame::Then(way, tree) => Ok(Frame::Then(replaced_way(arena, words, with, way)?, tree)),
        Frame::Gives(word) => Ok(Frame::Gives(replaced_word(arena, words, with, word)?)),
        Frame::Leaves(exit) => Ok(Frame::Leaves(replaced_exit(arena, words, with, exit)?)),
        Frame::Value(inner) => Ok(Frame::Value(replaced_value(arena, words, with, inner)?)),
        Frame::Call(inner) => Ok(Frame::Call(replaced_call(arena, words, with, inner)?)),
        Frame::Object(inner) => Ok(Frame::Object(replaced_object(arena, words, with, inner)?)),
        Frame::Statement(inner) => Ok(Frame::Statement(replaced_statement(
            arena, words, with, inner,
        )?)),
        Frame::Block(inner) => Ok(Frame::Block(inner)),
        Frame::Exception(inner) => Ok(Frame::Exception(replaced_throwing(
            arena, words, with, inner,
        )?)),
    }
}

/// The same with these terms in the place of variables: a list of frames.
#[tactic(auto, using(crate::proofs::InPlace::frames_replaced))]
pub fn replaced_frames<'a>(
    arena: &'a Bump,
    words: &mut Words<'a>,
    with: Replacing<'a>,
    frames: Frames<'a>,
) -> Result<Frames<'a>, Refusal>
    ensures is { IfOk result (λ c. (types : ℕ → Typ) (m : Meaning) (p : Program) (f : Func) → Agrees types m words.new → frames_of types m p f c ≡ in_frames (replacing_of types with.entry) (frames_of types m p f frames.entry)) }
    ensures grows { (types : ℕ → Typ) (m : Meaning) → Agrees types m words.new → Agrees types m words.old }
{
    match frames {
        Frames::Empty => Ok(Frames::Empty),
        Frames::More(frame, rest) => {
            let frame = replaced_frame(arena, words, with, frame)?;
            let rest = keep(arena, replaced_frames(arena, words, with, *rest)?)?;
            Ok(Frames::More(frame, rest))
        }
    }
}
