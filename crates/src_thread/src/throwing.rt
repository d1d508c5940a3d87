//! Exceptions and their handlers (C++14 15.1, 15.3).

ghost use Rattle.std.specs.Prelude.{◌≡◌, ◌∷◌, ℕ, false, IfOk};
ghost use Rattle.cpp_tree.specs.tx_events.declared.Event.TheVariants.{Silent};
ghost use Rattle.cpp_tree.specs.cpp_layout.Layout.{kind_size};
ghost use Rattle.cpp_tree.specs.declared.program.Program.{Program};
ghost use Rattle.src_mean.specs.Exceptions.{no_bytes as zero_bytes, bytes_of, with_bytes as bytes_put, read_bytes as bytes_read};
ghost use Rattle.src_mean.specs.Frames.{at, Gives as GivesWord, Fills as FillsIn, Trying as TryingOne, Takes as TakesOf};
ghost use Rattle.src_mean.specs.Source.{give, handle as handles, fill_field as fills_field, take_field as takes_field, write as writes, plus as sum_of};
ghost use Rattle.src_bind.specs.Bounds.{given};
ghost use Rattle.src_frames.specs.Shown.{throwing_shown, exception_shown, thrown_by};
ghost use Rattle.src_frames.specs.Bounds.{tree_of, all_kids, here_of, frames_of, linked_in, after};

use crate::leaving::leave;
use crate::roots::{FieldAt, field_of, handler_place};
use cpp_tree::TKind;
use cpp_tree::below::{EXCEPTION_SIZE, IntKind};
use src_bind::Bound;
use src_frames::bytes::{read_bytes, with_bytes};
use src_frames::frames::{Exception, ExceptionFrame, Exit, Frame, Way};
use src_frames::state::{Going, State, place_address};
use src_frames::texts::{catches, is_object};
use src_frames::trees::{KidsAt, TreeAt, first, head, kids_of, kind_of, rest};
use src_frames::words::plus;

// An exception of zero bytes.
fn no_bytes(thrown: TreeAt) -> Exception
    ensures { (p : Program) → exception_shown p result ≡ record { typ = thrown_by p thrown; bytes = zero_bytes } }
{
    Exception {
        thrown,
        bytes: [0; EXCEPTION_SIZE],
    }
}

// The exception with a field.
fn with_field(made: Exception, offset: u32, kind: IntKind, word: u64) -> Exception
    ensures { (p : Program) → exception_shown p result ≡ record { typ = thrown_by p made.thrown; bytes = bytes_put offset (bytes_of (kind_size kind) word) made.bytes } }
{
    Exception {
        thrown: made.thrown,
        bytes: with_bytes(made.bytes, offset, kind, word),
    }
}

/// Goes on with a value for an exception.
pub(crate) fn give_exception(
    state: &mut State,
    bound: &Bound<'_>,
    frame: ExceptionFrame,
    value: u64,
) -> Going
    ensures { IfOk result (λ o. after bound.now o state.new ≡ give (linked_in bound.now) (here_of bound.now state.old) value (throwing_shown (given bound.now).program frame ∷ frames_of bound.now state.old)) }
{
    match frame {
        ExceptionFrame::Throws { thrown, fields } => {
            fills(state, bound, value, fields, no_bytes(thrown))
        }
        ExceptionFrame::Fills { from, fields, made } => fill(state, bound, from, fields, made),
        ExceptionFrame::Filled {
            from,
            offset,
            kind,
            fields,
            made,
        } => fills(
            state,
            bound,
            from,
            fields,
            with_field(made, offset, kind, value),
        ),
        ExceptionFrame::Tries(_) => Ok(Some(0)),
        ExceptionFrame::Trying {
            exception,
            handler,
            others,
        } => try_handler(state, bound, exception, handler, others),
        ExceptionFrame::Takes {
            exception,
            base,
            fields,
        } => take(state, bound, exception, base, fields),
        ExceptionFrame::Taking {
            exception,
            base,
            offset,
            kind,
        } => store_field(state, bound, &exception, base, offset, kind),
        ExceptionFrame::Handling(_) => Ok(Some(value)),
    }
}

// Fills these fields of an exception.
fn fills(state: &mut State, bound: &Bound<'_>, from: u64, fields: KidsAt, made: Exception) -> Going
    ensures { IfOk result (λ o. after bound.now o state.new ≡ at Silent (here_of bound.now state.old) (FillsIn (thrown_by (given bound.now).program made.thrown) from (all_kids bound.now fields) made.bytes ∷ (frames_of bound.now state.old))) }
{
    let frame = ExceptionFrame::Fills { from, fields, made };
    state.goes(bound, Frame::Exception(frame))
}

// Fills the next field of an exception, or throws it.
#[tactic(auto, using(crate::proofs::Steps::fills_more, crate::proofs::Steps::fills_none))]
fn fill(state: &mut State, bound: &Bound<'_>, from: u64, fields: KidsAt, made: Exception) -> Going
    ensures { (v : ℕ) → IfOk result (λ o. after bound.now o state.new ≡ give (linked_in bound.now) (here_of bound.now state.old) v (FillsIn (thrown_by (given bound.now).program made.thrown) from (all_kids bound.now fields) made.bytes ∷ (frames_of bound.now state.old))) }
{
    match head(bound, fields) {
        Some(field) => {
            let kind = kind_of(bound, field);
            fill_field(state, bound, from, kind, rest(bound, fields), made)
        }
        None => leave(state, bound, Exit::Throws(made)),
    }
}

// Fills a field of an exception; what is no field is passed over.
#[tactic(auto, using(crate::proofs::Steps::fill_some, crate::proofs::Steps::fill_other))]
fn fill_field(
    state: &mut State,
    bound: &Bound<'_>,
    from: u64,
    kind: TKind,
    others: KidsAt,
    made: Exception,
) -> Going
    ensures { IfOk result (λ o. after bound.now o state.new ≡ fills_field (here_of bound.now state.old) (thrown_by (given bound.now).program made.thrown) from kind (all_kids bound.now others) made.bytes (frames_of bound.now state.old)) }
{
    match field_of(kind) {
        Some(field) => fill_at(state, bound, from, field, others, made),
        None => fills(state, bound, from, others, made),
    }
}

// Fills a field of an exception, from the object that is thrown or with the value.
fn fill_at(
    state: &mut State,
    bound: &Bound<'_>,
    from: u64,
    field: FieldAt,
    others: KidsAt,
    made: Exception,
) -> Going
    ensures { IfOk result (λ o. after bound.now o state.new ≡ fills_field (here_of bound.now state.old) (thrown_by (given bound.now).program made.thrown) from (TKind.Field field.offset field.kind) (all_kids bound.now others) made.bytes (frames_of bound.now state.old)) }
{
    let FieldAt { offset, kind } = field;
    if is_object(bound, made.thrown) {
        let frame = ExceptionFrame::Filled {
            from,
            offset,
            kind,
            fields: others,
            made,
        };
        state.push(bound, Frame::Exception(frame))?;
        state.read(bound, plus(from, u64::from(offset)), kind, false)
    } else {
        let filled = with_field(made, offset, kind, from);
        fills(state, bound, from, others, filled)
    }
}

// Enters a handler that catches the exception, or tries the others.
fn try_handler(
    state: &mut State,
    bound: &Bound<'_>,
    exception: Exception,
    handler: TreeAt,
    others: KidsAt,
) -> Going
    ensures { (v : ℕ) → IfOk result (λ o. after bound.now o state.new ≡ give (linked_in bound.now) (here_of bound.now state.old) v (TryingOne (exception_shown (given bound.now).program exception) (tree_of bound.now handler) (all_kids bound.now others) ∷ (frames_of bound.now state.old))) }
{
    if catches(state.alloc, bound, handler, exception.thrown)? {
        handle(state, bound, exception, handler)
    } else {
        state.push(bound, Frame::Exception(ExceptionFrame::Tries(others)))?;
        leave(state, bound, Exit::Throws(exception))
    }
}

// Enters a handler: its object gets the bytes, and then its body runs.
#[tactic(auto, using(crate::proofs::Steps::handle_tree, crate::proofs::Steps::taken_some, crate::proofs::Steps::taken_other))]
fn handle(state: &mut State, bound: &Bound<'_>, exception: Exception, handler: TreeAt) -> Going
    ensures { IfOk result (λ o. after bound.now o state.new ≡ handles (here_of bound.now state.old) (exception_shown (given bound.now).program exception) (tree_of bound.now handler) (frames_of bound.now state.old)) }
{
    let kids = kids_of(bound, handler);
    let body = Frame::Then(Way::Value, first(bound, kids));
    state.push(bound, Frame::Exception(ExceptionFrame::Handling(exception)))?;
    match handler_place(kind_of(bound, handler)) {
        Some(place) => {
            let frame = ExceptionFrame::Takes {
                exception,
                base: place_address(bound, &state.here, place),
                fields: rest(bound, kids),
            };
            state.push(bound, body)?;
            state.goes(bound, Frame::Exception(frame))
        }
        None => state.goes(bound, body),
    }
}

// Stores the next field of an exception into a handler's object.
#[tactic(auto, using(crate::proofs::Steps::takes_more, crate::proofs::Steps::takes_none))]
fn take(
    state: &mut State,
    bound: &Bound<'_>,
    exception: Exception,
    base: u64,
    fields: KidsAt,
) -> Going
    ensures { (v : ℕ) → IfOk result (λ o. after bound.now o state.new ≡ give (linked_in bound.now) (here_of bound.now state.old) v (TakesOf (exception_shown (given bound.now).program exception) base (all_kids bound.now fields) ∷ (frames_of bound.now state.old))) }
{
    match head(bound, fields) {
        Some(field) => {
            let kind = kind_of(bound, field);
            take_field(state, bound, exception, base, kind, rest(bound, fields))
        }
        None => Ok(Some(0)),
    }
}

// Stores a field of an exception; what is no field is passed over.
#[tactic(auto, using(crate::proofs::Steps::take_some, crate::proofs::Steps::take_other))]
fn take_field(
    state: &mut State,
    bound: &Bound<'_>,
    exception: Exception,
    base: u64,
    kind: TKind,
    others: KidsAt,
) -> Going
    ensures { IfOk result (λ o. after bound.now o state.new ≡ takes_field (here_of bound.now state.old) (exception_shown (given bound.now).program exception) base kind (all_kids bound.now others) (frames_of bound.now state.old)) }
{
    let behind = Frame::Exception(ExceptionFrame::Takes {
        exception,
        base,
        fields: others,
    });
    match field_of(kind) {
        Some(field) => {
            let frame = ExceptionFrame::Taking {
                exception,
                base,
                offset: field.offset,
                kind: field.kind,
            };
            state.push(bound, behind)?;
            state.goes(bound, Frame::Exception(frame))
        }
        None => state.goes(bound, behind),
    }
}

// Stores a field of an exception into a handler's object.
fn store_field(
    state: &mut State,
    bound: &Bound<'_>,
    exception: &Exception,
    base: u64,
    offset: u32,
    kind: IntKind,
) -> Going
    ensures { IfOk result (λ o. after bound.now o state.new ≡ writes (here_of bound.now state.old) (sum_of base offset) kind false (bytes_read exception.now.bytes offset (kind_size kind)) (GivesWord 0 ∷ frames_of bound.now state.old)) }
{
    let word = read_bytes(&exception.bytes, offset, kind);
    let addr = plus(base, u64::from(offset));
    state.write(bound, addr, kind, false, word, Frame::Gives(0))
}
