//! Whether frames are the same.

ghost use Rattle.std.specs.Prelude.{ℕ, ◌≡◌, IsTrue};
ghost use Rattle.cpp_tree.specs.cpp_types.Typ.{Typ};
ghost use Rattle.cpp_tree.specs.declared.program.Program.{Program};
ghost use Rattle.src_mean.specs.Linked.{Func};
ghost use Rattle.symbolic_terms.specs.Meanings.{Meaning, Agrees};
ghost use Rattle.symbolic_terms.specs.Shown.{value_of, call_of, object_of, statement_of, block_of, throwing_of, frame_of, frames_of};

use crate::kinds::equal_kinds;
use crate::parts::{
    equal_callees, equal_changes, equal_exits, equal_kids, equal_opens, equal_owners, equal_parts,
    equal_trees, equal_waiting, equal_waitings, equal_ways,
};
use symbolic_terms::comparison::{equal_given, equal_lists, equal_thrown, equal_words};
use symbolic_terms::frames::{
    BlockFrame, CallFrame, ExceptionFrame, Frame, Frames, ObjectFrame, StatementFrame, ValueFrame,
};
use symbolic_terms::words::Words;

/// Whether two are the same: what is done with the value of an operand.
pub fn equal_values(words: &Words<'_>, left: &ValueFrame, right: &ValueFrame) -> bool
    ensures shows { IsTrue result → (types : ℕ → Typ) (m : Meaning) (p : Program) → Agrees types m words.now → value_of types m p left.now ≡ value_of types m p right.now }
{
    match (left, right) {
        (ValueFrame::Loads(kind, volatile), ValueFrame::Loads(other_kind, other_volatile)) => *kind
            == *other_kind
            && *volatile == *other_volatile,
        (ValueFrame::Loaded(kind), ValueFrame::Loaded(other_kind)) => *kind == *other_kind,
        (ValueFrame::Replied, ValueFrame::Replied) => true,
        (
            ValueFrame::StoreTo {
                address,
                kind,
                volatile,
                answer,
            },
            ValueFrame::StoreTo {
                address: other_address,
                kind: other_kind,
                volatile: other_volatile,
                answer: other_answer,
            },
        ) => equal_words(words, *address, *other_address)
            && *kind == *other_kind
            && *volatile == *other_volatile
            && equal_words(words, *answer, *other_answer),
        (ValueFrame::Converts(kind), ValueFrame::Converts(other_kind)) => *kind == *other_kind,
        (ValueFrame::Right(op, kind, tree), ValueFrame::Right(other_op, other_kind, other_tree)) =>
            *op == *other_op && *kind == *other_kind && equal_trees(*tree, *other_tree),
        (ValueFrame::Apply(op, kind, left), ValueFrame::Apply(other_op, other_kind, other_left)) =>
            *op == *other_op && *kind == *other_kind && equal_words(words, *left, *other_left),
        (
            ValueFrame::Choose { way, chosen, other },
            ValueFrame::Choose {
                way: other_way,
                chosen: other_chosen,
                other: other_other,
            },
        ) => equal_ways(words, way, other_way)
            && equal_trees(*chosen, *other_chosen)
            && equal_trees(*other, *other_other),
        (
            ValueFrame::AssignTo(kind, volatile, tree),
            ValueFrame::AssignTo(other_kind, other_volatile, other_tree),
        ) => *kind == *other_kind
            && *volatile == *other_volatile
            && equal_trees(*tree, *other_tree),
        (ValueFrame::UpdateAt(change, tree), ValueFrame::UpdateAt(other_change, other_tree)) =>
            equal_changes(*change, *other_change) && equal_trees(*tree, *other_tree),
        (
            ValueFrame::UpdateOld(change, address, tree),
            ValueFrame::UpdateOld(other_change, other_address, other_tree),
        ) => equal_changes(*change, *other_change)
            && equal_words(words, *address, *other_address)
            && equal_trees(*tree, *other_tree),
        (
            ValueFrame::UpdateBy {
                change,
                address,
                old,
            },
            ValueFrame::UpdateBy {
                change: other_change,
                address: other_address,
                old: other_old,
            },
        ) => equal_changes(*change, *other_change)
            && equal_words(words, *address, *other_address)
            && equal_words(words, *old, *other_old),
        (
            ValueFrame::CopyTo { source, init },
            ValueFrame::CopyTo {
                source: other_source,
                init: other_init,
            },
        ) => equal_trees(*source, *other_source) && equal_trees(*init, *other_init),
        (
            ValueFrame::CopyBy { target, init },
            ValueFrame::CopyBy {
                target: other_target,
                init: other_init,
            },
        ) => equal_words(words, *target, *other_target) && equal_trees(*init, *other_init),
        (
            ValueFrame::From { target, init },
            ValueFrame::From {
                target: other_target,
                init: other_init,
            },
        ) => equal_words(words, *target, *other_target) && equal_trees(*init, *other_init),
        _ => false,
    }
}

/// Whether two are the same: what a call is at.
pub fn equal_calls(words: &Words<'_>, left: &CallFrame<'_>, right: &CallFrame<'_>) -> bool
    ensures shows { IsTrue result → (types : ℕ → Typ) (m : Meaning) (p : Program) (f : Func) → Agrees types m words.now → call_of types m p f left.now ≡ call_of types m p f right.now }
{
    match (left, right) {
        (
            CallFrame::Words {
                callee,
                before,
                rest,
            },
            CallFrame::Words {
                callee: other_callee,
                before: other_before,
                rest: other_rest,
            },
        ) => equal_callees(words, callee, other_callee)
            && equal_lists(words, before, other_before)
            && equal_kids(*rest, *other_rest),
        (
            CallFrame::Object {
                before,
                class,
                slot,
                pointer,
                rest,
            },
            CallFrame::Object {
                before: other_before,
                class: other_class,
                slot: other_slot,
                pointer: other_pointer,
                rest: other_rest,
            },
        ) => equal_lists(words, before, other_before)
            && *class == *other_class
            && *slot == *other_slot
            && *pointer == *other_pointer
            && equal_kids(*rest, *other_rest),
        (
            CallFrame::Slot {
                before,
                class,
                slot,
                rest,
            },
            CallFrame::Slot {
                before: other_before,
                class: other_class,
                slot: other_slot,
                rest: other_rest,
            },
        ) => equal_lists(words, before, other_before)
            && *class == *other_class
            && *slot == *other_slot
            && equal_kids(*rest, *other_rest),
        (
            CallFrame::Pointer {
                before,
                pointer,
                rest,
            },
            CallFrame::Pointer {
                before: other_before,
                pointer: other_pointer,
                rest: other_rest,
            },
        ) => equal_lists(words, before, other_before)
            && equal_trees(*pointer, *other_pointer)
            && equal_kids(*rest, *other_rest),
        (
            CallFrame::Passes {
                words: passed,
                from,
            },
            CallFrame::Passes {
                words: other_passed,
                from: other_from,
            },
        ) => equal_lists(words, passed, other_passed) && *from == *other_from,
        _ => false,
    }
}

/// Whether two are the same: what is done for objects.
pub fn equal_objects(words: &Words<'_>, left: &ObjectFrame<'_>, right: &ObjectFrame<'_>) -> bool
    ensures shows { IsTrue result → (types : ℕ → Typ) (m : Meaning) (p : Program) → Agrees types m words.now → object_of types m p left.now ≡ object_of types m p right.now }
{
    match (left, right) {
        (ObjectFrame::Full { outer }, ObjectFrame::Full { outer: other_outer }) => equal_waitings(
            words,
            outer,
            other_outer,
        ),
        (ObjectFrame::Keeps(waiting), ObjectFrame::Keeps(other_waiting)) => equal_waiting(
            words,
            waiting,
            other_waiting,
        ),
        (
            ObjectFrame::Scope {
                owner,
                always,
                waiting,
            },
            ObjectFrame::Scope {
                owner: other_owner,
                always: other_always,
                waiting: other_waiting,
            },
        ) => equal_owners(*owner, *other_owner)
            && *always == *other_always
            && equal_waitings(words, waiting, other_waiting),
        (ObjectFrame::Waits(owner, waiting), ObjectFrame::Waits(other_owner, other_waiting)) =>
            equal_owners(*owner, *other_owner) && equal_waiting(words, waiting, other_waiting),
        (
            ObjectFrame::InitAt { init, destroys },
            ObjectFrame::InitAt {
                init: other_init,
                destroys: other_destroys,
            },
        ) => equal_trees(*init, *other_init) && equal_kids(*destroys, *other_destroys),
        (ObjectFrame::Cleans(waiting), ObjectFrame::Cleans(other_waiting)) => equal_waitings(
            words,
            waiting,
            other_waiting,
        ),
        (ObjectFrame::Due(destroys), ObjectFrame::Due(other_destroys)) => equal_kids(
            *destroys,
            *other_destroys,
        ),
        (
            ObjectFrame::Destroys {
                number,
                address,
                stride,
                left,
            },
            ObjectFrame::Destroys {
                number: other_number,
                address: other_address,
                stride: other_stride,
                left: other_left,
            },
        ) => *number == *other_number
            && equal_words(words, *address, *other_address)
            && *stride == *other_stride
            && equal_words(words, *left, *other_left),
        (
            ObjectFrame::Parts {
                kids,
                target,
                source,
            },
            ObjectFrame::Parts {
                kids: other_kids,
                target: other_target,
                source: other_source,
            },
        ) => equal_kids(*kids, *other_kids)
            && equal_words(words, *target, *other_target)
            && equal_words(words, *source, *other_source),
        (
            ObjectFrame::Each {
                init,
                destroys,
                stride,
                left,
                target,
                source,
            },
            ObjectFrame::Each {
                init: other_init,
                destroys: other_destroys,
                stride: other_stride,
                left: other_left,
                target: other_target,
                source: other_source,
            },
        ) => equal_trees(*init, *other_init)
            && equal_kids(*destroys, *other_destroys)
            && *stride == *other_stride
            && equal_words(words, *left, *other_left)
            && equal_words(words, *target, *other_target)
            && equal_words(words, *source, *other_source),
        _ => false,
    }
}

/// Whether two are the same: what a statement is at.
pub fn equal_statements(words: &Words<'_>, left: &StatementFrame, right: &StatementFrame) -> bool
    ensures shows { IsTrue result → (types : ℕ → Typ) (m : Meaning) (p : Program) → Agrees types m words.now → statement_of types m p left.now ≡ statement_of types m p right.now }
{
    match (left, right) {
        (StatementFrame::Items(items), StatementFrame::Items(other_items)) => equal_kids(
            *items,
            *other_items,
        ),
        (StatementFrame::Test(parts), StatementFrame::Test(other_parts)) => equal_parts(
            *parts,
            *other_parts,
        ),
        (StatementFrame::Body(parts), StatementFrame::Body(other_parts)) => equal_parts(
            *parts,
            *other_parts,
        ),
        (StatementFrame::Step(parts), StatementFrame::Step(other_parts)) => equal_parts(
            *parts,
            *other_parts,
        ),
        (StatementFrame::Picks(items), StatementFrame::Picks(other_items)) => equal_kids(
            *items,
            *other_items,
        ),
        (
            StatementFrame::Compares {
                word,
                label,
                behind,
                items,
            },
            StatementFrame::Compares {
                word: other_word,
                label: other_label,
                behind: other_behind,
                items: other_items,
            },
        ) => equal_words(words, *word, *other_word)
            && equal_kinds(*label, *other_label)
            && equal_kids(*behind, *other_behind)
            && equal_kids(*items, *other_items),
        (StatementFrame::Switches, StatementFrame::Switches) => true,
        (StatementFrame::Returning, StatementFrame::Returning) => true,
        _ => false,
    }
}

/// Whether two are the same: what a block is at.
pub fn equal_blocks(left: BlockFrame, right: BlockFrame) -> bool
    ensures shows { IsTrue result → (p : Program) → block_of left p ≡ block_of right p }
{
    match (left, right) {
        (BlockFrame::Opens(block, tree), BlockFrame::Opens(other_block, other_tree)) => equal_opens(
            block,
            other_block,
        ) && equal_trees(tree, other_tree),
        (BlockFrame::Within(block), BlockFrame::Within(other_block)) => equal_opens(
            block,
            other_block,
        ),
        (BlockFrame::Closes(block), BlockFrame::Closes(other_block)) => equal_opens(
            block,
            other_block,
        ),
        _ => false,
    }
}

/// Whether two are the same: what an exception or a handler is at.
pub fn equal_throwings(words: &Words<'_>, left: &ExceptionFrame, right: &ExceptionFrame) -> bool
    ensures shows { IsTrue result → (types : ℕ → Typ) (m : Meaning) (p : Program) → Agrees types m words.now → throwing_of types m p left.now ≡ throwing_of types m p right.now }
{
    match (left, right) {
        (
            ExceptionFrame::Throws { typ, fields },
            ExceptionFrame::Throws {
                typ: other_typ,
                fields: other_fields,
            },
        ) => *typ == *other_typ && equal_kids(*fields, *other_fields),
        (
            ExceptionFrame::Fills {
                typ,
                from,
                fields,
                puts,
            },
            ExceptionFrame::Fills {
                typ: other_typ,
                from: other_from,
                fields: other_fields,
                puts: other_puts,
            },
        ) => *typ == *other_typ
            && equal_words(words, *from, *other_from)
            && equal_kids(*fields, *other_fields)
            && equal_given(words, *puts, *other_puts),
        (
            ExceptionFrame::Filled {
                typ,
                from,
                offset,
                kind,
                fields,
                puts,
            },
            ExceptionFrame::Filled {
                typ: other_typ,
                from: other_from,
                offset: other_offset,
                kind: other_kind,
                fields: other_fields,
                puts: other_puts,
            },
        ) => *typ == *other_typ
            && equal_words(words, *from, *other_from)
            && *offset == *other_offset
            && *kind == *other_kind
            && equal_kids(*fields, *other_fields)
            && equal_given(words, *puts, *other_puts),
        (ExceptionFrame::Tries(handlers), ExceptionFrame::Tries(other_handlers)) => equal_kids(
            *handlers,
            *other_handlers,
        ),
        (
            ExceptionFrame::Trying {
                exception,
                handler,
                others,
            },
            ExceptionFrame::Trying {
                exception: other_exception,
                handler: other_handler,
                others: other_others,
            },
        ) => equal_thrown(words, *exception, *other_exception)
            && equal_trees(*handler, *other_handler)
            && equal_kids(*others, *other_others),
        (
            ExceptionFrame::Takes {
                exception,
                base,
                fields,
            },
            ExceptionFrame::Takes {
                exception: other_exception,
                base: other_base,
                fields: other_fields,
            },
        ) => equal_thrown(words, *exception, *other_exception)
            && equal_words(words, *base, *other_base)
            && equal_kids(*fields, *other_fields),
        (
            ExceptionFrame::Taking {
                exception,
                base,
                offset,
                kind,
            },
            ExceptionFrame::Taking {
                exception: other_exception,
                base: other_base,
                offset: other_offset,
                kind: other_kind,
            },
        ) => equal_thrown(words, *exception, *other_exception)
            && equal_words(words, *base, *other_base)
            && *offset == *other_offset
            && *kind == *other_kind,
        (ExceptionFrame::Handling(exception), ExceptionFrame::Handling(other_exception)) =>
            equal_thrown(words, *exception, *other_exception),
        _ => false,
    }
}

/// Whether two frames are the same.
pub fn equal_frame(words: &Words<'_>, left: &Frame<'_>, right: &Frame<'_>) -> bool
    ensures shows { IsTrue result → (types : ℕ → Typ) (m : Meaning) (p : Program) (f : Func) → Agrees types m words.now → frame_of types m p f left.now ≡ frame_of types m p f right.now }
{
    match (left, right) {
        (Frame::Run(way, tree), Frame::Run(other_way, other_tree)) => equal_ways(
            words, way, other_way,
        ) && equal_trees(*tree, *other_tree),
        (Frame::Address(word), Frame::Address(other_word)) => equal_words(
            words,
            *word,
            *other_word,
        ),
        (Frame::Then(way, tree), Frame::Then(other_way, other_tree)) => equal_ways(
            words, way, other_way,
        ) && equal_trees(*tree, *other_tree),
        (Frame::Gives(word), Frame::Gives(other_word)) => equal_words(words, *word, *other_word),
        (Frame::Leaves(exit), Frame::Leaves(other_exit)) => equal_exits(words, exit, other_exit),
        (Frame::Value(inner), Frame::Value(other_inner)) => equal_values(words, inner, other_inner),
        (Frame::Call(inner), Frame::Call(other_inner)) => equal_calls(words, inner, other_inner),
        (Frame::Object(inner), Frame::Object(other_inner)) => equal_objects(
            words,
            inner,
            other_inner,
        ),
        (Frame::Statement(inner), Frame::Statement(other_inner)) => equal_statements(
            words,
            inner,
            other_inner,
        ),
        (Frame::Block(inner), Frame::Block(other_inner)) => equal_blocks(*inner, *other_inner),
        (Frame::Exception(inner), Frame::Exception(other_inner)) => equal_throwings(
            words,
            inner,
            other_inner,
        ),
        _ => false,
    }
}

/// Whether two are the same: lists of frames.
pub fn equal_frames(words: &Words<'_>, left: &Frames<'_>, right: &Frames<'_>) -> bool
    ensures shows { IsTrue result → (types : ℕ → Typ) (m : Meaning) (p : Program) (f : Func) → Agrees types m words.now → frames_of types m p f left.now ≡ frames_of types m p f right.now }
{
    match (left, right) {
        (Frames::Empty, Frames::Empty) => true,
        (Frames::More(frame, rest), Frames::More(other_frame, others)) => {
            equal_frame(words, frame, other_frame) && equal_frames(words, rest, others)
        }
        _ => false,
    }
}
