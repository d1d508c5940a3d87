//! Whether two kinds of tree nodes are one.

ghost use Rattle.std.specs.Prelude.{◌≡◌, ◌↔◌, IsTrue};

use crate::parts::{equal_changes, equal_operators};
use cpp_tree::TKind;
use src_frames::frames::Change;

/// Whether two kinds are one.
pub fn equal_kinds(left: TKind, right: TKind) -> bool
    ensures { IsTrue result ↔ (left ≡ right) }
{
    match left {
        TKind::Literal { word } => match right {
            TKind::Literal { word: other_word } => word == other_word,
            _ => false,
        },
        TKind::Local { place } => match right {
            TKind::Local { place: other_place } => place == other_place,
            _ => false,
        },
        TKind::Global { global } => match right {
            TKind::Global {
                global: other_global,
            } => global == other_global,
            _ => false,
        },
        TKind::Function { func } => match right {
            TKind::Function { func: other_func } => func == other_func,
            _ => false,
        },
        TKind::ClassTable { class } => match right {
            TKind::ClassTable { class: other_class } => class == other_class,
            _ => false,
        },
        TKind::Load { kind, volatile } => match right {
            TKind::Load {
                kind: other_kind,
                volatile: other_volatile,
            } => kind == other_kind && volatile == other_volatile,
            _ => false,
        },
        TKind::Convert { to } => match right {
            TKind::Convert { to: other_to } => to == other_to,
            _ => false,
        },
        TKind::Retype => matches!(right, TKind::Retype),
        TKind::Binary { op, kind } => match right {
            TKind::Binary {
                op: other_op,
                kind: other_kind,
            } => equal_operators(op, kind, other_op, other_kind),
            _ => false,
        },
        TKind::Conditional => matches!(right, TKind::Conditional),
        TKind::Comma => matches!(right, TKind::Comma),
        TKind::Assign { kind, volatile } => match right {
            TKind::Assign {
                kind: other_kind,
                volatile: other_volatile,
            } => kind == other_kind && volatile == other_volatile,
            _ => false,
        },
        TKind::Update {
            op,
            stored,
            operation,
            volatile,
            old,
        } => match right {
            TKind::Update {
                op: other_op,
                stored: other_stored,
                operation: other_operation,
                volatile: other_volatile,
                old: other_old,
            } => equal_changes(
                Change {
                    op,
                    stored,
                    operation,
                    volatile,
                    old,
                },
                Change {
                    op: other_op,
                    stored: other_stored,
                    operation: other_operation,
                    volatile: other_volatile,
                    old: other_old,
                },
            ),
            _ => false,
        },
        TKind::CopyAssign => matches!(right, TKind::CopyAssign),
        TKind::Materialize { place, argument } => match right {
            TKind::Materialize {
                place: other_place,
                argument: other_argument,
            } => place == other_place && argument == other_argument,
            _ => false,
        },
        TKind::FullExpression => matches!(right, TKind::FullExpression),
        TKind::Call { func } => match right {
            TKind::Call { func: other_func } => func == other_func,
            _ => false,
        },
        TKind::VirtualCall {
            func,
            class,
            slot,
            pointer,
        } => match right {
            TKind::VirtualCall {
                func: other_func,
                class: other_class,
                slot: other_slot,
                pointer: other_pointer,
            } => func == other_func
                && class == other_class
                && slot == other_slot
                && pointer == other_pointer,
            _ => false,
        },
        TKind::PointerCall => matches!(right, TKind::PointerCall),
        TKind::Builtin { which } => match right {
            TKind::Builtin { which: other_which } => which == other_which,
            _ => false,
        },
        TKind::Throw => matches!(right, TKind::Throw),
        TKind::Rethrow => matches!(right, TKind::Rethrow),
        TKind::Store { kind, volatile } => match right {
            TKind::Store {
                kind: other_kind,
                volatile: other_volatile,
            } => kind == other_kind && volatile == other_volatile,
            _ => false,
        },
        TKind::CopyScalar { kind, volatile } => match right {
            TKind::CopyScalar {
                kind: other_kind,
                volatile: other_volatile,
            } => kind == other_kind && volatile == other_volatile,
            _ => false,
        },
        TKind::Construct { func } => match right {
            TKind::Construct { func: other_func } => func == other_func,
            _ => false,
        },
        TKind::CopyConstruct { func } => match right {
            TKind::CopyConstruct { func: other_func } => func == other_func,
            _ => false,
        },
        TKind::CopyFrom => matches!(right, TKind::CopyFrom),
        TKind::Pieces => matches!(right, TKind::Pieces),
        TKind::Piece { offset } => match right {
            TKind::Piece {
                offset: other_offset,
            } => offset == other_offset,
            _ => false,
        },
        TKind::Elements { count, stride } => match right {
            TKind::Elements {
                count: other_count,
                stride: other_stride,
            } => count == other_count && stride == other_stride,
            _ => false,
        },
        TKind::Block { subobjects } => match right {
            TKind::Block {
                subobjects: other_subobjects,
            } => subobjects == other_subobjects,
            _ => false,
        },
        TKind::Init => matches!(right, TKind::Init),
        TKind::Defer => matches!(right, TKind::Defer),
        TKind::Loop { test_first } => match right {
            TKind::Loop {
                test_first: other_test_first,
            } => test_first == other_test_first,
            _ => false,
        },
        TKind::Switch => matches!(right, TKind::Switch),
        TKind::Case { word } => match right {
            TKind::Case { word: other_word } => word == other_word,
            _ => false,
        },
        TKind::Default => matches!(right, TKind::Default),
        TKind::Break => matches!(right, TKind::Break),
        TKind::Continue => matches!(right, TKind::Continue),
        TKind::Return => matches!(right, TKind::Return),
        TKind::Try => matches!(right, TKind::Try),
        TKind::Handler { place: Some(place) } => match right {
            TKind::Handler { place: Some(other) } => place == other,
            _ => false,
        },
        TKind::Handler { place: None } => matches!(right, TKind::Handler { place: None }),
        TKind::Atomic { kind } => match right {
            TKind::Atomic { kind: other_kind } => kind == other_kind,
            _ => false,
        },
        TKind::Synchronized => matches!(right, TKind::Synchronized),
        TKind::Destroy {
            func,
            offset,
            count,
            stride,
        } => match right {
            TKind::Destroy {
                func: other_func,
                offset: other_offset,
                count: other_count,
                stride: other_stride,
            } => func == other_func
                && offset == other_offset
                && count == other_count
                && stride == other_stride,
            _ => false,
        },
        TKind::Field { offset, kind } => match right {
            TKind::Field {
                offset: other_offset,
                kind: other_kind,
            } => offset == other_offset && kind == other_kind,
            _ => false,
        },
    }
}
