// How the objects of classes are laid out, as it is kept: no use of a class walks over its members again.

ghost use Rattle.std.specs.Prelude.{◌≡◌, ◌<◌, true, None, Some, is_some, MatchOption, IfSome, slice_get};
ghost use Rattle.cpp_tree.specs.cpp_types.Typ.{typ_of};
ghost use Rattle.cpp_tree.specs.cpp_types.Class.{Class, Member, classes_of, completion_of};
ghost use Rattle.cpp_tree.specs.cpp_layout.Layout.{class_extent, extent_of};
ghost use Rattle.cpp_tree.specs.cpp_layout.Measured.{Measured, member_offset};
ghost use Rattle.cpp_tree.specs.cpp_layout.declared.extents.TheConstants.{GREATEST_SIZE};
ghost use Rattle.cpp_tree.specs.Typing.{form_in};
ghost use Rattle.elab_ctx.specs.Sized.{is_whole};

use crate::class_layout::ClassLayout;
use crate::env::Env;
use cpp_layout::extents::{has_no_elements, scalar_of, scaled};
use cpp_tree::below::{SizeAlign, Ty, held_class, size_align};

fn layout_at(env: &Env, class: u32) -> Option<&ClassLayout>
    ensures { MatchOption result (slice_get env.now.layouts.items class ≡ None) (λ l. slice_get env.now.layouts.items class ≡ Some l.now) }
{
    env.layouts.get(class as usize)
}

fn offset_at(layout: &ClassLayout, index: u32) -> Option<u32>
    ensures { result ≡ slice_get layout.now.offsets.items index }
{
    layout.offsets.get(index as usize).copied()
}

// The size and the alignment of the objects of a class that is complete; `None` where they are too large.
fn class_measured(env: &Env, class: u32) -> Option<SizeAlign>
    requires { is_some (completion_of (classes_of env.now.classes.items) class) ≡ true }
    ensures { MatchOption result (GREATEST_SIZE < (class_extent (classes_of env.now.classes.items) class).size) (λ s. Measured (class_extent (classes_of env.now.classes.items) class) s) }
{
    let layout = layout_at(env, class)?;
    if layout.is_known {
        Some(layout.extent)
    } else {
        None
    }
}

/// The size and the alignment of an object of a type, whose class, if it holds one, is complete; `None` where the size
/// passes 1,048,576 bytes.
pub fn measured(env: &Env, ty: &Ty) -> Option<SizeAlign>
    requires { is_whole (classes_of env.now.classes.items) (form_in (typ_of ty.now)) ≡ true }
    ensures { MatchOption result (GREATEST_SIZE < (extent_of (classes_of env.now.classes.items) (typ_of ty.now)).size) (λ s. Measured (extent_of (classes_of env.now.classes.items) (typ_of ty.now)) s) }
{
    // There are no arrays of no elements; one would have no size, however large the class is.
    if has_no_elements(&ty.shape) {
        return match size_align(ty, &env.classes) {
            Ok(found) => Some(found),
            Err(_) => None,
        };
    }
    match held_class(&ty.shape) {
        Some(class) => scaled(&ty.shape, class_measured(env, class)?),
        None => scaled(&ty.shape, scalar_of(1)),
    }
}

/// Where a member lies in the objects of a class, by its index; `None` where the class is not complete or is too large,
/// or has no such member.
pub fn member_place(env: &Env, class: u32, index: u32) -> Option<u32>
    ensures { IfSome result (λ o. (c : Class) (m : Member) → slice_get (classes_of env.now.classes.items) class ≡ Some c → slice_get c.members index ≡ Some m → o ≡ member_offset (classes_of env.now.classes.items) class c index m) }
{
    offset_at(layout_at(env, class)?, index)
}
