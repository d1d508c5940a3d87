//! Worked programs, and all that they do: the events of thread 0 but the silent ones, and the end. A function here does
//! nothing: its clauses are computed by the check. Each program stands in `specs/`, in C++ beside its typed trees.
ghost use Rattle.std.specs.Prelude.{◌≡◌, pos, true};
ghost use Rattle.cpp_tree.specs.tx_events.declared.End.TheVariants.{Exit, Abort, Terminate, Trapped};
ghost use Rattle.cpp_tree.specs.tx_events.declared.Trap.TheVariants.{Overflow};
ghost use Rattle.src_mean.specs.Notation.{bodies_fit};
ghost use Rattle.src_mean.specs.Runs.{outcome, ends};
ghost use Rattle.src_mean.specs.Blocks.{return_zero, return_zero_events, thin_path, thin_path_events, thin_path_overflow, thin_path_overflow_events, cancelled_block, cancelled_block_events, inner_cancel, inner_cancel_events, commit_on_throw, commit_on_throw_events, cancel_of_int, cancel_of_int_events};
ghost use Rattle.src_mean.specs.Objects.{destruction, destruction_events, destruction_of_parts, destruction_of_parts_events, virtual_in_constructor, virtual_in_constructor_events, lambda_capture, lambda_capture_events, conditional_temporary, conditional_temporary_events, argument_object, argument_object_events};
ghost use Rattle.src_mean.specs.Exits.{terminate, terminate_events, terminate_in_noexcept, terminate_in_noexcept_events, rethrow, rethrow_events, return_through_scopes, return_through_scopes_events, switch_skips_a_label, switch_skips_a_label_events, third_element_throws, third_element_throws_events};

/// `main` returns 0.
pub fn return_zero()
    ensures runs { outcome 2000 return_zero ≡ ends return_zero_events (Exit (pos 0)) }
    ensures well_formed { bodies_fit return_zero ≡ true }
{}

/// An atomic block adds to a global.
pub fn thin_path()
    ensures runs { outcome 2000 thin_path ≡ ends thin_path_events (Exit (pos 0)) }
    ensures well_formed { bodies_fit thin_path ≡ true }
{}

/// A sum that does not fit an `int`.
pub fn thin_path_overflow()
    ensures runs { outcome 2000 thin_path_overflow ≡ ends thin_path_overflow_events (Trapped Overflow) }
    ensures well_formed { bodies_fit thin_path_overflow ≡ true }
{}

/// A cancelled block: memory has its bytes again, and the exception goes on with its value.
pub fn cancelled_block()
    ensures runs { outcome 2000 cancelled_block ≡ ends cancelled_block_events (Exit (pos 0)) }
    ensures well_formed { bodies_fit cancelled_block ≡ true }
{}

/// A cancelled block inside one that commits.
pub fn inner_cancel()
    ensures runs { outcome 2000 inner_cancel ≡ ends inner_cancel_events (Exit (pos 0)) }
    ensures well_formed { bodies_fit inner_cancel ≡ true }
{}

/// An exception commits the block that it leaves.
pub fn commit_on_throw()
    ensures runs { outcome 2000 commit_on_throw ≡ ends commit_on_throw_events (Exit (pos 0)) }
    ensures well_formed { bodies_fit commit_on_throw ≡ true }
{}

/// An `int` does not support cancellation.
pub fn cancel_of_int()
    ensures runs { outcome 2000 cancel_of_int ≡ ends cancel_of_int_events Abort }
    ensures well_formed { bodies_fit cancel_of_int ≡ true }
{}

/// Locals are destroyed in reverse.
pub fn destruction()
    ensures runs { outcome 2000 destruction ≡ ends destruction_events (Exit (pos 0)) }
    ensures well_formed { bodies_fit destruction ≡ true }
{}

/// A constructor throws: the members that it built are destroyed in reverse.
pub fn destruction_of_parts()
    ensures runs { outcome 2000 destruction_of_parts ≡ ends destruction_of_parts_events (Exit (pos 0)) }
    ensures well_formed { bodies_fit destruction_of_parts ≡ true }
{}

/// A virtual call in a constructor goes to the class under construction.
pub fn virtual_in_constructor()
    ensures runs { outcome 2000 virtual_in_constructor ≡ ends virtual_in_constructor_events (Exit (pos 0)) }
    ensures well_formed { bodies_fit virtual_in_constructor ≡ true }
{}

/// A lambda that captures by reference, called in an atomic block.
pub fn lambda_capture()
    ensures runs { outcome 2000 lambda_capture ≡ ends lambda_capture_events (Exit (pos 0)) }
    ensures well_formed { bodies_fit lambda_capture ≡ true }
{}

/// A temporary of a conditional is destroyed at the end of the full-expression, where it was made.
pub fn conditional_temporary()
    ensures runs { outcome 2000 conditional_temporary ≡ ends conditional_temporary_events (Exit (pos 0)) }
    ensures well_formed { bodies_fit conditional_temporary ≡ true }
{}

/// An argument object is destroyed when the call is done, before its result is used.
pub fn argument_object()
    ensures runs { outcome 2000 argument_object ≡ ends argument_object_events (Exit (pos 0)) }
    ensures well_formed { bodies_fit argument_object ≡ true }
{}

/// An exception that no one catches.
pub fn terminate()
    ensures runs { outcome 2000 terminate ≡ ends terminate_events Terminate }
    ensures well_formed { bodies_fit terminate ≡ true }
{}

/// An exception that comes out of a `noexcept` function.
pub fn terminate_in_noexcept()
    ensures runs { outcome 2000 terminate_in_noexcept ≡ ends terminate_in_noexcept_events Terminate }
    ensures well_formed { bodies_fit terminate_in_noexcept ≡ true }
{}

/// Nested handlers that throw their exception again.
pub fn rethrow()
    ensures runs { outcome 2000 rethrow ≡ ends rethrow_events (Exit (pos 9)) }
    ensures well_formed { bodies_fit rethrow ≡ true }
{}

/// A `return` through two scopes and a block: objects, the end of the block, objects.
pub fn return_through_scopes()
    ensures runs { outcome 2000 return_through_scopes ≡ ends return_through_scopes_events (Exit (pos 0)) }
    ensures well_formed { bodies_fit return_through_scopes ≡ true }
{}

/// A `switch` goes past a label that is not equal, and on from the one that is.
pub fn switch_skips_a_label()
    ensures runs { outcome 2000 switch_skips_a_label ≡ ends switch_skips_a_label_events (Exit (pos 0)) }
    ensures well_formed { bodies_fit switch_skips_a_label ≡ true }
{}

/// The constructor of the third element throws: the first two are destroyed in reverse.
pub fn third_element_throws()
    ensures runs { outcome 2000 third_element_throws ≡ ends third_element_throws_events (Exit (pos 0)) }
    ensures well_formed { bodies_fit third_element_throws ≡ true }
{}
