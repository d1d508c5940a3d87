//! Programs that are judged, by the definition. A function here does nothing: its clauses are computed by the check. Each
//! program stands in `specs/Examples.antt`, in C++ beside its typed trees.
ghost use Rattle.std.specs.Prelude.{◌≡◌, Some, None, true, false};
ghost use Rattle.cpp_tree.specs.cpp_types.Typ.{int, ref, array, class};
ghost use Rattle.cpp_tree.specs.cpp_types.declared.classes.Safety.TheVariants.{Safe, Dynamic};
ghost use Rattle.cpp_tree.specs.Notation.{plain};
ghost use Rattle.cpp_tree.specs.declared.faults.UnsafeReason.TheVariants.{VolatileRead, VolatileWrite, VolatileTemp, VolatileLocal, VolatileParam, CallsUnsafe, CallsUnsafePointer};
ghost use Rattle.tx_safety.specs.Safe.{first_unsafe, is_safe};
ghost use Rattle.tx_safety.specs.Examples.{found, puts_inside, puts_behind, reads_inside, updates_inside, virtual_destructor, plain_destructor, recursion, unsafe_recursion, recursion_inside, mutual_pair, called_early, implicit_destructor, virtual_call, quiet_virtual, loud, only, as_considered, promised, lambda_called, declares, makes, takes, constructs, through_pointer, volatile_int};

/// Output, a volatile read and a virtual destructor, and the nearest that is not unsafe.
#[tactic(auto, unfolding(crate::specs::Safe::first_unsafe))]
pub fn three_unsafe()
    ensures output { first_unsafe puts_inside ≡ found 31 CallsUnsafe }
    ensures behind { first_unsafe puts_behind ≡ None }
    ensures read { first_unsafe reads_inside ≡ found 58 VolatileRead }
    ensures update { first_unsafe updates_inside ≡ found 47 VolatileWrite }
    ensures destructor { first_unsafe virtual_destructor ≡ found 63 CallsUnsafe }
    ensures not_virtual { first_unsafe plain_destructor ≡ None }
{}

/// Functions that call themselves, and functions that are called before their definition.
#[tactic(auto, unfolding(crate::specs::Safe::first_unsafe))]
pub fn definitions()
    ensures recursion { first_unsafe recursion ≡ None }
    ensures inside { first_unsafe recursion_inside ≡ None }
    ensures unsafe_recursion { first_unsafe unsafe_recursion ≡ found 30 CallsUnsafe }
    ensures mutual { first_unsafe mutual_pair ≡ found 129 CallsUnsafe }
    ensures early { first_unsafe called_early ≡ found 40 CallsUnsafe }
    ensures implicit { first_unsafe (implicit_destructor 70) ≡ None }
    ensures implicit_early { first_unsafe (implicit_destructor 50) ≡ found 50 CallsUnsafe }
{}

/// Virtual functions, what overrides safe ones, and lambdas.
#[tactic(auto, unfolding(crate::specs::Safe::first_unsafe))]
pub fn overriders()
    ensures dynamic { first_unsafe (virtual_call (promised Dynamic quiet_virtual)) ≡ None }
    ensures undeclared { first_unsafe (virtual_call quiet_virtual) ≡ found 50 CallsUnsafe }
    ensures not_safe { first_unsafe (only loud) ≡ None }
    ensures considered { first_unsafe (only (as_considered loud)) ≡ found 25 CallsUnsafe }
    ensures dynamic_body { first_unsafe (only (promised Dynamic loud)) ≡ found 25 CallsUnsafe }
    ensures safe_body { first_unsafe (only (promised Safe loud)) ≡ found 25 CallsUnsafe }
    ensures lambda { first_unsafe lambda_called ≡ found 60 CallsUnsafe }
{}

/// Volatile objects and objects with a volatile part, and calls through pointers.
#[tactic(auto, unfolding(crate::specs::Safe::first_unsafe))]
pub fn objects()
    ensures variable { first_unsafe (declares volatile_int) ≡ found 50 VolatileLocal }
    ensures held { first_unsafe (declares (plain (class 0))) ≡ found 50 VolatileLocal }
    ensures elements { first_unsafe (declares (plain (array volatile_int 2))) ≡ found 50 VolatileLocal }
    ensures reference { first_unsafe (declares (plain (ref volatile_int))) ≡ None }
    ensures temporary { first_unsafe (makes (plain (class 1))) ≡ found 50 VolatileTemp }
    ensures plain_temporary { first_unsafe (makes (plain (class 2))) ≡ None }
    ensures parameter { first_unsafe (takes (plain (class 0))) ≡ found 21 VolatileParam }
    ensures reference_parameter { first_unsafe (takes (plain (ref (plain (class 0))))) ≡ None }
    ensures constructor { first_unsafe (constructs 1) ≡ found 30 VolatileWrite }
    ensures plain_constructor { first_unsafe (constructs 0) ≡ None }
    ensures pointer { first_unsafe (through_pointer false) ≡ found 50 CallsUnsafePointer }
    ensures safe_pointer { first_unsafe (through_pointer true) ≡ None }
{}
