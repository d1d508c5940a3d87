//! Trees that are well-formed, and for each rule of well-formed programs the nearest ones that are not. A function
//! here does nothing: its clauses are computed by the check.
ghost use Rattle.std.specs.Prelude.{◌≡◌, ◌∷◌, [], Some, None, true, false};
ghost use Rattle.tx_ints.specs.declared.kinds.IntKind.TheVariants.{Bool as BoolKind, Int, Long, ULong};
ghost use Rattle.tx_ints.specs.declared.kinds.BinOp.TheVariants.{Add};
ghost use Rattle.cpp_layout.specs.cpp_types.Typ.{int, array};
ghost use Rattle.cpp_tree.specs.declared.kinds.TKind.TheVariants.{Literal, Local, Global, Load, Binary, Conditional, Comma, Assign, FullExpression, Call, Store, CopyScalar, Elements, Block, Init, Defer, Case, Default, Break, Continue, Return, Try, Handler, Destroy};
ghost use Rattle.cpp_tree.specs.Notation.{plain, effect, prvalue, lvalue};
ghost use Rattle.cpp_tree.specs.Examples.{item_fits, body, int_type, d, number, place, read, returned, block, build, destroy, constant, call_of_k, variable, w, stored, temporary, member, argument, loop, switch, thrown, field, when, virtual_call, thrown_object, lambda_variable, destroy_at, item_of_k_fits, no_result};

/// `return p;`, `D d(1);`, `x = 1 + 2;`, `return D(1).v;`, `g(D(1), i);`, a loop, a `switch`, `throw 5;` and a `try`.
#[tactic(auto, unfolding(tx_ints::specs::Integers::reduced, tx_ints::specs::Words::word_of))]
pub fn well_formed()
    ensures returns { item_fits (returned (read (place 0))) ≡ true }
    ensures declares { item_fits (effect Init (lvalue (Local 1) d [] ∷ build ∷ destroy ∷ [])) ≡ true }
    ensures constant { item_fits (constant call_of_k) ≡ true }
    ensures assigns { item_fits (lvalue (Assign Int false) int_type (lvalue (Global 0) int_type [] ∷ prvalue (Binary Add Int) int_type (number 1 ∷ number 2 ∷ []) ∷ [])) ≡ true }
    ensures temporary { item_fits (returned (prvalue FullExpression int_type (member (temporary (destroy ∷ [])) ∷ []))) ≡ true }
    ensures calls { item_fits (effect (Call 3) (argument ∷ place 2 ∷ [])) ≡ true }
    ensures loops { item_fits (loop (effect Break [] ∷ when (effect Continue []) ∷ [])) ≡ true }
    ensures switches { item_fits (switch (effect (Case 1) [] ∷ variable 2 (stored 0) ∷ effect Break [] ∷ effect Default [] ∷ [])) ≡ true }
    ensures throws { item_fits (thrown (field 0 ∷ [])) ≡ true }
    ensures tries { item_fits (effect Try (block [] ∷ prvalue (Handler (Some 2)) int_type (block [] ∷ field 0 ∷ []) ∷ [])) ≡ true }
    ensures body { body (variable 2 (stored 1) ∷ variable 3 (stored 2) ∷ returned (number 0) ∷ []) ≡ true }
{}

/// A node has the kids, the type and the category of its row, and numbers that are indexes and sizes.
#[tactic(auto, unfolding(tx_ints::specs::Integers::reduced, tx_ints::specs::Words::word_of))]
pub fn rows()
    ensures kids { item_fits (returned (prvalue (Load Int false) int_type [])) ≡ false }
    ensures more_kids { item_fits (returned (prvalue (Load Int false) int_type (place 0 ∷ place 0 ∷ []))) ≡ false }
    ensures index { item_fits (returned (read (place 9))) ≡ false }
    ensures typ { item_fits (returned (prvalue (Load Int false) int_type (lvalue (Local 1) int_type [] ∷ []))) ≡ false }
    ensures category { item_fits (returned (read (prvalue (Local 0) int_type []))) ≡ false }
    ensures branches { item_fits (effect Conditional (prvalue (Literal 1) (plain (int BoolKind)) [] ∷ number 1 ∷ number 2 ∷ [])) ≡ true }
    ensures void_branches { item_fits (prvalue Comma int_type (effect Conditional (prvalue (Literal 1) (plain (int BoolKind)) [] ∷ number 1 ∷ number 2 ∷ []) ∷ number 3 ∷ [])) ≡ false }
    ensures pointer { item_fits (virtual_call 8) ≡ true }
    ensures other_pointer { item_fits (virtual_call 0) ≡ false }
    ensures no_result { item_of_k_fits (no_result 0) ≡ true }
    ensures no_member { item_of_k_fits (no_result 4) ≡ false }
    ensures stride { item_fits (effect Init (lvalue (Local 1) d [] ∷ prvalue (Elements 1 4) d (build ∷ []) ∷ [])) ≡ false }
{}

/// Kinds are those of the types, operators work in promoted kinds, and words are words of their kinds.
#[tactic(auto, unfolding(tx_ints::specs::Integers::reduced, tx_ints::specs::Words::word_of))]
pub fn kinds()
    ensures load { item_fits (returned (prvalue (Load Long false) int_type (place 0 ∷ []))) ≡ false }
    ensures mark { item_fits (returned (prvalue (Load Int true) int_type (place 0 ∷ []))) ≡ false }
    ensures operands { item_fits (returned (prvalue (Binary Add Int) int_type (number 1 ∷ prvalue (Literal 2) (plain (int Long)) [] ∷ []))) ≡ false }
    ensures word { item_fits (returned (number 4294967296)) ≡ false }
    ensures stored { item_fits (variable 2 (prvalue (Store Int true) int_type (number 1 ∷ []))) ≡ false }
{}

/// Objects are built where one stands, copies only below what is copied; a call gives a `const` object what it builds, a constructor names the type.
pub fn objects()
    ensures qualifiers { item_fits (constant build) ≡ false }
    ensures class { item_fits (effect Init (lvalue (Local 4) w [] ∷ call_of_k ∷ [])) ≡ false }
    ensures value { item_fits (returned build) ≡ false }
    ensures statement { item_fits build ≡ false }
    ensures copy { item_fits (variable 2 (prvalue (CopyScalar Int false) int_type [])) ≡ false }
{}

/// Argument objects are words of calls, and a temporary that is destroyed stands in a full-expression.
#[tactic(auto, unfolding(tx_ints::specs::Integers::reduced, tx_ints::specs::Words::word_of))]
pub fn temporaries()
    ensures argument { item_fits (returned (member argument)) ≡ false }
    ensures word { item_fits (effect (Call 3) (temporary [] ∷ place 2 ∷ [])) ≡ false }
    ensures full { item_fits (returned (member (temporary (destroy ∷ [])))) ≡ false }
    ensures not_destroyed { item_fits (returned (member (temporary []))) ≡ true }
{}

/// Statements stand among statements, labels in a `switch`, and none behind a declaration that has to run.
#[tactic(auto, unfolding(tx_ints::specs::Integers::reduced, tx_ints::specs::Words::word_of))]
pub fn statements()
    ensures operand { item_fits (returned (block [])) ≡ false }
    ensures label { item_fits (block (effect Default [] ∷ [])) ≡ false }
    ensures skipped { item_fits (switch (variable 2 (stored 1) ∷ effect Default [] ∷ [])) ≡ false }
    ensures behind { item_fits (switch (effect Default [] ∷ variable 2 (stored 1) ∷ [])) ≡ true }
{}

/// Jumps stand in what they leave, declarations in blocks, and what only special functions have in these.
pub fn places()
    ensures breaks { item_fits (effect Break []) ≡ false }
    ensures continues { item_fits (switch (effect Continue [] ∷ [])) ≡ false }
    ensures declaration { item_fits (when (variable 2 (stored 1))) ≡ false }
    ensures deferred { item_fits (effect Defer (lvalue (Local 1) d [] ∷ destroy ∷ [])) ≡ false }
    ensures subobjects { item_fits (effect (Block true) []) ≡ true }
    ensures no_kid { body (effect (Block true) [] ∷ returned (number 0) ∷ []) ≡ false }
{}

/// Calls pass as many words as are taken, and a function with a result ends in `return` with a value.
pub fn calls()
    ensures words { item_fits (effect (Call 3) (argument ∷ [])) ≡ false }
    ensures value { item_fits (effect Return []) ≡ false }
    ensures end { body (variable 2 (stored 1) ∷ []) ≡ false }
{}

/// Exceptions have the scalars of their type, and destructions name destructors.
#[tactic(auto, unfolding(tx_ints::specs::Integers::reduced, tx_ints::specs::Words::word_of))]
pub fn exceptions()
    ensures no_field { item_fits (thrown []) ≡ false }
    ensures offset { item_fits (thrown (field 4 ∷ [])) ≡ false }
    ensures object { item_fits (thrown_object (field 0 ∷ [])) ≡ true }
    ensures left_out { item_fits (thrown_object []) ≡ false }
    ensures captured { item_fits (lambda_variable (destroy_at 8 ∷ [])) ≡ true }
    ensures no_capture { item_fits (lambda_variable (destroy_at 0 ∷ [])) ≡ false }
    ensures twice { item_fits (lambda_variable (destroy_at 8 ∷ destroy_at 8 ∷ [])) ≡ false }
    ensures destructor { item_fits (effect Init (lvalue (Local 1) d [] ∷ build ∷ effect (Destroy 1 0 1 0) [] ∷ [])) ≡ false }
{}

/// What a body makes has items of the frame behind the words of a call, each its own.
pub fn items()
    ensures shared { body (variable 2 (stored 1) ∷ variable 2 (stored 2) ∷ returned (number 0) ∷ []) ≡ false }
    ensures word { body (variable 0 (stored 1) ∷ returned (number 0) ∷ []) ≡ false }
{}
