//! Trees that are folded, and the nearest that are not. A function here does nothing: its clauses are computed by the check.

ghost use Rattle.std.specs.Prelude.{◌≡◌};
ghost use Rattle.tx_ints.specs.declared.kinds.IntKind.TheVariants.{Bool as BoolKind, Char, Int, UInt};
ghost use Rattle.tx_ints.specs.declared.kinds.BinOp.TheVariants.{Add, Sub, Mul, Shl, Lt};
ghost use Rattle.tree_fold.specs.Examples.{fold, number, operated, converted, choice, comma, yes, no, variable, volatile_variable, global, call, trap, thrown, choice_of, pointer, colour};

/// Operators, conversions and commas of integer literals; what traps stays, and so does what is no literal.
#[tactic(auto, unfolding(tx_ints::specs::Integers::reduced, tx_ints::specs::Words::word_of, tx_ints::specs::Integers::apply_of))]
pub fn operators()
    ensures sum { fold (operated Add Int (number Int 2) (operated Mul Int (number Int 3) (number Int 4))) ≡ number Int 14 }
    ensures wraps { fold (operated Sub UInt (number UInt 0) (number UInt 1)) ≡ number UInt 4294967295 }
    ensures less { fold (operated Lt Int (number Int 1) (number Int 2)) ≡ number Int 1 }
    ensures narrows { fold (converted Char (number Int 257)) ≡ number Char 1 }
    ensures comma { fold (comma (number Int 1) (number Int 2)) ≡ number Int 2 }
    ensures overflow { fold (operated Add Int (number Int 2147483647) (number Int 1)) ≡ operated Add Int (number Int 2147483647) (number Int 1) }
    ensures zero { fold trap ≡ trap }
    ensures count { fold (operated Shl Int (number Int 1) (number Int 32)) ≡ operated Shl Int (number Int 1) (number Int 32) }
    ensures variable { fold (operated Add Int variable (operated Add Int (number Int 1) (number Int 2))) ≡ operated Add Int variable (number Int 3) }
{}

/// Conditionals whose condition is known: of the operand that is not run nothing may be lost.
#[tactic(auto, unfolding(tx_ints::specs::Integers::reduced, tx_ints::specs::Words::word_of, tx_ints::specs::Integers::apply_of))]
pub fn choices()
    ensures taken { fold (operated Add Int (converted Int (number Char 48)) (choice (converted BoolKind (number Int 1)) (number Int 2) trap)) ≡ number Int 50 }
    ensures other { fold (choice no trap variable) ≡ variable }
    ensures runs { fold (choice yes call variable) ≡ call }
    ensures called { fold (choice yes variable call) ≡ choice yes variable call }
    ensures named { fold (choice no global variable) ≡ choice no global variable }
    ensures volatile { fold (choice yes variable volatile_variable) ≡ choice yes variable volatile_variable }
    ensures unknown { fold (choice variable (number Int 1) (number Int 2)) ≡ choice variable (number Int 1) (number Int 2) }
    ensures thrown { fold (choice yes thrown (number Int 1)) ≡ choice yes thrown (number Int 1) }
    ensures throws { fold (choice no thrown (number Int 1)) ≡ number Int 1 }
    ensures pointer { fold (choice_of pointer yes) ≡ choice_of pointer yes }
    ensures enumerated { fold (choice_of colour yes) ≡ choice_of colour yes }
{}
