//! What holds of the programs that are accepted. A function here does nothing: its clauses are the laws.
ghost use Rattle.std.specs.Prelude.{◌≡◌, ℕ, List, Option};
ghost use Rattle.cpp_tree.specs.declared.program.Program.{Program};
ghost use Rattle.cpp_tree.specs.Units.{SlotFunc, TypedProgram, program_of};
ghost use Rattle.safe_blocks.specs.UnsafeFree.{safely_linked, LinksSafely, HidesBlocks, EntersSafe};
ghost use Rattle.source_verdict.specs.Alike.{AgreeInTokens};
ghost use Rattle.source_verdict.specs.Elaborated.{HasFault, HasProgram};
ghost use Rattle.source_verdict.specs.Nested.{HasNested};
ghost use Rattle.source_verdict.specs.Verdict.{Accepts, RefusesFault, RefusesTexts};
ghost use Rattle.command_io.specs.Writes.{Written};
ghost use Rattle.tx_answers.specs.declared.answer.Answer.{Answer};
ghost use Rattle.cpp_tree.specs.declared.faults.ElabFault.{ElabFault};
ghost use Rattle.tree_fold.specs.Declaring.{DeclaresPlainly};

use elab_plain::laws::programs;

/// The blocks of an accepted program that links safely make no event that is volatile, output, input, or the start or
/// join of a thread, and no unsafe function is entered in them, whatever its slots name (the TS, [stmt.tx]).
pub fn accepted_is_unsafe_free()
    ensures hides { (texts : List (List ℕ)) (p : Program) (symbol : SlotFunc → Option (List ℕ)) (entry : List ℕ) → Accepts texts p → LinksSafely (program_of p) → HidesBlocks (safely_linked symbol entry (program_of p)) }
    ensures enters { (texts : List (List ℕ)) (p : Program) (symbol : SlotFunc → Option (List ℕ)) (entry : List ℕ) → Accepts texts p → LinksSafely (program_of p) → EntersSafe (safely_linked symbol entry (program_of p)) }
{}

/// No declaration of an accepted program has a `?:` as its address: so it may be folded.
pub fn accepted_declares_plainly()
    ensures { (texts : List (List ℕ)) (p : Program) → Accepts texts p → DeclaresPlainly (program_of p) }
{
    programs();
}

/// Texts have at most one program: what is accepted of the same texts is the same typed program (C++14 2.2 and annex A leave one reading of a text, and what is elaborated is
/// defined of it). Accepted texts have no fault.
pub fn one_program()
    ensures one { (texts : List (List ℕ)) (p q : Program) → Accepts texts p → Accepts texts q → program_of p ≡ program_of q }
    ensures well { (names texts : List (List ℕ)) (p : Program) (e : ElabFault) (a : Answer) (writes : List Written) → Accepts texts p → HasFault texts e → RefusesFault names texts e a writes → ⊥ }
{}

/// Texts are not both accepted and refused, unless a token of one stands inside of more constructs than a unit may nest:
/// a parser that has no room left answers that whether or not the text is a unit.
pub fn one_verdict()
    ensures { (names texts : List (List ℕ)) (p : Program) (a : Answer) (writes : List Written) → Accepts texts p → RefusesTexts names texts a writes → HasNested texts }
{}

/// The tokens of texts decide what they mean, with their places: texts that agree in them have the same program or the same
/// fault, whatever stands between the tokens and behind the last (C++14 2.1, 2.2).
pub fn tokens_decide()
    ensures program { (texts others : List (List ℕ)) (p : TypedProgram) → AgreeInTokens texts others → HasProgram texts p → HasProgram others p }
    ensures fault { (texts others : List (List ℕ)) (e : ElabFault) → AgreeInTokens texts others → HasFault texts e → HasFault others e }
    ensures accepted { (texts others : List (List ℕ)) (p q : Program) → AgreeInTokens texts others → Accepts texts p → Accepts others q → program_of p ≡ program_of q }
{}
