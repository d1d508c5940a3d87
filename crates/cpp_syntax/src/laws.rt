//! What holds of all texts of the grammar.

ghost use Rattle.std.specs.Prelude.{◌≡◌, ◌<◌, ◌≤◌, ℕ, List, length, Option, None, true, false};
ghost use Rattle.cpp_ast.specs.Trees.{Tree, Trees};
ghost use Rattle.cpp_syntax.specs.Source.{Source, terminal_at};
ghost use Rattle.cpp_syntax.specs.Rules.{Nonterminal, form};
ghost use Rattle.cpp_syntax.specs.Derivations.{Read};
ghost use Rattle.cpp_syntax.specs.Lookahead.{lookahead, DerivesApart, IsUnit};
ghost use Rattle.cpp_syntax.specs.FirstSets.{first_set, nullable};
ghost use Rattle.cpp_syntax.specs.Balance.{Balanced};
ghost use Rattle.cpp_syntax.specs.WithBodies.{Filled, HaveBodies, Wholes, DerivesWithBodies, WholeUnit};

/// What derives from a form: it stands among the tokens, each of its brackets is closed in it by its own kind, and it
/// begins as the table of first terminals says.
pub fn texts()
    ensures forward { (source : Source) (f : Nonterminal) (a b : ℕ) (r : Read) → DerivesApart source f a b r → a ≤ b }
    ensures inside { (source : Source) (f : Nonterminal) (a b : ℕ) (r : Read) → DerivesApart source f a b r → a ≤ length source.terminals → b ≤ length source.terminals }
    ensures balanced { (source : Source) (f : Nonterminal) (a b : ℕ) (r : Read) → DerivesApart source f a b r → Balanced source.terminals a b }
    ensures filled { (source : Source) (f : Nonterminal) (a b : ℕ) (r : Read) → DerivesApart source f a b r → nullable f ≡ false → a < b }
    ensures first { (source : Source) (f : Nonterminal) (a b : ℕ) (r : Read) → DerivesApart source f a b r → a < b → first_set f (terminal_at source a) ≡ true }
{}

/// Bodies of lambdas. What derives with the bodies kept apart derives, with trees for these bodies, with the bodies in
/// their lambdas' trees; and what derives so derives with the bodies kept apart, which have trees.
pub fn bodies()
    ensures put_in { (source : Source) (f : Nonterminal) (a b : ℕ) (r : Read) (trees : List Tree) → DerivesApart source f a b r → HaveBodies (lookahead source) source r.bodies trees → (whole : Trees) × DerivesWithBodies source f a b whole × Filled trees r.trees whole }
    ensures taken_out { (source : Source) (f : Nonterminal) (a b : ℕ) (whole : Trees) → DerivesWithBodies source f a b whole → (r : Read) × (trees : List Tree) × DerivesApart source f a b r × HaveBodies (lookahead source) source r.bodies trees × Filled trees r.trees whole }
    ensures one { (trees : List Tree) (apart whole other : Trees) → Filled trees apart whole → Filled trees apart other → other ≡ whole }
{}

/// A unit whose longest text ends behind the last token, and whose bodies were read one by one, each up to its closing
/// brace, is the one unit of its source.
pub fn units()
    ensures is_unit { (source : Source) (read : Read) (trees : List Tree) (decls : Trees) → WholeUnit source read → Wholes (lookahead source) source read.bodies trees → Filled trees read.trees decls → IsUnit source decls }
    ensures no_other { (source : Source) (read : Read) (trees : List Tree) (decls other : Trees) → WholeUnit source read → Wholes (lookahead source) source read.bodies trees → Filled trees read.trees decls → IsUnit source other → other ≡ decls }
{}
