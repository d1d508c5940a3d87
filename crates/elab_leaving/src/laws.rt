//! Laws of elaboration. A function here does nothing: its clause is the law.
ghost use Rattle.std.specs.Prelude.{◌≡◌, ℕ, List, [], Option};
ghost use Rattle.elab_rules.specs.cpp_ast.Trees as syntax;
ghost use Rattle.elab_rules.specs.cpp_lex.Tokens.{Lexeme};
ghost use Rattle.elab_rules.specs.cpp_tree.declared.program.FuncKind.{FuncKind};
ghost use Rattle.elab_rules.specs.cpp_types.Typ.{Typ};
ghost use Rattle.elab_rules.specs.cpp_types.declared.classes.At.{At};
ghost use Rattle.elab_rules.specs.Functions as rules_functions;
ghost use Rattle.elab_rules.specs.Functions.{Header, Storage, leaving};
ghost use Rattle.elab_rules.specs.Implicit as rules_implicit;
ghost use Rattle.elab_rules.specs.Lambdas as rules_lambdas;
ghost use Rattle.elab_rules.specs.Members as rules_members;
ghost use Rattle.elab_rules.specs.Programs as rules_programs;
ghost use Rattle.elab_rules.specs.Programs.{Source};
ghost use Rattle.elab_rules.specs.Statements.{Done, Lambdas, State, statements_of};
ghost use Rattle.elab_rules.specs.Units as rules_units;
ghost use Rattle.elab_entry.specs.Bodies as entry_bodies;
ghost use Rattle.elab_entry.specs.Round.{left_by, round_function, round_lambda};
ghost use Rattle.elab_implicit.specs.Implied as implied_members;
ghost use Rattle.elab_lambdas.specs.Whole as made_lambdas;
ghost use Rattle.elab_members.specs.Outside as outside_members;
ghost use Rattle.elab_members.specs.Whole as whole_classes;
ghost use Rattle.elab_leaving.specs.Kept.{Begins, Inside, Lawful, Leaves, On};
ghost use Rattle.elab_leaving.specs.Programs as made_programs;

/// Statements leave types, initialisers, enumerators and the scopes round the innermost as they are, and add to the rest
/// at the end, where whatever makes their lambdas does.
pub fn statements_leave()
    ensures { (lams : Lambdas) → Lawful lams → (s : List Lexeme) (st : State) (ts : syntax.Trees) → On (λ (d : Done). Leaves st d.state) (statements_of lams s st ts) }
{}

/// What the code puts back behind a function is what was known before it.
pub fn functions_leave()
    ensures function { (before st : State) → Inside before st → left_by (round_function before) st ≡ leaving before st }
    ensures lambda { (before st : State) → Inside before st → Begins before.ctx.variables st.ctx.variables → left_by (round_lambda before) st ≡ leaving before st }
{}

/// The body of a function as the code makes it is that of the definitions, where no lambdas of a full-expression are at
/// hand round it.
pub fn function_bodies()
    ensures { (lams : Lambdas) → Lawful lams → (s : List Lexeme) (st : State) (h : Header) (this : Option Typ) (place : ℕ) (t : syntax.Tree) → st.ctx.closures ≡ [] → entry_bodies.function_body lams s st h this place t ≡ rules_functions.function_body lams s st h this place t }
{}

/// Lambdas as the code makes them are those of the definitions, and leave what statements leave.
pub fn lambdas()
    ensures are { made_lambdas.lambdas_of ≡ rules_lambdas.lambdas_of }
    ensures leave { Lawful rules_lambdas.lambdas_of }
{}

/// A member that is defined outside its class, as the code makes it, is that of the definitions.
pub fn members_outside()
    ensures { (lams : Lambdas) → Lawful lams → (s : List Lexeme) (x : Storage) (st : State) (at : At) (kind : FuncKind) (first : ℕ) (kids : syntax.Trees) → st.ctx.closures ≡ [] → outside_members.member_defined lams s x st at kind first kids ≡ rules_members.member_defined lams s x st at kind first kids }
{}

/// A class as the code makes it is that of the definitions.
pub fn classes()
    ensures { (lams : Lambdas) → Lawful lams → (s : List Lexeme) (st : State) (at : At) (name : List ℕ) (kids : syntax.Trees) → st.ctx.closures ≡ [] → whole_classes.class_defined lams s st at name kids ≡ rules_members.class_defined lams s st at name kids }
{}

/// The bodies of implicit members as the code makes them are those of the definitions.
pub fn implicit_members()
    ensures { (st : State) → st.ctx.closures ≡ [] → implied_members.with_implied st ≡ rules_implicit.with_implied st }
{}

/// A unit as the code makes it is that of the definitions.
pub fn units()
    ensures { (s : List Lexeme) (st : State) (decls : syntax.Trees) → st.ctx.closures ≡ [] → made_programs.unit_from s st decls ≡ rules_units.unit_from s st decls }
{}

/// A program as the code makes it is that of the definitions, and so is its first fault.
pub fn programs()
    ensures { (xs : List Source) → made_programs.program_of xs ≡ rules_programs.program_of xs }
{}
