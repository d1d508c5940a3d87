//! Units that are refused, one for each rule that needs no class. A function here does nothing: its clause says where
//! a unit is refused and by which rule.

ghost use Rattle.std.specs.Prelude.{◌≡◌};
ghost use Rattle.elab_worked.specs.Notation.{elaborated, refused};
ghost use Rattle.elab_rules.specs.cpp_tree.declared.faults.IllRule.TheVariants as rules;
ghost use Rattle.elab_worked.specs.Refusals as texts;

pub fn ambiguous()
    ensures { elaborated texts.ambiguous_tokens texts.ambiguous_decls ≡ refused 44 rules.Ambiguous }
{}

pub fn bad_break()
    ensures { elaborated texts.bad_break_tokens texts.bad_break_decls ≡ refused 13 rules.BadBreak }
{}

pub fn bad_case()
    ensures { elaborated texts.bad_case_tokens texts.bad_case_decls ≡ refused 36 rules.BadCase }
{}

pub fn bad_catch()
    ensures { elaborated texts.bad_catch_tokens texts.bad_catch_decls ≡ refused 33 rules.BadCatch }
{}

pub fn bad_declaration()
    ensures { elaborated texts.bad_declaration_tokens texts.bad_declaration_decls ≡ refused 5 rules.BadDeclaration }
{}

pub fn bad_init()
    ensures { elaborated texts.bad_init_tokens texts.bad_init_decls ≡ refused 10 rules.BadInit }
{}

pub fn bad_main()
    ensures { elaborated texts.bad_main_tokens texts.bad_main_decls ≡ refused 5 rules.BadMain }
{}

pub fn bad_operand()
    ensures { elaborated texts.bad_operand_tokens texts.bad_operand_decls ≡ refused 31 rules.BadOperand }
{}

pub fn bad_return()
    ensures { elaborated texts.bad_return_tokens texts.bad_return_decls ≡ refused 11 rules.BadReturn }
{}

pub fn bad_throw()
    ensures { elaborated texts.bad_throw_tokens texts.bad_throw_decls ≡ refused 24 rules.BadThrow }
{}

pub fn const_target()
    ensures { elaborated texts.const_target_tokens texts.const_target_decls ≡ refused 30 rules.ConstTarget }
{}

pub fn jump_past_init()
    ensures { elaborated texts.jump_past_init_tokens texts.jump_past_init_decls ≡ refused 45 rules.JumpPastInit }
{}

pub fn narrowing()
    ensures { elaborated texts.narrowing_tokens texts.narrowing_decls ≡ refused 26 rules.Narrowing }
{}

pub fn no_conversion()
    ensures { elaborated texts.no_conversion_tokens texts.no_conversion_decls ≡ refused 22 rules.NoConversion }
{}

pub fn no_default()
    ensures { elaborated texts.no_default_tokens texts.no_default_decls ≡ refused 36 rules.NoDefault }
{}

pub fn no_member()
    ensures { elaborated texts.no_member_tokens texts.no_member_decls ≡ refused 40 rules.NoMember }
{}

pub fn no_viable()
    ensures { elaborated texts.no_viable_tokens texts.no_viable_decls ≡ refused 47 rules.NoViable }
{}

pub fn not_callable()
    ensures { elaborated texts.not_callable_tokens texts.not_callable_decls ≡ refused 31 rules.NotCallable }
{}

pub fn not_constant()
    ensures { elaborated texts.not_constant_tokens texts.not_constant_decls ≡ refused 17 rules.NotConstant }
{}

pub fn not_lvalue()
    ensures { elaborated texts.not_lvalue_tokens texts.not_lvalue_decls ≡ refused 13 rules.NotLvalue }
{}

pub fn not_trivially_copyable()
    ensures { elaborated texts.not_trivially_copyable_tokens texts.not_trivially_copyable_decls ≡ refused 13 rules.NotTriviallyCopyable }
{}

pub fn out_of_profile()
    ensures { elaborated texts.out_of_profile_tokens texts.out_of_profile_decls ≡ refused 5 rules.OutOfProfile }
{}

pub fn redeclared()
    ensures { elaborated texts.redeclared_tokens texts.redeclared_decls ≡ refused 29 rules.Redeclared }
{}

pub fn safety_differs()
    ensures { elaborated texts.safety_differs_tokens texts.safety_differs_decls ≡ refused 32 rules.SafetyDiffers }
{}

pub fn type_differs()
    ensures { elaborated texts.type_differs_tokens texts.type_differs_decls ≡ refused 14 rules.TypeDiffers }
{}

pub fn unknown_name()
    ensures { elaborated texts.unknown_name_tokens texts.unknown_name_decls ≡ refused 32 rules.UnknownName }
{}
