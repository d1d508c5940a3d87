//! Units with classes or lambdas that are refused, beside those of `refusals`. A function here does nothing: its clause
//! says where a unit is refused and by which rule.

ghost use Rattle.std.specs.Prelude.{◌≡◌};
ghost use Rattle.elab_worked.specs.Notation.{elaborated, refused, misfit};
ghost use Rattle.elab_rules.specs.cpp_tree.declared.faults.IllRule.TheVariants as rules;
ghost use Rattle.elab_rules.specs.cpp_tree.declared.faults.OverrideRule.TheVariants as overrides;
ghost use Rattle.elab_worked.specs.ClassRefusals as texts;

pub fn override_nothing()
    ensures { elaborated texts.override_nothing_tokens texts.override_nothing_decls ≡ misfit 16 overrides.OverrideNothing }
{}

pub fn overrides_final()
    ensures { elaborated texts.overrides_final_tokens texts.overrides_final_decls ≡ misfit 51 overrides.OverridesFinal }
{}

pub fn base_final()
    ensures { elaborated texts.base_final_tokens texts.base_final_decls ≡ misfit 31 overrides.BaseFinal }
{}

pub fn return_differs()
    ensures { elaborated texts.return_differs_tokens texts.return_differs_decls ≡ misfit 53 overrides.ReturnDiffers }
{}

pub fn looser_noexcept()
    ensures { elaborated texts.looser_noexcept_tokens texts.looser_noexcept_decls ≡ misfit 63 overrides.LooserNoexcept }
{}

pub fn dynamic_over_safe()
    ensures { elaborated texts.dynamic_over_safe_tokens texts.dynamic_over_safe_decls ≡ misfit 62 overrides.DynamicOverSafe }
{}

pub fn dynamic_not_virtual()
    ensures { elaborated texts.dynamic_not_virtual_tokens texts.dynamic_not_virtual_decls ≡ misfit 11 overrides.DynamicNotVirtual }
{}

pub fn no_such_member()
    ensures { elaborated texts.no_such_member_tokens texts.no_such_member_decls ≡ refused 24 rules.NoMember }
{}

pub fn other_type()
    ensures { elaborated texts.other_type_tokens texts.other_type_decls ≡ refused 31 rules.TypeDiffers }
{}

pub fn other_safety()
    ensures { elaborated texts.other_safety_tokens texts.other_safety_decls ≡ refused 22 rules.SafetyDiffers }
{}

pub fn abstract_object()
    ensures { elaborated texts.abstract_object_tokens texts.abstract_object_decls ≡ refused 51 rules.AbstractObject }
{}

pub fn no_default()
    ensures { elaborated texts.no_default_tokens texts.no_default_decls ≡ refused 39 rules.NoDefault }
{}

pub fn no_copy()
    ensures { elaborated texts.no_copy_tokens texts.no_copy_decls ≡ refused 62 rules.NoCopy }
{}

pub fn defined_twice()
    ensures { elaborated texts.defined_twice_tokens texts.defined_twice_decls ≡ refused 55 rules.Redeclared }
{}

pub fn incomplete_object()
    ensures { elaborated texts.incomplete_object_tokens texts.incomplete_object_decls ≡ refused 12 rules.Incomplete }
{}

pub fn not_captured()
    ensures { elaborated texts.not_captured_tokens texts.not_captured_decls ≡ refused 47 rules.Capture }
{}
