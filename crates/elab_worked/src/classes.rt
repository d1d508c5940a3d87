//! Units with classes and lambdas that are elaborated by the check. A function here does nothing: its clause says what
//! the bodies and frames of a unit are.

ghost use Rattle.std.specs.Prelude.{◌≡◌};
ghost use Rattle.elab_worked.specs.Notation.{text_of};
ghost use Rattle.elab_worked.specs.Constructors as constructors_unit;
ghost use Rattle.elab_worked.specs.DefaultMembers as default_members_unit;
ghost use Rattle.elab_worked.specs.ImplicitCopy as implicit_copy_unit;
ghost use Rattle.elab_worked.specs.OutsideMembers as outside_members_unit;
ghost use Rattle.elab_worked.specs.Destructors as destructors_unit;
ghost use Rattle.elab_worked.specs.Captures as captures_unit;
ghost use Rattle.elab_worked.specs.DestructionOrder as destruction_order_unit;
ghost use Rattle.elab_worked.specs.DefaultCapture as default_capture_unit;
ghost use Rattle.elab_worked.specs.VirtualOverride as virtual_override_unit;

pub fn constructors()
    ensures { text_of constructors_unit.tokens constructors_unit.decls ≡ constructors_unit.text }
{}

pub fn default_members()
    ensures { text_of default_members_unit.tokens default_members_unit.decls ≡ default_members_unit.text }
{}

pub fn implicit_copy()
    ensures { text_of implicit_copy_unit.tokens implicit_copy_unit.decls ≡ implicit_copy_unit.text }
{}

pub fn outside_members()
    ensures { text_of outside_members_unit.tokens outside_members_unit.decls ≡ outside_members_unit.text }
{}

pub fn destructors()
    ensures { text_of destructors_unit.tokens destructors_unit.decls ≡ destructors_unit.text }
{}

pub fn captures()
    ensures { text_of captures_unit.tokens captures_unit.decls ≡ captures_unit.text }
{}

pub fn destruction_order()
    ensures { text_of destruction_order_unit.tokens destruction_order_unit.decls ≡ destruction_order_unit.text }
{}

pub fn default_capture()
    ensures { text_of default_capture_unit.tokens default_capture_unit.decls ≡ default_capture_unit.text }
{}

pub fn virtual_override()
    ensures { text_of virtual_override_unit.tokens virtual_override_unit.decls ≡ virtual_override_unit.text }
{}
