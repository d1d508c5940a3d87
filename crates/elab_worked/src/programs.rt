//! Units that are elaborated by the check. A function here does nothing: its clause says what the bodies and frames of
//! a program are, written from the language.

ghost use Rattle.std.specs.Prelude.{◌≡◌};
ghost use Rattle.elab_worked.specs.Notation.{text_of};
ghost use Rattle.elab_worked.specs.UnsignedWrap as unsigned_wrap_unit;
ghost use Rattle.elab_worked.specs.CancelOtherType as cancel_other_type_unit;
ghost use Rattle.elab_worked.specs.BlocksAbort as blocks_abort_unit;
ghost use Rattle.elab_worked.specs.CommitOnThrow as commit_on_throw_unit;
ghost use Rattle.elab_worked.specs.Overloads as overloads_unit;
ghost use Rattle.elab_worked.specs.NameLocal as name_local_unit;
ghost use Rattle.elab_worked.specs.LostUpdate as lost_update_unit;
ghost use Rattle.elab_worked.specs.Builtins as builtins_unit;
ghost use Rattle.elab_worked.specs.IndirectionAddress as indirection_address_unit;
ghost use Rattle.elab_worked.specs.HandlerSlots as handler_slots_unit;
ghost use Rattle.elab_worked.specs.ConditionalLvalue as conditional_lvalue_unit;
ghost use Rattle.elab_worked.specs.Parentheses as parentheses_unit;

pub fn unsigned_wrap()
    ensures { text_of unsigned_wrap_unit.tokens unsigned_wrap_unit.decls ≡ unsigned_wrap_unit.text }
{}

pub fn cancel_other_type()
    ensures { text_of cancel_other_type_unit.tokens cancel_other_type_unit.decls ≡ cancel_other_type_unit.text }
{}

pub fn blocks_abort()
    ensures { text_of blocks_abort_unit.tokens blocks_abort_unit.decls ≡ blocks_abort_unit.text }
{}

pub fn commit_on_throw()
    ensures { text_of commit_on_throw_unit.tokens commit_on_throw_unit.decls ≡ commit_on_throw_unit.text }
{}

pub fn overloads()
    ensures { text_of overloads_unit.tokens overloads_unit.decls ≡ overloads_unit.text }
{}

pub fn name_local()
    ensures { text_of name_local_unit.tokens name_local_unit.decls ≡ name_local_unit.text }
{}

pub fn lost_update()
    ensures { text_of lost_update_unit.tokens lost_update_unit.decls ≡ lost_update_unit.text }
{}

pub fn builtins()
    ensures { text_of builtins_unit.tokens builtins_unit.decls ≡ builtins_unit.text }
{}

pub fn indirection_address()
    ensures { text_of indirection_address_unit.tokens indirection_address_unit.decls ≡ indirection_address_unit.text }
{}

pub fn handler_slots()
    ensures { text_of handler_slots_unit.tokens handler_slots_unit.decls ≡ handler_slots_unit.text }
{}

pub fn conditional_lvalue()
    ensures { text_of conditional_lvalue_unit.tokens conditional_lvalue_unit.decls ≡ conditional_lvalue_unit.text }
{}

pub fn parentheses()
    ensures { text_of parentheses_unit.tokens parentheses_unit.decls ≡ parentheses_unit.text }
{}
