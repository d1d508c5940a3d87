//! Laws of members. A function here does nothing: its clause is the law.

ghost use Rattle.elab_laws.specs.Parts.{Members, PointerMembers};

/// `x.name` is an lvalue of the type of the member, with the qualifiers of `x`.
pub fn members()
    ensures { Members }
{}

/// `p->name` is `(*p).name`.
pub fn pointer_members()
    ensures { PointerMembers }
{}
