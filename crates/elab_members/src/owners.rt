// The class before `::` (C++14 9.3 p2).

ghost use Rattle.std.specs.Prelude.{◌≡◌, slice_get};
ghost use Rattle.elab_entry.specs.cpp_types.Class.{classes_of};
ghost use Rattle.elab_entry.specs.cpp_types.Typ.{typ_of};
ghost use Rattle.elab_entry.specs.cpp_lex.Tokens.{lexemes_of};
ghost use Rattle.elab_entry.specs.elab_ctx.Ctx.{ctx_of};
ghost use Rattle.elab_entry.specs.elab_ctx.Says.{Tells};
ghost use Rattle.elab_entry.specs.elab_rules.Members.{owner_class as owner_class_of, owner_named as owner_named_of, name_of_class};

use elab_implicit::below::{
    At, ElabFault, Env, IllRule, Tokens, Ty, class_at, class_number, completion, ill, spelling,
    type_named,
};

// The class that a type is; it is complete.
fn owner_class(env: &Env, at: At, ty: &Ty) -> Result<u32, ElabFault>
    ensures { Tells result (owner_class_of (ctx_of env.now) at (typ_of ty.now)) }
{
    let Some(class) = class_number(ty) else {
        return Err(ill(at, IllRule::OutOfProfile));
    };
    if completion(env, class).is_none() {
        return Err(ill(at, IllRule::Incomplete));
    }
    Ok(class)
}

/// The class that a token names.
pub fn owner_named(env: &Env, tokens: &Tokens, at: At, owner: Option<u32>) -> Result<u32, ElabFault>
    ensures { Tells result (owner_named_of (lexemes_of tokens.now) (ctx_of env.now) at owner) }
{
    let Some(token) = owner else {
        return Err(ill(at, IllRule::BadDeclaration));
    };
    match type_named(&env.types, spelling(tokens, token)) {
        Some(found) => owner_class(env, at, found),
        None => Err(ill(at, IllRule::UnknownName)),
    }
}

/// The name of a class.
pub fn class_name(env: &Env, class: u32) -> &[u8]
    ensures { result.now ≡ name_of_class (slice_get (classes_of env.now.classes.items) class) }
{
    match class_at(env, class) {
        Some(found) => &found.name,
        None => &[],
    }
}
