// Types that expressions name (C++14 5.2.3, 5.2.9, 5.3.3, 5.4).

ghost use Rattle.elab_casts.specs.cpp_lex.Tokens.{lexemes_of};
ghost use Rattle.elab_casts.specs.cpp_types.Typ.{typ_of};
ghost use Rattle.elab_casts.specs.elab_ctx.Steps.{and_then};
ghost use Rattle.elab_casts.specs.elab_rules.Types.{specified_type as specified_type_of};
ghost use Rattle.elab_casts.specs.elab_rules.Expressions.{written_type as written_type_of};
ghost use Rattle.elab_types.specs.Shown.{Says, specifiers_of};

use elab_casts::below::{At, ElabFault, IllRule, Tokens, Ty};
use elab_types::Specifiers;
use elab_types::specifiers::{ill, specified_type};
use elab_types::types::has_auto;
use std::alloc::Global;

/// A type that an expression names: `auto` stands for none there (C++14 7.1.6.4 p5).
pub fn written_type(at: At, ty: Ty) -> Result<Ty, ElabFault>
    ensures { Says typ_of result (written_type_of at (typ_of ty)) }
{
    if has_auto(&ty) {
        return Err(ill(at, IllRule::OutOfProfile));
    }
    Ok(ty)
}

/// The type that specifiers give, named by an expression.
pub fn written_specifiers(
    alloc: Global,
    tokens: &Tokens,
    at: At,
    specifiers: &Specifiers,
) -> Result<Ty, ElabFault>
    ensures { Says typ_of result (and_then (specified_type_of at (specifiers_of (lexemes_of tokens.now) specifiers.now)) (written_type_of at)) }
{
    let ty = specified_type(alloc, tokens, at, specifiers)?;
    written_type(at, ty)
}
