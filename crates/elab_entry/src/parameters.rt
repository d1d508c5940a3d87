// Parameters in the scope of a function (C++14 8.4.1, 3.3.3).

ghost use Rattle.std.specs.Prelude.{◌≡◌, map, OnOk};
ghost use Rattle.cpp_types.specs.Typ.{typ_of};
ghost use Rattle.elab_stmt.specs.cpp_lex.Tokens.{lexemes_of};
ghost use Rattle.elab_stmt.specs.elab_rules.Functions.{unnamed_parameter, with_parameters as with_parameters_of};
ghost use Rattle.elab_stmt.specs.elab_types.Shown.{parameter_of};
ghost use Rattle.elab_stmt.specs.elab_scopes.States.{state_of, made};
ghost use Rattle.elab_stmt.specs.elab_scopes.Says.{Changes};
ghost use Rattle.elab_entry.specs.Parameters.{named_parameter, one_parameter};

use crate::items::word_item;
use cpp_types::{Ty, copy};
use elab_stmt::below::{
    ElabFault, IllRule, Parameter, State, Tokens, Variable, add_item, declare, ill,
    is_complete_type, spelling,
};
use std::alloc::{AllocError, Global};

// A parameter without a name.
fn add_unnamed(alloc: Global, st: &mut State, ty: Ty) -> Result<(), AllocError>
    ensures is { OnOk result (state_of st.new ≡ unnamed_parameter (state_of st.old) (typ_of ty)) }
    ensures nodes { made st.new ≡ made st.old }
{
    let item = word_item(alloc, &ty)?;
    let place = add_item(&mut st.work, item)?;
    st.env.variables.push(Variable {
        ty: Some(ty),
        place,
    })?;
    Ok(())
}

// A parameter with the name that a token spells.
fn add_named(
    alloc: Global,
    tokens: &Tokens,
    st: &mut State,
    param: &Parameter,
    ty: Ty,
    token: u32,
) -> Result<(), ElabFault>
    ensures { Changes st.old st.new result (named_parameter (lexemes_of tokens.now) (state_of st.old) param.now.at (typ_of ty) token) }
{
    let item = word_item(alloc, &ty)?;
    let place = add_item(&mut st.work, item)?;
    let name = spelling(tokens, token);
    declare(&mut st.env, param.at, name, Some(ty), place)
}

fn with_parameter(
    alloc: Global,
    tokens: &Tokens,
    st: &mut State,
    param: &Parameter,
) -> Result<(), ElabFault>
    ensures { Changes st.old st.new result (one_parameter (lexemes_of tokens.now) (state_of st.old) (parameter_of param.now)) }
{
    if !is_complete_type(&st.env, &param.ty) {
        return Err(ill(param.at, IllRule::Incomplete));
    }
    let ty = copy(alloc, &param.ty)?;
    match param.name {
        Some(token) => add_named(alloc, tokens, st, param, ty, token),
        None => {
            add_unnamed(alloc, st, ty)?;
            Ok(())
        }
    }
}

/// The parameters of a function, each with its item of the frame.
pub fn with_parameters(
    alloc: Global,
    tokens: &Tokens,
    st: &mut State,
    params: &[Parameter],
) -> Result<(), ElabFault>
    ensures { Changes st.old st.new result (with_parameters_of (lexemes_of tokens.now) (state_of st.old) (map parameter_of params.now)) }
{
    for param in params {
        with_parameter(alloc, tokens, st, param)?;
    }
    Ok(())
}
