// What is known of a member function behind its definition outside the class (C++14 9.3 p2).

ghost use Rattle.std.specs.Prelude.{◌≡◌, IfOk, OnOk};
ghost use Rattle.elab_entry.specs.cpp_lex.Tokens.{lexemes_of};
ghost use Rattle.elab_entry.specs.elab_ctx.Ctx.{ctx_of};
ghost use Rattle.elab_entry.specs.elab_ctx.Says.{Tells};
ghost use Rattle.elab_entry.specs.elab_rules.Members.{outside_words as outside_words_of, outside_text as outside_text_of, linked_definition};
ghost use Rattle.elab_entry.specs.elab_types.Shown.{Says};
ghost use Rattle.class_members.specs.Shown.{header_of, storage_of};
ghost use Rattle.elab_decls.specs.Says.{placed_at};
ghost use Rattle.elab_members.specs.Outside.{outside_found as outside_found_of, outside_place as outside_place_of, outside_declared as outside_declared_of};

use class_members::first_same;
use class_table::texts::{text_between, token_end};
use elab_decls::{agrees, define_function};
use elab_implicit::below::{
    ElabFault, Env, Header, IllRule, Storage, Tokens, has_function, ill, is_destructor_name,
    text_sized,
};
use std::alloc::{AllocError, Global};

// Tests what stands before the type of a member that is defined outside: it may be inline.
fn outside_words(header: &Header) -> Result<bool, ElabFault>
    ensures { Tells result (outside_words_of (header_of header.now)) }
{
    let storage = header.storage;
    if storage.is_c {
        return Err(ill(header.at, IllRule::OutOfProfile));
    }
    if storage.is_virtual || storage.is_static || storage.is_extern {
        return Err(ill(header.at, IllRule::BadDeclaration));
    }
    Ok(true)
}

// The text of a definition, where it is inline.
fn outside_text(
    alloc: Global,
    tokens: &Tokens,
    storage: Storage,
    first: u32,
    last: u32,
) -> Result<Vec<u8>, AllocError>
    ensures { IfOk result (λ v. v.items ≡ outside_text_of (lexemes_of tokens.now) (storage_of storage) first last) }
{
    if !storage.is_inline {
        return Ok(Vec::new(alloc));
    }
    text_between(alloc, tokens, first, last)
}

// Tests that the function at a place agrees with its definition.
fn outside_found(env: &Env, header: &Header, func: u32) -> Result<u32, ElabFault>
    ensures { Tells result (outside_found_of (ctx_of env.now) (header_of header.now) func) }
{
    // It stands there.
    let Some(found) = env.funcs.get(func as usize) else {
        return Err(ElabFault::Memory);
    };
    let no_except = header.qualifiers.no_except || is_destructor_name(&header.name);
    agrees(header, no_except, found, true)?;
    Ok(func)
}

// The function of the class that is defined; its declaration agrees.
fn outside_place(env: &Env, class: u32, header: &Header) -> Result<u32, ElabFault>
    ensures { Tells result (outside_place_of (ctx_of env.now) class (header_of header.now)) }
{
    outside_words(header)?;
    if !has_function(env, class, &header.name) {
        return Err(ill(header.at, IllRule::NoMember));
    }
    let Some(func) = first_same(&env.funcs, header) else {
        return Err(ill(header.at, IllRule::TypeDiffers));
    };
    outside_found(env, header, func)
}

// A function whose definition says so is inline.
fn link_inline(env: &mut Env, func: u32, storage: Storage)
    ensures { ctx_of env.new ≡ linked_definition (ctx_of env.old) func (storage_of storage) }
{
    if !storage.is_inline {
        return;
    }
    env.funcs.make_inline(func as usize);
}

/// The function that a member with a header defines, from its first token to its last one. It is defined now.
pub fn outside_declared(
    alloc: Global,
    tokens: &Tokens,
    env: &mut Env,
    class: u32,
    first: u32,
    last: u32,
    header: &Header,
) -> Result<u32, ElabFault>
    ensures labels { OnOk result ((ctx_of env.new).labels ≡ (ctx_of env.old).labels) }
    ensures is { Says (placed_at env.new) result (outside_declared_of (lexemes_of tokens.now) (ctx_of env.old) class first last (header_of header.now)) }
{
    let text = outside_text(alloc, tokens, header.storage, first, last)?;
    text_sized(header.at, &text)?;
    let func = outside_place(env, class, header)?;
    let closed = token_end(tokens, last);
    define_function(alloc, env, func, header, text, closed)?;
    link_inline(env, func, header.storage);
    Ok(func)
}
