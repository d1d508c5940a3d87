// Names and scopes: `scopes push x=g7 ?x` opens a scope, declares `x` as the global 7 in it, and looks `x` up; `x=l8` declares
// the local 8. The answer has a word for each step.

use case_texts::add_word;
use cpp_names::{Entity, EntityKind, NameFault, Scopes};
use std::alloc::{AllocError, Global};

// What `g7` or `l8` names.
fn entity_of(word: &str) -> Entity {
    let (kind, id) = match word.strip_prefix('g') {
        Some(id) => (EntityKind::Global, id),
        None => (EntityKind::Local, word.strip_prefix('l').unwrap_or("")),
    };
    Entity {
        kind,
        id: id.parse::<u32>().unwrap_or(0),
    }
}

// A name is declared.
fn declared(
    alloc: Global,
    scopes: &mut Scopes,
    name: &str,
    entity: Entity,
) -> Result<String, AllocError> {
    if scopes.is_empty() {
        return format!(in alloc; "no-scope");
    }
    match scopes.declare(name.as_bytes(), entity) {
        Ok(()) => format!(in alloc; "declared"),
        Err(NameFault::Twice { old }) => format!(in alloc; "twice:{:?}{}", old.kind, old.id),
        Err(NameFault::Memory) => format!(in alloc; "memory"),
    }
}

// What a name is found to be.
fn found(alloc: Global, scopes: &Scopes, name: &str) -> Result<String, AllocError> {
    match scopes.lookup(name.as_bytes()) {
        Some(entity) => format!(in alloc; "{:?}{}", entity.kind, entity.id),
        None => format!(in alloc; "none"),
    }
}

// A scope is opened or closed; how many are open then.
fn moved(alloc: Global, scopes: &mut Scopes, word: &str) -> Result<String, AllocError> {
    if word == "push" {
        scopes.push()?;
    } else if word == "pop" && !scopes.is_empty() {
        scopes.pop();
    }
    format!(in alloc; "{}", scopes.len())
}

/// The answers to the steps of a line.
pub fn answer(alloc: Global, steps: &str) -> Result<String, AllocError> {
    let mut scopes = Scopes::new(alloc);
    let mut line = String::new(alloc);
    for step in steps.split(' ') {
        let word = if let Some((name, entity)) = step.split_once('=') {
            declared(alloc, &mut scopes, name, entity_of(entity))?
        } else if let Some(name) = step.strip_prefix('?') {
            found(alloc, &scopes, name)?
        } else {
            moved(alloc, &mut scopes, step)?
        };
        add_word(&mut line, &word)?;
    }
    Ok(line)
}
