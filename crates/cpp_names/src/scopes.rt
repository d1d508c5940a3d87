// The open scopes.

ghost use Rattle.std.specs.Prelude.{◌≡◌, ◌<◌, ◌↔◌, [], ◌∷◌, Some, None, length, drop, IsTrue, OnOk, OnErr, IsErrOf};
ghost use Rattle.cpp_names.specs.declared.entity.Entity.{Entity};
ghost use Rattle.cpp_names.specs.Names.{innermost_of, found_in, with_name};

use crate::entity::Entity;
use crate::fault::NameFault;
use crate::scope::Scope;
use std::alloc::{AllocError, Global};
use std::marker::Model;

/// The open scopes, of which the one opened last is the innermost.
#[derive(Drop)]
pub struct Scopes {
    alloc: Global,
    // The innermost scope is the last.
    scopes: Vec<Scope>,
}

impl Model for Scopes {
    ghost use Rattle.std.specs.Prelude.{List, reverse};
    ghost use Rattle.cpp_names.specs.Names.{Names};

    ghost Value = { List Names };

    ghost view = { λ scopes. reverse scopes.scopes.items };
}

impl Scopes {
    /// No open scope.
    pub fn new(alloc: Global) -> Scopes
        ensures { result ≡ [] }
    {
        Scopes {
            alloc,
            scopes: Vec::new(alloc),
        }
    }

    /// How many scopes are open.
    pub fn len(&self) -> usize
        ensures { result ≡ length self.now }
    {
        self.scopes.len()
    }

    /// Whether no scope is open.
    pub fn is_empty(&self) -> bool
        ensures { IsTrue result ↔ (length self.now ≡ 0) }
    {
        self.scopes.is_empty()
    }

    /// Opens a scope inside the innermost.
    pub fn push(&mut self) -> Result<(), AllocError>
        ensures opened { OnOk result (self.new ≡ [] ∷ self.old) }
        ensures memory { OnErr result (self.new ≡ self.old) }
    {
        self.scopes.push(Scope::new(self.alloc))?;
        Ok(())
    }

    /// Closes the innermost scope, whose names are gone.
    pub fn pop(&mut self)
        requires { 0 < length self.old }
        ensures { self.new ≡ drop 1 self.old }
    {
        self.scopes.pop();
    }

    /// Declares a name in the innermost scope (C++14 [basic.scope.declarative]).
    pub fn declare(&mut self, name: &[u8], entity: Entity) -> Result<(), NameFault>
        requires { 0 < length self.old }
        ensures declared { OnOk result (self.new ≡ with_name self.old name.now entity) }
        ensures fresh { OnOk result (innermost_of self.old name.now ≡ None) }
        ensures twice { (old : Entity) → IsErrOf result (NameFault.Twice old)
            ↔ (innermost_of self.old name.now ≡ Some old) }
        ensures refused { OnErr result (self.new ≡ self.old) }
        ensures depth { length self.new ≡ length self.old }
    {
        let at = self.scopes.len() - 1;
        if let Some(old) = self.scopes[at].find(name) {
            return Err(NameFault::Twice { old });
        }
        let name = name.to_vec(self.alloc).map_err(|_| NameFault::Memory)?;
        let scope = &mut self.scopes[at];
        scope.add(name, entity).map_err(|_| NameFault::Memory)?;
        Ok(())
    }

    /// What the name stands for in the innermost scope that has it (C++14 [basic.lookup.unqual]).
    pub fn lookup(&self, name: &[u8]) -> Option<Entity>
        ensures { result ≡ found_in self.now name.now }
    {
        let mut inner = self.scopes.as_slice();
        'outwards: while let Some((scope, outer)) = inner.split_last() {
            if let Some(entity) = scope.find(name) {
                return Some(entity);
            }
            inner = outer;
        }
        None
    }
}
