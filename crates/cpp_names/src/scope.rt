// One scope.

ghost use Rattle.std.specs.Prelude.{◌≡◌, [], ◌∷◌, ◌++◌, None, OnOk, OnErr};
ghost use Rattle.cpp_names.specs.Names.{entity_of};

use crate::entity::Entity;
use indexmap::IndexMap;
use std::alloc::{AllocError, Global};
use std::marker::Model;

/// The names of a scope, in order of declaration.
#[derive(Drop)]
pub struct Scope {
    names: IndexMap<Vec<u8>, Entity>,
}

impl Model for Scope {
    ghost use Rattle.std.specs.Prelude.{map};
    ghost use Rattle.cpp_names.specs.Names.{Names};

    ghost Value = { Names };

    ghost view = { λ scope. map (λ pair. (pair.0.items, pair.1)) scope.names.entries };
}

impl Scope {
    /// A scope without names, which takes no memory.
    pub fn new(alloc: Global) -> Scope
        ensures { result ≡ [] }
    {
        Scope {
            names: IndexMap::new(alloc),
        }
    }

    /// What the name stands for in this scope.
    pub fn find(&self, name: &[u8]) -> Option<Entity>
        ensures { result ≡ entity_of self.now name.now }
    {
        self.names.get(name).copied()
    }

    /// Declares a name that the scope does not have.
    pub fn add(&mut self, name: Vec<u8>, entity: Entity) -> Result<(), AllocError>
        requires { entity_of self.old name.items ≡ None }
        ensures added { OnOk result (self.new ≡ self.old ++ (name.items, entity) ∷ []) }
        ensures memory { OnErr result (self.new ≡ self.old) }
    {
        self.names.insert(name, entity)?;
        Ok(())
    }
}
