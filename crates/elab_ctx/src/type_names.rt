// The names of types.

ghost use Rattle.std.specs.Prelude.{◌≡◌, [], Some, None, map, MatchOption, OnOk};
ghost use Rattle.cpp_tree.specs.cpp_types.Typ.{typ_of};
ghost use Rattle.elab_ctx.specs.Types.{named_of, type_called, named_too};

use cpp_tree::below::Ty;
use indexmap::IndexMap;
use std::alloc::{AllocError, Global};
use std::marker::Model;

/// The names of types that are declared: of classes, enums and aliases (C++14 7.1.3, 9.1), in order of declaration.
#[derive(Drop)]
pub struct TypeNames {
    names: IndexMap<Vec<u8>, Ty>,
}

impl Model for TypeNames {
    ghost use Rattle.std.specs.Prelude.{ℕ, List, map};
    ghost use Rattle.cpp_tree.specs.cpp_types.declared.types.Ty.{Ty as TyRec};
    ghost use Rattle.elab_ctx.specs.Types.{names_code};

    ghost Value = { List (List ℕ × TyRec) };

    ghost coded = { names_code };

    ghost view = { λ types. map (λ pair. (pair.0.items, pair.1)) types.names.entries };
}

impl TypeNames {
    /// No name, which takes no memory.
    pub fn new(alloc: Global) -> TypeNames
        ensures { result ≡ [] }
    {
        TypeNames {
            names: IndexMap::new(alloc),
        }
    }

    /// The type that a name stands for.
    pub fn find(&self, name: &[u8]) -> Option<&Ty>
        ensures { MatchOption result (type_called name.now (map named_of self.now) ≡ None) (λ t. type_called name.now (map named_of self.now) ≡ Some (typ_of t.now)) }
    {
        self.names.get(name)
    }

    /// From now on the name stands for this type.
    pub fn add(&mut self, name: Vec<u8>, ty: Ty) -> Result<(), AllocError>
        ensures { OnOk result (map named_of self.new ≡ named_too (map named_of self.old) name.items (typ_of ty)) }
    {
        let _before = self.names.insert(name, ty)?;
        Ok(())
    }
}
