//! What the names in code stand for in a function of the source.

ghost use Rattle.std.specs.Prelude.{◌≡◌};
ghost use Rattle.code_follows.specs.Names.{number_in};

/// A name, and what it stands for.
#[derive(Clone, Copy, Debug, PartialEq, Eq)]
pub struct Named {
    pub name: u32,
    pub number: u32,
}

/// What the names of a body stand for: globals and functions by their places in the unit, classes by their numbers in
/// the program, and types of exceptions by their numbers in the list of these. Of two with one name the first counts.
#[derive(Clone, Copy)]
pub struct NameTable<'t> {
    pub globals: &'t [Named],
    pub functions: &'t [Named],
    pub classes: &'t [Named],
    pub types: &'t [Named],
}

/// What a name stands for.
pub fn number_named(names: &[Named], name: u32) -> Option<u32>
    ensures { result ≡ number_in names.now name }
{
    for named in names {
        if named.name == name {
            return Some(named.number);
        }
    }
    None
}
