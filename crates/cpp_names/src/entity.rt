// What a name stands for.

/// The kinds of what a name stands for.
#[derive(Clone, Copy, Debug, PartialEq, Eq)]
pub enum EntityKind {
    /// A variable of a function, parameters included.
    Local,
    /// A variable at file scope.
    Global,
    /// The functions of one name.
    Funcs,
    /// An enumerator.
    Enumerator,
    /// A member of a class.
    Member,
    /// A variable that a lambda captures.
    Captured,
}

/// What a name stands for: one of a kind, by its number among those of that kind.
#[derive(Clone, Copy, Debug, PartialEq, Eq)]
pub struct Entity {
    pub kind: EntityKind,
    pub id: u32,
}
