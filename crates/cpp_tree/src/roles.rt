// What a kid of a node is for.

/// What a kid of a node is for.
#[derive(Clone, Copy, Debug, PartialEq, Eq)]
pub enum Role {
    /// Its word.
    Value,
    /// The word of a call: a value, or the object of a parameter of class type.
    Word,
    /// Building an object.
    Initialiser,
    /// Building a copy of the object at hand.
    CopyInit,
    /// Zeros in an object of no type: the result of a function of class type that ends without a `return`.
    Zero,
    /// What it does: anything but a declaration.
    Statement,
    /// A statement right in a block: a declaration too.
    BlockItem,
    /// A statement right in a `switch`: a label too.
    SwitchItem,
    /// The step of a loop: an expression, or nothing.
    Step,
    /// Building a part of an object.
    Part,
    CopiedPart,
    /// A handler of a `try`.
    Catch,
    /// Destructions of what was built.
    Destruction,
    /// A scalar of an exception.
    Scalar,
}

/// What is open round a node.
#[derive(Clone, Copy, Debug, PartialEq, Eq)]
pub struct Position {
    /// A full-expression, at whose end temporaries are destroyed.
    pub full: bool,
    /// What `break` leaves.
    pub breaks: bool,
    /// A loop, which `continue` goes on with.
    pub continues: bool,
}
