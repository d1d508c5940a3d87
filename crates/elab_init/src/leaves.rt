// What is done to a scalar of an object.

/// What each scalar of an object is initialised by.
#[derive(Clone, Copy)]
pub enum Leaf {
    /// Zero.
    Zero,
    /// The same scalar of the object that is copied.
    Copied,
}
