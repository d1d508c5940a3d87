// What is chosen outside the units.

/// What a program is linked by, beside its units.
#[derive(Drop)]
pub struct Choices {
    /// Of each unit, which of its functions have safe bodies.
    pub safe: Vec<Vec<bool>>,
    /// Of each class, the symbols of the functions in its slots; `None` where there is none, as of a pure function.
    pub symbols: Vec<Vec<Option<Vec<u8>>>>,
    /// The symbol of the function that thread 0 starts in.
    pub main: Vec<u8>,
}
