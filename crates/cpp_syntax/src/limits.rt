//! The limits of what is read.

/// The most tokens of a unit: each has a byte at least, and a text has at most so many.
pub const MAX_TOKENS: u64 = 1_048_576;

/// How deep a unit may nest.
pub const MAX_DEPTH: u32 = 200;

/// How many calls of readers may be nested in a unit, in an expression and in the body of a lambda, so that the machine's
/// own stack is never used up.
pub const MAX_NESTED_CALLS: u32 = 500;

/// How many bodies of lambdas may stand in one another.
pub const MAX_NESTED_BODIES: u32 = 500;

/// How many calls may be nested where the shapes of parameters are looked for.
pub const MAX_NESTED_SHAPES: u32 = 4_000;

/// How many calls may be nested where a node is looked for that lies too deep.
pub const MAX_NESTED_SEARCHES: u32 = 10_000;
