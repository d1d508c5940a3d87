//! The parts of an image.
use crate::Body;

/// A function of an image.
#[derive(Drop)]
pub struct ImageFunc {
    pub symbol: Vec<u8>,
    /// The spelling of its type without safety.
    pub ty: Vec<u8>,
    /// The frame's size in bytes.
    pub frame: u32,
    /// No exception may leave it.
    pub no_except: bool,
    pub plain: Body,
    /// What it runs in a transaction.
    pub safe: Option<Body>,
    /// The name of its unit's source.
    pub source: Option<Vec<u8>>,
}

/// A class of an image.
#[derive(Drop)]
pub struct ImageClass {
    pub name: Vec<u8>,
    /// The base's index.
    pub base: Option<u32>,
    /// Of each virtual function its index, or none where it is pure.
    pub slots: Vec<Option<u32>>,
}
