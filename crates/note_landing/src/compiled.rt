//! A compiled body of a function of the source.

use crate::unfit::Missing;
use bumpalo::Bump;
use std::alloc::Global;
use std::cell::Cell;
use symbolic_steps::Source;
use tx_code::{Body, Image};

/// A body of an image, plain or safe, and the function of a bound program with this number, which it is held against.
#[derive(Clone, Copy)]
pub struct Compiled<'a> {
    pub source: Source<'a>,
    pub image: &'a Image,
    pub number: u32,
    pub safe: bool,
    pub body: &'a Body,
    /// The spellings of types that its cases tell apart.
    pub spellings: &'a [Vec<u8>],
}

/// Where values are kept, where texts are made, and where what was computed stands of which a note was missing last.
#[derive(Clone, Copy)]
pub struct Room<'a> {
    pub arena: &'a Bump,
    pub alloc: Global,
    pub missing: &'a Cell<Option<&'a Vec<Missing<'a>>>>,
}
