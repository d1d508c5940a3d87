//! That the offsets in a typed program are numbers of 32 bits, as the code holds them. A program as lists of functions does not tell; the theorem on the
//! blocks of safe programs asks for it.
#![tactic(auto)]

mod offsets;

pub use offsets::offsets_fit;
