//! What braces make of arrays and aggregates, part by part: strings, items, what is left out (C++14 8.5.1, 8.5.2, 8.5.4).
#![tactic(auto)]

pub mod aggregates;
pub mod defaults;
pub mod items;
pub mod narrowing;
pub mod pieces;
pub mod relocating;
pub mod requalifying;
pub mod rest;
pub mod strings;

pub use aggregates::{braceable, is_aggregate_class, part_in};
pub use defaults::{default_at, default_made, default_whole};
pub use items::item_in;
pub use pieces::{piece, pieces_made};
pub use relocating::Pointed;
pub use rest::rest_in;
pub use strings::{is_char_array, string_object, string_token};
