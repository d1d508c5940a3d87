//! What stands round the declarators of members, as it is written: words, headers, texts, and names in bounds of arrays.
#![tactic(auto)]

pub mod bounds;
pub mod headers;
pub mod kids;
pub mod started;
pub mod texts;
pub mod words;

pub use headers::{header_in, name_of, special_header};
pub use started::{Started, started_from};
pub use texts::{body_end, body_in, class_text, definition_between, text_between, token_end};
