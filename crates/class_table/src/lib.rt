//! The members of a class as they are written, and the class up to its closing brace.
//!
//! Where the rules of `elab_rules` have their code. Of `Classes`: `begun`, `completed`, `closed_class` and the slots in
//! class_records; the special members in class_specials; `based_on`, `data_member`, `member_function` and overriding in
//! class_members; `marks_from`, `has_initialiser`, `has_equal`, `started_from`, `text_between`, `definition_between`,
//! `body_in`, `last_token`, `class_text`, `member_named`, `within_bounds`, `header_in` and `special_header` in class_texts;
//! `method_of` in `methods`; `member_of` and `members_of` in `member_walk`. Of `Members`: `declared_only`, `has_final`,
//! `base_named`, `members_among`, and `class_defined` up to the completed class, in `class_walk`. Not here: `all_defaults`,
//! `all_late` and `member_defined`, which go over bodies and initialisers.
#![tactic(auto)]

pub mod class_walk;
pub mod member_walk;
pub mod methods;

pub use class_texts::{
    Started, body_end, body_in, bounds, class_text, definition_between, header_in, headers, kids,
    name_of, special_header, started, started_from, text_between, texts, token_end, words,
};
pub use class_walk::{class_declared, class_read, members_among};
pub use member_walk::{member_of, members_of};
pub use methods::{Method, method_of};
