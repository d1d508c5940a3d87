//! What makes objects, as typed nodes: bound references, copies, constructors, words of calls and destructions.
#![tactic(auto)]

pub mod below;
pub mod binding;
pub mod call_words;
mod closures;
pub mod copying;
pub mod destructions;
pub mod each;
pub mod exact;
pub mod lists;
pub mod nothing;
pub mod objects;
pub mod own_types;
pub mod scalar_fields;
pub mod values;

pub use binding::{bound_by, initial};
pub use call_words::{passed, words};
pub use copying::{class_from, copied_in_place, exception_copied, place_at};
pub use destructions::{count_of, destroys};
pub use each::each_by;
pub use exact::exact_object;
pub use lists::one_of;
pub use nothing::{default_by, from_nothing};
pub use objects::object_of;
pub use own_types::{is_exception_type, is_written_exception};
pub use scalar_fields::fields;
pub use values::{constructed, from_values, scalar_from};
