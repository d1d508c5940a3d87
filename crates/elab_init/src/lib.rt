//! What initialises objects, as typed nodes: temporaries, conversions, constructors, copies and destructions.
#![tactic(auto)]

pub mod below;
pub mod binding;
mod class_parts;
pub mod classes;
mod leaves;
pub mod lists;
pub mod objects;
pub mod overloads;
pub mod parts;
mod scalars;
pub mod sources;
pub mod temporaries;
pub mod types;

pub use binding::{bound_temporary, conversion_of, stored_value};
pub use class_parts::parts_of;
pub use classes::{construct, ill, makeable};
pub use lists::{keep, keep_all};
pub use objects::{copies, zeros};
pub use overloads::{candidates, constructors, makers, meant, parameters_at};
pub use parts::ObjectPart;
pub use sources::{as_base, as_source, building, copy_in_place, same_number};
pub use temporaries::{builder, object_kids, seen_as, temporary};
pub use types::{
    class_number, element_type, is_class_prvalue, is_class_type, is_prvalue_of_class,
    is_same_or_base, qualified_type, referred_type, traits_at, without_exception,
};
