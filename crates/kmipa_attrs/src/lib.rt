//! The judged attributes of an object, and the fields of structures that they are read from.
#![tactic(auto)]

mod attr_set;
mod fault;
pub mod fields;
mod filter;
mod filtering;
mod held;
mod laws;
mod name;
mod names;
mod object_type;
mod reading;
pub mod readings;
mod side;
mod single;
pub mod tags;
mod writing;

pub use attr_set::{AttrSet, NAMES};
pub use fault::AttrFault;
pub use fields::Field;
pub use filter::Filter;
pub use filtering::{read_filter, read_filter_children};
pub use laws::{
    attributes_are_read, distinct_names_are_the_same, distinct_names_do_not_repeat,
    filters_are_read, loose_filters_are_not_all_judged, memory_is_no_fault,
    said_names_do_not_repeat,
};
pub use name::Name;
pub use object_type::ObjectType;
pub use reading::{read_attrs, read_children};
pub use readings::{Numbered, both, passing};
pub use side::Side;
pub use tags::tag_name;
pub use writing::{write_attrs, write_short_attrs};
