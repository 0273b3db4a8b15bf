//! Fields of JSON objects: how one is found, what shape it has, and how it is written.
//!
//! A reader answers the value, or the first fault: a required field that is absent is `Missing` with its
//! name, and a field of another shape is `BadField` with its name. A field whose value is null counts as
//! absent. A writer puts a field into an object, whose members stand in the order of their names.
#![tactic(auto)]

mod names;
mod reading;
mod taking;
mod writing;

pub use names::Field;
pub use reading::{
    bad, check_object, check_text, find, flag, missing, optional_any_text, optional_members,
    optional_number, optional_object, optional_signed, optional_text, required_any_text,
    required_members, required_number, required_object, required_signed, required_text,
    required_whole, signed_of,
};
pub use taking::{optional_items, required_items, take_text};
pub use writing::{
    Object, set_bool, set_number, set_number_unless, set_signed, set_some_number, set_some_text,
    set_text, set_text_unless, set_value,
};
