// Attributes: values under numbers and values under names, which most blocks carry.
// This crate knows nothing of blocks or sessions.
#![tactic(auto)]

mod attribute;
mod kinds;
mod reader;

pub use attribute::{Attribute, Value};
pub use kinds::{NumericAttribute, UserAttribute, properties_at, user_list_at};
pub use reader::AttributeReader;
