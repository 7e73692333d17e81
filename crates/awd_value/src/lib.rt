// The types that a value under a name may have, and what the bytes of a value say.
// This crate knows nothing of attributes, blocks or sessions.
#![tactic(auto)]

mod types;
mod values;

pub use types::{UnknownType, ValueType};
pub use values::Number;
