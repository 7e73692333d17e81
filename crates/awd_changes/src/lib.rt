// Changes of blocks: the fields of a block that may be edited, and that what is lawfully laid over one leaves the blocks lawful.
// This crate knows nothing of sessions.
#![tactic(auto)]

mod fields;
mod laws;

pub use fields::{FieldPlace, field_place};
pub use laws::change_laws;
