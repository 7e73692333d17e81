// Edits: bytes laid over a source's. A table keeps those that stand, in their order, and tells the byte that they leave at a place.
// This crate knows nothing of blocks or sessions.
#![tactic(auto)]

mod edit;
mod laws;
mod over;
mod table;

pub use edit::{Edit, Field, Laid};
pub use laws::overlay_laws;
pub use over::Over;
pub use table::{Edits, MAX_EDITS};
