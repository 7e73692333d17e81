// Bytes laid at places, one over another: the one that shows at a place is found at once, and the latest is taken away again.
// This crate knows nothing of edits, blocks or sessions.
#![tactic(auto)]

mod laid;
mod places;

pub use laid::{LaidBytes, MAX_LAID};
