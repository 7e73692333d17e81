// How a part of the format is described and read: shapes (specs/Shapes.antt), texts and runs of entries. The code is written once, for
// every kind of entry and every source.
// This crate knows nothing of blocks or sessions.
#![tactic(auto)]

mod entries;
mod laws;
mod text;

pub use entries::{EntryKind, counted, list_at, measured};
pub use laws::shape_laws;
pub use text::text_at;
