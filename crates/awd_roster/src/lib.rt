// The roster: what is known of the blocks that were taken, and what an address among them means.
// This crate knows nothing of bytes, bodies or sessions.
#![tactic(auto)]

mod kind;
mod record;
mod roster;

pub use kind::{BlockKind, UnknownKind};
pub use record::{Record, Span, Target};
pub use roster::{Earlier, MAX_BLOCKS, Roster};
