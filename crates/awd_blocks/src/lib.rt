// Blocks: one block after others, with its header and its body, and the list of blocks that bytes hold (specs/Lists.antt).
// This crate knows nothing of edits or sessions.
#![tactic(auto)]

mod blocks;
mod heads;
mod laws;

pub use blocks::{Block, block_at};
pub use heads::has_head;
pub use laws::block_laws;
