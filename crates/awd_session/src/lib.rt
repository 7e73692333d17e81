// A session over a source of bytes: it opens the document that the source holds, takes its blocks one after another, tells what they say, lays
// edits over them, and is itself a source. It owns what it reads from and gives it back when it is closed.
// This crate knows nothing of printing, nor of what kind its source is.
#![tactic(auto)]

mod session;

pub use awd_contents::Cell;
pub use session::Session;
