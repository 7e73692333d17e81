// Calls of a session and their answers as values, and as lines of text.
// This crate knows nothing of sessions.
#![tactic(auto)]

mod calls;
mod parse;
mod print;

pub use calls::{Answer, Call};
pub use parse::NoCall;
