// Sources of bytes, and fields: numbers and bytes at a place in a holder, which is what a field must fit. A source stands for a list of bytes;
// whatever reads one asks it for that list's length and for the byte at a place, and for nothing else.
// This crate knows nothing of documents, shapes, blocks or sessions.
#![tactic(auto)]

mod copies;
mod holder;
mod numbers;
mod pages;
mod present;
mod run;
mod source;
mod window;

pub use copies::copy;
pub use holder::Holder;
pub use numbers::{FOUR, NumberSize, ONE, TWO, first_not_below, spelled_at};
pub use pages::{PAGE_SIZE, Pages};
pub use run::Run;
pub use source::Source;
pub use window::Window;
