// Histories: calls of a session and their answers as values, lists of calls one after another, and two sessions side by side. What is promised of a
// session after every list of calls stands in the contracts here.
// This crate knows nothing of text and printing.
#![tactic(auto)]

mod calls;
mod histories;
mod laws;

pub use calls::{Step, make};
pub use histories::{go_on, replay, twins};
pub use laws::history_laws;
