// Calls, answers, blocks and faults as plain numbers, in the layout of C, and what the C interface does with them. The exports themselves are in
// `awd_c`, which calls the functions here.
// This crate knows nothing of text and printing.
#![tactic(auto)]

mod attributes;
mod calls;
mod causes;
mod laws;
mod layers;
mod listings;
mod records;
mod replays;

pub use attributes::{AwdAttribute, AwdAttributes, read_attributes};
pub use calls::{AwdAnswer, AwdCall};
pub use causes::cause_text;
pub use laws::code_laws;
pub use layers::{Shown, replay_layers, save_layers};
pub use listings::{AwdListing, list};
pub use records::{AwdBlock, AwdFault, AwdHeader};
pub use replays::{replay, save};
