// The bodies of blocks: scenes, geometries and skeletons. Each reader gives the place behind the body's last field, or the first fault.
// This crate knows nothing of block headers or sessions.
#![tactic(auto)]

mod addresses;
mod fields;
mod groups;
mod scene;
mod skeletons;

pub use addresses::Address;
pub use groups::geometry_at;
pub use scene::{Scene, picker_at};
pub use skeletons::{Joint, skeleton_at};
