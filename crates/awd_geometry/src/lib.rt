// Streams of vertices, faces and the like, and the sub-geometries that hold them.
// This crate knows nothing of blocks or sessions.
#![tactic(auto)]

mod flaws;
mod streams;
mod sub_geometries;

pub use streams::Stream;
pub use sub_geometries::SubGeometry;
