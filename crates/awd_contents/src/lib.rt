// The contents of blocks: the material or the matrix cell that the bytes of a taken block have at a position.
// This crate knows nothing of edits or sessions.
#![tactic(auto)]

mod contents;
mod laws;

pub use contents::{
    Cell, behind, cell_place, is_mesh, material, material_place, matrix_cell, matrix_width,
};
pub use laws::contents_laws;
