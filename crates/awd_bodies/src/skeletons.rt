// Skeletons and their joints.
ghost use Rattle.std.specs.Prelude.{◌≡◌, ◌<◌};
ghost use Rattle.awd_source.specs.Holders.{Further};
ghost use Rattle.awd_format.specs.Shapes.{SetOf, entry_of};
ghost use Rattle.awd_format.specs.Readings.{read_in};
ghost use Rattle.awd_header.specs.Widths.{width_size};
ghost use Rattle.awd_bodies.specs.Skeletons.{joint_rest, joint, skeleton};
ghost use Rattle.awd_format.proofs.ShapeLaws.{shape-kind};
ghost use Rattle.awd_bodies.specs.Filled.{joint-filled};

use crate::fields::{lists_at, matrix_at};
use crate::groups::group_at;
use awd_block_fault::{BlockFault, FieldFault};
use awd_fault::Cause;
use awd_format::{EntryKind, text_at};
use awd_header::Width;
use awd_source::{Holder, Source, TWO};

// the parent of a joint that has none; it is told to nobody, so an Option of it would have no second use
const NO_JOINT: u64 = 65_535;

// One joint, with a matrix of cells of a width.
#[derive(Clone, Copy)]
pub struct Joint {
    pub width: Width,
}

impl Joint {
    // The place behind what comes after a joint's numbers: its name, its matrix and its lists.
    fn rest_at<S: Source>(&self, holder: &Holder<S>, at: u64) -> Result<u64, BlockFault>
        ensures read { result ≡ read_in (joint_rest (width_size self.now.width)) holder.now at }
        ensures fits { Further at holder.now.end result }
    {
        let matrix = text_at(holder, at)?;
        let lists = matrix_at(holder, self.width, matrix)?;
        lists_at(holder, lists)
    }
}

impl EntryKind for Joint {
    ghost reading = { λ k i. entry_of (joint (width_size k.width) i) };

    ghost members = { λ k i. SetOf (joint (width_size k.width) i) };

    ghost lawful = { λ k. shape-kind (joint (width_size k.width)) (joint-filled (width_size k.width)) };

    fn read<S: Source>(&self, holder: &Holder<S>, at: u64, index: u64) -> Result<u64, FieldFault> {
        let id = holder.number_at(at, TWO)?;
        if id != index {
            return Err(FieldFault::new(Cause::ValueNotAllowed, at));
        }
        let parent = holder.number_at(at + 2, TWO)?;
        if parent != NO_JOINT && parent >= id {
            return Err(FieldFault::new(Cause::ValueNotAllowed, at + 2));
        }
        Ok(self.rest_at(holder, at + 2 + 2)?)
    }
}

// The place behind the body of a skeleton.
pub fn skeleton_at<S: Source>(holder: &Holder<S>, width: Width, at: u64) -> Result<u64, BlockFault>
    ensures { result ≡ read_in (skeleton (width_size width)) holder.now at }
{
    group_at(holder, &Joint { width }, at)
}
