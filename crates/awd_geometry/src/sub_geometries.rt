// A sub-geometry as an entry of a run.
ghost use Rattle.std.specs.Prelude.{◌≡◌, ◌+◌};
ghost use Rattle.awd_source.specs.Holders.{Ends};
ghost use Rattle.awd_format.specs.Shapes.{SetOf, entry_of};
ghost use Rattle.awd_format.specs.Readings.{read_in};
ghost use Rattle.awd_header.specs.Widths.{width_size};
ghost use Rattle.awd_geometry.specs.SubGeometries.{streams, sub_geometry};
ghost use Rattle.awd_format.proofs.ShapeLaws.{shape-kind};
ghost use Rattle.awd_geometry.specs.Filled.{sub-geometry-filled};

use crate::flaws::Streams;
use crate::streams::Stream;
use awd_attributes::{properties_at, user_list_at};
use awd_block_fault::{BlockFault, FieldFault};
use awd_format::{EntryKind, measured};
use awd_header::Width;
use awd_source::{FOUR, Holder, Source, Window};

// One sub-geometry, in a geometry with coordinates of a width.
#[derive(Clone, Copy)]
pub struct SubGeometry {
    pub width: Width,
}

impl SubGeometry {
    // The place behind streams that fill so many bytes. What they are together is judged once each of them has been read.
    fn streams_at<S: Source>(
        &self,
        holder: &Holder<S>,
        at: u64,
        total: u64,
    ) -> Result<u64, BlockFault>
        ensures read { result ≡ read_in (streams (width_size self.now.width) total) holder.now at }
        ensures fits { Ends (at + total) holder.now.end result }
    {
        let width = self.width;
        let behind = measured(holder, &Stream { width }, at, total)?;
        let run = Window::new(holder.source, at, total);
        match (Streams { run: &run, width }).flaw() {
            None => Ok(behind),
            Some(flaw) => Err(BlockFault::Field(FieldFault::new(flaw.cause, at + flaw.place))),
        }
    }
}

impl EntryKind for SubGeometry {
    ghost reading = { λ k i. entry_of (sub_geometry (width_size k.width) i) };

    ghost members = { λ k i. SetOf (sub_geometry (width_size k.width) i) };

    ghost lawful = { λ k. shape-kind (sub_geometry (width_size k.width)) (sub-geometry-filled (width_size k.width)) };

    fn read<S: Source>(&self, holder: &Holder<S>, at: u64, _index: u64) -> Result<u64, FieldFault> {
        let total = holder.number_at(at, FOUR)?;
        let run = properties_at(holder, at + 4)?;
        let user_list = self.streams_at(holder, run, total)?;
        Ok(user_list_at(holder, user_list)?)
    }
}
