// The bodies of blocks that make up a scene.
ghost use Rattle.std.specs.Prelude.{◌≡◌, ◌+◌};
ghost use Rattle.awd_source.specs.Holders.{Ends};
ghost use Rattle.awd_format.specs.Readings.{read_in};
ghost use Rattle.awd_header.specs.Widths.{width_size};
ghost use Rattle.awd_bodies.specs.Fields.{address_to, addresses};
ghost use Rattle.awd_bodies.specs.Scene.{scene_head, container, mesh, light, picker};

use crate::addresses::Address;
use crate::fields::{lists_at, matrix_at};
use awd_attributes::user_list_at;
use awd_block_fault::{BlockFault, FieldFault};
use awd_fault::Cause;
use awd_format::text_at;
use awd_header::Width;
use awd_roster::{Earlier, Target};
use awd_source::{Holder, ONE, Source};

// What the body of a scene's block is read by: what it must fit, the blocks before it, and the width of matrix cells.
#[derive(Drop)]
pub struct Scene<'a, S: Source, E> {
    pub holder: &'a Holder<'a, S>,
    pub earlier: &'a E,
    pub width: Width,
}

impl<'a, S: Source, E: Earlier> Scene<'a, S, E> {
    // The place behind an address that is to name one of the blocks before.
    fn address_at(&self, target: Target, at: u64) -> Result<u64, BlockFault>
        ensures read { result ≡ read_in (address_to target (E.records self.now.earlier.now)) self.now.holder.now at }
        ensures fits { Ends (at + 4) self.now.holder.now.end result }
    {
        let earlier = self.earlier;
        Address { earlier, target }.field_at(self.holder, at)
    }

    // The place behind a count and that many such addresses.
    fn addresses_at(&self, target: Target, at: u64) -> Result<u64, BlockFault>
        ensures { result ≡ read_in (addresses target (E.records self.now.earlier.now)) self.now.holder.now at }
    {
        let earlier = self.earlier;
        Address { earlier, target }.list_at(self.holder, at)
    }

    // The place behind a scene head: the parent's address, a matrix and a name.
    fn head_at(&self, at: u64) -> Result<u64, BlockFault>
        ensures { result ≡ read_in (scene_head (E.records self.now.earlier.now) (width_size self.now.width)) self.now.holder.now at }
    {
        let matrix = self.address_at(Target::Parent, at)?;
        let name = matrix_at(self.holder, self.width, matrix)?;
        text_at(self.holder, name)
    }

    // The place behind the body of a container.
    pub fn container_at(&self, at: u64) -> Result<u64, BlockFault>
        ensures { result ≡ read_in (container (E.records self.now.earlier.now) (width_size self.now.width)) self.now.holder.now at }
    {
        let lists = self.head_at(at)?;
        lists_at(self.holder, lists)
    }

    // The place behind the body of a mesh instance.
    pub fn mesh_at(&self, at: u64) -> Result<u64, BlockFault>
        ensures { result ≡ read_in (mesh (E.records self.now.earlier.now) (width_size self.now.width)) self.now.holder.now at }
    {
        let geometry = self.head_at(at)?;
        let materials = self.address_at(Target::Geometry, geometry)?;
        let lists = self.addresses_at(Target::Material, materials)?;
        lists_at(self.holder, lists)
    }

    // The place behind the body of a light.
    pub fn light_at(&self, at: u64) -> Result<u64, BlockFault>
        ensures { result ≡ read_in (light (E.records self.now.earlier.now) (width_size self.now.width)) self.now.holder.now at }
    {
        let place = self.head_at(at)?;
        let light_type = self.holder.number_at(place, ONE)?;
        // no enum: the type is told to nobody, so it would have no second use
        if !matches!(light_type, 1 | 2) {
            Err(FieldFault::new(Cause::ValueNotAllowed, place))?;
        }
        lists_at(self.holder, place + 1)
    }
}

// The place behind the body of a light picker.
pub fn picker_at<S: Source, E: Earlier>(
    holder: &Holder<S>,
    earlier: &E,
    at: u64,
) -> Result<u64, BlockFault>
    ensures { result ≡ read_in (picker (E.records earlier.now)) holder.now at }
{
    let target = Target::Light;
    let lights = text_at(holder, at)?;
    let list = Address { earlier, target }.list_at(holder, lights)?;
    user_list_at(holder, list)
}
