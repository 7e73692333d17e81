// Bodies that are a group of entries, written once for any kind of entry.
ghost use Rattle.std.specs.Prelude.{◌≡◌};
ghost use Rattle.awd_source.specs.Holders.{held};
ghost use Rattle.awd_format.specs.Readings.{read_in};
ghost use Rattle.awd_header.specs.Widths.{width_size};
ghost use Rattle.awd_bodies.specs.Groups.{geometry, group_at};

use awd_attributes::{properties_at, user_list_at};
use awd_block_fault::BlockFault;
use awd_format::{EntryKind, counted, text_at};
use awd_geometry::SubGeometry;
use awd_header::Width;
use awd_source::{Holder, Source, TWO};

// The place behind a name, a count, properties, that many entries and a user list.
pub(crate) fn group_at<S: Source, K: EntryKind>(
    holder: &Holder<S>,
    kind: &K,
    at: u64,
) -> Result<u64, BlockFault>
    ensures { result ≡ group_at (K.reading kind.now) (held holder.now) at holder.now.end }
{
    let place = text_at(holder, at)?;
    let count = holder.number_at(place, TWO)?;
    let entries = properties_at(holder, place + 2)?;
    let list = counted(holder, kind, entries, count)?;
    user_list_at(holder, list)
}

// The place behind the body of a geometry. (This and `skeleton_at` are calls of the one text for groups; they carry the format's names,
// and what the names mean.)
pub fn geometry_at<S: Source>(holder: &Holder<S>, width: Width, at: u64) -> Result<u64, BlockFault>
    ensures { result ≡ read_in (geometry (width_size width)) holder.now at }
{
    group_at(holder, &SubGeometry { width }, at)
}
