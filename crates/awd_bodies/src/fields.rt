// What several bodies have: matrices, and the two lists at the end.
ghost use Rattle.std.specs.Prelude.{◌≡◌, ◌<◌, ◌≤◌, IfOk};
ghost use Rattle.awd_source.specs.Holders.{Further};
ghost use Rattle.awd_format.specs.Readings.{read_in};
ghost use Rattle.awd_header.specs.Widths.{width_size};
ghost use Rattle.awd_bodies.specs.Fields.{matrix, lists};

use awd_attributes::{properties_at, user_list_at};
use awd_block_fault::BlockFault;
use awd_header::Width;
use awd_source::{Holder, Source};

const MATRIX_CELLS: u64 = 12;

// The place behind a matrix, of which each cell is a field of its own. (That it lies further on is not needed by what reads on, so `fits` says less than
// `Further`.)
pub(crate) fn matrix_at<S: Source>(
    holder: &Holder<S>,
    width: Width,
    at: u64,
) -> Result<u64, BlockFault>
    ensures read { result ≡ read_in (matrix (width_size width)) holder.now at }
    ensures fits { IfOk result (λ e. (at ≤ e) × (e ≤ holder.now.end)) }
{
    let size = MATRIX_CELLS * u64::from(width.bytes());
    if at <= holder.end && size <= holder.end - at {
        // all of them fit, so each does
        return Ok(at + size);
    }
    let mut place = at;
    for _ in 0..MATRIX_CELLS {
        place = holder.bytes_at(place, u64::from(width.bytes()))?;
    }
    Ok(place)
}

// The place behind properties and a user list.
pub(crate) fn lists_at<S: Source>(holder: &Holder<S>, at: u64) -> Result<u64, BlockFault>
    ensures read { result ≡ read_in lists holder.now at }
    ensures fits { Further at holder.now.end result }
{
    let middle = properties_at(holder, at)?;
    user_list_at(holder, middle)
}
