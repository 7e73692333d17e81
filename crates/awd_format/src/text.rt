// Texts.
ghost use Rattle.std.specs.Prelude.{◌≡◌, ◌+◌};
ghost use Rattle.awd_source.specs.Holders.{held, Ends};
ghost use Rattle.awd_source.specs.Bytes.{le, part};
ghost use Rattle.awd_format.specs.Shapes.{text};
ghost use Rattle.awd_format.specs.Readings.{read_in};

use awd_block_fault::BlockFault;
use awd_source::{Holder, Source, TWO};

// The place behind a text: its length in two bytes, and then its bytes.
pub fn text_at<S: Source>(holder: &Holder<S>, at: u64) -> Result<u64, BlockFault>
    ensures read { result ≡ read_in text holder.now at }
    ensures fits { Ends (at + 2 + le (part (held holder.now) at 2)) holder.now.end result }
{
    let size = holder.number_at(at, TWO)?;
    Ok(holder.bytes_at(at + 2, size)?)
}
