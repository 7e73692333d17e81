// A stream as an entry of a run.
ghost use Rattle.std.specs.Prelude.{◌≡◌, ◌<◌};
ghost use Rattle.awd_format.specs.Shapes.{SetOf, entry_of};
ghost use Rattle.awd_header.specs.Widths.{width_size};
ghost use Rattle.awd_geometry.specs.Streams.{StreamOf, stream_number, item_size, stream};
ghost use Rattle.awd_format.proofs.ShapeLaws.{shape-kind};
ghost use Rattle.awd_geometry.specs.Filled.{stream-filled};

use awd_block_fault::FieldFault;
use awd_fault::Cause;
use awd_format::EntryKind;
use awd_header::Width;
use awd_source::{FOUR, Holder, ONE, Source};

// The types of stream whose items have a size of their own. A stream of any other number is lawful too.
#[derive(Clone, Copy, PartialEq, Eq, Debug)]
pub(crate) enum StreamType {
    Vertices = 1,
    Faces = 2,
    TextureCoordinates = 3,
    Normals = 4,
}

impl StreamType {
    // The number that stands for the type. (`as` takes no type parameter, so each enum has this line of its own.)
    pub(crate) fn number(self) -> u8
        ensures { result ≡ stream_number self }
    {
        self as u8
    }
}

// A number that is none of these types'. (An error for each enum: it is its type that says of what the number is none.)
#[derive(Clone, Copy, PartialEq, Eq, Debug)]
pub(crate) struct UnknownStream(pub u8);

impl TryFrom<u8> for StreamType {
    type Error = UnknownStream;

    ghost try_from_gives = { StreamOf };

    fn try_from(number: u8) -> Result<Self, UnknownStream> {
        match number {
            1 => Ok(StreamType::Vertices),
            2 => Ok(StreamType::Faces),
            3 => Ok(StreamType::TextureCoordinates),
            4 => Ok(StreamType::Normals),
            _ => Err(UnknownStream(number)),
        }
    }
}

// One stream, in a geometry with coordinates of a width.
#[derive(Clone, Copy)]
pub struct Stream {
    pub width: Width,
}

// How many bytes one item of a stream of a type has.
fn item_size(width: Width, stream_type: u8) -> u64
    ensures size { result ≡ item_size (width_size width) stream_type }
    ensures some { 0 < result }
{
    let width = u64::from(width.bytes());
    match StreamType::try_from(stream_type) {
        Ok(StreamType::Vertices | StreamType::Normals) => 3 * width,
        Ok(StreamType::TextureCoordinates) => 2 * width,
        Ok(StreamType::Faces) => 6,
        Err(_) => 1,
    }
}

impl EntryKind for Stream {
    ghost reading = { λ k i. entry_of (stream (width_size k.width) i) };

    ghost members = { λ k i. SetOf (stream (width_size k.width) i) };

    ghost lawful = { λ k. shape-kind (stream (width_size k.width)) (stream-filled (width_size k.width)) };

    fn read<S: Source>(&self, holder: &Holder<S>, at: u64, _index: u64) -> Result<u64, FieldFault> {
        let stream_type = holder.number_at(at, ONE)?;
        let _code = holder.number_at(at + 1, ONE)?;
        let size = holder.number_at(at + 1 + 1, FOUR)?;
        // the size is judged before the bytes that it counts; the type is one byte, so nothing is cut off
        if size % item_size(self.width, stream_type as u8) != 0 {
            return Err(FieldFault::new(Cause::ValueNotAllowed, at + 1 + 1));
        }
        holder.bytes_at(at + 1 + 1 + 4, size)
    }
}
