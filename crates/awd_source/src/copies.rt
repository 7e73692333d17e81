// Copying a source into memory.
ghost use Rattle.std.specs.Prelude.{◌≡◌, length};
ghost use Rattle.awd_fault.specs.Faults.{answer};
ghost use Rattle.awd_source.specs.Copies.{copying, copied};

use crate::present::byte_in;
use crate::source::Source;
use awd_fault::{Cause, Fault};

// Writes all bytes of a source over as many others.
#[inline]
fn write_all<S: Source>(source: &S, front: &mut [u8])
    requires { length front.old ≡ length (S.bytes source.now) }
    ensures { front.new ≡ S.bytes source.now }
{
    for (at, place) in front.iter_mut().enumerate() {
        *place = byte_in(source, at as u64);
    }
}

// Copies all bytes of a source to the start of a buffer, and leaves the rest of the buffer as it was. A
// buffer that is too short is refused and left as it was.
pub fn copy<S: Source>(source: &S, buffer: &mut [u8]) -> Result<(), Fault>
    ensures answer { answer result ≡ copying (S.bytes source.now) buffer.old }
    ensures after { buffer.new ≡ copied (S.bytes source.now) buffer.old }
{
    let length = source.length();
    if length > buffer.len() as u64 {
        return Err(Fault::of_call(Cause::BufferTooShort, 0, 0));
    }
    write_all(source, &mut buffer[..length as usize]);
    Ok(())
}
