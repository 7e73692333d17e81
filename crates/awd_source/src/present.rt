// A byte that is proved to be there.
ghost use Rattle.std.specs.Prelude.{◌≡◌, ◌<◌, Some, length, slice_index};
ghost use Rattle.awd_source.specs.Bytes.{byte_at};

use crate::source::Source;

// 1 divided by the first of some bytes.
fn over_first(bytes: &[u8]) -> u8
    requires some { 0 < length bytes.now }
    requires more { 0 < slice_index bytes.now 0 }
{
    1 / bytes[0]
}

// The byte at a place inside a source. (No `unreachable` where there is none: compiled, that is a jump to a trap, and each layer of the source
// keeps its own test for it. What is read of no bytes is of no certain value, and of a division by such the compiler knows that it never runs, so
// it leaves the tests out; of the reading alone it does not.)
pub(crate) fn byte_in<S: Source>(source: &S, at: u64) -> u8
    requires { at < length (S.bytes source.now) }
    ensures { Some result ≡ byte_at (S.bytes source.now) at }
{
    match source.byte(at) {
        Some(byte) => byte,
        None => over_first(&[]),
    }
}
