// The document header: the 12 bytes in front of the blocks, what they say, and when they are refused.
// This crate knows nothing of blocks or sessions.
#![tactic(auto)]

ghost use Rattle.std.specs.Prelude.{◌≡◌, ◌<◌, slice_index};
ghost use Rattle.awd_fault.specs.Faults.{answer};
ghost use Rattle.awd_header.specs.Header.{bit, header_of, judged, size_rules, magic_rules, field_rules, rules, opening, Right};
ghost use Rattle.awd_header.specs.Widths.{width_size, width_of, sizes, widths_from, widths_of};

use awd_fault::{Cause, Fault};
use awd_source::{FOUR, Source, TWO, spelled_at};

pub const HEADER_SIZE: u64 = 12;

pub const MAX_DOCUMENT: u64 = 16_777_216;

const MAGIC: [u8; 3] = *b"AWD";

const VERSION: u8 = 2;

const LAST_REVISION: u8 = 1;

// What a header says.
#[derive(Clone, Copy, PartialEq, Eq, Debug)]
pub struct Header {
    pub version: u8,
    pub revision: u8,
    pub flags: u16,
}

// How many bytes a number takes where the format leaves that open.
#[derive(Clone, Copy, PartialEq, Eq, Debug)]
pub enum Width {
    Four = 4,
    Eight = 8,
}

impl Width {
    // (`as` takes no type parameter, so each enum has this line of its own.)
    pub fn bytes(self) -> u8
        ensures { result ≡ width_size self }
    {
        self as u8
    }

    // A set bit means 8 bytes, a clear one 4. (No `From<bool>`: it would be public, and `Width::from(true)` says less.)
    fn of(wide: bool) -> Width
        ensures { width_size result ≡ width_of wide }
    {
        if wide { Width::Eight } else { Width::Four }
    }
}

// The widths of matrix cells, of geometry coordinates and of property numbers.
#[derive(Clone, Copy, PartialEq, Eq, Debug)]
pub struct Widths {
    pub matrix: Width,
    pub geometry: Width,
    pub property: Width,
}

// Bit k of some flags.
fn bit_of(flags: u16, k: u32) -> bool
    requires { k < 16 }
    ensures { result ≡ bit flags k }
{
    (flags >> k) % 2 == 1
}

// The three widths by three bits of some flags, from the first on.
fn widths_from(flags: u16, first: u32) -> Widths
    requires { first < 2 }
    ensures { sizes result ≡ widths_from flags first }
{
    Widths {
        matrix: Width::of(bit_of(flags, first)),
        geometry: Width::of(bit_of(flags, first + 1)),
        property: Width::of(bit_of(flags, first + 2)),
    }
}

impl Header {
    // Whether the body length is left open, as in a document that is written while it is sent.
    pub fn streaming(&self) -> bool
        ensures { result ≡ bit self.now.flags 0 }
    {
        bit_of(self.flags, 0)
    }

    // The widths that hold in a block with these flags: the document's own, unless it leaves them to each block.
    pub fn widths(&self, block_flags: u8) -> Widths
        ensures { sizes result ≡ widths_of self.now.flags block_flags }
    {
        if bit_of(self.flags, 4) {
            widths_from(u16::from(block_flags), 0)
        } else {
            widths_from(self.flags, 1)
        }
    }
}

// The byte at a place, or 0 beyond the end.
fn byte_or_zero<S: Source>(source: &S, at: u64) -> u8
    ensures { result ≡ slice_index (S.bytes source.now) at }
{
    source.byte(at).unwrap_or(0)
}

// What the header bytes say, be they lawful or not.
pub fn header_of<S: Source>(source: &S) -> Header
    ensures { result ≡ header_of (S.bytes source.now) }
{
    Header {
        version: byte_or_zero(source, 3),
        revision: byte_or_zero(source, 4),
        // two bytes, so nothing is cut off
        flags: spelled_at(source, 5, TWO) as u16,
    }
}

// The magic string, byte by byte; the fault stands at the first that differs. (Tried as `position`: what is ensured stayed open.)
fn check_magic<S: Source>(source: &S) -> Result<(), Fault>
    ensures { answer result ≡ judged (magic_rules (S.bytes source.now)) }
{
    for (i, expected) in MAGIC.iter().enumerate() {
        if byte_or_zero(source, i as u64) != *expected {
            return Err(Fault::in_header(Cause::WrongMagic, i as u64));
        }
    }
    Ok(())
}

// The document's length.
fn check_size<S: Source>(source: &S) -> Result<(), Fault>
    ensures { answer result ≡ judged (size_rules (S.bytes source.now)) }
{
    let length = source.length();
    if length < HEADER_SIZE {
        return Err(Fault::in_header(Cause::HeaderTooShort, length));
    }
    if length > MAX_DOCUMENT {
        return Err(Fault::in_header(Cause::DocumentTooLong, MAX_DOCUMENT));
    }
    Ok(())
}

// Version, revision, compression and body length, in the order of their bytes.
fn check_fields<S: Source>(source: &S) -> Result<(), Fault>
    ensures { answer result ≡ judged (field_rules (S.bytes source.now)) }
{
    let header = header_of(source);
    if header.version != VERSION {
        return Err(Fault::in_header(Cause::WrongVersion, 3));
    }
    if header.revision > LAST_REVISION {
        return Err(Fault::in_header(Cause::WrongVersion, 4));
    }
    if byte_or_zero(source, 7) != 0 {
        return Err(Fault::in_header(Cause::CompressedDocument, 7));
    }
    let body_length = spelled_at(source, 8, FOUR);
    if !header.streaming() && HEADER_SIZE + body_length != source.length() {
        return Err(Fault::in_header(Cause::WrongBodyLength, 8));
    }
    Ok(())
}

// All rules of the header, in order.
fn check_header<S: Source>(source: &S) -> Result<(), Fault>
    ensures value { answer result ≡ judged (rules (S.bytes source.now)) }
    ensures right { Right (S.bytes source.now) result }
{
    check_size(source)?;
    check_magic(source)?;
    check_fields(source)
}

// Reads and judges the header of a document: what it says, or its first fault.
pub fn read_header<S: Source>(source: &S) -> Result<Header, Fault>
    ensures value { answer result ≡ opening (S.bytes source.now) }
    ensures right { Right (S.bytes source.now) result }
{
    check_header(source)?;
    Ok(header_of(source))
}
