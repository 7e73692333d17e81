// What a refusal says: its cause, the place of the first fault, the block, the layer and the entry.
// This crate knows nothing of bytes, sources or sessions.
#![tactic(auto)]

ghost use Rattle.std.specs.Prelude.{◌≡◌, true, Some, IsTrue, ◌↔◌, ◌==◌};
ghost use Rattle.awd_fault.specs.Faults.{cause_number, layer_number, report, in_header, of_call};
ghost use Rattle.awd_fault.specs.Texts.{cause_text, fault_text};
ghost use Rattle.awd_fault.specs.Laws.{NumberLaws};

use std::error::Error;
use std::fmt;

// Why something is refused. The numbers are part of the format; a program may print them.
#[derive(Clone, Copy, PartialEq, Eq, Debug)]
pub enum Cause {
    AlreadyOpen = 1,
    HeaderTooShort = 2,
    DocumentTooLong = 3,
    WrongMagic = 4,
    WrongVersion = 5,
    CompressedDocument = 6,
    WrongBodyLength = 7,
    NotOpen = 8,
    TooManyBlocks = 9,
    DoesNotFit = 10,
    IdOutOfSequence = 11,
    CompressedBlock = 12,
    ValueNotAllowed = 13,
    AddressNotLawful = 14,
    BytesLeftOver = 15,
    IndexTooLarge = 16,
    StreamOutOfPlace = 17,
    NoSuchBlock = 18,
    NoSuchField = 19,
    TooManyEdits = 20,
    NoSuchMaterial = 21,
    NoSuchCell = 22,
    WrongWidth = 23,
    NotANumber = 24,
    NothingToUndo = 25,
    BufferTooShort = 26,
    LengthOverPages = 27,
    PageOutsideRun = 28,
}

impl Cause {
    // The number that stands for the cause; no other cause has it. (`as` takes no type parameter, so each enum has this line of its own.)
    pub fn number(self) -> u8
        ensures value { result ≡ cause_number self }
        ensures only { (other : Cause) → cause_number other ≡ result → other ≡ self }
    {
        self as u8
    }

    // The cause in words.
    pub fn text(self) -> &'static str
        ensures { result.now ≡ cause_text self }
    {
        match self {
            Cause::AlreadyOpen => "the session is open already",
            Cause::HeaderTooShort => "the document is shorter than its header of 12 bytes",
            Cause::DocumentTooLong => "the document is longer than 16777216 bytes",
            Cause::WrongMagic => "the document does not begin with AWD",
            Cause::WrongVersion => "the version is neither 2.0 nor 2.1",
            Cause::CompressedDocument => "the document is compressed",
            Cause::WrongBodyLength => "the body length in the header is not that of the document",
            Cause::NotOpen => "the session is not open",
            Cause::TooManyBlocks => "512 blocks are taken",
            Cause::DoesNotFit => "a field, body or run does not fit what holds it",
            Cause::IdOutOfSequence => "the block's ID is out of sequence",
            Cause::CompressedBlock => "the block is compressed",
            Cause::ValueNotAllowed => "the value is not allowed here",
            Cause::AddressNotLawful => "the address names no earlier block of a fitting kind",
            Cause::BytesLeftOver => "bytes are left over at the end of the body",
            Cause::IndexTooLarge => "a face names a vertex that is not there",
            Cause::StreamOutOfPlace => "a stream is repeated, or faces have no vertices",
            Cause::NoSuchBlock => "no block with this number is taken",
            Cause::NoSuchField => "the block has no such field",
            Cause::TooManyEdits => "256 edits stand",
            Cause::NoSuchMaterial => "the block has no material at this position",
            Cause::NoSuchCell => "a matrix has cells 0 to 11 only",
            Cause::WrongWidth => "the content has not the width of the cell",
            Cause::NotANumber => "the content is not a number",
            Cause::NothingToUndo => "no edit stands",
            Cause::BufferTooShort => "the buffer is shorter than the source",
            Cause::LengthOverPages => "the length is above that of the listed pages",
            Cause::PageOutsideRun => "a listed page is not wholly inside the run",
        }
    }
}

impl fmt::Display for Cause {
    ghost output = { λ cause. Some (cause_text cause) };

    fn fmt<W: fmt::Write>(&self, f: &mut fmt::Formatter<W>) -> fmt::Result {
        f.write_str(self.text())
    }
}

// Where in the document, or outside it, the fault lies.
#[derive(Clone, Copy, PartialEq, Eq, Debug)]
pub enum Layer {
    DocumentHeader = 0,
    BlockHeader = 1,
    BodyField = 2,
    Entry = 3,
    Call = 4,
}

impl Layer {
    // The number that stands for the layer; no other layer has it. (`as` takes no type parameter, so each enum has this line of its own.)
    pub fn number(self) -> u8
        ensures value { result ≡ layer_number self }
        ensures only { (other : Layer) → layer_number other ≡ result → other ≡ self }
    {
        self as u8
    }
}

// A refusal: the first fault in document order, or what was wrong with a call.
#[derive(Clone, Copy, PartialEq, Eq, Debug)]
pub struct Fault {
    pub cause: Cause,
    // bytes from the document's start; for a call mostly 0
    pub place: u64,
    // the block's number, counted from 0
    pub block: u64,
    pub layer: Layer,
    // the entry's index in the outermost run, in the layer of entries only; not inside that layer, since only enums without contents have
    // numbers that tell their values apart
    pub index: Option<u64>,
}

impl Fault {
    // A fault of the document header. (One text for this and the next would take four bare arguments in place of named fields.)
    pub fn in_header(cause: Cause, place: u64) -> Fault
        ensures { report result ≡ in_header (cause_number cause) place }
    {
        Fault {
            cause,
            place,
            block: 0,
            layer: Layer::DocumentHeader,
            index: None,
        }
    }

    // A fault of a call.
    pub fn of_call(cause: Cause, place: u64, block: u64) -> Fault
        ensures { report result ≡ of_call (cause_number cause) place block }
    {
        Fault {
            cause,
            place,
            block,
            layer: Layer::Call,
            index: None,
        }
    }
}

// For a log: the cause in words, then all that the fault holds.
impl fmt::Display for Fault {
    ghost output = { λ fault. Some (fault_text fault) };

    fn fmt<W: fmt::Write>(&self, f: &mut fmt::Formatter<W>) -> fmt::Result {
        write!(
            f,
            "{} (cause {}, place {}, block {}, layer {}",
            self.cause,
            self.cause.number(),
            self.place,
            self.block,
            self.layer.number()
        )?;
        match self.index {
            Some(index) => write!(f, ", entry {index})"),
            None => write!(f, ")"),
        }
    }
}

impl Error for Fault {}

// Numbers tell causes, layers and faults apart. `==` on causes is that of their numbers, and on causes and faults it holds exactly
// for one and the same. Returns nothing; that it is proved is what counts.
pub fn number_laws()
    ensures numbers { NumberLaws }
    ensures cause_value { (x y : Cause) → ⟦<Cause as PartialEq>⟧.eq x y ≡ (cause_number x == cause_number y) }
    ensures cause_decides { (x y : Cause) → IsTrue (⟦<Cause as PartialEq>⟧.eq x y) ↔ (x ≡ y) }
    ensures equal { (x y : Fault) → ⟦<Fault as PartialEq>⟧.eq x y ≡ true → x ≡ y }
    ensures same { (x : Fault) → ⟦<Fault as PartialEq>⟧.eq x x ≡ true }
{}
