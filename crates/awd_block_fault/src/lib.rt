// Faults inside faults: a field's inside an entry's, both inside a block's, carried up by `?`.
// This crate knows nothing of bytes, shapes or sessions.
#![tactic(auto)]

ghost use Rattle.std.specs.Prelude.{◌≡◌, true};
ghost use Rattle.awd_fault.specs.Faults.{report};
ghost use Rattle.awd_block_fault.specs.Faults.{fault, in_entry, field_of, in_block};
ghost use Rattle.awd_block_fault.specs.declared.BlockFault.TheVariants.{Header, Field, Entry};

use awd_fault::{Cause, Fault, Layer};

// What is wrong with a field, and where: bytes from the start of what is read.
#[derive(Clone, Copy, PartialEq, Eq, Debug)]
pub struct FieldFault {
    pub cause: Cause,
    pub place: u64,
}

// A field's fault in the header of a block.
#[derive(Clone, Copy, PartialEq, Eq, Debug)]
pub struct HeaderFault {
    pub field: FieldFault,
}

// A field's fault in an entry of a run.
#[derive(Clone, Copy, PartialEq, Eq, Debug)]
pub struct EntryFault {
    // the entry's index in its run
    pub index: u64,
    pub field: FieldFault,
}

// A fault in a block: in its header, in a field of its body, or in an entry of an outermost run of its body.
#[derive(Clone, Copy, PartialEq, Eq, Debug)]
pub enum BlockFault {
    Header(FieldFault),
    Field(FieldFault),
    Entry(EntryFault),
}

impl FieldFault {
    // A cause at a place.
    pub fn new(cause: Cause, place: u64) -> FieldFault
        ensures { result ≡ fault cause place }
    {
        FieldFault { cause, place }
    }

    // The fault in the entry of an index.
    pub fn in_entry(self, index: u64) -> EntryFault
        ensures { result ≡ in_entry index self }
    {
        EntryFault { index, field: self }
    }
}

impl From<FieldFault> for HeaderFault {
    ghost from_gives = { λ e r. r.field ≡ e };

    fn from(e: FieldFault) -> HeaderFault {
        HeaderFault { field: e }
    }
}

impl From<HeaderFault> for BlockFault {
    ghost from_gives = { λ e r. r ≡ Header e.field };

    fn from(e: HeaderFault) -> BlockFault {
        BlockFault::Header(e.field)
    }
}

impl From<FieldFault> for BlockFault {
    ghost from_gives = { λ e r. r ≡ Field e };

    fn from(e: FieldFault) -> BlockFault {
        BlockFault::Field(e)
    }
}

impl From<EntryFault> for BlockFault {
    ghost from_gives = { λ e r. r ≡ Entry e };

    fn from(e: EntryFault) -> BlockFault {
        BlockFault::Entry(e)
    }
}

// Inside an entry the index of an entry further in is left out: a fault has that of the outermost.
impl From<BlockFault> for FieldFault {
    ghost from_gives = { λ e r. r ≡ field_of e };

    fn from(e: BlockFault) -> FieldFault {
        match e {
            BlockFault::Header(field) | BlockFault::Field(field) => field,
            BlockFault::Entry(entry) => entry.field,
        }
    }
}

impl BlockFault {
    // The whole fault, in the block of a number.
    pub fn in_block(self, block: u64) -> Fault
        ensures { report result ≡ in_block block self }
    {
        let (layer, FieldFault { cause, place }, index) = match self {
            BlockFault::Header(field) => (Layer::BlockHeader, field, None),
            BlockFault::Field(field) => (Layer::BodyField, field, None),
            BlockFault::Entry(entry) => (Layer::Entry, entry.field, Some(entry.index)),
        };
        Fault {
            cause,
            place,
            block,
            layer,
            index,
        }
    }
}

// `==` holds exactly for one and the same fault. Returns nothing; that it is proved is what counts.
pub fn equal_faults()
    ensures equal { (x y : BlockFault) → ⟦<BlockFault as PartialEq>⟧.eq x y ≡ true → x ≡ y }
    ensures same { (x : BlockFault) → ⟦<BlockFault as PartialEq>⟧.eq x x ≡ true }
{}
