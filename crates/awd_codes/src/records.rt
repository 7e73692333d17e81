// Faults, headers and records of blocks as plain numbers.
ghost use Rattle.std.specs.Prelude.{◌≡◌};
ghost use Rattle.awd_fault.specs.Faults.{answer, report};
ghost use Rattle.awd_codes.specs.Records.{fault_code, outcome_code, header_code, block_code};

use awd_fault::Fault;
use awd_header::Header;
use awd_roster::{Record, Span};

// A refusal by its numbers; all 0 where there is none.
#[repr(C)]
#[derive(Clone, Copy, Default)]
pub struct AwdFault {
    pub place: u64,
    pub block: u64,
    pub index: u64,
    pub cause: u8,
    pub layer: u8,
    pub has_index: bool,
}

// What the header says; all 0 where there is none.
#[repr(C)]
#[derive(Clone, Copy, Default)]
pub struct AwdHeader {
    pub flags: u16,
    pub version: u8,
    pub revision: u8,
}

// What a block tells; what it does not have is 0.
#[repr(C)]
#[derive(Clone, Copy, Default)]
pub struct AwdBlock {
    pub place: u64,
    pub name_place: u64,
    pub id: u32,
    pub size: u32,
    pub parent: u32,
    pub name_length: u16,
    pub name_space: u8,
    pub kind: u8,
    pub has_parent: bool,
    pub has_name: bool,
}

impl AwdFault {
    pub fn of(fault: Fault) -> AwdFault
        ensures { result ≡ fault_code (report fault) }
    {
        AwdFault {
            place: fault.place,
            block: fault.block,
            index: fault.index.unwrap_or(0),
            cause: fault.cause.number(),
            layer: fault.layer.number(),
            has_index: fault.index.is_some(),
        }
    }

    // What comes of a call that gives nothing but its acceptance.
    pub fn of_outcome(outcome: Result<(), Fault>) -> AwdFault
        ensures { result ≡ outcome_code (answer outcome) }
    {
        match outcome {
            Ok(()) => AwdFault::default(),
            Err(fault) => AwdFault::of(fault),
        }
    }
}

impl AwdHeader {
    pub fn of(header: Header) -> AwdHeader
        ensures { result ≡ header_code header }
    {
        AwdHeader {
            flags: header.flags,
            version: header.version,
            revision: header.revision,
        }
    }
}

impl AwdBlock {
    pub fn of(record: Record) -> AwdBlock
        ensures { result ≡ block_code «record» }
    {
        let name = record.name.unwrap_or(Span {
            place: 0,
            length: 0,
        });
        AwdBlock {
            place: record.place,
            name_place: name.place,
            id: record.id,
            size: record.size,
            parent: record.parent.unwrap_or(0),
            name_length: name.length,
            name_space: record.namespace,
            kind: record.kind,
            has_parent: record.parent.is_some(),
            has_name: record.name.is_some(),
        }
    }
}
