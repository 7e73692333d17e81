// Calls of a session, and what they answer, as values.

use awd_contents::Cell;
use awd_fault::Fault;
use awd_header::Header;
use awd_roster::Record;

// A call of a session, with what it is given. Blocks are named by their numbers.
#[derive(Clone, Copy, PartialEq, Debug)]
pub enum Call {
    Open,
    Next,
    // a block, the parent's address
    Reparent(u64, u32),
    // a mesh instance, the position, the material's address
    Dress(u64, u64, u32),
    // a block, the cell, its content
    Nudge(u64, u64, Cell),
    Undo,
    // the blocks taken
    Count,
    // the edits standing
    Edits,
    Record(u64),
    // an ID
    NumberOf(u32),
    // a block, the position
    Material(u64, u64),
    // a block, the cell
    Cell(u64, u64),
    Path(u64),
    Length,
    // a place
    Byte(u64),
}

// What a call answers.
#[derive(Clone, Copy, PartialEq, Debug)]
pub enum Answer {
    Refused(Fault),
    Done,
    // what the header says
    Opened(Header),
    // the number of the block that was taken, or none where the bytes are used up
    Taken(Option<u64>),
    // of blocks, edits or bytes
    Count(u64),
    Record(Option<Record>),
    // of a block, or of the parents passed
    Number(Option<u64>),
    Address(Option<u32>),
    Content(Option<Cell>),
    Byte(Option<u8>),
}
