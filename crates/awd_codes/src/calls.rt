// Calls and answers as plain numbers.
ghost use Rattle.std.specs.Prelude.{◌≡◌, Some};
ghost use Rattle.awd_calls.specs.Answers.{said, number, float, what_block_tells};
ghost use Rattle.std.specs.Option.{option_map};
ghost use Rattle.awd_contents.specs.Contents.{told as told_cell};
ghost use Rattle.awd_codes.specs.Calls.{single_of, double_of, call_of, plain, answer_code};

use crate::records::{AwdBlock, AwdFault, AwdHeader};
use awd_calls::{Answer, Call};
use awd_contents::Cell;
use awd_roster::Record;
use std::num::{
    f32_from_bits_with_nan, f32_to_bits_with_nan, f64_from_bits_with_nan, f64_to_bits_with_nan,
};

// The numbers of calls, as in `include/awd.h`.
const CALL_OPEN: u32 = 0;

const CALL_NEXT: u32 = 1;

const CALL_REPARENT: u32 = 2;

const CALL_DRESS: u32 = 3;

const CALL_NUDGE_SINGLE: u32 = 4;

const CALL_NUDGE_DOUBLE: u32 = 5;

const CALL_UNDO: u32 = 6;

const CALL_COUNT: u32 = 7;

const CALL_EDITS: u32 = 8;

pub(crate) const CALL_RECORD: u32 = 9;

pub(crate) const CALL_NUMBER_OF: u32 = 10;

pub(crate) const CALL_MATERIAL: u32 = 11;

pub(crate) const CALL_CELL: u32 = 12;

pub(crate) const CALL_PATH: u32 = 13;

const CALL_LENGTH: u32 = 14;

pub(crate) const CALL_BYTE: u32 = 15;

// A call. Which one it is tells `what`; fields that it does not name are not looked at.
#[repr(C)]
#[derive(Clone, Copy, Default)]
pub struct AwdCall {
    pub number: u64,
    pub which: u64,
    pub content: u64,
    pub address: u32,
    pub what: u32,
}

impl AwdCall {
    // The call that the numbers are, if they are one.
    pub fn call(self) -> Option<Call>
        ensures { result ≡ call_of self }
    {
        let AwdCall {
            number,
            which,
            content,
            address,
            what,
        } = self;
        match what {
            CALL_OPEN => Some(Call::Open),
            CALL_NEXT => Some(Call::Next),
            CALL_REPARENT => Some(Call::Reparent(number, address)),
            CALL_DRESS => Some(Call::Dress(number, which, address)),
            CALL_NUDGE_SINGLE => Some(Call::Nudge(number, which, single(content)?)),
            CALL_NUDGE_DOUBLE => Some(Call::Nudge(number, which, double(content))),
            CALL_UNDO => Some(Call::Undo),
            CALL_COUNT => Some(Call::Count),
            CALL_EDITS => Some(Call::Edits),
            CALL_RECORD => Some(Call::Record(number)),
            CALL_NUMBER_OF => Some(Call::NumberOf(address)),
            CALL_MATERIAL => Some(Call::Material(number, which)),
            CALL_CELL => Some(Call::Cell(number, which)),
            CALL_PATH => Some(Call::Path(number)),
            CALL_LENGTH => Some(Call::Length),
            CALL_BYTE => Some(Call::Byte(number)),
            _ => None,
        }
    }
}

// A single float by its bits, of which there are 32.
fn single(bits: u64) -> Option<Cell>
    ensures { result ≡ single_of bits }
{
    let bits = u32::try_from(bits).ok()?;
    Some(Cell::Single(f32_from_bits_with_nan(bits)))
}

// A double float by its bits.
fn double(bits: u64) -> Cell
    ensures { result ≡ double_of bits }
{
    Cell::Double(f64_from_bits_with_nan(bits))
}

const REFUSED: u32 = 1;

const DONE: u32 = 2;

const OPENED: u32 = 3;

const NONE: u32 = 4;

const NUMBER: u32 = 5;

const BLOCK: u32 = 6;

const SINGLE: u32 = 7;

const DOUBLE: u32 = 8;

// An answer. Which one it is tells `what`; what it does not say is 0. Of what is no call all is 0.
#[repr(C)]
#[derive(Clone, Copy, Default)]
pub struct AwdAnswer {
    pub number: u64,
    pub fault: AwdFault,
    pub block: AwdBlock,
    pub header: AwdHeader,
    pub what: u32,
}

impl AwdAnswer {
    pub fn of(answer: Answer) -> AwdAnswer
        ensures { result ≡ answer_code (said answer).1 }
    {
        let mut told = AwdAnswer::default();
        match answer {
            Answer::Refused(fault) => {
                told.what = REFUSED;
                told.fault = AwdFault::of(fault);
            }
            Answer::Done => told.what = DONE,
            Answer::Opened(header) => {
                told.what = OPENED;
                told.header = AwdHeader::of(header);
            }
            Answer::Record(record) => told.tell_record(record),
            Answer::Content(content) => told.tell_content(content),
            Answer::Count(number) => told.tell_number(Some(number)),
            Answer::Taken(number) | Answer::Number(number) => told.tell_number(number),
            Answer::Address(address) => told.tell_number(address.map(u64::from)),
            Answer::Byte(byte) => told.tell_number(byte.map(u64::from)),
        }
        told
    }

    // In an answer that says nothing yet: a number, or that there is none.
    pub(crate) fn tell_number(&mut self, told: Option<u64>)
        requires { self.old ≡ plain 0 }
        ensures { self.new ≡ answer_code (number told) }
    {
        match told {
            Some(number) => {
                self.what = NUMBER;
                self.number = number;
            }
            None => self.what = NONE,
        }
    }

    // What a block tells, or that there is none.
    pub(crate) fn tell_record(&mut self, told: Option<Record>)
        requires { self.old ≡ plain 0 }
        ensures { self.new ≡ answer_code (what_block_tells told) }
    {
        match told {
            Some(record) => {
                self.what = BLOCK;
                self.block = AwdBlock::of(record);
            }
            None => self.what = NONE,
        }
    }

    // A float by its bits, or that there is none.
    pub(crate) fn tell_content(&mut self, told: Option<Cell>)
        requires { self.old ≡ plain 0 }
        ensures { self.new ≡ answer_code (float (option_map told_cell told)) }
    {
        match told {
            Some(Cell::Single(x)) => {
                self.what = SINGLE;
                self.number = u64::from(f32_to_bits_with_nan(x));
            }
            Some(Cell::Double(x)) => {
                self.what = DOUBLE;
                self.number = f64_to_bits_with_nan(x);
            }
            None => self.what = NONE,
        }
    }
}
