// An answer as a line of text.
ghost use Rattle.std.specs.Prelude.{◌≡◌, Some};
ghost use Rattle.awd_calls.specs.Texts.{or_dash, or_none, fault_words, cell_text, record_text, answer_text};

use crate::calls::Answer;
use awd_contents::Cell;
use awd_fault::Fault;
use awd_roster::Record;
use std::fmt;
use std::num::{f32_to_bits_with_nan, f64_to_bits_with_nan};

// A number, or a dash where there is none.
#[derive(Drop)]
struct OrDash(Option<u64>);

impl fmt::Display for OrDash {
    ghost output = { λ n. Some (or_dash n.0) };

    fn fmt<W: fmt::Write>(&self, f: &mut fmt::Formatter<W>) -> fmt::Result {
        match self.0 {
            Some(number) => write!(f, "{number}"),
            None => write!(f, "-"),
        }
    }
}

// A number that there is, or that there is none.
#[derive(Drop)]
struct OrNone(Option<u64>);

impl fmt::Display for OrNone {
    ghost output = { λ n. Some (or_none n.0) };

    fn fmt<W: fmt::Write>(&self, f: &mut fmt::Formatter<W>) -> fmt::Result {
        match self.0 {
            Some(number) => write!(f, "some {number}"),
            None => write!(f, "none"),
        }
    }
}

// A refusal by its numbers.
#[derive(Drop)]
struct Refused(Fault);

impl fmt::Display for Refused {
    ghost output = { λ r. Some (fault_words r.0) };

    fn fmt<W: fmt::Write>(&self, f: &mut fmt::Formatter<W>) -> fmt::Result {
        let fault = self.0;
        write!(
            f,
            "fault {} {} {} {} {}",
            fault.cause.number(),
            fault.place,
            fault.block,
            fault.layer.number(),
            OrDash(fault.index)
        )
    }
}

// What a block tells.
#[derive(Drop)]
struct Told(Record);

impl fmt::Display for Told {
    ghost output = { λ r. Some (record_text r.0) };

    fn fmt<W: fmt::Write>(&self, f: &mut fmt::Formatter<W>) -> fmt::Result {
        let record = self.0;
        write!(
            f,
            "some {} {} {} {} {} {} {} {}",
            record.id,
            record.namespace,
            record.kind,
            record.place,
            record.size,
            OrDash(record.parent.map(u64::from)),
            OrDash(record.name.map(|name| name.place)),
            OrDash(record.name.map(|name| u64::from(name.length)))
        )
    }
}

// The content of a cell by its bits; every not-a-number has the same.
#[derive(Drop)]
struct Content(Cell);

impl fmt::Display for Content {
    ghost output = { λ c. Some (cell_text c.0) };

    fn fmt<W: fmt::Write>(&self, f: &mut fmt::Formatter<W>) -> fmt::Result {
        match self.0 {
            Cell::Single(x) => write!(f, "some s {:08x}", f32_to_bits_with_nan(x)),
            Cell::Double(x) => write!(f, "some d {:016x}", f64_to_bits_with_nan(x)),
        }
    }
}

impl fmt::Display for Answer {
    ghost output = { λ answer. Some (answer_text answer) };

    fn fmt<W: fmt::Write>(&self, f: &mut fmt::Formatter<W>) -> fmt::Result {
        match *self {
            Answer::Refused(fault) => write!(f, "{}", Refused(fault)),
            Answer::Done | Answer::Opened(_) => write!(f, "ok"),
            Answer::Count(number) => write!(f, "{number}"),
            Answer::Record(Some(record)) => write!(f, "{}", Told(record)),
            Answer::Content(Some(cell)) => write!(f, "{}", Content(cell)),
            Answer::Record(None) | Answer::Content(None) => write!(f, "none"),
            Answer::Taken(number) | Answer::Number(number) => write!(f, "{}", OrNone(number)),
            Answer::Address(address) => write!(f, "{}", OrNone(address.map(u64::from))),
            Answer::Byte(byte) => write!(f, "{}", OrNone(byte.map(u64::from))),
        }
    }
}
