// awdattr: lists the user attributes on standard input, which are the bytes between a user list's total and its end.
// A line for each attribute: its index, namespace, key, type and value; last `end` and how many there are, or `fault` with
// cause, place, block, layer and index. Keys, texts and raw bytes are written byte by byte, a float by its bits.
#![tactic(auto)]

use awd_attributes::{Attribute, AttributeReader, Value};
use awd_fault::Fault;
use awd_value::Number;
use std::fmt;
use std::io::Read;
use std::num::{f32_to_bits_with_nan, f64_to_bits_with_nan};

const MAX_INPUT: usize = 65_536;

// Bytes, each by its number.
#[derive(Drop)]
struct Bytes<'a>(&'a [u8]);

impl<'a> fmt::Display for Bytes<'a> {
    fn fmt<W: fmt::Write>(&self, f: &mut fmt::Formatter<W>) -> fmt::Result {
        for b in self.0 {
            write!(f, " {b}")?;
        }
        Ok(())
    }
}

// A number by its case, or that there is none.
#[derive(Drop)]
struct Case(Option<Number>);

impl fmt::Display for Case {
    fn fmt<W: fmt::Write>(&self, f: &mut fmt::Formatter<W>) -> fmt::Result {
        match self.0 {
            None => write!(f, " none"),
            Some(Number::Signed(n)) => write!(f, " signed {n}"),
            Some(Number::Unsigned(n)) => write!(f, " unsigned {n}"),
            Some(Number::Single(x)) => write!(f, " single {}", f32_to_bits_with_nan(x)),
            Some(Number::Double(x)) => write!(f, " double {}", f64_to_bits_with_nan(x)),
            Some(Number::YesNo(yes)) => write!(f, " yesno {yes}"),
        }
    }
}

// What a line tells of an attribute, behind its index.
#[derive(Drop)]
struct Told<'a>(Attribute<'a>);

impl<'a> fmt::Display for Told<'a> {
    fn fmt<W: fmt::Write>(&self, f: &mut fmt::Formatter<W>) -> fmt::Result {
        let Attribute {
            namespace,
            key,
            value_type,
            value,
        } = self.0;
        write!(
            f,
            "namespace {namespace} key{} type {}",
            Bytes(key),
            value_type.number()
        )?;
        match value {
            Value::Text(bytes) => write!(f, " text{}", Bytes(bytes)),
            Value::Raw(bytes) => write!(f, " raw{}", Bytes(bytes)),
            Value::Number(bytes) => write!(f, "{}", Case(value_type.value(bytes))),
        }
    }
}

// A refusal by its numbers.
#[derive(Drop)]
struct Refused(Fault);

impl fmt::Display for Refused {
    fn fmt<W: fmt::Write>(&self, f: &mut fmt::Formatter<W>) -> fmt::Result {
        let Fault {
            cause,
            place,
            block,
            layer,
            index,
        } = self.0;
        write!(
            f,
            "fault {} {place} {block} {} {}",
            cause.number(),
            layer.number(),
            index.unwrap_or(0)
        )
    }
}

fn main(rt: HostRuntime) -> anyhow::Result<()> {
    let mut input = Vec::new(rt.alloc());
    // std has no `From` from usize to u64
    rt.stdin().take(MAX_INPUT as u64).read_to_end(&mut input)?;
    let mut reader = AttributeReader::new(input.as_slice());
    // there are no more attributes than bytes, and a fault ends the walk
    for index in 0..MAX_INPUT + 1 {
        match reader.next() {
            Ok(Some(attribute)) => println!(rt; "{index} {}", Told(attribute))?,
            Ok(None) => {
                println!(rt; "end {index}")?;
                return Ok(());
            }
            Err(fault) => {
                println!(rt; "{}", Refused(fault))?;
                return Ok(());
            }
        }
    }
    Ok(())
}
