// What the program awdlist writes for an input, as a text.
// This crate knows how a listing reads; it neither reads input nor prints.
#![tactic(auto)]

ghost use Rattle.std.specs.Prelude.{◌≡◌, ◌++◌, IfOk, Some, string_bytes};
ghost use Rattle.awd_fault.specs.Faults.{report};
ghost use Rattle.awd_listing.specs.Listing.{opened_line, parent_text, block_line, end_line, fault_line, lines_of, listing_of};
ghost use Rattle.awd_session.specs.Asked.{asked};
ghost use Rattle.awd_session.specs.View.{view};

use awd_fault::Fault;
use awd_header::Header;
use awd_roster::{MAX_BLOCKS, Record};
use awd_session::Session;
use awd_source::{Run, Source};
use std::alloc::{AllocError, Global};
use std::fmt;
use std::fmt::Write;

pub const MAX_INPUT: usize = 65_536;

// A parent's address as a line shows it: a dash where the block has no such field.
#[derive(Drop)]
struct Parent(Option<u32>);

impl fmt::Display for Parent {
    ghost output = { λ parent. Some (parent_text parent.0) };

    fn fmt<W: fmt::Write>(&self, f: &mut fmt::Formatter<W>) -> fmt::Result {
        match self.0 {
            Some(address) => write!(f, "{address}"),
            None => write!(f, "-"),
        }
    }
}

// The line of an opened document of a length.
fn add_opened_line(text: &mut String, header: Header, length: u64) -> Result<(), AllocError>
    ensures { IfOk result (λ _. string_bytes text.new ≡ string_bytes text.old ++ opened_line header length) }
{
    writeln!(
        text,
        "AWD {}.{} flags {} length {length}",
        header.version, header.revision, header.flags
    )
}

// The line of a taken block.
fn add_block_line(text: &mut String, number: u64, block: Record) -> Result<(), AllocError>
    ensures { IfOk result (λ _. string_bytes text.new ≡ string_bytes text.old ++ block_line number block) }
{
    writeln!(
        text,
        "{number} {} {} {} {} {} {}",
        block.id,
        block.namespace,
        block.kind,
        block.place,
        block.size,
        Parent(block.parent)
    )
}

// The line behind the last block.
fn add_end_line(text: &mut String, count: u64) -> Result<(), AllocError>
    ensures { IfOk result (λ _. string_bytes text.new ≡ string_bytes text.old ++ end_line count) }
{
    writeln!(text, "end {count}")
}

// The line of a refusal.
fn add_fault_line(text: &mut String, fault: Fault) -> Result<(), AllocError>
    ensures { IfOk result (λ _. string_bytes text.new ≡ string_bytes text.old ++ fault_line (report fault)) }
{
    writeln!(
        text,
        "fault {} {} {}",
        fault.cause.number(),
        fault.place,
        fault.block
    )
}

// The lines of all blocks, by a session that has taken none yet, and the last line. One answer more than there may be blocks is always the last.
fn add_lines<S: Source>(text: &mut String, session: &mut Session<S>) -> Result<(), AllocError>
    requires { (view session.old).taken ≡ 0 }
    ensures { IfOk result (λ _. string_bytes text.new ≡ string_bytes text.old ++ lines_of (asked 512 (view session.old))) }
{
    for _ in 0..=MAX_BLOCKS {
        match session.next() {
            Ok(Some(number)) => {
                if let Some(block) = session.record(number) {
                    add_block_line(text, number, block)?;
                }
            }
            Ok(None) => return add_end_line(text, session.count()),
            Err(fault) => return add_fault_line(text, fault),
        }
    }
    Ok(())
}

// The whole listing of an input.
#[tactic(auto, using(crate::proofs::Lines::limit_spelled))]
pub fn listing(heap: Global, input: &[u8]) -> Result<String, AllocError>
    ensures { IfOk result (λ text. string_bytes text ≡ listing_of input.now) }
{
    let mut text = String::new(heap);
    if input.len() > MAX_INPUT {
        writeln!(text, "input over {MAX_INPUT}")?;
        return Ok(text);
    }
    let mut session = Session::new(Run::new(input));
    match session.open() {
        Ok(header) => {
            add_opened_line(&mut text, header, session.length())?;
            add_lines(&mut text, &mut session)?;
        }
        Err(fault) => add_fault_line(&mut text, fault)?,
    }
    Ok(text)
}
