//! What is asked of the bytes of a case, or of nothing but the line.

use anyhow::{Result, bail};
use awd_calls::{Answer, Call};
use awd_header::Header;
use awd_source::{Pages, Run, Source};
use awd_value::ValueType;
use std::alloc::Global;

/// What a line says in front of its comment.
pub fn bare(line: &str) -> &str {
    line.split('#').next().unwrap_or("").trim()
}

/// Answers one line:
///
/// - `part AT SIZE` of the bytes;
/// - `refill SIZE PAGE ..` of pages that are page 2 cut to 3 bytes before, and then their length, and their bytes at 2 and 3;
/// - `value TYPE BYTE ..`, `widths FLAGS BLOCK_FLAGS` and whether the document is streamed, `call "TEXT"`.
pub fn answer(heap: Global, memory: &[u8], line: &str, words: &[&str]) -> Result<String> {
    Ok(match *words {
        ["part", at, size] => {
            let part = Run::new(memory).part(at.parse()?, size.parse()?);
            format!(in heap; "{part:?}")?
        }
        ["refill", size, ref list @ ..] => refill(heap, memory, size.parse()?, list)?,
        ["value", number, ref bytes @ ..] => value(heap, number.parse()?, bytes)?,
        ["widths", flags, block] => widths(heap, flags.parse()?, block.parse()?)?,
        ["call", ..] => {
            let text = line.split('"').nth(1).unwrap_or("");
            format!(in heap; "{:?}", text.parse::<Call>())?
        }
        _ => bail!("no question: {line}"),
    })
}

/// Numbers of pages.
pub fn page_list(heap: Global, words: &[&str]) -> Result<Vec<u16>> {
    let mut list = Vec::new(heap);
    for word in words {
        list.push(word.parse()?)?;
    }
    Ok(list)
}

/// Fills pages of the bytes, which are three bytes of page 2 before. A refusal leaves these.
fn refill(heap: Global, memory: &[u8], size: u64, list: &[&str]) -> Result<String> {
    let list = page_list(heap, list)?;
    let mut pages = Pages::new();
    pages.fill(Run::new(memory), &[2], 3)?;
    let answer = match pages.fill(Run::new(memory), &list, size) {
        Ok(()) => Answer::Done,
        Err(fault) => Answer::Refused(fault),
    };
    let (length, second, third) = (pages.length(), pages.byte(2), pages.byte(3));
    Ok(format!(in heap; "{answer}, length {length}, bytes {second:?} {third:?}")?)
}

/// What the bytes of a value of a type say.
fn value(heap: Global, number: u8, words: &[&str]) -> Result<String> {
    let value_type = ValueType::try_from(number)?;
    let mut bytes = Vec::new(heap);
    for word in words {
        bytes.push(word.parse()?)?;
    }
    let value = value_type.value(&bytes);
    Ok(format!(in heap; "{value:?}")?)
}

fn widths(heap: Global, flags: u16, block: u8) -> Result<String> {
    let header = Header {
        version: 2,
        revision: 1,
        flags,
    };
    let (widths, streaming) = (header.widths(block), header.streaming());
    Ok(format!(in heap; "{widths:?} {streaming}")?)
}
