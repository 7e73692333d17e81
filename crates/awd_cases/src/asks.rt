//! What is asked of a session, and the texts that answer it.

use crate::questions::bare;
use crate::readings::read;
use anyhow::{Result, bail};
use awd_calls::{Answer, Call};
use awd_history::make;
use awd_session::Session;
use awd_source::{Holder, Source, copy};
use std::alloc::{AllocError, Global};
use std::fmt::Write;

/// What is copied over.
const PAPER: u8 = 9;

/// Answers lines one after another, each with the line in front. The bytes are those of the source that is not edited.
pub fn ask_all<S: Source>(
    rt: &HostRuntime,
    session: &mut Session<S>,
    unedited: &[u8],
    lines: &str,
) -> Result<()> {
    for line in lines.lines() {
        let line = bare(line);
        if !line.is_empty() {
            println!(rt; "{line}: {}", ask(rt.alloc(), session, unedited, line)?)?;
        }
    }
    Ok(())
}

/// Answers one line, which is a call or one of these:
///
/// - `take COUNT` opens the document and takes so many blocks, whose numbers have to count up from 0;
/// - `times COUNT CALL; CALL ..` makes calls over and over, and tells the answers of each round that answers other than the one before;
/// - `changes` tells how many bytes there are, and each that is not as in the document;
/// - `header`, `copy SIZE` into a buffer of so many bytes, `within END READING` in a holder that ends there.
fn ask<S: Source>(
    heap: Global,
    session: &mut Session<S>,
    unedited: &[u8],
    line: &str,
) -> Result<String> {
    if let Ok(call) = line.parse() {
        return Ok(answer(heap, session, call)?);
    }
    let words: Vec<&str> = line.split_whitespace().collect(heap)?;
    let text = match *words.as_slice() {
        ["take", count] => take(heap, session, count.parse()?)?,
        ["times", count, ..] => {
            let calls = line.splitn(3, ' ').nth(2).unwrap_or("");
            times(heap, session, count.parse()?, calls)?
        }
        ["changes"] => changes(heap, session, unedited)?,
        ["header"] => format!(in heap; "{:?}", session.header())?,
        ["copy", size] => copied(heap, session, size.parse()?)?,
        ["within", end, ref reading @ ..] => {
            read(&Holder::new(session, end.parse()?), reading)?.to_string(heap)?
        }
        _ => bail!("no question: {line}"),
    };
    Ok(text)
}

/// Makes a call. One that is refused, or answered by there being no further block, is made again: it leaves the session as it was.
fn answer<S: Source>(
    heap: Global,
    session: &mut Session<S>,
    call: Call,
) -> Result<String, AllocError> {
    let answer = make(session, call);
    if matches!(answer, Answer::Refused(_) | Answer::Taken(None)) {
        for _ in 0..2 {
            let other = make(session, call);
            if other != answer {
                return format!(in heap; "{answer}, then {other}");
            }
        }
    }
    answer.to_string(heap)
}

/// Opens the document and takes so many blocks: `ok`, or the first answer that is another than it should be.
fn take<S: Source>(
    heap: Global,
    session: &mut Session<S>,
    count: u64,
) -> Result<String, AllocError> {
    let opened = make(session, Call::Open);
    if !matches!(opened, Answer::Opened(_)) {
        return opened.to_string(heap);
    }
    for number in 0..count {
        let taken = make(session, Call::Next);
        if taken != Answer::Taken(Some(number)) {
            return taken.to_string(heap);
        }
    }
    Answer::Done.to_string(heap)
}

/// Makes calls so many times, and tells the answers of each round that answers other than the one before.
fn times<S: Source>(
    heap: Global,
    session: &mut Session<S>,
    count: u64,
    calls: &str,
) -> Result<String> {
    let mut told = String::new(heap);
    let mut before = String::new(heap);
    for _ in 0..count {
        let round = answers(heap, session, calls)?;
        if round != before {
            let separator = if told.is_empty() { "" } else { "; " };
            write!(told, "{separator}{round}")?;
            before = round;
        }
    }
    Ok(told)
}

/// The answers of some calls, parted by commas.
fn answers<S: Source>(heap: Global, session: &mut Session<S>, calls: &str) -> Result<String> {
    let mut told = String::new(heap);
    for call in calls.split("; ") {
        let separator = if told.is_empty() { "" } else { ", " };
        write!(told, "{separator}{}", make(session, call.parse()?))?;
    }
    Ok(told)
}

/// How many bytes there are, and the places where another byte is than in the unedited ones.
fn changes<S: Source>(heap: Global, session: &Session<S>, unedited: &[u8]) -> Result<String> {
    let mut told = format!(in heap; "{} bytes", session.length())?;
    for (at, old) in unedited.iter().enumerate() {
        match session.byte(at as u64) {
            Some(byte) if byte == *old => {}
            Some(byte) => write!(told, ", {at} is {byte}")?,
            None => write!(told, ", {at} is none")?,
        }
    }
    Ok(told)
}

/// A buffer of so many bytes, and what copying the session's bytes into it answers.
fn copied<S: Source>(heap: Global, session: &Session<S>, size: usize) -> Result<String> {
    let mut buffer = vec![in heap; PAPER; size]?;
    let answer = match copy(session, &mut buffer) {
        Ok(()) => Answer::Done,
        Err(fault) => Answer::Refused(fault),
    };
    Ok(format!(in heap; "{answer} {buffer:?}")?)
}
