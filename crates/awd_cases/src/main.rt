//! awd_cases: reads files of cases, which its arguments name, and prints each line that asks something, and what is answered. Blank lines are passed
//! over, and so is what stands behind `#`. A line `case NAME` begins a case. Its next lines lay bytes (`lay`), or ask something of these bytes
//! (`questions.rt`); a case that lays none has the bytes of the one before. A line `over SOURCE` makes a session, and the lines behind it are
//! asked of that (`sessions.rt`).
#![tactic(auto)]

mod asks;
mod below;
mod questions;
mod readings;
mod sessions;

use anyhow::{Context, Result};
use questions::{answer, bare};
use sessions::ask_over;
use std::{env, fs};

/// Lays bytes behind those that are there, if a line says so: `bytes B ..`, or `fill COUNT B`. Lines that begin anew are `memory` and
/// `document FLAGS BODY_LENGTH`, which lays a header of version 2.1.
fn lay(memory: &mut Vec<u8>, words: &[&str]) -> Result<bool> {
    match *words {
        ["memory"] => memory.clear(),
        ["document", flags, length] => {
            memory.clear();
            memory.extend_from_slice(&[65, 87, 68, 2, 1, flags.parse()?, 0, 0])?;
            memory.extend_from_slice(&length.parse::<u32>()?.to_le_bytes())?;
        }
        ["bytes", ref numbers @ ..] => {
            for number in numbers {
                memory.push(number.parse()?)?;
            }
        }
        ["fill", count, number] => {
            let length = memory.len().saturating_add(count.parse()?);
            memory.resize(length, number.parse()?)?;
        }
        _ => return Ok(false),
    }
    Ok(true)
}

/// Runs a case, whose first line is its name.
fn run(rt: &HostRuntime, memory: &mut Vec<u8>, case: &str) -> Result<()> {
    let heap = rt.alloc();
    let (front, session) = case.split_once("\nover ").unwrap_or((case, ""));
    for line in front.lines().skip(1) {
        let line = bare(line);
        let words: Vec<&str> = line.split_whitespace().collect(heap)?;
        if !words.is_empty() && !lay(memory, &words)? {
            println!(rt; "{line}: {}", answer(heap, memory, line, &words)?)?;
        }
    }
    match session.split_once('\n') {
        Some((source, asks)) => ask_over(rt, memory, source, asks),
        None => Ok(()),
    }
}

fn main(rt: HostRuntime) -> Result<()> {
    let mut memory = Vec::new(rt.alloc());
    for name in env::args(&rt)?.skip(1) {
        let text = fs::read_to_string(&rt, name.as_str()).context("no such file")?;
        for case in text.split("\ncase ").skip(1) {
            println!(rt; "\ncase {}", case.lines().next().unwrap_or(""))?;
            run(&rt, &mut memory, case)?;
        }
    }
    Ok(())
}
