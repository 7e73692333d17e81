//! Sessions over the bytes of a case, and over each other.

use crate::asks::ask_all;
use crate::below::Below;
use crate::questions::page_list;
use anyhow::{Result, bail};
use awd_session::Session;
use awd_source::{Pages, Run, Source, Window, copy};

/// Makes a session over what a line names, and asks it the lines behind. The line names `run`, `window START SIZE`, `pages SIZE PAGE ..`, or
/// `cut START SIZE WHOLE PAGE ..`, which is a window on pages of the length WHOLE.
pub fn ask_over(rt: &HostRuntime, memory: &[u8], line: &str, asks: &str) -> Result<()> {
    println!(rt; "over {line}")?;
    let heap = rt.alloc();
    let run = Run::new(memory);
    let words: Vec<&str> = line.split_whitespace().collect(heap)?;
    match *words.as_slice() {
        ["run"] => ask_layers(rt, Below::Run(run), asks),
        ["window", start, size] => {
            let window = Window::new(run, start.parse()?, size.parse()?);
            ask_layers(rt, Below::Window(window), asks)
        }
        ["pages", size, ref list @ ..] => {
            let list = page_list(heap, list)?;
            let mut pages = Pages::new();
            pages.fill(run, &list, size.parse()?)?;
            ask_layers(rt, Below::Pages(pages), asks)
        }
        ["cut", start, size, whole, ref list @ ..] => {
            let list = page_list(heap, list)?;
            let mut pages = Pages::new();
            pages.fill(run, &list, whole.parse()?)?;
            let window = Window::new(pages, start.parse()?, size.parse()?);
            ask_layers(rt, Below::Cut(window), asks)
        }
        _ => bail!("no source: {line}"),
    }
}

/// Asks a session the lines as far as a line `lend` or `give`, a session over this one those behind it as far as a line `back`, and this one the rest.
fn ask_layers(rt: &HostRuntime, source: Below<'_>, asks: &str) -> Result<()> {
    let mut unedited = vec![in rt.alloc(); 0u8; source.length() as usize]?;
    copy(&source, &mut unedited)?;
    let mut session = Session::new(source);
    let (asks, last) = asks.split_once("\nback\n").unwrap_or((asks, ""));
    if let Some((first, above)) = asks.split_once("\nlend\n") {
        ask_all(rt, &mut session, &unedited, first)?;
        println!(rt; "lend")?;
        ask_all(rt, &mut Session::new(&session), &unedited, above)?;
    } else if let Some((first, above)) = asks.split_once("\ngive\n") {
        ask_all(rt, &mut session, &unedited, first)?;
        println!(rt; "give")?;
        let mut upper = Session::new(session);
        ask_all(rt, &mut upper, &unedited, above)?;
        session = upper.close();
    } else {
        ask_all(rt, &mut session, &unedited, asks)?;
    }
    if !last.is_empty() {
        println!(rt; "back")?;
        ask_all(rt, &mut session, &unedited, last)?;
    }
    Ok(())
}
