// awdreplay: makes the calls on standard input, one a line, on three sessions over one document, which the file has that its first argument names.
// It prints what the first session answers, a line for each call; empty lines and those that begin with `#` are passed over, and a line that is no
// call is told by its number. The last line says whether all three answered the same. What a call does is proved in the libraries.
#![tactic(auto)]

ghost use Rattle.std.specs.Prelude.{◌≡◌, IfOk, None};
ghost use Rattle.awdreplay.specs.Lines.{call_in, line_of, AllAlike};

mod copies;
mod replicas;

use anyhow::{Context, Result, bail};
use awd_calls::Call;
use copies::{Framed, Shuffled};
use replicas::{Answered, Replicas};
use std::alloc::Global;
use std::io::Read;
use std::{env, fs};

// What a line is.
enum Line {
    Passed,
    NoCall,
    Call(Call),
}

fn read_line(line: &[u8]) -> Line
    ensures { result ≡ line_of line.now }
{
    if matches!(line, [] | [b'#', ..]) {
        return Line::Passed;
    }
    match call_in(line) {
        Some(call) => Line::Call(call),
        None => Line::NoCall,
    }
}

// The call that some bytes are, which have to be text for that.
#[tactic(auto, using(crate::proofs::Texts::text_told, crate::proofs::Texts::none_told))]
fn call_in(bytes: &[u8]) -> Option<Call>
    ensures { result ≡ call_in bytes.now }
{
    match str::from_utf8(bytes) {
        Ok(text) => text.parse().ok(),
        Err(_) => None,
    }
}

// Makes the calls of an input, and prints what comes of each. The number of the first line at which the replicas differ, if they do; such as are
// alike never do. (The runtime by its type: over a type parameter, what the loop keeps could not be stated.)
fn replay(
    rt: &HostRuntime,
    heap: Global,
    replicas: &mut Replicas<'_>,
    input: &[u8],
) -> Result<Option<usize>>
    ensures { IfOk result (λ differs. AllAlike replicas.old → differs ≡ None) }
{
    let mut differs = None;
    for (before, line) in input.split(|&b| b == b'\n').enumerate() {
        let number = before + 1;
        match read_line(line) {
            Line::Passed => {}
            Line::NoCall => println!(rt; "? {number}")?,
            Line::Call(call) => {
                let Answered { text, same } = replicas.make(heap, call)?;
                println!(rt; "{text}")?;
                if !same {
                    differs = differs.or(Some(number));
                }
            }
        }
    }
    Ok(differs)
}

fn main(rt: HostRuntime) -> Result<()> {
    let heap = rt.alloc();
    let Some(name) = env::args(&rt)?.nth(1) else {
        bail!("usage: awdreplay DOCUMENT < CALLS");
    };
    let document = fs::read(&rt, name.as_str()).context("the document cannot be read")?;
    let document = document.as_slice();
    let mut input = Vec::new(heap);
    rt.stdin().read_to_end(&mut input)?;
    let shuffled = Shuffled::new(heap, document)?;
    let framed = Framed::new(heap, document)?;
    let mut replicas = Replicas::new(document, &shuffled, &framed)?;
    match replay(&rt, heap, &mut replicas, input.as_slice())? {
        None => println!(rt; "replicas agree")?,
        Some(number) => println!(rt; "replicas differ at {number}")?,
    }
    Ok(())
}
