// awdlist: lists the AWD document on standard input.
// It reads, has the library make the listing, and prints it; what the listing says is proved there.
#![tactic(auto)]

ghost use Rattle.std.specs.Prelude.{OnOk, IfSome};
ghost use Rattle.std.specs.Io.KnownBytes.{Appends};
ghost use Rattle.awd_listing.specs.Listing.{listing_of};

use awd_listing::{MAX_INPUT, listing};
use std::alloc::Global;
use std::io::{Read, Write};

// Writes the listing of an input to an output. One byte more than may be listed is read, so that a longer input is seen to be longer (std has no
// `From` from usize to u64).
fn list<R: Read + Drop, W: Write>(heap: Global, input: R, output: &mut W) -> anyhow::Result<()>
    ensures { OnOk result (IfSome (R.remaining input) (λ bs. Appends (W.contents output.old) (W.contents output.new) (listing_of bs))) }
{
    let mut bytes = Vec::new(heap);
    input.take(MAX_INPUT as u64 + 1).read_to_end(&mut bytes)?;
    let text = listing(heap, bytes.as_slice())?;
    output.write_all(text.as_bytes())?;
    Ok(())
}

fn main(rt: HostRuntime) -> anyhow::Result<()> {
    list(rt.alloc(), rt.stdin(), &mut rt.stdout())
}
