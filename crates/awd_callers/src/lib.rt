// Callers of the library as they are accepted. Small edits of them must be refused: those in refused/ by the
// compiler's borrow checker and privacy, those in must-fail/ by the prover.
#![tactic(auto)]

ghost use Rattle.std.specs.Prelude.{◌≡◌, None, slice_index, slice_set};
ghost use Rattle.awd_fault.specs.Faults.{answer};
ghost use Rattle.awd_header.specs.Header.{opening};
ghost use Rattle.awd_session.specs.State.{bytes_of, fresh};
ghost use Rattle.awd_session.specs.View.{view};
ghost use Rattle.awd_callers.specs.Edits.{first_reparented};

mod documents;
mod sheets;
mod values;
mod walks;

use awd_fault::Fault;
use awd_header::Header;
use awd_session::Session;
use awd_source::{Run, Source};
pub use documents::count_blocks;
pub use sheets::{Sheet, sheets_at};
pub use values::plain_values;
pub use walks::count_attributes;

// The byte at place 1, read by way of a part of a run; then 7 is written there. While the part is in use the
// memory cannot be written: one reads, or copies, first.
pub fn replace_second(memory: &mut [u8; 4]) -> u8
    ensures value { result ≡ slice_index memory.old 1 }
    ensures after { memory.new ≡ slice_set memory.old 1 7 }
{
    let run = Run::new(&*memory);
    let part = run.part(1, 2);
    let old = part.and_then(|p| p.first().copied()).unwrap_or(0);
    memory[1] = 7;
    old
}

// Opens a document by way of a session over a session. The lower one belongs to the upper: it cannot be
// reached from outside until the upper is closed.
pub fn open_above<S: Source>(source: S) -> (Result<Header, Fault>, Session<S>)
    ensures answer { answer result.0 ≡ opening (S.bytes source) }
    ensures lower { (result.1.source ≡ source) × (result.1.header ≡ None) }
{
    let lower = Session::new(source);
    let mut upper = Session::new(lower);
    let opened = upper.open();
    (opened, upper.close())
}

// The same over a session that is only lent: it cannot be changed while the upper one reads it.
pub fn open_over<S: Source>(lower: &mut Session<S>) -> Result<Header, Fault>
    ensures answer { answer result ≡ opening (bytes_of (view lower.old)) }
    ensures same { lower.new ≡ lower.old }
{
    let mut upper = Session::new(&*lower);
    upper.open()
}

// Opens a document, takes its first block and gives that another parent.
fn reparent_first<S: Source>(session: &mut Session<S>, address: u32) -> Result<(), Fault>
    ensures answer { answer result ≡ first_reparented (view session.old) address }
    ensures source { session.new.source ≡ session.old.source }
{
    session.open()?;
    session.next()?;
    session.reparent(0, address)
}

// The same by way of a session over a session. The edit is laid above: the lower one, which may have blocks and edits of its own, is given back
// as it was.
pub fn reparent_above<S: Source>(lower: Session<S>, address: u32) -> (Result<(), Fault>, Session<S>)
    ensures answer { answer result.0 ≡ first_reparented (fresh (bytes_of (view lower))) address }
    ensures lower { view result.1 ≡ view lower }
{
    let mut upper = Session::new(lower);
    let edited = reparent_first(&mut upper, address);
    (edited, upper.close())
}
