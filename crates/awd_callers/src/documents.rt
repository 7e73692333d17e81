// A whole document: its blocks are taken one after another, to its end or to its first fault.
ghost use Rattle.std.specs.Prelude.{◌≡◌, true, MatchResult};
ghost use Rattle.awd_fault.specs.Faults.{report};
ghost use Rattle.awd_header.specs.Header.{Lawful};
ghost use Rattle.awd_session.specs.State.{bytes_of};
ghost use Rattle.awd_session.specs.View.{view};
ghost use Rattle.awd_callers.specs.Documents.{Whole, Behind, Refused};

use awd_fault::Fault;
use awd_roster::MAX_BLOCKS;
use awd_session::Session;
use awd_source::Source;

// Takes the blocks of an opened document that are left, and tells how many it has.
fn take_all<S: Source>(session: &mut Session<S>) -> Result<u64, Fault>
    ensures { let B = bytes_of (view session.old) in (view session.old).opened ≡ true → MatchResult result (λ n. Whole B n) (λ f. Behind B (report f)) }
{
    // each answer but the last is a block, and 512 blocks are taken at most
    for _ in 0..=MAX_BLOCKS {
        let taken = session.count();
        if session.next()?.is_none() {
            return Ok(taken);
        }
    }
    Ok(session.count())
}

// How many blocks a document has, or its first fault.
pub fn count_blocks<S: Source>(source: &S) -> Result<u64, Fault>
    ensures { let B = S.bytes source.now in MatchResult result (λ n. Lawful B × Whole B n) (λ f. Refused B (report f)) }
{
    let mut session = Session::new(source);
    session.open()?;
    take_all(&mut session)
}
