// A walk over user attributes from the first to the last. What the reader promises of each step is enough to know of the whole walk: after n
// attributes and then none, the bytes are a run of n of them; a fault is that of the first entry that is none.
ghost use Rattle.std.specs.Prelude.{IfOk, IfErr};
ghost use Rattle.awd_callers.specs.Walks.{UserRun, FirstRefused};

use awd_attributes::AttributeReader;
use awd_fault::Fault;

// How many user attributes a part is a run of, or the fault of the first entry that is none.
pub fn count_attributes(part: &[u8]) -> Result<u64, Fault>
    ensures run { IfOk result (λ n. UserRun n part.now) }
    ensures first { IfErr result (λ f. FirstRefused part.now f) }
{
    let mut reader = AttributeReader::new(part);
    // the reader is no Iterator whose items could be counted: a fault comes again each time that it is asked, so they would never end
    let mut count: u64 = 0;
    while let Some(_) = reader.next()? {
        count += 1;
    }
    Ok(count)
}
