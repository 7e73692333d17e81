// Runs of entries, written once for any kind of entry: so many of them, or as many as fill so many bytes.
ghost use Rattle.std.specs.Prelude.{◌≡◌, ℕ, ◌+◌, ◌-◌, ◌<◌, ◌≤◌, List, IfOk};
ghost use Rattle.awd_source.specs.Holders.{held, Ends, Further};
ghost use Rattle.awd_source.specs.Bytes.{le, part};
ghost use Rattle.awd_block_fault.specs.Faults.{in_entry, turned};
ghost use Rattle.awd_format.specs.Runs.{Reading, KindLaw, counted_at, filling_at, measured_at, list_at, CountedFault, MeasuredFault};
ghost use Rattle.awd_format.specs.Sets.{Reads, Counted, Measured};

use awd_block_fault::{BlockFault, EntryFault, FieldFault};
use awd_source::{FOUR, Holder, Source};

// A kind of entry. It stands for a set of byte lists, which may depend on the entry's index in its run. (A kind given by a shape says so in
// three lines of the same form; the trait asks for no shape, so that other kinds may be given too.)
pub trait EntryKind {
    // how the entry of an index is read
    ghost reading: { Self → Reading };

    // the byte lists that it may be
    ghost members: { Self → ℕ → List ℕ → Type 0 };

    // The place behind the entry of an index.
    fn read<S: Source>(&self, holder: &Holder<S>, at: u64, index: u64) -> Result<u64, FieldFault>
        ensures read { result ≡ reading self.now index (held holder.now) at holder.now.end }
        ensures fits { Further at holder.now.end result };

    ghost lawful: { (kind : Self) → KindLaw (reading kind) (members kind) };
}

// One entry of a run; its fault has its index.
fn entry_at<S: Source, K: EntryKind>(
    holder: &Holder<S>,
    kind: &K,
    at: u64,
    index: u64,
) -> Result<u64, EntryFault>
    ensures read { result ≡ turned (in_entry index) (K.reading kind.now index (held holder.now) at holder.now.end) }
    ensures fits { Further at holder.now.end result }
{
    kind.read(holder, at, index)
        .map_err(|field| field.in_entry(index))
}

// So many entries, one after another. (Apart from `counted`, whose other promises follow from this one: so the loop has this alone to keep.)
fn row<S: Source, K: EntryKind>(
    holder: &Holder<S>,
    kind: &K,
    at: u64,
    count: u64,
) -> Result<u64, EntryFault>
    ensures { result ≡ counted_at (K.reading kind.now) (held holder.now) holder.now.end count 0 at }
{
    let mut place = at;
    for index in 0..count {
        place = entry_at(holder, kind, place, index)?;
    }
    Ok(place)
}

// Entries as far as their holder's end.
fn filling<S: Source, K: EntryKind>(
    holder: &Holder<S>,
    kind: &K,
    at: u64,
) -> Result<u64, EntryFault>
    requires { at ≤ holder.now.end }
    ensures read { result ≡ filling_at (K.reading kind.now) (held holder.now) holder.now.end (holder.now.end - at) 0 at }
    ensures fits { IfOk result (λ e. e ≡ holder.now.end) }
{
    let end = holder.end;
    let mut place = at;
    // each entry has a byte, so as many turns as bytes are enough
    for index in 0..end - at {
        if place == end {
            break;
        }
        place = entry_at(holder, kind, place, index)?;
    }
    Ok(place)
}

// The place behind so many entries.
pub fn counted<S: Source, K: EntryKind>(
    holder: &Holder<S>,
    kind: &K,
    at: u64,
    count: u64,
) -> Result<u64, EntryFault>
    ensures read { result ≡ counted_at (K.reading kind.now) (held holder.now) holder.now.end count 0 at }
    ensures exact { at ≤ holder.now.end → Reads (Counted (K.members kind.now) 0 count) (held holder.now) at holder.now.end result }
    ensures first { at ≤ holder.now.end → CountedFault (K.reading kind.now) (K.members kind.now) (held holder.now) at holder.now.end result }
{
    row(holder, kind, at, count)
}

// The place behind a run that fills so many bytes. The run must fit its holder; its entries must fit the run.
pub fn measured<S: Source, K: EntryKind>(
    holder: &Holder<S>,
    kind: &K,
    at: u64,
    size: u64,
) -> Result<u64, BlockFault>
    ensures read { result ≡ measured_at (K.reading kind.now) (held holder.now) at holder.now.end size }
    ensures fits { Ends (at + size) holder.now.end result }
    ensures exact { Reads (Measured (K.members kind.now) 0 size) (held holder.now) at holder.now.end result }
    ensures first { MeasuredFault (K.reading kind.now) (K.members kind.now) (held holder.now) at holder.now.end size result }
{
    let stop = holder.bytes_at(at, size)?;
    Ok(filling(&holder.up_to(stop), kind, at)?)
}

// The place behind a list: its total in four bytes, and then entries that fill so many bytes.
pub fn list_at<S: Source, K: EntryKind>(
    holder: &Holder<S>,
    kind: &K,
    at: u64,
) -> Result<u64, BlockFault>
    ensures read { result ≡ list_at (K.reading kind.now) (held holder.now) at holder.now.end }
    ensures fits { Ends (at + 4 + le (part (held holder.now) at 4)) holder.now.end result }
{
    let total = holder.number_at(at, FOUR)?;
    measured(holder, kind, at + 4, total)
}
