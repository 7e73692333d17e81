// What a field must fit: the document, a body or a measured run.
ghost use Rattle.std.specs.Prelude.{◌≡◌, ◌+◌, ◌^◌, ◌<◌, ◌≤◌, min, length, IfOk};
ghost use Rattle.awd_source.specs.Bytes.{le, part};
ghost use Rattle.awd_source.specs.Fields.{limit, bytes_at, number_at};

use crate::numbers::{NumberSize, spell};
use crate::source::Source;
use awd_block_fault::FieldFault;
use awd_fault::Cause;

// A source as far as a place where the holder ends. The type itself keeps that place inside the source, so no reader tests it again. (The place
// that is read from stands beside it: of a cursor that moves, each clause would have to say what it leaves, also in a refusal.)
#[derive(Drop)]
pub struct Holder<'a, S: Source> {
    pub source: &'a S,
    pub end: u64,
    ghost inside: { end ≤ length (S.bytes source.now) },
    ghost fits: { end < 2 ^ 64 },
}

impl<'a, S: Source> Holder<'a, S> {
    ghost use Rattle.awd_source.specs.Holders.{held, Ends};

    // A holder that ends at a place, or where the source does, if that comes before.
    pub fn new(source: &'a S, end: u64) -> Holder<'a, S>
        ensures source { result.source ≡ source.entry }
        ensures end { result.end ≡ limit (S.bytes source.now) end }
    {
        let end = end.min(source.length());
        Holder { source, end }
    }

    // All of a source.
    pub fn whole(source: &'a S) -> Holder<'a, S>
        ensures source { result.source ≡ source.entry }
        ensures end { result.end ≡ length (S.bytes source.now) }
    {
        let end = source.length();
        Holder { source, end }
    }

    // The part of it that ends at a place, if that comes before its own end.
    pub fn up_to(&self, end: u64) -> Holder<'a, S>
        ensures source { result.source ≡ self.now.source }
        ensures end { result.end ≡ min end self.now.end }
    {
        Holder {
            source: self.source,
            end: end.min(self.end),
        }
    }

    // The place behind so many bytes, whatever they are. (That it `fits` is told in a clause, here and in what reads further: it ties a
    // result to the holder that was read, and no type of the result alone can keep it.)
    pub fn bytes_at(&self, at: u64, size: u64) -> Result<u64, FieldFault>
        ensures behind { result ≡ bytes_at at self.now.end size }
        ensures fits { Ends (at + size) self.now.end result }
    {
        if at > self.end || size > self.end - at {
            return Err(FieldFault::new(Cause::DoesNotFit, at));
        }
        Ok(at + size)
    }

    // A number of so many bytes. (It is told as a u64 whatever its size: one text serves all sizes, and what is below 256^size fits the type
    // that a caller takes it to.)
    #[tactic(auto, using(crate::proofs::Digits::told))]
    pub fn number_at(&self, at: u64, size: NumberSize) -> Result<u64, FieldFault>
        ensures value { result ≡ number_at (held self.now) at self.now.end size.bytes }
        ensures fits { IfOk result (λ v. (at + size.bytes ≤ self.now.end) × (v ≡ le (part (held self.now) at size.bytes)) × (v < 256 ^ size.bytes)) }
    {
        self.bytes_at(at, size.bytes)?;
        Ok(spell(self.source, at, size.bytes))
    }
}
