// A run: memory that the caller holds, as a source.
ghost use Rattle.std.specs.Prelude.{◌≡◌};
ghost use Rattle.awd_source.specs.Bytes.{VeryPart};

use crate::source::Source;

// It is only lent: while a run or a part of it is in use, the memory cannot be written.
#[derive(Clone, Copy)]
pub struct Run<'a> {
    held: &'a [u8],
}

impl<'a> Run<'a> {
    pub fn new(held: &'a [u8]) -> Run<'a>
        ensures { result.held ≡ held.entry }
    {
        Run { held }
    }

    // The part of so many bytes at a place: the caller's own memory and no copy of it. None if the run
    // does not hold it whole.
    pub fn part(&self, at: u64, size: u64) -> Option<&'a [u8]>
        ensures { VeryPart self.now.held at size result }
    {
        let end = at.checked_add(size)?;
        if end > self.length() {
            return None;
        }
        // not by `get` with a range, which promises the part's contents and not its address
        Some(&self.held[at as usize..end as usize])
    }
}

impl<'a> Source for Run<'a> {
    ghost bytes = { λ s. s.held.now };

    fn length(&self) -> u64 {
        self.held.len() as u64
    }

    fn byte(&self, at: u64) -> Option<u8> {
        self.held.get(at as usize).copied()
    }
}
