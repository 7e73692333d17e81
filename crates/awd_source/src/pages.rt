// Pages: whole pages of a run, picked and ordered by a list of page numbers, as a source.
ghost use Rattle.std.specs.Prelude.{◌≡◌, ◌*◌, ◌≤◌, [], length, OnErr, OnOk};
ghost use Rattle.awd_fault.specs.Faults.{answer};
ghost use Rattle.awd_source.specs.Pages.{whole_front, paged, filling};

use crate::run::Run;
use crate::source::Source;
use awd_fault::{Cause, Fault};

pub const PAGE_SIZE: u64 = 512;

// The listed pages of a run, joined in the list's order and cut to a length. Page p is the 512 bytes of the
// run from 512 × p on. The type itself keeps each listed page inside the run, and the length within them. (No Model: contracts name the run
// and the list themselves.)
#[derive(Drop)]
pub struct Pages<'a> {
    run: Run<'a>,
    list: &'a [u16],
    size: u64,
    ghost inside: { whole_front run.held.now list.now ≡ length list.now },
    ghost enough: { size ≤ 512 * length list.now },
}

impl<'a> Pages<'a> {
    // Pages of nothing: an empty source.
    pub fn new() -> Pages<'a>
        ensures { paged result.run.held.now result.list.now result.size ≡ [] }
    {
        Pages {
            run: Run::new(&[]),
            list: &[],
            size: 0,
        }
    }

    // From now on these pages. A refusal leaves the old ones.
    pub fn fill(&mut self, run: Run<'a>, list: &'a [u16], size: u64) -> Result<(), Fault>
        ensures answer { answer result ≡ filling run.entry.held.now list.now size }
        ensures filled { OnOk result ((self.new.run ≡ run.entry) × (self.new.list ≡ list.entry) × (self.new.size ≡ size)) }
        ensures same { OnErr result (self.new ≡ self.old) }
    {
        // a list so long that the product leaves 64 bits has room for every size
        if size > PAGE_SIZE.saturating_mul(list.len() as u64) {
            return Err(Fault::of_call(Cause::LengthOverPages, 0, 0));
        }
        let length = run.length();
        let outside = list
            .iter()
            .position(|&page| PAGE_SIZE * u64::from(page) + PAGE_SIZE > length);
        if let Some(i) = outside {
            return Err(Fault::of_call(Cause::PageOutsideRun, i as u64, 0));
        }
        *self = Pages { run, list, size };
        Ok(())
    }
}

impl<'a> Source for Pages<'a> {
    ghost bytes = { λ p. paged p.run.held.now p.list.now p.size };

    fn length(&self) -> u64 {
        self.size
    }

    fn byte(&self, at: u64) -> Option<u8> {
        if at >= self.size {
            return None;
        }
        let page = u64::from(self.list[(at / PAGE_SIZE) as usize]);
        self.run.byte(PAGE_SIZE * page + at % PAGE_SIZE)
    }
}
