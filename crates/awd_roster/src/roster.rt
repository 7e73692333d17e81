// The table of taken blocks, and what it answers. (A block's number has 64 bits; std has no `From` between these and `usize`, so it is cast.)
ghost use Rattle.std.specs.Prelude.{◌≡◌, ◌+◌, ◌<◌, ◌≤◌, ◌==◌, true, IsTrue, List, [], length, take, slice_get, slice_index, position, IfSome, EachIndex};
ghost use Rattle.awd_roster.specs.declared.record.Record.{Record};
ghost use Rattle.awd_roster.specs.Addresses.{named, lawful_address};
ghost use Rattle.awd_roster.specs.Lookups.{number_of, path_of, Climbs};
ghost use Rattle.awd_roster.specs.Sequence.{persistent, in_sequence};
ghost use Rattle.awd_roster.specs.Table.{added, reparented};
ghost use Rattle.awd_roster.specs.FirstBlocks.{FirstNoted, noting};

use crate::record::{Record, Target};
use arrayvec::ArrayVec;
use std::marker::Model;

// The blocks before one that is being read.
pub trait Earlier {
    ghost records: { Self → List Record };

    // Whether the next block may have an ID.
    fn in_sequence(&self, id: u32) -> bool
        ensures { result ≡ in_sequence (records self.now) id };

    // Whether an address is lawful in the next block.
    fn lawful(&self, target: Target, address: u32) -> bool
        ensures { result ≡ lawful_address target (records self.now) address };
}

// Blocks that are only lent: they are the same.
impl<'a, E: Earlier> Earlier for &'a E {
    ghost records = { λ e. E.records e.now };

    fn in_sequence(&self, id: u32) -> bool {
        (**self).in_sequence(id)
    }

    fn lawful(&self, target: Target, address: u32) -> bool {
        (**self).lawful(target, address)
    }
}

pub const MAX_BLOCKS: usize = 512;

// Records of blocks in the order in which they were taken, at most 512.
#[derive(Drop)]
pub struct Roster {
    records: ArrayVec<Record, MAX_BLOCKS>,
    // the ID of the next block that is not temporary
    next_id: u32,
    // for each ID from 1 to 512 the number of the first block that has it, counted from 1; 0 where none has it
    with_id: [u16; MAX_BLOCKS],
}

impl Model for Roster {
    ghost Value = { List Record };

    ghost view = { λ x. x.records.items };

    ghost invariant = { λ x. (x.next_id ≡ persistent x.records.items + 1) × FirstNoted x.with_id x.records.items };
}

// A table in which no block is noted.
fn none_noted() -> [u16; MAX_BLOCKS]
    ensures { EachIndex result (λ k. slice_index result k ≡ 0) }
{
    [0; MAX_BLOCKS]
}

// Notes the number of a block with an ID, if it is the first that has it.
#[tactic(auto, using(crate::proofs::FirstBlocks::noting_first, crate::proofs::FirstBlocks::noting_again, crate::proofs::FirstBlocks::noting_past))]
fn note(first: &mut [u16; MAX_BLOCKS], id: u32, number: u16)
    requires { number < 512 }
    ensures { first.new ≡ noting first.old id number }
{
    if id == 0 {
        // temporary blocks have no ID of their own
        return;
    }
    let place = (id - 1) as usize;
    if place < MAX_BLOCKS && first[place] == 0 {
        first[place] = number + 1;
    }
}

impl Roster {
    // No blocks.
    pub fn new() -> Roster
        ensures { result ≡ [] }
    {
        Roster {
            records: ArrayVec::new(),
            next_id: 1,
            with_id: none_noted(),
        }
    }

    pub fn count(&self) -> u64
        ensures value { result ≡ length self.now }
        ensures fits { result ≤ 512 }
    {
        self.records.len() as u64
    }

    // One block more; a full roster stays as it is.
    #[tactic(auto, using(crate::proofs::FirstBlocks::noted_push))]
    pub fn add(&mut self, record: Record)
        ensures { self.new ≡ added self.old «record» }
    {
        let number = self.records.len() as u16;
        if self.records.try_push(record).is_err() {
            return;
        }
        note(&mut self.with_id, record.id, number);
        if record.id != 0 {
            self.next_id += 1;
        }
    }

    // Another parent in the record of a block; a number that no block has changes nothing.
    #[tactic(auto, using(crate::proofs::Kin::reparented_written, crate::proofs::Kin::reparented_past))]
    pub fn reparent(&mut self, number: u64, parent: Option<u32>)
        ensures { self.new ≡ reparented self.old number parent }
    {
        if let Some(record) = self.records.get_mut(number as usize) {
            record.parent = parent;
        }
    }

    // The record of a block by its number.
    pub fn record(&self, number: u64) -> Option<Record>
        ensures { result ≡ slice_get self.now number }
    {
        self.records.get(number as usize).copied()
    }

    // The number of the block with an ID.
    pub fn number_of(&self, id: u32) -> Option<u64>
        ensures { result ≡ number_of self.now id }
    {
        if id == 0 {
            return None;
        }
        self.first_with(id).map(|number| number as u64)
    }

    // The number of the first block with an ID, which may be 0. IDs come in sequence, so those of at most 512 blocks are noted; another is
    // looked for.
    fn first_with(&self, id: u32) -> Option<usize>
        ensures { result ≡ position (λ r. r.id == id) self.now }
    {
        let place = (id as usize).wrapping_sub(1);
        match self.with_id.get(place) {
            Some(&noted) => Some(usize::from(noted.checked_sub(1)?)),
            None => self.records.iter().position(|r| r.id == id),
        }
    }

    // Whether an address is lawful in the block of a number: it may name those before it.
    pub fn lawful_before(&self, number: u64, target: Target, address: u32) -> bool
        ensures { result ≡ lawful_address target (take number self.now) address }
    {
        if address == 0 {
            target.may_be_none()
        } else {
            self.names(number, target, address)
        }
    }

    // Whether the first block with an ID may be named and comes before that of a number.
    #[tactic(auto, using(crate::proofs::FirstBlocks::named_at))]
    fn first_fits(&self, number: u64, target: Target, id: u32) -> bool
        ensures { IsTrue result → named target id (take number self.now) ≡ true }
    {
        let Some(first) = self.number_of(id) else {
            return false;
        };
        first < number && self.record(first).is_some_and(|r| r.fits(target, id))
    }

    // Whether a block that may be named, before that of a number, has an ID. As a rule it is the first with this ID.
    fn names(&self, number: u64, target: Target, id: u32) -> bool
        ensures { result ≡ named target id (take number self.now) }
    {
        self.first_fits(number, target, id)
            || self
                .records
                .iter()
                .take(number as usize)
                .any(|r| r.fits(target, id))
    }

    // How many parents lie between a block and the root; none where its parents do not lead there.
    #[tactic(auto, using(crate::proofs::Climbs::step, crate::proofs::Climbs::path_climbs))]
    pub fn path(&self, number: u64) -> Option<u64>
        ensures value { result ≡ path_of self.now number }
        ensures climbs { IfSome result (λ n. Climbs self.now number n) }
    {
        let mut at = number;
        for passed in 0..=number {
            let parent = self.record(at)?.parent?;
            if parent == 0 {
                return Some(passed);
            }
            at = self.number_of(parent)?;
        }
        None
    }
}

impl Earlier for Roster {
    ghost records = { λ r. r };

    fn in_sequence(&self, id: u32) -> bool {
        id == 0 || id == self.next_id
    }

    fn lawful(&self, target: Target, address: u32) -> bool {
        self.lawful_before(self.count(), target, address)
    }
}
