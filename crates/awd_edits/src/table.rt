// The table of edits that stand, and the bytes that they leave.
ghost use Rattle.std.specs.Prelude.{◌≡◌, ◌≤◌, List, [], length, drop, slice_get};
ghost use Rattle.awd_source.specs.Bytes.{byte_at};
ghost use Rattle.awd_edits.specs.declared.edit.Edit.{Edit};
ghost use Rattle.awd_edits.specs.Overlay.{overlay};
ghost use Rattle.awd_edits.specs.Table.{added};

use crate::edit::Edit;
use arrayvec::ArrayVec;
use awd_places::{LaidBytes, MAX_LAID};
use awd_source::Source;
use std::marker::Model;

pub const MAX_EDITS: usize = 256;

// an edit lays 8 bytes at most
const _: () = prove!(8 * MAX_EDITS <= MAX_LAID);

// Edits in the order in which they were made, at most 256. They stand for the list of them with the latest first.
#[derive(Drop)]
pub struct Edits {
    standing: ArrayVec<Edit, MAX_EDITS>,
    // the bytes of all of them, to find the one that shows at a place
    bytes: LaidBytes,
}

impl Model for Edits {
    ghost use Rattle.std.specs.Prelude.{◌≡◌, List, reverse};
    ghost use Rattle.awd_edits.specs.declared.edit.Edit.{Edit};
    ghost use Rattle.awd_edits.specs.Spots.{spots, FewEach};

    ghost Value = { List Edit };

    ghost view = { λ x. reverse x.standing.items };

    ghost invariant = { λ x. (x.bytes ≡ spots (reverse x.standing.items)) × FewEach (reverse x.standing.items) };
}

impl Edits {
    // No edits.
    pub fn new() -> Edits
        ensures { result ≡ [] }
    {
        Edits {
            standing: ArrayVec::new(),
            bytes: LaidBytes::new(),
        }
    }

    pub fn count(&self) -> u64
        ensures value { result ≡ length self.now }
        ensures fits { result ≤ 256 }
    {
        self.standing.len() as u64
    }

    // One edit more; a full table stays as it is.
    pub fn add(&mut self, edit: Edit)
        ensures { self.new ≡ added self.old edit }
    {
        if self.standing.try_push(edit).is_ok() {
            edit.lay_over(&mut self.bytes);
        }
    }

    // The latest edit.
    pub fn last(&self) -> Option<Edit>
        ensures { result ≡ slice_get self.now 0 }
    {
        self.standing.last().copied()
    }

    // Takes the latest edit away, if one stands.
    pub fn undo(&mut self)
        ensures { self.new ≡ drop 1 self.old }
    {
        if let Some(edit) = self.standing.pop() {
            edit.take_off(&mut self.bytes);
        }
    }

    // The byte at a place of a source under these edits, or none at or beyond the length. The one that shows is found by its place; the edits
    // are not gone through.
    #[tactic(auto, using(crate::proofs::Latest::byte_over, crate::proofs::Spots::found_latest))]
    pub fn byte<S: Source>(&self, below: &S, at: u64) -> Option<u8>
        ensures { result ≡ byte_at (overlay (S.bytes below.now) self.now) at }
    {
        let old = below.byte(at)?;
        Some(self.bytes.find(at).unwrap_or(old))
    }
}
