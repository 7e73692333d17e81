// A source under edits, as a source of its own.
ghost use Rattle.awd_edits.specs.Overlay.{overlay};

use crate::table::Edits;
use awd_source::Source;

// A source and the edits over it, both only lent.
#[derive(Drop)]
pub struct Over<'a, S: Source> {
    below: &'a S,
    edits: &'a Edits,
}

impl<'a, S: Source> Over<'a, S> {
    ghost use Rattle.std.specs.Prelude.{◌≡◌};

    pub fn new(below: &'a S, edits: &'a Edits) -> Over<'a, S>
        ensures { (result.below ≡ below.entry) × (result.edits ≡ edits.entry) }
    {
        Over { below, edits }
    }
}

impl<'a, S: Source> Source for Over<'a, S> {
    ghost bytes = { λ o. overlay (S.bytes o.below.now) o.edits.now };

    #[tactic(auto, using(crate::proofs::Lays::length_overlay))]
    fn length(&self) -> u64 {
        self.below.length()
    }

    fn byte(&self, at: u64) -> Option<u8> {
        self.edits.byte(self.below, at)
    }
}
