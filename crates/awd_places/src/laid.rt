// Bytes laid at places.
ghost use Rattle.std.specs.Prelude.{◌≡◌, [], drop};
ghost use Rattle.awd_places.specs.Laid.{laid_at, with_byte};

use crate::places::Places;
use arrayvec::ArrayVec;
use std::marker::Model;

pub const MAX_LAID: usize = 2048;

// A byte that does not show any more, and the number of its place.
#[derive(Clone, Copy, Debug)]
struct Covered {
    number: u16,
    byte: u8,
}

// Bytes laid at places, at most 2048. They stand for the list of them with the latest first, each with its place.
#[derive(Drop)]
pub struct LaidBytes {
    // the places where bytes lie, each once
    places: Places,
    // the byte that shows at each of them
    shown: ArrayVec<u8, MAX_LAID>,
    // for each byte laid, the byte that it covers, or none where it is the first at its place
    covered: ArrayVec<Option<Covered>, MAX_LAID>,
}

impl Model for LaidBytes {
    ghost use Rattle.std.specs.Prelude.{List, ℕ, reverse};
    ghost use Rattle.awd_places.specs.Covers.{laid_by, Covers};

    ghost Value = { List (ℕ × ℕ) };

    ghost view = { λ x. laid_by x.places x.shown.items (reverse x.covered.items) };

    ghost invariant = { λ x. Covers x.places x.shown.items (reverse x.covered.items) };
}

impl LaidBytes {
    // No bytes.
    pub fn new() -> LaidBytes
        ensures { result ≡ [] }
    {
        LaidBytes {
            places: Places::new(),
            shown: ArrayVec::new(),
            covered: ArrayVec::new(),
        }
    }

    // One byte more; where 2048 are laid they stay as they are.
    pub fn push(&mut self, place: u64, byte: u8)
        ensures { self.new ≡ with_byte self.old place byte }
    {
        if self.covered.is_full() {
            return;
        }
        match self.places.find(place) {
            Some(number) => {
                let shown = self.shown[number as usize];
                self.shown[number as usize] = byte;
                self.covered.push(Some(Covered {
                    number,
                    byte: shown,
                }));
            }
            None => {
                self.places.push(place);
                self.shown.push(byte);
                self.covered.push(None);
            }
        }
    }

    // Takes the latest byte away, if one is laid; what it covers shows again.
    pub fn pop(&mut self)
        ensures { self.new ≡ drop 1 self.old }
    {
        match self.covered.pop() {
            Some(Some(covered)) => self.shown[covered.number as usize] = covered.byte,
            Some(None) => {
                self.places.pop();
                let _ = self.shown.pop();
            }
            None => {}
        }
    }

    // The byte laid latest at a place.
    pub fn find(&self, place: u64) -> Option<u8>
        ensures { result ≡ laid_at self.now place }
    {
        let number = self.places.find(place)?;
        Some(self.shown[number as usize])
    }
}
