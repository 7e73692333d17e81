// Places by number, found by a table of slots.
ghost use Rattle.std.specs.Prelude.{◌≡◌, ◌+◌, ◌-◌, ◌<◌, [], ◌∷◌, ◌++◌, length, take};
ghost use Rattle.awd_places.specs.Numbers.{number_of, slot_of};

use arrayvec::ArrayVec;
use std::marker::Model;

const MAX_PLACES: usize = 2048;

const SLOTS: usize = 4096;

// A place, and the number of the latest before it in its slot.
#[derive(Clone, Copy, Default, Debug)]
struct Node {
    place: u64,
    older: Option<u16>,
}

// Places in the order in which they came, at most 2048. The number of a place says how many came before it. The places of a slot
// are chained, from the latest to older ones.
#[derive(Drop)]
pub(crate) struct Places {
    nodes: ArrayVec<Node, MAX_PLACES>,
    // the number of the latest place in each slot
    heads: [Option<u16>; SLOTS],
}

impl Model for Places {
    ghost use Rattle.std.specs.Prelude.{List, ℕ};
    ghost use Rattle.awd_places.specs.Chains.{places_of, Chained};

    ghost Value = { List ℕ };

    ghost view = { λ x. places_of x.nodes.items };

    ghost invariant = { λ x. Chained x.nodes.items x.heads };
}

impl Places {
    // No places.
    pub(crate) fn new() -> Places
        ensures { result ≡ [] }
    {
        Places {
            nodes: ArrayVec::new(),
            heads: [None; SLOTS],
        }
    }

    // One place more.
    pub(crate) fn push(&mut self, place: u64)
        requires { length self.old < 2048 }
        ensures { self.new ≡ self.old ++ place ∷ [] }
    {
        let slot = slot(place);
        let number = self.nodes.len() as u16;
        let older = self.heads[slot];
        self.nodes.push(Node { place, older });
        self.heads[slot] = Some(number);
    }

    // Takes the latest place away, if there is one.
    pub(crate) fn pop(&mut self)
        ensures { self.new ≡ take (length self.old - 1) self.old }
    {
        if let Some(node) = self.nodes.pop() {
            self.heads[slot(node.place)] = node.older;
        }
    }

    // The number of a place, the latest if it came more than once. Only places of its slot are looked at.
    pub(crate) fn find(&self, place: u64) -> Option<u16>
        ensures { result ≡ number_of self.now place }
    {
        let mut next = self.heads[slot(place)];
        while let Some(number) = next {
            let node = self.nodes[number as usize];
            if node.place == place {
                return Some(number);
            }
            next = node.older;
        }
        None
    }
}

// The slot of a place. The places from one multiple of 4096 to the next have one each, and each such stretch its own order of them, so
// that fields at even distances do not share theirs.
fn slot(place: u64) -> usize
    ensures value { result ≡ slot_of place }
    ensures below { result < 4096 }
{
    let place = place as usize;
    (place ^ (place / 512)) % SLOTS
}
