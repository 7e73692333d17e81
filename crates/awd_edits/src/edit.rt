// One edit.
ghost use Rattle.std.specs.Prelude.{◌≡◌, ◌+◌, ◌≤◌, [], ◌∷◌, List, ℕ, length};
ghost use Rattle.awd_edits.specs.declared.edit.Laid.TheVariants.{Four};
ghost use Rattle.awd_edits.specs.Overlay.{bytes_laid};
ghost use Rattle.awd_edits.specs.Spots.{spots_over};

use awd_places::LaidBytes;

// A field that may be edited.
#[derive(Clone, Copy, PartialEq, Eq, Default, Debug)]
pub enum Field {
    // the parent's address
    #[default]
    Parent,
    // the address of the material at a position
    Material(u64),
    // a cell of the matrix
    Cell(u64),
}

// The bytes that an edit lays: a field has 4 or 8 of them.
#[derive(Clone, Copy, PartialEq, Eq, Debug)]
pub enum Laid {
    Four([u8; 4]),
    Eight([u8; 8]),
}

// Four bytes of 0: a value for the unused places of a table.
impl Default for Laid {
    ghost is_default = { λ laid. laid ≡ Four (0 ∷ 0 ∷ 0 ∷ 0 ∷ []) };

    fn default() -> Laid {
        Laid::Four([0; 4])
    }
}

impl Laid {
    // The bytes themselves.
    fn bytes(&self) -> &[u8]
        ensures value { result.now ≡ bytes_laid self.now }
        ensures few { length result.now ≤ 8 }
    {
        match self {
            Laid::Four(bytes) => bytes,
            Laid::Eight(bytes) => bytes,
        }
    }
}

// Bytes laid over a field, from its place on.
#[derive(Clone, Copy, PartialEq, Eq, Default, Debug)]
pub struct Edit {
    // the number of the block whose field it is
    pub block: u64,
    pub field: Field,
    pub place: u64,
    pub laid: Laid,
}

impl Edit {
    // Lays its bytes over others, none at a place beyond 64 bits.
    pub(crate) fn lay_over(&self, bytes: &mut LaidBytes)
        requires { length bytes.old + 8 ≤ 2048 }
        ensures laid { bytes.new ≡ spots_over bytes.old self.now }
        ensures few { length (bytes_laid self.now.laid) ≤ 8 }
    {
        for (further, byte) in self.laid.bytes().iter().enumerate() {
            if let Some(place) = self.place.checked_add(further as u64) {
                bytes.push(place, *byte);
            }
        }
    }

    // Takes its bytes away again, if they are the latest.
    pub(crate) fn take_off(&self, bytes: &mut LaidBytes)
        ensures { (below : List (ℕ × ℕ)) → bytes.old ≡ spots_over below self.now → bytes.new ≡ below }
    {
        for further in 0..self.laid.bytes().len() {
            if self.place.checked_add(further as u64).is_some() {
                bytes.pop();
            }
        }
    }
}
