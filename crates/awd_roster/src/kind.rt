// The kinds of block. A header may also give a number that is no kind's: such a block is taken all the same.
ghost use Rattle.std.specs.Prelude.{◌≡◌, Some};
ghost use Rattle.awd_roster.specs.Kinds.{kind_number, IsKindOf, unknown_text};

use std::error::Error;
use std::fmt;

// The kinds that are known, with the numbers that stand for them.
#[derive(Clone, Copy, PartialEq, Eq, Debug)]
pub enum BlockKind {
    Geometry = 1,
    Primitive = 11,
    Container = 22,
    Mesh = 23,
    Light = 41,
    Picker = 51,
    Material = 81,
    Skeleton = 101,
}

impl BlockKind {
    // The number that stands for the kind in a header; no other kind has it. (`as` takes no type parameter, so each enum has this line
    // of its own.)
    pub fn number(self) -> u8
        ensures value { result ≡ kind_number self }
        ensures only { (other : BlockKind) → kind_number other ≡ result → other ≡ self }
    {
        self as u8
    }
}

// A number that stands for none of them. (An error for each enum: it is its type that says of what the number is none.)
#[derive(Clone, Copy, PartialEq, Eq, Debug)]
pub struct UnknownKind(pub u8);

impl TryFrom<u8> for BlockKind {
    type Error = UnknownKind;

    ghost try_from_gives = { IsKindOf };

    fn try_from(number: u8) -> Result<Self, UnknownKind> {
        match number {
            1 => Ok(BlockKind::Geometry),
            11 => Ok(BlockKind::Primitive),
            22 => Ok(BlockKind::Container),
            23 => Ok(BlockKind::Mesh),
            41 => Ok(BlockKind::Light),
            51 => Ok(BlockKind::Picker),
            81 => Ok(BlockKind::Material),
            101 => Ok(BlockKind::Skeleton),
            _ => Err(UnknownKind(number)),
        }
    }
}

impl fmt::Display for UnknownKind {
    ghost output = { λ unknown. Some (unknown_text unknown.0) };

    fn fmt<W: fmt::Write>(&self, f: &mut fmt::Formatter<W>) -> fmt::Result {
        write!(f, "no kind of block has number {}", self.0)
    }
}

impl Error for UnknownKind {}
