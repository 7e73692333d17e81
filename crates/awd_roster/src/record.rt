// What is told of a block, and what an address stands for.
ghost use Rattle.std.specs.Prelude.{◌≡◌};
ghost use Rattle.awd_roster.specs.Addresses.{kinds_of, may_be_none, has, fits};

use crate::kind::BlockKind;

// Bytes of the document by their place and their number.
#[derive(Clone, Copy, PartialEq, Eq, Default, Debug)]
pub struct Span {
    pub place: u64,
    pub length: u16,
}

// What a taken block tells.
#[derive(Clone, Copy, PartialEq, Eq, Default, Debug)]
pub struct Record {
    // as the file has it: 0 for a temporary block
    pub id: u32,
    pub namespace: u8,
    // by its number: a block of any kind is taken, known or not
    pub kind: u8,
    // of the block's header
    pub place: u64,
    // of the block's body
    pub size: u32,
    // the parent's address, 0 at the root; none where the block has no such field
    pub parent: Option<u32>,
    // the bytes of the name; none where the block has no such field
    pub name: Option<Span>,
}

impl Record {
    // Whether an address may name the block.
    pub(crate) fn fits(&self, target: Target, id: u32) -> bool
        ensures { result ≡ fits target id self.now }
    {
        self.id == id && self.namespace == 0 && target.allows(self.kind)
    }
}

// What an address is to name.
#[derive(Clone, Copy, PartialEq, Eq, Debug)]
pub enum Target {
    Parent,
    Geometry,
    Material,
    Light,
}

impl Target {
    // Whether a block of a kind may be named.
    pub fn allows(self, kind: u8) -> bool
        ensures { result ≡ has (kinds_of self) kind }
    {
        match self {
            Target::Parent => {
                kind == BlockKind::Container.number()
                    || kind == BlockKind::Mesh.number()
                    || kind == BlockKind::Light.number()
            }
            Target::Geometry => {
                kind == BlockKind::Geometry.number() || kind == BlockKind::Primitive.number()
            }
            Target::Material => kind == BlockKind::Material.number(),
            Target::Light => kind == BlockKind::Light.number(),
        }
    }

    // Whether address 0, which names no block, will do.
    pub fn may_be_none(self) -> bool
        ensures { result ≡ may_be_none self }
    {
        matches!(self, Target::Parent | Target::Material)
    }
}
