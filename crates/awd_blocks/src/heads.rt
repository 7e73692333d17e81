// The header of a block.
ghost use Rattle.std.specs.Prelude.{◌≡◌, ◌+◌, ◌^◌, ◌<◌, ◌≤◌, IfOk, IfSome};
ghost use Rattle.std.specs.Result.{result_map_both};
ghost use Rattle.awd_source.specs.Holders.{held};
ghost use Rattle.awd_source.specs.Fields.{bytes_at};
ghost use Rattle.awd_format.specs.Readings.{entry_in};
ghost use Rattle.awd_header.specs.Widths.{width_size};
ghost use Rattle.awd_blocks.specs.Heads.{head_of, block_header};
ghost use Rattle.awd_blocks.specs.Records.{has_head, begins_named, name_in, record_of};

use awd_block_fault::{FieldFault, HeaderFault};
use awd_fault::Cause;
use awd_header::Width;
use awd_roster::{BlockKind, Earlier, Record, Span};
use awd_source::{FOUR, Holder, ONE, Source, TWO, spelled_at};

// What a block header says.
#[derive(Clone, Copy)]
pub(crate) struct Head {
    pub id: u32,
    pub namespace: u8,
    pub kind: u8,
    pub flags: u8,
    pub size: u32,
    // where the body begins
    pub body: u64,
}

// The header at a place, after some blocks; each field is judged before the next is looked at.
pub(crate) fn head_at<S: Source, E: Earlier>(
    holder: &Holder<S>,
    earlier: &E,
    at: u64,
) -> Result<Head, HeaderFault>
    ensures read { result_map_both (λ h. h.body) (λ x. x.field) result ≡ entry_in (block_header (E.records earlier.now)) holder.now at }
    ensures parts { IfOk result (λ h. (h ≡ head_of (held holder.now) at) × (h.body ≤ holder.now.end)) }
{
    let id = holder.number_at(at, FOUR)?;
    if !earlier.in_sequence(id as u32) {
        Err(FieldFault::new(Cause::IdOutOfSequence, at))?;
    }
    let namespace = holder.number_at(at + 4, ONE)?;
    let kind = holder.number_at(at + 5, ONE)?;
    let flags = holder.number_at(at + 6, ONE)?;
    // bit 3 (the header's own text for bits asks for one below 16, so it is not public)
    if (flags >> 3) % 2 == 1 {
        Err(FieldFault::new(Cause::CompressedBlock, at + 6))?;
    }
    let size = holder.number_at(at + 7, FOUR)?;
    // each number fits the type for its size
    Ok(Head {
        id: id as u32,
        namespace: namespace as u8,
        kind: kind as u8,
        flags: flags as u8,
        size: size as u32,
        body: at + 11,
    })
}

// Whether the body of a block of a namespace and a kind begins with a scene head.
pub fn has_head(namespace: u8, kind: u8) -> bool
    ensures { result ≡ has_head namespace kind }
{
    namespace == 0
        && matches!(
            BlockKind::try_from(kind),
            Ok(BlockKind::Container | BlockKind::Mesh | BlockKind::Light)
        )
}

impl Head {
    // The place behind the body that the header announces, which must fit; a body that does not is told as a fault of the header.
    pub(crate) fn body_end<S: Source>(self, holder: &Holder<S>) -> Result<u64, HeaderFault>
        ensures read { result_map_both (λ e. e) (λ x. x.field) result ≡ bytes_at self.body holder.now.end self.size }
        ensures fits { IfOk result (λ e. (e ≡ self.body + self.size) × (e ≤ holder.now.end)) }
    {
        Ok(holder.bytes_at(self.body, u64::from(self.size))?)
    }

    // Whether the body begins with a name.
    fn begins_named(self) -> bool
        ensures { result ≡ begins_named self.namespace self.kind }
    {
        self.namespace == 0
            && matches!(
                BlockKind::try_from(self.kind),
                Ok(BlockKind::Picker | BlockKind::Geometry | BlockKind::Skeleton)
            )
    }

    // Where the name is, if the block has one.
    fn name_place(self, width: Width) -> Option<u64>
        requires { IfSome (name_in self.namespace self.kind (width_size width) self.body) (λ q. q < 2 ^ 64) }
        ensures { result ≡ name_in self.namespace self.kind (width_size width) self.body }
    {
        if has_head(self.namespace, self.kind) {
            Some(self.body + 4 + 12 * u64::from(width.bytes()))
        } else if self.begins_named() {
            Some(self.body)
        } else {
            None
        }
    }

    // What the block tells whose header this is and stands at a place, by the width of matrix cells. (What is below 256^4 or 256^2 fits its
    // type.)
    pub(crate) fn record<S: Source>(self, source: &S, width: Width, at: u64) -> Record
        requires { IfSome (name_in self.namespace self.kind (width_size width) self.body) (λ q. q + 2 < 2 ^ 64) }
        ensures { result ≡ record_of (S.bytes source.now) at (width_size width) self }
    {
        let parent = has_head(self.namespace, self.kind).then(|| spelled_at(
            source, self.body, FOUR,
        ) as u32);
        let name = self.name_place(width).map(|place| Span {
            place: place + 2,
            length: spelled_at(source, place, TWO) as u16,
        });
        Record {
            id: self.id,
            namespace: self.namespace,
            kind: self.kind,
            place: at,
            size: self.size,
            parent,
            name,
        }
    }
}
