// One block after others.
ghost use Rattle.std.specs.Prelude.{◌≡◌, length};
ghost use Rattle.awd_source.specs.Holders.{held};
ghost use Rattle.awd_format.specs.Shapes.{bytes};
ghost use Rattle.awd_format.specs.Readings.{read_in};
ghost use Rattle.awd_header.specs.Widths.{sizes};
ghost use Rattle.awd_blocks.specs.Blocks.{kind_body, body_of};
ghost use Rattle.awd_blocks.specs.Records.{read_block};

use crate::heads::{Head, head_at};
use awd_block_fault::{BlockFault, FieldFault};
use awd_bodies::{Scene, geometry_at, picker_at, skeleton_at};
use awd_fault::Cause;
use awd_header::{Header, Widths};
use awd_roster::{BlockKind, Earlier, Record};
use awd_source::{Holder, Source};

// A block as it was read: what it tells, and the place behind it.
#[derive(Clone, Copy)]
pub struct Block {
    pub told: Record,
    pub behind: u64,
}

// The place behind a body that is carried: its bytes are not looked at.
fn carried_at<S: Source>(holder: &Holder<S>, at: u64, size: u32) -> Result<u64, BlockFault>
    ensures { result ≡ read_in (bytes size) holder.now at }
{
    Ok(holder.bytes_at(at, u64::from(size))?)
}

// The place behind a body of namespace 0 that has its holder for itself; one of a kind that is not read is carried.
#[tactic(auto, unfolding(crate::specs::Blocks::kind_body))]
fn kind_body_at<S: Source, E: Earlier>(
    holder: &Holder<S>,
    earlier: &E,
    widths: Widths,
    head: Head,
) -> Result<u64, BlockFault>
    ensures { result ≡ read_in (kind_body (E.records earlier.now) (sizes widths) head.kind head.size) holder.now head.body }
{
    let scene = Scene {
        holder,
        earlier,
        width: widths.matrix,
    };
    let at = head.body;
    match BlockKind::try_from(head.kind) {
        Ok(BlockKind::Container) => scene.container_at(at),
        Ok(BlockKind::Mesh) => scene.mesh_at(at),
        Ok(BlockKind::Light) => scene.light_at(at),
        Ok(BlockKind::Picker) => picker_at(holder, earlier, at),
        Ok(BlockKind::Geometry) => geometry_at(holder, widths.geometry, at),
        Ok(BlockKind::Skeleton) => skeleton_at(holder, widths.matrix, at),
        _ => carried_at(holder, at, head.size),
    }
}

// The place behind a body that has its holder for itself; one of another namespace is carried too.
#[tactic(auto, unfolding(crate::specs::Blocks::body_of))]
fn body_at<S: Source, E: Earlier>(
    holder: &Holder<S>,
    earlier: &E,
    widths: Widths,
    head: Head,
) -> Result<u64, BlockFault>
    ensures { result ≡ read_in (body_of (E.records earlier.now) (sizes widths) head.namespace head.kind head.size) holder.now head.body }
{
    if head.namespace == 0 {
        kind_body_at(holder, earlier, widths, head)
    } else {
        carried_at(holder, head.body, head.size)
    }
}

// The block at a place in a document that is held whole.
fn block_in<S: Source, E: Earlier>(
    document: &Holder<S>,
    earlier: &E,
    header: Header,
    at: u64,
) -> Result<Block, BlockFault>
    requires { document.now.end ≡ length (held document.now) }
    ensures { result ≡ read_block header.flags (E.records earlier.now) (held document.now) at }
{
    let head = head_at(document, earlier, at)?;
    let end = head.body_end(document)?;
    let widths = header.widths(head.flags);
    let behind = body_at(&document.up_to(end), earlier, widths, head)?;
    if behind != end {
        return Err(BlockFault::Header(FieldFault::new(Cause::BytesLeftOver, behind)));
    }
    Ok(Block {
        told: head.record(document.source, widths.matrix, at),
        behind,
    })
}

// The block at a place, after some others, in a document with this header; or its first fault.
pub fn block_at<S: Source, E: Earlier>(
    source: &S,
    earlier: &E,
    header: Header,
    at: u64,
) -> Result<Block, BlockFault>
    ensures { result ≡ read_block header.flags (E.records earlier.now) (S.bytes source.now) at }
{
    block_in(&Holder::whole(source), earlier, header, at)
}
