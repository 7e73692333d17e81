// One material of a mesh instance, and one cell of a matrix. The block was judged when it was taken; what is asked for is read from its bytes anew.
ghost use Rattle.std.specs.Prelude.{◌≡◌, ◌+◌, ◌^◌, ◌<◌, min, length};
ghost use Rattle.std.specs.Option.{option_map};
ghost use Rattle.awd_source.specs.Bytes.{le, part};
ghost use Rattle.awd_header.specs.Widths.{width_size};
ghost use Rattle.awd_blocks.specs.Records.{matrix_width};
ghost use Rattle.awd_contents.specs.Contents.{is_mesh, cut, material_place, material_of, cell_place, told, content_of, cell_of};

use awd_blocks::has_head;
use awd_header::{Header, Width};
use awd_roster::{BlockKind, Record};
use awd_source::{FOUR, NumberSize, ONE, Source, TWO, spelled_at};
use std::num::{f32_from_bits_with_nan, f64_from_bits_with_nan};

const MATRIX_CELLS: u64 = 12;

// The content of a matrix cell, by the width that cells have there.
#[derive(Clone, Copy, PartialEq, Debug)]
pub enum Cell {
    Single(f32),
    Double(f64),
}

impl Cell {
    // A float by its bits. (`as`: a number of four bytes, so nothing is cut off.)
    fn from_bits(width: Width, bits: u64) -> Cell
        requires { bits < 256 ^ width_size width }
        ensures { told result ≡ content_of (width_size width) bits }
    {
        match width {
            Width::Four => Cell::Single(f32_from_bits_with_nan(bits as u32)),
            Width::Eight => Cell::Double(f64_from_bits_with_nan(bits)),
        }
    }
}

// The place so many bytes behind another, cut where the source ends, so it never leaves 64 bits: nothing stands there or further on.
pub fn behind<S: Source>(source: &S, place: u64, further: u64) -> u64
    ensures { result ≡ cut (S.bytes source.now) (place + further) }
{
    place.saturating_add(further).min(source.length())
}

// The number that stands so many bytes behind a place.
fn spelled_behind<S: Source>(source: &S, place: u64, further: u64, size: NumberSize) -> u64
    ensures value { let B = S.bytes source.now in result ≡ le (part B (place + further) size.bytes) }
    ensures below { result < 256 ^ size.bytes }
{
    spelled_at(source, behind(source, place, further), size)
}

// Whether the block is a mesh instance.
pub fn is_mesh(block: &Record) -> bool
    ensures { result ≡ is_mesh block.now }
{
    block.namespace == 0 && block.kind == BlockKind::Mesh.number()
}

// How wide the matrix cells of a block are.
pub fn matrix_width<S: Source>(source: &S, header: &Header, block: &Record) -> Width
    ensures { width_size result ≡ matrix_width header.now.flags (S.bytes source.now) block.now.place }
{
    // one byte, so nothing is cut off
    let flags = spelled_behind(source, block.place, 6, ONE) as u8;
    header.widths(flags).matrix
}

// Where the material at a position of a mesh instance is; none at or beyond the count of them, and none of another block.
pub fn material_place<S: Source>(source: &S, block: &Record, position: u64) -> Option<u64>
    ensures { let B = S.bytes source.now in result ≡ option_map (cut B) (material_place B block.now position) }
{
    if !is_mesh(block) {
        return None;
    }
    let name = block.name?;
    // behind the name and the geometry's address: how many there are, and then each
    let count_at = u64::from(name.length) + 4;
    if position >= spelled_behind(source, name.place, count_at, TWO) {
        return None;
    }
    Some(behind(source, name.place, count_at + 2 + 4 * position))
}

// The address of the material there, as the bytes have it.
pub fn material<S: Source>(source: &S, block: &Record, position: u64) -> Option<u32>
    ensures { result ≡ material_of (S.bytes source.now) block.now position }
{
    let place = material_place(source, block, position)?;
    // four bytes, so nothing is cut off
    Some(spelled_at(source, place, FOUR) as u32)
}

// Where a cell of the matrix in the scene head of a block is; none beyond the twelve, and none of a block without such a head.
pub fn cell_place<S: Source>(source: &S, header: &Header, block: &Record, cell: u64) -> Option<u64>
    ensures { let B = S.bytes source.now in result ≡ option_map (cut B) (cell_place header.now.flags B block.now cell) }
{
    if !has_head(block.namespace, block.kind) || cell >= MATRIX_CELLS {
        return None;
    }
    let bytes = u64::from(matrix_width(source, header, block).bytes());
    // behind the block's header and the parent's address
    Some(behind(source, block.place, 11 + 4 + cell * bytes))
}

// What that cell holds.
pub fn matrix_cell<S: Source>(
    source: &S,
    header: &Header,
    block: &Record,
    cell: u64,
) -> Option<Cell>
    ensures { option_map told result ≡ cell_of header.now.flags (S.bytes source.now) block.now cell }
{
    let place = cell_place(source, header, block, cell)?;
    let width = matrix_width(source, header, block);
    let bytes = u64::from(width.bytes());
    Some(Cell::from_bits(width, spelled_at(source, place, NumberSize { bytes })))
}
