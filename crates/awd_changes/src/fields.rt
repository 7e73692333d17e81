// The fields of a block that may be edited.
ghost use Rattle.std.specs.Prelude.{◌≡◌, List};
ghost use Rattle.std.specs.Result.{result_map_both};
ghost use Rattle.awd_fault.specs.Faults.{cause_number};
ghost use Rattle.awd_roster.specs.declared.record.Record.{Record};
ghost use Rattle.awd_changes.specs.Fields.{field_place, within, found};

use awd_blocks::has_head;
use awd_contents::{behind, cell_place, is_mesh, material_place, matrix_width};
use awd_edits::Field;
use awd_fault::Cause;
use awd_header::Header;
use awd_roster::Record;
use awd_source::Source;

// Where a field is, and how many bytes it has.
#[derive(Clone, Copy)]
pub struct FieldPlace {
    pub at: u64,
    pub size: u64,
}

// An address at a place.
fn address_at(at: u64) -> FieldPlace
    ensures { (result.at ≡ at) × (result.size ≡ 4) }
{
    FieldPlace { at, size: 4 }
}

// Where a field of a block is, or why the block has none. The place is cut where the source ends. What may stand there is asked of the roster.
pub fn field_place<S: Source>(
    source: &S,
    header: &Header,
    block: &Record,
    field: Field,
) -> Result<FieldPlace, Cause>
    ensures { let B = S.bytes source.now in (before : List Record) → found result ≡ within B (field_place header.now.flags before B block.now field) }
{
    let owned = match field {
        Field::Material(_) => is_mesh(block),
        Field::Parent | Field::Cell(_) => has_head(block.namespace, block.kind),
    };
    if !owned {
        return Err(Cause::NoSuchField);
    }
    match field {
        Field::Parent => Ok(address_at(behind(source, block.place, 11))),
        Field::Material(position) => match material_place(source, block, position) {
            Some(at) => Ok(address_at(at)),
            None => Err(Cause::NoSuchMaterial),
        },
        Field::Cell(cell) => match cell_place(source, header, block, cell) {
            Some(at) => Ok(FieldPlace {
                at,
                size: u64::from(matrix_width(source, header, block).bytes()),
            }),
            None => Err(Cause::NoSuchCell),
        },
    }
}
