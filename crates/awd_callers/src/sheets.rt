// A kind of entry of a caller's own: properties and a user list. Its law takes a line (`lawful`), and the runs take it as they
// are. A fault in an attribute passes up through attribute, list, sheet and run by `?`, and has the sheet's index in the end.
ghost use Rattle.std.specs.Prelude.{◌≡◌};
ghost use Rattle.awd_format.specs.Shapes.{SetOf, entry_of};
ghost use Rattle.awd_format.specs.Readings.{read_in};
ghost use Rattle.awd_callers.specs.Sheets.{sheet, sheet_run};
ghost use Rattle.awd_format.proofs.SetLaws.{filled_more};
ghost use Rattle.awd_format.proofs.ShapeLaws.{shape-kind};
ghost use Rattle.awd_attributes.specs.Filled.{properties-filled, user-list-filled};

use awd_attributes::{properties_at, user_list_at};
use awd_block_fault::{BlockFault, FieldFault};
use awd_format::{EntryKind, counted};
use awd_source::{Holder, Source};

#[derive(Clone, Copy)]
pub struct Sheet;

impl EntryKind for Sheet {
    ghost reading = { λ _ i. entry_of (sheet i) };

    ghost members = { λ _ i. SetOf (sheet i) };

    ghost lawful = { λ _. shape-kind sheet (λ i. (filled_more _ _ properties-filled.0, (properties-filled.1, user-list-filled.1))) };

    fn read<S: Source>(&self, holder: &Holder<S>, at: u64, _index: u64) -> Result<u64, FieldFault> {
        let middle = properties_at(holder, at)?;
        Ok(user_list_at(holder, middle)?)
    }
}

// The place behind so many sheets.
pub fn sheets_at<S: Source>(holder: &Holder<S>, at: u64, count: u64) -> Result<u64, BlockFault>
    ensures { result ≡ read_in (sheet_run count) holder.now at }
{
    Ok(counted(holder, &Sheet, at, count)?)
}
