// Addresses, alone and in runs.
ghost use Rattle.std.specs.Prelude.{◌≡◌, ◌+◌};
ghost use Rattle.awd_source.specs.Holders.{Ends};
ghost use Rattle.awd_format.specs.Shapes.{SetOf, entry_of};
ghost use Rattle.awd_format.specs.Readings.{read_in};
ghost use Rattle.awd_bodies.specs.Fields.{address_to, addresses};
ghost use Rattle.awd_format.proofs.ShapeLaws.{shape-kind};
ghost use Rattle.awd_bodies.specs.Filled.{address-filled};

use awd_block_fault::{BlockFault, FieldFault};
use awd_fault::Cause;
use awd_format::{EntryKind, counted};
use awd_roster::{Earlier, Target};
use awd_source::{FOUR, Holder, Source, TWO};

// An address that is to be lawful after the earlier blocks, as a field and as an entry of a run.
#[derive(Drop)]
pub struct Address<E> {
    pub earlier: E,
    pub target: Target,
}

impl<E: Earlier> Address<E> {
    // The place behind one such address.
    pub(crate) fn field_at<S: Source>(&self, holder: &Holder<S>, at: u64) -> Result<u64, BlockFault>
        ensures read { result ≡ read_in (address_to self.now.target (E.records self.now.earlier)) holder.now at }
        ensures fits { Ends (at + 4) holder.now.end result }
    {
        // four bytes, so nothing is cut off
        let address = holder.number_at(at, FOUR)?;
        if !self.earlier.lawful(self.target, address as u32) {
            Err(FieldFault::new(Cause::AddressNotLawful, at))?;
        }
        Ok(at + 4)
    }

    // The place behind a count and that many of them.
    pub(crate) fn list_at<S: Source>(&self, holder: &Holder<S>, at: u64) -> Result<u64, BlockFault>
        ensures { result ≡ read_in (addresses self.now.target (E.records self.now.earlier)) holder.now at }
    {
        let count = holder.number_at(at, TWO)?;
        Ok(counted(holder, self, at + 2, count)?)
    }
}

impl<E: Earlier> EntryKind for Address<E> {
    ghost reading = { λ k _. entry_of (address_to k.target (E.records k.earlier)) };

    ghost members = { λ k _. SetOf (address_to k.target (E.records k.earlier)) };

    ghost lawful = { λ k. shape-kind (λ i. address_to k.target (E.records k.earlier)) (address-filled k.target (E.records k.earlier)) };

    fn read<S: Source>(&self, holder: &Holder<S>, at: u64, _index: u64) -> Result<u64, FieldFault> {
        Ok(self.field_at(holder, at)?)
    }
}
