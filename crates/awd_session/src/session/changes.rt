// The calls that edit. Each lays bytes over one field of a taken block, or is refused and changes nothing.
ghost use Rattle.std.specs.Prelude.{◌≡◌, cond, length, take, None, Some, OnErr, OnOk};
ghost use Rattle.std.specs.Result.{result_map_both};
ghost use Rattle.awd_fault.specs.Faults.{answer};
ghost use Rattle.awd_roster.specs.Table.{reparented};
ghost use Rattle.awd_edits.specs.Overlay.{bytes_laid};
ghost use Rattle.awd_session.specs.Edits.{laid_by, not_a_number, about, place_in, lawful_in, with_room, spot, address_edit, nudging, reparenting, dressing, edit_answer, after_edit, undoing, undo_answer, after_undo};
ghost use Rattle.awd_session.specs.Laws.{Stays};
ghost use Rattle.awd_session.specs.State.{records_of};
ghost use Rattle.awd_session.specs.View.{view};

use crate::session::Session;
use awd_changes::{FieldPlace, field_place};
use awd_contents::Cell;
use awd_edits::{Edit, Field, Laid, MAX_EDITS, Over};
use awd_fault::{Cause, Fault};
use awd_roster::Target;
use awd_source::{FOUR, Source, spelled_at};

// How many bytes a float has.
fn size_of(content: Cell) -> u64
    ensures { result ≡ length (bytes_laid (laid_by content)) }
{
    match content {
        Cell::Single(_) => 4,
        Cell::Double(_) => 8,
    }
}

// The bytes of a float, by its bits; none of one that is not a number.
fn laid_by(content: Cell) -> Option<Laid>
    ensures { result ≡ cond (not_a_number content) None (Some (laid_by content)) }
{
    match content {
        Cell::Single(x) if !x.is_nan() => Some(Laid::Four(x.to_bits().to_le_bytes())),
        Cell::Double(x) if !x.is_nan() => Some(Laid::Eight(x.to_bits().to_le_bytes())),
        _ => None,
    }
}

impl<S: Source> Session<S> {
    // Where a field of a block is, by the block's number.
    fn place_in(&self, number: u64, field: Field) -> Result<FieldPlace, Fault>
        ensures { result_map_both (λ p. (p.at, p.size)) (λ f. f) (answer result)
            ≡ result_map_both spot (λ f. f) (about number (place_in (view self.now) number field)) }
    {
        let header = self
            .header
            .ok_or(Fault::of_call(Cause::NotOpen, 0, number))?;
        let block = self
            .record(number)
            .ok_or(Fault::of_call(Cause::NoSuchBlock, 0, number))?;
        match field_place(self, &header, &block, field) {
            Ok(place) => Ok(place),
            Err(cause) => Err(Fault::of_call(cause, 0, number)),
        }
    }

    // Refused where as many edits stand as may.
    fn room(&self, number: u64) -> Result<(), Fault>
        ensures { answer result ≡ about number (with_room (view self.now) tt) }
    {
        if self.edits.count() >= MAX_EDITS as u64 {
            return Err(Fault::of_call(Cause::TooManyEdits, 0, number));
        }
        Ok(())
    }

    // Whether an address may stand in a field of a block.
    fn may_hold(&self, number: u64, field: Field, address: u32) -> bool
        ensures { result ≡ lawful_in field (take number (records_of (view self.now))) address }
    {
        match field {
            Field::Parent => self.roster.lawful_before(number, Target::Parent, address),
            Field::Material(_) => self.roster.lawful_before(number, Target::Material, address),
            Field::Cell(_) => true,
        }
    }

    // The edit that lays an address over a field.
    fn address_edit(&self, number: u64, field: Field, address: u32) -> Result<Edit, Fault>
        ensures { answer result ≡ about number (address_edit (view self.now) number field address) }
    {
        let place = self.place_in(number, field)?;
        if !self.may_hold(number, field, address) {
            return Err(Fault::of_call(Cause::AddressNotLawful, 0, number));
        }
        self.room(number)?;
        Ok(Edit {
            block: number,
            field,
            place: place.at,
            laid: Laid::Four(address.to_le_bytes()),
        })
    }

    // Gives a block another parent. Its record tells the new one from then on.
    pub fn reparent(&mut self, number: u64, address: u32) -> Result<(), Fault>
        ensures answer { answer result ≡ edit_answer number (reparenting (view self.old) number address) }
        ensures state { view self.new ≡ after_edit (view self.old) (reparenting (view self.old) number address) }
        ensures roster { OnOk result (records_of (view self.new) ≡ reparented (records_of (view self.old)) number (Some address)) }
        ensures stays { Stays (view self.old) (view self.new) }
        ensures same { OnErr result (self.new ≡ self.old) }
        ensures source { self.new.source ≡ self.old.source }
    {
        let edit = self.address_edit(number, Field::Parent, address)?;
        self.edits.add(edit);
        self.roster.reparent(number, Some(address));
        Ok(())
    }

    // Gives a mesh instance another material at a position.
    pub fn dress(&mut self, number: u64, position: u64, address: u32) -> Result<(), Fault>
        ensures answer { answer result ≡ edit_answer number (dressing (view self.old) number position address) }
        ensures state { view self.new ≡ after_edit (view self.old) (dressing (view self.old) number position address) }
        ensures roster { records_of (view self.new) ≡ records_of (view self.old) }
        ensures stays { Stays (view self.old) (view self.new) }
        ensures same { OnErr result (self.new ≡ self.old) }
        ensures source { self.new.source ≡ self.old.source }
    {
        let edit = self.address_edit(number, Field::Material(position), address)?;
        self.edits.add(edit);
        Ok(())
    }

    // The edit that lays a float over a cell.
    fn cell_edit(&self, number: u64, cell: u64, content: Cell) -> Result<Edit, Fault>
        ensures { answer result ≡ about number (nudging (view self.now) number cell content) }
    {
        let field = Field::Cell(cell);
        let place = self.place_in(number, field)?;
        if place.size != size_of(content) {
            return Err(Fault::of_call(Cause::WrongWidth, 0, number));
        }
        let laid = laid_by(content).ok_or(Fault::of_call(Cause::NotANumber, 0, number))?;
        self.room(number)?;
        Ok(Edit {
            block: number,
            field,
            place: place.at,
            laid,
        })
    }

    // Gives a cell, 0 to 11, of a block's matrix another content.
    pub fn nudge(&mut self, number: u64, cell: u64, content: Cell) -> Result<(), Fault>
        ensures answer { answer result ≡ edit_answer number (nudging (view self.old) number cell content) }
        ensures state { view self.new ≡ after_edit (view self.old) (nudging (view self.old) number cell content) }
        ensures roster { records_of (view self.new) ≡ records_of (view self.old) }
        ensures stays { Stays (view self.old) (view self.new) }
        ensures same { OnErr result (self.new ≡ self.old) }
        ensures source { self.new.source ≡ self.old.source }
    {
        let edit = self.cell_edit(number, cell, content)?;
        self.edits.add(edit);
        Ok(())
    }

    // The edit that undo takes away.
    fn last_edit(&self) -> Result<Edit, Fault>
        ensures { answer result ≡ about 0 (undoing (view self.now)) }
    {
        if self.header.is_none() {
            return Err(Fault::of_call(Cause::NotOpen, 0, 0));
        }
        self.edits
            .last()
            .ok_or(Fault::of_call(Cause::NothingToUndo, 0, 0))
    }

    // Takes the latest edit away. What it was laid over shows again, which may be an older edit's; a record tells the parent that is there then.
    pub fn undo(&mut self) -> Result<(), Fault>
        ensures answer { answer result ≡ undo_answer (view self.old) }
        ensures state { view self.new ≡ after_undo (view self.old) }
        ensures stays { Stays (view self.old) (view self.new) }
        ensures same { OnErr result (self.new ≡ self.old) }
        ensures source { self.new.source ≡ self.old.source }
    {
        let edit = self.last_edit()?;
        self.edits.undo();
        if let Field::Parent = edit.field {
            // not read of `self`: until the roster is told, it does not tell what the bytes say
            let parent = spelled_at(&Over::new(&self.source, &self.edits), edit.place, FOUR);
            // four bytes, so nothing is cut off
            self.roster.reparent(edit.block, Some(parent as u32));
        }
        Ok(())
    }
}
