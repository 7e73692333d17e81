// What a session tells of the blocks that it has taken. Each answers none for what is not there, and changes nothing.
ghost use Rattle.std.specs.Prelude.{◌≡◌, ◌≤◌, IfSome, length};
ghost use Rattle.std.specs.Option.{option_map};
ghost use Rattle.awd_roster.specs.Lookups.{Climbs};
ghost use Rattle.awd_blocks.specs.Lists.{HoldsOne};
ghost use Rattle.awd_contents.specs.Contents.{told};
ghost use Rattle.awd_session.specs.State.{bytes_of, records_of, record_answer, number_answer, path_answer, material_answer, cell_answer};
ghost use Rattle.awd_session.specs.View.{view};

use crate::session::Session;
use awd_contents::{Cell, material, matrix_cell};
use awd_roster::Record;
use awd_source::Source;

impl<S: Source> Session<S> {
    // How many blocks are taken. The bytes hold exactly one list of so many lawful blocks.
    pub fn count(&self) -> u64
        ensures taken { result ≡ (view self.now).taken }
        ensures few { result ≤ 512 }
        ensures held { HoldsOne (bytes_of (view self.now)) result }
    {
        self.roster.count()
    }

    // How many edits stand.
    pub fn edits(&self) -> u64
        ensures standing { result ≡ length (view self.now).edits }
        ensures few { result ≤ 256 }
    {
        self.edits.count()
    }

    // What the block of a number tells.
    pub fn record(&self, number: u64) -> Option<Record>
        ensures { result ≡ record_answer (view self.now) number }
    {
        self.roster.record(number)
    }

    // The number of the block with an ID; temporary blocks, whose ID is 0, are not found by it.
    pub fn number_of(&self, id: u32) -> Option<u64>
        ensures { result ≡ number_answer (view self.now) id }
    {
        self.roster.number_of(id)
    }

    // How many parents lie between a block and the root.
    pub fn path(&self, number: u64) -> Option<u64>
        ensures value { result ≡ path_answer (view self.now) number }
        ensures climbs { IfSome result (λ n. Climbs (records_of (view self.now)) number n) }
    {
        self.roster.path(number)
    }

    // The address of the material at a position of a mesh instance, as edited.
    pub fn material(&self, number: u64, position: u64) -> Option<u32>
        ensures { result ≡ material_answer (view self.now) number position }
    {
        let block = self.record(number)?;
        material(self, &block, position)
    }

    // The content of a cell, 0 to 11, of the matrix of a container, a mesh instance or a light, as edited.
    pub fn cell(&self, number: u64, cell: u64) -> Option<Cell>
        ensures { option_map told result ≡ cell_answer (view self.now) number cell }
    {
        let header = self.header?;
        let block = self.record(number)?;
        matrix_cell(self, &header, &block, cell)
    }
}
