// The session: what it keeps, how it opens a document and takes blocks, and that it is a source.
ghost use Rattle.std.specs.Prelude.{◌≡◌, true, [], None, Ok, length, IfSome, OnErr};
ghost use Rattle.std.proofs.Props.{props};
ghost use Rattle.awd_fault.specs.Faults.{answer};
ghost use Rattle.awd_header.specs.Header.{Right, opening};
ghost use Rattle.awd_blocks.specs.Lists.{read_blocks};
ghost use Rattle.awd_edits.specs.Overlay.{overlay};
ghost use Rattle.awd_changes.specs.Standing.{may_stand};

use awd_blocks::{Block, block_at};
use awd_edits::Edits;
use awd_fault::{Cause, Fault};
use awd_header::{HEADER_SIZE, Header, read_header};
use awd_roster::{MAX_BLOCKS, Roster};
use awd_source::Source;

mod changes;
mod promise;
mod questions;

// Open where it has a header: the one that opening the bytes of its source answers. Its roster tells what reading as many blocks of its own
// bytes finds, and `end` is the place where they end. Its edits stand over those blocks. (No Model: contracts name the source itself.)
#[derive(Drop)]
pub struct Session<S: Source> {
    source: S,
    header: Option<Header>,
    roster: Roster,
    end: u64,
    edits: Edits,
    ghost told: { IfSome header (λ h. opening (S.bytes source) ≡ Ok h) } by { Prim.hlevel props },
    ghost taken: { read_blocks (overlay (S.bytes source) edits) (length roster) ≡ Ok (record { records = roster; end = end }) },
    ghost stand: { may_stand (S.bytes source) edits (length roster) ≡ true },
    ghost closed: { header ≡ None → length roster ≡ 0 },
    ghost unedited: { header ≡ None → edits ≡ [] },
}

impl<S: Source> Session<S> {
    ghost use Rattle.awd_session.specs.State.{fresh, open_answer, after_open, header_answer, following, next_answer, after_next};
    ghost use Rattle.awd_session.specs.Laws.{NextRight, Kept, Stays};
    ghost use Rattle.awd_session.specs.View.{view};

    // A session that has not opened its document yet.
    pub fn new(source: S) -> Session<S>
        ensures state { view result ≡ fresh (S.bytes source) }
        ensures source { result.source ≡ source }
    {
        Session {
            source,
            header: None,
            roster: Roster::new(),
            end: HEADER_SIZE,
            edits: Edits::new(),
        }
    }

    // Judges the header and opens the document. A refusal leaves the session as it was.
    pub fn open(&mut self) -> Result<Header, Fault>
        ensures answer { answer result ≡ open_answer (view self.old) }
        ensures state { view self.new ≡ after_open (view self.old) }
        ensures right { self.old.header ≡ None → Right (S.bytes self.old.source) result }
        ensures stays { Stays (view self.old) (view self.new) }
        ensures same { OnErr result (self.new ≡ self.old) }
        ensures source { self.new.source ≡ self.old.source }
    {
        if self.header.is_some() {
            return Err(Fault::of_call(Cause::AlreadyOpen, 0, 0));
        }
        let header = read_header(&self.source)?;
        Ok(*self.header.insert(header))
    }

    // What the header says, once the document is open.
    pub fn header(&self) -> Option<Header>
        ensures { result ≡ header_answer (view self.now) }
    {
        self.header
    }

    // The block after the taken ones, or none where they use the bytes up. It is read from the source below: no edit lies behind the taken
    // blocks. (The fault's turn was tried as `map_err`: what is ensured stayed open.)
    fn following(&self) -> Result<Option<Block>, Fault>
        ensures { answer result ≡ following (view self.now) }
    {
        let Some(header) = self.header else {
            return Err(Fault::of_call(Cause::NotOpen, 0, 0));
        };
        if self.end == self.source.length() {
            return Ok(None);
        }
        let number = self.roster.count();
        if number >= MAX_BLOCKS as u64 {
            return Err(Fault::of_call(Cause::TooManyBlocks, self.end, MAX_BLOCKS as u64));
        }
        match block_at(&self.source, &self.roster, header, self.end) {
            Ok(block) => Ok(Some(block)),
            Err(fault) => Err(fault.in_block(number)),
        }
    }

    // Takes the next block and tells its number, or none where the bytes are used up. A refusal leaves the session as it was, so the same one
    // comes again.
    pub fn next(&mut self) -> Result<Option<u64>, Fault>
        ensures answer { answer result ≡ next_answer (view self.old) }
        ensures state { view self.new ≡ after_next (view self.old) }
        ensures right { (view self.old).opened ≡ true → NextRight (view self.old) (answer result) }
        ensures kept { Kept (view self.old) (view self.new) }
        ensures stays { Stays (view self.old) (view self.new) }
        ensures same { OnErr result (self.new ≡ self.old) }
        ensures source { self.new.source ≡ self.old.source }
    {
        let Some(block) = self.following()? else {
            return Ok(None);
        };
        let number = self.roster.count();
        self.roster.add(block.told);
        self.end = block.behind;
        Ok(Some(number))
    }

    // Ends the session and gives its source back as it was.
    pub fn close(self) -> S
        ensures { result ≡ self.source }
    {
        self.source
    }
}

// A session stands for the bytes of its source with the standing edits laid over them.
impl<S: Source> Source for Session<S> {
    ghost bytes = { λ s. overlay (S.bytes s.source) s.edits };

    #[tactic(auto, using(awd_edits::proofs::Lays::length_overlay))]
    fn length(&self) -> u64 {
        self.source.length()
    }

    fn byte(&self, at: u64) -> Option<u8> {
        self.edits.byte(&self.source, at)
    }
}
