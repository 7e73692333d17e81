// Three sessions over one document: over the document as it was read, over its pages, and over a session over a part of a longer run.
ghost use Rattle.std.specs.Prelude.{◌≡◌, true, IfOk, OnOk};
ghost use Rattle.awd_source.specs.Bytes.{part};
ghost use Rattle.awd_source.specs.Pages.{paged};
ghost use Rattle.awd_session.specs.State.{fresh};
ghost use Rattle.awd_session.specs.View.{view};
ghost use Rattle.awd_history.specs.Calls.{after};
ghost use Rattle.awdreplay.specs.Lines.{CameTo, AllAlike};

use crate::copies::{Framed, Shuffled};
use awd_calls::Call;
use awd_fault::Fault;
use awd_history::make;
use awd_session::Session;
use awd_source::{Pages, Run, Window};
use std::alloc::{AllocError, Global};

#[derive(Drop)]
pub struct Replicas<'a> {
    plain: Session<Run<'a>>,
    paged: Session<Pages<'a>>,
    nested: Session<Session<Window<Run<'a>>>>,
}

// What the first answers, as a line, and whether the others answer the same.
#[derive(Drop)]
pub struct Answered {
    pub text: String,
    pub same: bool,
}

impl<'a> Replicas<'a> {
    // Three sessions that were just made.
    pub fn new(
        document: &'a [u8],
        shuffled: &'a Shuffled,
        framed: &'a Framed,
    ) -> Result<Replicas<'a>, Fault>
        ensures plain { IfOk result (λ r. view r.plain ≡ fresh document.now) }
        ensures paged { IfOk result (λ r. view r.paged ≡ fresh (paged shuffled.now.stored.items shuffled.now.list.items shuffled.now.size)) }
        ensures nested { IfOk result (λ r. view r.nested ≡ fresh (part framed.now.stored.items 7 framed.now.size)) }
        ensures alike { let d = document.now in paged shuffled.now.stored.items shuffled.now.list.items shuffled.now.size ≡ d →
            part framed.now.stored.items 7 framed.now.size ≡ d → IfOk result (λ r. AllAlike r) }
    {
        Ok(Replicas {
            plain: Session::new(Run::new(document)),
            paged: Session::new(shuffled.source()?),
            nested: Session::new(Session::new(framed.source())),
        })
    }

    // Makes a call on all three. Their answers are compared as lines: a float that is not a number is not equal to itself.
    pub fn make(&mut self, heap: Global, call: Call) -> Result<Answered, AllocError>
        ensures plain { OnOk result (view self.new.plain ≡ after call (view self.old.plain)) }
        ensures paged { OnOk result (view self.new.paged ≡ after call (view self.old.paged)) }
        ensures nested { OnOk result (view self.new.nested ≡ after call (view self.old.nested)) }
        ensures told { IfOk result (λ a. CameTo call (view self.old.plain) (view self.old.paged) (view self.old.nested) a) }
        ensures agree { IfOk result (λ a. AllAlike self.old → a.same ≡ true) }
        ensures stay { OnOk result (AllAlike self.old → AllAlike self.new) }
    {
        let text = make(&mut self.plain, call).to_string(heap)?;
        let paged = make(&mut self.paged, call).to_string(heap)?;
        let nested = make(&mut self.nested, call).to_string(heap)?;
        let same = paged == text && nested == text;
        Ok(Answered { text, same })
    }
}
