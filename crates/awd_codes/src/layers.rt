// A session over a session over a window over pages.
ghost use Rattle.std.specs.Prelude.{◌≡◌, IfOk};
ghost use Rattle.std.specs.Result.{result_and, result_map_both};
ghost use Rattle.awd_fault.specs.Faults.{answer};
ghost use Rattle.awd_source.specs.Copies.{copying, copied};
ghost use Rattle.awd_source.specs.Pages.{filling};
ghost use Rattle.awd_session.specs.State.{bytes_of};
ghost use Rattle.awd_session.specs.View.{view};
ghost use Rattle.awd_codes.specs.Layers.{on_top, if_filled};
ghost use Rattle.awd_codes.specs.Records.{outcome_code};
ghost use Rattle.awd_codes.specs.Runs.{led, answered};
ghost use Rattle.awd_codes.specs.Writing.{over};

use crate::calls::{AwdAnswer, AwdCall};
use crate::records::AwdFault;
use crate::replays::{answer_all, make_all};
use awd_fault::Fault;
use awd_session::Session;
use awd_source::{Pages, Run, Window, copy};

// The pages of a run, and the part of them that a window shows.
#[derive(Clone, Copy)]
pub struct Shown<'a> {
    pub run: &'a [u8],
    pub pages: &'a [u16],
    pub size: u64,
    pub start: u64,
    pub shown: u64,
}

type Layered<'a> = Session<Session<Window<Pages<'a>>>>;

impl<'a> Shown<'a> {
    // A session over a session over the window, after calls of the one below.
    fn session(self, lower: &[AwdCall]) -> Result<Layered<'a>, Fault>
        ensures answer { let s = self.entry in result_map_both (λ x. tt) (λ f. f) (answer result) ≡ filling s.run.now s.pages.now s.size }
        ensures made { let s = self.entry in IfOk result (λ x. view x ≡ on_top s.run.now s.pages.now s.size s.start s.shown lower.now) }
    {
        let mut pages = Pages::new();
        pages.fill(Run::new(self.run), self.pages, self.size)?;
        let mut below = Session::new(Window::new(pages, self.start, self.shown));
        make_all(&mut below, lower);
        Ok(Session::new(below))
    }
}

// Makes calls on the session on top, and writes their answers.
pub fn replay_layers(
    shown: Shown<'_>,
    lower: &[AwdCall],
    calls: &[AwdCall],
    answers: &mut [AwdAnswer],
) -> AwdFault
    ensures answer { let s = shown.entry in result ≡ outcome_code (filling s.run.now s.pages.now s.size) }
    ensures answers { let s = shown.entry in let top = on_top s.run.now s.pages.now s.size s.start s.shown lower.now in
        answers.new ≡ if_filled (filling s.run.now s.pages.now s.size) (over (answered top calls.now) answers.old) answers.old }
{
    match shown.session(lower) {
        Ok(mut session) => {
            answer_all(&mut session, calls, answers);
            AwdFault::default()
        }
        Err(fault) => AwdFault::of(fault),
    }
}

// Makes calls on the session on top, and copies its bytes.
pub fn save_layers(
    shown: Shown<'_>,
    lower: &[AwdCall],
    calls: &[AwdCall],
    buffer: &mut [u8],
) -> AwdFault
    ensures answer { let s = shown.entry in let B = bytes_of (led (on_top s.run.now s.pages.now s.size s.start s.shown lower.now) calls.now) in
        result ≡ outcome_code (result_and (filling s.run.now s.pages.now s.size) (copying B buffer.old)) }
    ensures after { let s = shown.entry in let B = bytes_of (led (on_top s.run.now s.pages.now s.size s.start s.shown lower.now) calls.now) in
        buffer.new ≡ if_filled (filling s.run.now s.pages.now s.size) (copied B buffer.old) buffer.old }
{
    match shown.session(lower) {
        Ok(mut session) => {
            make_all(&mut session, calls);
            AwdFault::of_outcome(copy(&session, buffer))
        }
        Err(fault) => AwdFault::of(fault),
    }
}
