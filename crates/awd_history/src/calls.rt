// One call, made on a session.
ghost use Rattle.std.specs.Prelude.{◌≡◌};
ghost use Rattle.awd_fault.specs.Faults.{answer};
ghost use Rattle.awd_calls.specs.Answers.{said};
ghost use Rattle.awd_session.specs.Laws.{Stays};
ghost use Rattle.awd_session.specs.View.{view};
ghost use Rattle.awd_history.specs.Calls.{done, answer_to, after};

use awd_calls::{Answer, Call};
use awd_fault::Fault;
use awd_session::Session;
use awd_source::Source;

// One call of a history, and the answer that it got.
#[derive(Clone, Copy)]
pub struct Step {
    pub call: Call,
    pub answer: Answer,
}

// What comes of a call that gives nothing but its acceptance.
fn done(outcome: Result<(), Fault>) -> Answer
    ensures { said result ≡ done (answer outcome) }
{
    match outcome {
        Ok(()) => Answer::Done,
        Err(fault) => Answer::Refused(fault),
    }
}

// Makes one call.
pub fn make<S: Source>(session: &mut Session<S>, call: Call) -> Answer
    ensures answer { said result ≡ answer_to call (view session.old) }
    ensures state { view session.new ≡ after call (view session.old) }
    ensures stays { Stays (view session.old) (view session.new) }
    ensures same { (said result).0 ≡ 0 → session.new ≡ session.old }
    ensures source { session.new.source ≡ session.old.source }
{
    match call {
        Call::Open => match session.open() {
            Ok(header) => Answer::Opened(header),
            Err(fault) => Answer::Refused(fault),
        },
        Call::Next => match session.next() {
            Ok(number) => Answer::Taken(number),
            Err(fault) => Answer::Refused(fault),
        },
        Call::Reparent(number, address) => done(session.reparent(number, address)),
        Call::Dress(number, position, address) => done(session.dress(number, position, address)),
        Call::Nudge(number, cell, content) => done(session.nudge(number, cell, content)),
        Call::Undo => done(session.undo()),
        Call::Count => Answer::Count(session.count()),
        Call::Edits => Answer::Count(session.edits()),
        Call::Record(number) => Answer::Record(session.record(number)),
        Call::NumberOf(id) => Answer::Number(session.number_of(id)),
        Call::Material(number, position) => Answer::Address(session.material(number, position)),
        Call::Cell(number, cell) => Answer::Content(session.cell(number, cell)),
        Call::Path(number) => Answer::Number(session.path(number)),
        Call::Length => Answer::Count(session.length()),
        Call::Byte(at) => Answer::Byte(session.byte(at)),
    }
}
