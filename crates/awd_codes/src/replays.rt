// Lists of calls over one session.
ghost use Rattle.std.specs.Prelude.{◌≡◌, min, length, take};
ghost use Rattle.awd_source.specs.Copies.{copying, copied};
ghost use Rattle.awd_session.specs.State.{fresh, bytes_of};
ghost use Rattle.awd_session.specs.View.{view};
ghost use Rattle.awd_codes.specs.Calls.{call_of};
ghost use Rattle.awd_codes.specs.Records.{outcome_code};
ghost use Rattle.awd_codes.specs.Runs.{told, left, led, answered};
ghost use Rattle.awd_codes.specs.Writing.{over};

use crate::calls::{
    AwdAnswer, AwdCall, CALL_BYTE, CALL_CELL, CALL_MATERIAL, CALL_NUMBER_OF, CALL_PATH, CALL_RECORD,
};
use crate::records::AwdFault;
use awd_history::make;
use awd_session::Session;
use awd_source::{Run, Source, copy};

// Makes a call that is given by its numbers. What is no call changes nothing.
fn make_coded<S: Source>(session: &mut Session<S>, call: AwdCall) -> AwdAnswer
    ensures answer { result ≡ told (call_of call) (view session.old) }
    ensures state { view session.new ≡ left (call_of call) (view session.old) }
    ensures source { session.new.source ≡ session.old.source }
{
    match call.call() {
        Some(call) => AwdAnswer::of(make(session, call)),
        None => AwdAnswer::default(),
    }
}

// Makes a call that is given by its numbers, and writes what it answers. Questions, which are short, are answered at once and in place: a call and
// an answer made as values on the way would cost more than the question.
fn answer_coded<S: Source>(session: &mut Session<S>, call: AwdCall, answer: &mut AwdAnswer)
    ensures answer { answer.new ≡ told (call_of call) (view session.old) }
    ensures state { view session.new ≡ left (call_of call) (view session.old) }
    ensures source { session.new.source ≡ session.old.source }
{
    *answer = AwdAnswer::default();
    match call.what {
        CALL_RECORD => answer.tell_record(session.record(call.number)),
        CALL_NUMBER_OF => answer.tell_number(session.number_of(call.address)),
        CALL_MATERIAL => answer.tell_number(
            session.material(call.number, call.which).map(u64::from),
        ),
        CALL_CELL => answer.tell_content(session.cell(call.number, call.which)),
        CALL_PATH => answer.tell_number(session.path(call.number)),
        CALL_BYTE => answer.tell_number(session.byte(call.number).map(u64::from)),
        _ => *answer = make_coded(session, call),
    }
}

// Makes calls one after another, as many as there is room for their answers, and tells how many.
pub(crate) fn answer_all<S: Source>(
    session: &mut Session<S>,
    calls: &[AwdCall],
    answers: &mut [AwdAnswer],
) -> usize
    ensures count { result ≡ min (length calls.now) (length answers.old) }
    ensures answers { answers.new ≡ over (answered (view session.old) calls.now) answers.old }
    ensures state { view session.new ≡ led (view session.old) (take (length answers.old) calls.now) }
{
    for (place, answer) in answers.iter_mut().enumerate() {
        let Some(call) = calls.get(place) else {
            break;
        };
        answer_coded(session, *call, answer);
    }
    calls.len().min(answers.len())
}

// Makes calls one after another, and passes over their answers.
pub(crate) fn make_all<S: Source>(session: &mut Session<S>, calls: &[AwdCall])
    ensures state { view session.new ≡ led (view session.old) calls.now }
    ensures source { session.new.source ≡ session.old.source }
{
    for call in calls {
        make_coded(session, *call);
    }
}

// Makes calls on a session over a document, from its making on, and writes their answers.
pub fn replay(document: &[u8], calls: &[AwdCall], answers: &mut [AwdAnswer]) -> usize
    ensures count { result ≡ min (length calls.now) (length answers.old) }
    ensures answers { answers.new ≡ over (answered (fresh document.now) calls.now) answers.old }
{
    let mut session = Session::new(Run::new(document));
    answer_all(&mut session, calls, answers)
}

// Makes calls on a session over a document, and copies the session's bytes.
pub fn save(document: &[u8], calls: &[AwdCall], buffer: &mut [u8]) -> AwdFault
    ensures answer { let B = bytes_of (led (fresh document.now) calls.now) in result ≡ outcome_code (copying B buffer.old) }
    ensures after { let B = bytes_of (led (fresh document.now) calls.now) in buffer.new ≡ copied B buffer.old }
{
    let mut session = Session::new(Run::new(document));
    make_all(&mut session, calls);
    AwdFault::of_outcome(copy(&session, buffer))
}
