// Lists of calls over a session.
ghost use Rattle.std.specs.Prelude.{◌≡◌};
ghost use Rattle.awd_session.specs.State.{fresh};
ghost use Rattle.awd_session.specs.Laws.{Stays};
ghost use Rattle.awd_session.specs.Promise.{Promise};
ghost use Rattle.awd_session.specs.View.{view};
ghost use Rattle.awd_history.specs.Histories.{reached, answers, asked, got, RanOn, Alike};

use crate::calls::{Step, make};
use awd_session::Session;
use awd_source::Source;

// Makes the calls of a history one after another, and writes down their answers.
pub fn go_on<S: Source>(session: &mut Session<S>, history: &mut [Step])
    ensures state { view session.new ≡ reached (view session.old) (asked history.old) }
    ensures calls { asked history.new ≡ asked history.old }
    ensures answers { got history.new ≡ answers (view session.old) (asked history.old) }
    ensures stays { Stays (view session.old) (view session.new) }
    ensures promise { Promise (view session.new) }
    ensures source { session.new.source ≡ session.old.source }
{
    for step in history.iter_mut() {
        step.answer = make(session, step.call);
    }
    session.promise();
}

// A session over a source that has had a history of calls, from its making on. What is promised of it is promised after every list of calls.
pub fn replay<S: Source>(source: S, history: &mut [Step]) -> Session<S>
    ensures state { view result ≡ reached (fresh (S.bytes source)) (asked history.old) }
    ensures calls { asked history.new ≡ asked history.old }
    ensures answers { got history.new ≡ answers (fresh (S.bytes source)) (asked history.old) }
    ensures promise { Promise (view result) }
    ensures source { result.source ≡ source }
{
    let mut session = Session::new(source);
    go_on(&mut session, history);
    session
}

// Two sessions over sources of any kind, each with a history of its own, and then further calls of both. Where the histories leave them alike, they
// answer alike.
pub fn twins<S: Source, T: Source>(
    one: S,
    other: T,
    first: &mut [Step],
    second: &mut [Step],
    further: &mut [Step],
    again: &mut [Step],
) -> (Session<S>, Session<T>)
    ensures one { RanOn (S.bytes one) (view result.0) first.old first.new further.old further.new }
    ensures other { RanOn (T.bytes other) (view result.1) second.old second.new again.old again.new }
    ensures alike { Alike (reached (fresh (S.bytes one)) (asked first.old)) (reached (fresh (T.bytes other)) (asked second.old)) →
        asked further.old ≡ asked again.old → got further.new ≡ got again.new }
    ensures promises { Promise (view result.0) × Promise (view result.1) }
    ensures sources { (result.0.source ≡ one) × (result.1.source ≡ other) }
{
    let mut left = replay(one, first);
    let mut right = replay(other, second);
    go_on(&mut left, further);
    go_on(&mut right, again);
    (left, right)
}
