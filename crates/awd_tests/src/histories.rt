//! Lists of calls over sessions.

use crate::sources::DOCUMENT;
use awd_calls::{Answer, Call};
use awd_history::{Step, replay, twins};
use awd_source::{Run, Window};

/// A call that is still to be answered.
const fn asked(call: Call) -> Step {
    Step {
        call,
        answer: Answer::Done,
    }
}

#[test]
fn replayed(rt: HostRuntime) {
    let mut history = [asked(Call::Open), asked(Call::Next), asked(Call::Length)];
    let session = replay(Run::new(&DOCUMENT), &mut history);
    assert!(rt; session.header().is_some());
    assert_eq!(rt;
        (history[1].answer, history[2].answer),
        (Answer::Taken(None), Answer::Count(12))
    );
}

#[test]
fn twins_answer_alike(rt: HostRuntime) {
    let (mut first, mut second) = ([asked(Call::Open)], [asked(Call::Open)]);
    let (mut further, mut again) = ([asked(Call::Next)], [asked(Call::Next)]);
    let window = Window::new(Run::new(&DOCUMENT), 0, 12);
    twins(
        Run::new(&DOCUMENT),
        window,
        &mut first,
        &mut second,
        &mut further,
        &mut again,
    );
    assert_eq!(rt;
        (further[0].answer, again[0].answer),
        (Answer::Taken(None), Answer::Taken(None))
    );
}
