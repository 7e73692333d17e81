// What is promised of every session.
ghost use Rattle.awd_session.specs.Promise.{Promise};
ghost use Rattle.awd_session.specs.View.{view};

use crate::session::Session;
use awd_source::Source;

impl<S: Source> Session<S> {
    // That it is proved is what counts: the two counts are asked for only because they say how many there may be. It holds of a session at any
    // time, so after whatever calls it has had.
    pub fn promise(&self)
        ensures { Promise (view self.now) }
    {
        self.roster.count();
        self.edits.count();
    }
}
