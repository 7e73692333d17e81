//! The callers of the library, each once.

use crate::sources::DOCUMENT;
use awd_callers::{
    count_attributes, count_blocks, open_above, open_over, reparent_above, replace_second,
};
use awd_session::Session;
use awd_source::Run;

#[test]
fn callers(rt: HostRuntime) {
    let run = Run::new(&DOCUMENT);
    assert_eq!(rt; count_blocks(&run), Ok(0));
    // a text under no name
    assert_eq!(rt;
        count_attributes(&[0, 0, 0, 31, 2, 0, 0, 0, 104, 105]),
        Ok(1)
    );
    let mut memory = [1, 2, 3, 4];
    assert_eq!(rt; (replace_second(&mut memory), memory), (2, [1, 7, 3, 4]));
    let (opened, mut lower) = open_above(run);
    assert!(rt; opened.is_ok() && lower.header().is_none());
    assert!(rt; open_over(&mut lower).is_ok());
    // there is no block, so none has a parent
    let (edited, lower) = reparent_above(Session::new(run), 0);
    assert_eq!(rt; edited.err().map(|f| f.cause.number()), Some(18));
    assert!(rt; lower.header().is_none());
}
