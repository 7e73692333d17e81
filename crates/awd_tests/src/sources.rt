//! Sources that are lent, and sources that are given back.

use awd_session::Session;
use awd_source::{Pages, Run, Source, Window};
use std::test::Fail;

/// A header alone.
pub const DOCUMENT: [u8; 12] = [65, 87, 68, 2, 1, 0, 0, 0, 0, 0, 0, 0];

#[test]
fn lent(rt: HostRuntime) {
    let run = Run::new(&DOCUMENT);
    let mut session = Session::new(&run);
    assert!(rt; session.open().is_ok());
    assert!(rt; Session::new(&session).open().is_ok());
    let window = Window::new(&run, 0, 12);
    assert!(rt; Session::new(&window).open().is_ok());
}

#[test]
fn given_back(rt: HostRuntime) {
    let window = Window::new(Window::new(Run::new(&DOCUMENT), 1, 4), 1, 2);
    assert_eq!(rt;
        (
            window.length(),
            window.byte(0),
            window.byte(1),
            window.byte(2)
        ),
        (2, Some(68), Some(2), None)
    );
    assert_eq!(rt; window.close().close().length(), 12);
    let mut session = Session::new(Run::new(&DOCUMENT));
    assert!(rt; session.open().is_ok());
    assert_eq!(rt; session.close().byte(2), Some(68));
}

/// Pages of one page, listed over and over, as a document of as many bytes as there may be, and of one more.
#[test]
fn longest(rt: HostRuntime) -> Result<(), Fail> {
    let mut page = [0u8; 512];
    page[0..12].copy_from_slice(&DOCUMENT);
    page[5] = 1;
    let list = vec![in rt.alloc(); 0u16; 32769]?;
    let mut pages = Pages::new();
    assert_eq!(rt; (pages.length(), pages.byte(0)), (0, None));
    assert!(rt; pages.fill(Run::new(&page), &list, 16_777_216).is_ok());
    assert!(rt; Session::new(&pages).open().is_ok());
    assert!(rt; pages.fill(Run::new(&page), &list, 16_777_217).is_ok());
    let refused = Session::new(&pages)
        .open()
        .err()
        .map(|f| (f.cause.number(), f.place));
    assert_eq!(rt; refused, Some((3, 16_777_216)));
    Ok(())
}
