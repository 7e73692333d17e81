//! What a session is made over: the memory of a case, or some of it.
ghost use Rattle.awd_cases.specs.Below.{bytes_of};

use awd_source::{Pages, Run, Source, Window};

/// A source of one of four kinds, so that what reads it is built once for all of them.
#[derive(Drop)]
pub enum Below<'a> {
    Run(Run<'a>),
    Window(Window<Run<'a>>),
    Pages(Pages<'a>),
    /// a window on pages
    Cut(Window<Pages<'a>>),
}

impl<'a> Source for Below<'a> {
    ghost bytes = { bytes_of };

    fn length(&self) -> u64 {
        match self {
            Below::Run(run) => run.length(),
            Below::Window(window) => window.length(),
            Below::Pages(pages) => pages.length(),
            Below::Cut(window) => window.length(),
        }
    }

    fn byte(&self, at: u64) -> Option<u8> {
        match self {
            Below::Run(run) => run.byte(at),
            Below::Window(window) => window.byte(at),
            Below::Pages(pages) => pages.byte(at),
            Below::Cut(window) => window.byte(at),
        }
    }
}
