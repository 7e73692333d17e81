// A window: part of a source, as a source of its own.
ghost use Rattle.std.specs.Prelude.{◌≡◌, ◌+◌, ◌^◌, ◌<◌, length};
ghost use Rattle.awd_source.specs.Bytes.{part};

use crate::source::Source;

// From `start` on, at most `size` bytes of the source below; fewer, or none, where that ends before.
#[derive(Drop)]
pub struct Window<S> {
    below: S,
    start: u64,
    size: u64,
}

impl<S> Window<S> {
    pub fn new(below: S, start: u64, size: u64) -> Window<S>
        ensures { (result.below ≡ below) × (result.start ≡ start) × (result.size ≡ size) }
    {
        Window { below, start, size }
    }

    // Gives the source below back, as it was.
    pub fn close(self) -> S
        ensures { result ≡ self.below }
    {
        self.below
    }
}

impl<S: Source> Window<S> {
    // How many bytes of the source below it shows. No place of these leaves 64 bits, since none in the source does.
    fn shown(&self) -> u64
        ensures size { result ≡ length (part (S.bytes self.now.below) self.now.start self.now.size) }
        ensures fits { 0 < result → self.now.start + result < 2 ^ 64 }
    {
        let rest = self.below.length().saturating_sub(self.start);
        rest.min(self.size)
    }
}

impl<S: Source> Source for Window<S> {
    ghost bytes = { λ w. part (S.bytes w.below) w.start w.size };

    fn length(&self) -> u64 {
        self.shown()
    }

    fn byte(&self, at: u64) -> Option<u8> {
        if at >= self.shown() {
            return None;
        }
        self.below.byte(self.start + at)
    }
}
