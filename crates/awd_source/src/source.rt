// What a source of bytes is. Places and lengths have 64 bits; std has no `From` between these and `usize`, so what meets a slice's index is cast.
ghost use Rattle.std.specs.Prelude.{◌≡◌, ℕ, List, length};
ghost use Rattle.awd_source.specs.Bytes.{byte_at};

pub trait Source {
    // The list of bytes that the source stands for. Being asked does not change it.
    ghost bytes: { Self → List ℕ };

    fn length(&self) -> u64
        ensures { result ≡ length (bytes self.now) };

    // The byte at a place, or none at or beyond the length.
    fn byte(&self, at: u64) -> Option<u8>
        ensures { result ≡ byte_at (bytes self.now) at };
}

// A source that is only lent: it stands for the same bytes.
impl<'a, S: Source> Source for &'a S {
    ghost bytes = { λ s. S.bytes s.now };

    fn length(&self) -> u64 {
        (**self).length()
    }

    fn byte(&self, at: u64) -> Option<u8> {
        (**self).byte(at)
    }
}
