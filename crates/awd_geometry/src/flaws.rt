// What is wrong with the streams of a sub-geometry taken together. The run of streams is a source of its own, so places count from its
// start, and nothing is read behind its end: a place behind the end is treated as the end.
ghost use Rattle.std.specs.Prelude.{◌≡◌, ◌+◌, ◌^◌, ◌<◌, min, length, IfSome};
ghost use Rattle.std.specs.Iterator.{YieldsFirst, item_count};
ghost use Rattle.awd_header.specs.Widths.{width_size};
ghost use Rattle.awd_geometry.specs.Streams.{stream_number};
ghost use Rattle.awd_geometry.specs.Flaws.{Inside, size_at, behind, places, has_type, first, second, earlier, vertex_count, index_not_below, faces_flaw, streams_flaw};

use crate::streams::StreamType;
use awd_block_fault::FieldFault;
use awd_fault::Cause;
use awd_header::Width;
use awd_source::{FOUR, Source, Window, first_not_below, spelled_at};
use std::marker::Model;

// The earlier of two places, of which there may be one or none.
fn earlier(one: Option<u64>, other: Option<u64>) -> Option<u64>
    ensures { result ≡ earlier one other }
{
    one.into_iter().chain(other).min()
}

// A run of streams, in a geometry with coordinates of a width.
#[derive(Drop)]
pub(crate) struct Streams<'a, S> {
    pub(crate) run: &'a S,
    pub(crate) width: Width,
}

impl<'a, S: Source> Streams<'a, S> {
    // The size of the content of the stream at a place; it stands behind a type (1) and a field code (1).
    fn size_at(&self, place: u64) -> u64
        ensures { result ≡ size_at (S.bytes self.now.run.now) place }
    {
        spelled_at(
            self.run,
            place.saturating_add(2).min(self.run.length()),
            FOUR,
        )
    }

    // The place of the content of the stream at a place, behind the size (4), or the run's end if that comes before. No place in the run
    // leaves 64 bits, since its length does not.
    fn content_at(&self, place: u64) -> u64
        ensures place { let m = S.bytes self.now.run.now in result ≡ min (place + 6) (length m) }
        ensures length { length (S.bytes self.now.run.now) < 2 ^ 64 }
    {
        place.saturating_add(6).min(self.run.length())
    }

    // The place behind the stream at a place, or the run's end if that comes before.
    fn next_place(&self, place: u64) -> u64
        ensures { let m = S.bytes self.now.run.now in result ≡ min (behind m place) (length m) }
    {
        let behind = self.content_at(place).saturating_add(self.size_at(place));
        behind.min(self.run.length())
    }

    // The places of the streams, one after another.
    fn places(&self) -> Places<'_, S>
        ensures { result ≡ places (S.bytes self.now.run.now) 0 }
    {
        Places {
            streams: self,
            place: 0,
        }
    }

    // Whether a stream of a type stands at a place.
    fn has_type(&self, stream_type: StreamType, place: u64) -> bool
        ensures { result ≡ has_type (S.bytes self.now.run.now) (stream_number stream_type) place }
    {
        self.run.byte(place) == Some(stream_type.number())
    }

    // The place of the first stream of a type.
    fn first(&self, stream_type: StreamType) -> Option<u64>
        ensures first { result ≡ first (S.bytes self.now.run.now) (stream_number stream_type) }
        ensures inside { Inside (S.bytes self.now.run.now) result }
    {
        self.places().find(|&p| self.has_type(stream_type, p))
    }

    // The place of the first stream that repeats a type.
    fn repeated(&self, stream_type: StreamType) -> Option<u64>
        ensures second { result ≡ second (S.bytes self.now.run.now) (stream_number stream_type) }
        ensures inside { Inside (S.bytes self.now.run.now) result }
    {
        self.places()
            .filter(|&p| self.has_type(stream_type, p))
            .nth(1)
    }

    // How many vertices the stream at a place has, each of three coordinates.
    fn vertex_count(&self, place: u64) -> u64
        ensures { result ≡ vertex_count (width_size self.now.width) (S.bytes self.now.run.now) place }
    {
        self.size_at(place) / (3 * u64::from(self.width.bytes()))
    }

    // The place of the first index, in the faces at a place, that is not below a limit.
    fn index_not_below(&self, faces: u64, limit: u64) -> Option<u64>
        ensures found { result ≡ index_not_below limit (S.bytes self.now.run.now) faces }
        ensures inside { Inside (S.bytes self.now.run.now) result }
    {
        let content = self.content_at(faces);
        let indices = Window::new(self.run, content, self.size_at(faces));
        first_not_below(&indices, limit).map(|place| content + place)
    }

    // What is wrong with the faces, if there are any: they need vertices, and each index is below the number of these.
    fn faces_flaw(&self) -> Option<FieldFault>
        ensures flaw { let m = S.bytes self.now.run.now in result ≡ faces_flaw (width_size self.now.width) m (first m 2) (first m 1) }
        ensures inside { let m = S.bytes self.now.run.now in IfSome result (λ x. x.place < length m) }
    {
        let faces = self.first(StreamType::Faces)?;
        let Some(vertices) = self.first(StreamType::Vertices) else {
            return Some(FieldFault::new(Cause::StreamOutOfPlace, faces));
        };
        self.index_not_below(faces, self.vertex_count(vertices))
            .map(|place| FieldFault::new(Cause::IndexTooLarge, place))
    }

    // The first flaw of the run; its place counts from the run's start and lies in the run.
    pub(crate) fn flaw(&self) -> Option<FieldFault>
        ensures flaw { result ≡ streams_flaw (width_size self.now.width) (S.bytes self.now.run.now) }
        ensures inside { let m = S.bytes self.now.run.now in IfSome result (λ x. x.place < length m) }
    {
        let vertices = self.repeated(StreamType::Vertices);
        let faces = self.repeated(StreamType::Faces);
        // tried as `map` and `or_else`: what is ensured then stayed open
        match earlier(vertices, faces) {
            Some(place) => Some(FieldFault::new(Cause::StreamOutOfPlace, place)),
            None => self.faces_flaw(),
        }
    }
}

// The places of the streams of a run, seen as the list of those that are left.
#[derive(Drop)]
struct Places<'a, S: Source> {
    streams: &'a Streams<'a, S>,
    place: u64,
}

impl<'a, S: Source> Model for Places<'a, S> {
    ghost use Rattle.std.specs.Prelude.{ℕ, List};
    ghost use Rattle.awd_geometry.specs.Flaws.{places};

    ghost Value = { List ℕ };

    ghost view = { λ it. places (S.bytes it.streams.now.run.now) it.place };
}

impl<'a, S: Source> Iterator for Places<'a, S> {
    type Item = u64;

    ghost next_gives = { YieldsFirst (λ rest. rest) };

    ghost remaining = { item_count (λ rest. rest) };

    fn next(&mut self) -> Option<u64> {
        let place = self.place;
        if place >= self.streams.run.length() {
            return None;
        }
        self.place = self.streams.next_place(place);
        Some(place)
    }
}
