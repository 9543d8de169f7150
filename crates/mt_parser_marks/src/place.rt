//! The places of a source's bytes, in one pass.

ghost use Rattle.std.specs.Prelude.{◌≡◌, ◌≤◌, ◌<◌, ◌+◌, ◌^◌, length};
ghost use Rattle.mt_tree.specs.Place.{place_of};
ghost use Rattle.mt_parser_marks.specs.Places.{placed};
ghost use Rattle.mt_tree.specs.Limits.{source_limit};

use mt_tree::Place;

/// The place of the end of the source, which is the one behind its last character. The source has
/// at most 1,048,576 bytes. Takes no memory.
pub fn end_place(source: &[u8]) -> Place
    requires small { length source.now ≤ source_limit }
    ensures { result ≡ place_of source.now (length source.now) }
{
    Place::of(source, source.len() as u32)
}

/// A byte of a source, or its end, with the place of it.
#[derive(Clone, Copy)]
pub struct Cursor {
    pub at: usize,
    pub place: Place,
}

impl Cursor {
    /// At the byte `at`, or at the end where the source ends before it. To go on costs no more
    /// than the bytes between; to go back reads the source again.
    pub fn moved(self, source: &[u8], at: u32) -> Cursor
        requires small { length source.now ≤ source_limit }
        requires within { self.at ≤ length source.now }
        requires stands { self.place ≡ place_of source.now self.at }
        ensures within { result.at ≤ length source.now }
        ensures stands { result.place ≡ place_of source.now result.at }
        ensures there { result.place ≡ place_of source.now at }
    {
        let at = (at as usize).min(source.len());
        if at < self.at {
            return Cursor {
                at,
                place: Place::of(source, at as u32),
            };
        }
        let passed = &source[self.at..at];
        let end = Place::of(passed, passed.len() as u32);
        Cursor {
            at,
            place: place_in(self.place, end),
        }
    }
}

// Where a character stands that has the place `inner` in a text that begins at `outer`.
fn place_in(outer: Place, inner: Place) -> Place
    requires line { outer.line + inner.line < 2 ^ 32 }
    requires column { outer.column + inner.column < 2 ^ 32 }
    requires first_line { 1 ≤ inner.line }
    requires first_column { 1 ≤ inner.column }
    ensures { result ≡ placed outer inner }
{
    if inner.line == 1 {
        Place {
            line: outer.line,
            column: outer.column + inner.column - 1,
        }
    } else {
        Place {
            line: outer.line + inner.line - 1,
            column: inner.column,
        }
    }
}
