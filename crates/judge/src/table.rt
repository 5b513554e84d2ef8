ghost use Rattle.std.specs.Prelude.{◌≡◌, ◌%◌, slice_index, slice_index_or};
ghost use Rattle.judge.specs.Notes.{note_at};

use tables::listing::Listing;
use typing::codes::Code;

// What the judge notes at an expression for the machine that is to run it: the code of its type, the number of the expression after it, for a variable the place
// where its words begin above those of its body's first parameter, and how many words of its body the expression stands over.
#[derive(Clone, Copy, Default)]
pub struct Note {
    pub code: Code,
    pub end: usize,
    pub place: usize,
    pub over: usize,
}

// A table that is admitted: what was read, a note for each expression, and for each function the number of its body's outermost expression. Only the judge makes
// one.
#[derive(Clone, Copy)]
pub struct Table {
    pub(crate) listing: Listing,
    pub(crate) notes: [Note; 512],
    pub(crate) starts: [usize; 32],
}

impl Table {
    // What was read.
    pub fn listing(&self) -> &Listing
        ensures { result.now ≡ self.now.listing }
    {
        &self.listing
    }

    // The note at an expression; expressions are numbered below 512.
    pub fn note(&self, at: usize) -> Note
        ensures value { result ≡ slice_index_or self.now.notes (at % 512) result }
        ensures noted { result ≡ note_at self.now.notes (at % 512) }
    {
        self.notes[at % 512]
    }

    // The number of a body's outermost expression; functions are numbered below 32.
    pub fn start(&self, function: usize) -> usize
        ensures value { result ≡ slice_index_or self.now.starts (function % 32) result }
        ensures number { result ≡ slice_index self.now.starts (function % 32) }
    {
        self.starts[function % 32]
    }
}
