ghost use Rattle.std.specs.Prelude.{◌≡◌, ◌<◌, OnOk, is_some, position};
ghost use Rattle.programmer.specs.Agreement.{looked_at, vacant_at};
ghost use Rattle.programmer.specs.Ledger.{fault};

use codec::fault::{Fault, Part, Refusal};

/// How many shelves a programmer has.
pub const SHELVES: usize = 16;

/// A value on a shelf: its type's number, and its words by the layout.
#[derive(Clone, Copy)]
pub struct Stored {
    pub(crate) type_number: u8,
    pub(crate) words: [u32; 16],
}

// A refusal of the call itself.
pub(crate) fn refusal(refusal: Refusal, place: usize) -> Fault
    ensures { result ≡ fault refusal place }
{
    Fault {
        refusal,
        place,
        part: Part::Programmer,
    }
}

// The value on the shelf, or a refusal where there is no such shelf or it is empty.
pub(crate) fn look(shelves: &[Option<Stored>; SHELVES], shelf: u32) -> Result<Stored, Fault>
    ensures is { result ≡ looked_at shelves.now shelf }
    ensures within { OnOk result (shelf < 16) }
{
    let place = shelves
        .get(shelf as usize)
        .ok_or(refusal(Refusal::NoSuchShelf, 0))?;
    place.ok_or(refusal(Refusal::ShelfEmpty, 0))
}

// That there is such a shelf and it is empty, or a refusal. (That there is one is told here as above: a function for it would have a longer contract than that
// line has words.)
pub(crate) fn vacant(shelves: &[Option<Stored>; SHELVES], shelf: u32) -> Result<(), Fault>
    ensures is { result ≡ vacant_at shelves.now shelf }
    ensures within { OnOk result (shelf < 16) }
{
    let place = shelves
        .get(shelf as usize)
        .ok_or(refusal(Refusal::NoSuchShelf, 0))?;
    match place {
        Some(_) => Err(refusal(Refusal::ShelfFilled, 0)),
        None => Ok(()),
    }
}

// The number of the lowest filled shelf.
pub(crate) fn lowest_filled(shelves: &[Option<Stored>; SHELVES]) -> Option<usize>
    ensures { result ≡ position is_some shelves.now }
{
    shelves.iter().position(Option::is_some)
}
