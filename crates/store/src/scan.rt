ghost use Rattle.std.specs.Prelude.{◌≡◌, ℕ, ◌+◌, ◌*◌, ◌<◌, ◌≤◌, min, true, List, ◌++◌, length, nat_lt};
ghost use Rattle.codec.specs.Stack.{held, room};
ghost use Rattle.lfpl.specs.Syntax.{Ty};
ghost use Rattle.lfpl.specs.Typing.{type_at};
ghost use Rattle.store.specs.Decoding.{decode, marked, spend as spent};
ghost use Rattle.store.specs.Laws.{IsDecoded, all_agree, examples};
ghost use Rattle.store.specs.Scanning.{Counts, Listed, checked, front_at, parts};
ghost use Rattle.tables.specs.Listed.{Types};

use crate::entries::entry_at;
use codec::cursor::Cursor;
use codec::fault::{Fault, Part, Refusal};
use codec::pile::Pile;
use tables::listing::{Entry, Form};

// no value takes more cells: as many as a programmer ever has
pub const MOST_CELLS: u32 = 512;

// the pile's room: a value's types are at most 16 words wide together, and each cell that is counted brings at most 15 words more
const ROOM: usize = 7696;

// a value's bytes as they are read, and how many cells are left for it
#[derive(Drop)]
struct Reader<'a> {
    cursor: Cursor<'a>,
    left: u32,
}

impl<'a> Reader<'a> {
    // Counts cells that a value takes, or refuses where they are lacking.
    fn spend(&mut self, cells: u32, place: usize) -> Result<(), Fault>
        ensures { Counts (λ s bs p. spent cells place tt s p) self.old.cursor self.old.left result self.new.cursor self.new.left }
    {
        if self.left < cells {
            return Err(self.cursor.fault(Refusal::CellsLacking, place));
        }
        self.left -= cells;
        Ok(())
    }

    // A mark, and with a 1 its cells.
    fn open(&mut self, cells: u32) -> Result<bool, Fault>
        ensures { Counts (marked cells) self.old.cursor self.old.left result self.new.cursor self.new.left }
    {
        let place = self.cursor.place();
        let more = self.cursor.mark()?;
        if more {
            self.spend(cells, place)?;
        }
        Ok(more)
    }

    // The front of a value: its number or its mark, and its cells.
    fn front(&mut self, form: Form) -> Result<bool, Fault>
        ensures { Counts (front_at form) self.old.cursor self.old.left result self.new.cursor self.new.left }
    {
        match form {
            Form::Number => {
                let _ = self.cursor.number()?;
                Ok(false)
            }
            Form::Diamond => {
                let place = self.cursor.place();
                self.spend(1, place)?;
                Ok(false)
            }
            Form::List(_) => self.open(1),
            Form::Tree(_) => self.open(2),
            Form::Pair(_, _) => Ok(false),
            Form::Sum(_, _) => self.open(0),
        }
    }
}

// Stacks the types of what a value has after its front, the next one on top.
fn stack(pile: &mut Pile<u8>, form: Form, t: u8, more: bool)
    ensures held { length (parts form more t ++ held pile.old) ≤ room pile.old → held pile.new ≡ parts form more t ++ held pile.old }
    ensures room { room pile.new ≡ room pile.old }
    ensures same { pile.new.slots.ghost_name ≡ pile.old.slots.ghost_name }
{
    match form {
        Form::Number | Form::Diamond => (),
        Form::List(element) => {
            if more {
                let _ = pile.push(t);
                let _ = pile.push(element);
            }
        }
        Form::Tree(label) => {
            if more {
                let _ = pile.push(t);
                let _ = pile.push(t);
            }
            let _ = pile.push(label);
        }
        Form::Pair(first, second) => {
            let _ = pile.push(second);
            let _ = pile.push(first);
        }
        Form::Sum(first, second) => {
            let part = if more { second } else { first };
            let _ = pile.push(part);
        }
    }
}

// Whether there is a byte, of so many, at the place.
fn over(place: usize, count: usize) -> bool
    ensures { result ≡ nat_lt place count }
{
    place < count
}

// Checks that the bytes spell a value of the type `t`, and answers how many cells it takes: at most those that are spare, and at most `MOST_CELLS`.
pub fn scan(entries: &[Entry], t: u8, bytes: &[u8], spare: u32) -> Result<u32, Fault>
    requires listed { Listed entries.now }
    requires known { t < length entries.now }
    ensures checked { (ts : List Ty) → Types entries.now ts → result ≡ checked (min spare 512) (decode bytes.now (type_at ts t) (min spare 512)) }
    ensures decoded { (A : Ty) (s : ℕ) → IsDecoded A s (decode bytes.now A s) }
    ensures examples { all_agree examples ≡ true }
{
    let most = spare.min(MOST_CELLS);
    let mut slots = [0u8; ROOM];
    let mut pile = Pile::new(&mut slots);
    let mut reader = Reader {
        cursor: Cursor::new(bytes, Part::Value),
        left: most,
    };
    let _ = pile.push(t);
    while let Some(next) = pile.pop() {
        let entry = entry_at(entries, next as usize);
        let more = reader.front(entry.form)?;
        stack(&mut pile, entry.form, next, more);
    }
    let place = reader.cursor.place();
    if over(place, bytes.len()) {
        return Err(reader.cursor.fault(Refusal::BytesOver, place));
    }
    Ok(most - reader.left)
}
