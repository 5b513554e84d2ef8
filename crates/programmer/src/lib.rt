//! A programmer keeps values on sixteen shelves, in the cells of a pool, under a table of routines.
//!
//! What its calls answer and leave is said by a ledger, which is kept from their arguments alone (`specs/Ledger.antt`); when a programmer agrees with a ledger,
//! its values read from the pool's words, by `specs/Agreement.antt`; and what holds over every list of calls by `specs/Course.antt` (see `play`).

#![tactic(auto)]

pub mod adopted;
mod entries;
pub mod play;
pub mod run;
pub mod shelf;
pub mod shelves;
#[cfg(test)]
mod tests;

ghost use Rattle.std.specs.Prelude.{◌≡◌, ◌-◌, length};
ghost use Rattle.programmer.specs.Agreement.{Agrees, Keeps, Left, Plainly, Shown, Still, view};
ghost use Rattle.programmer.specs.Ledger.{adopt as Adopt, empty as Empty, opened, put as Put, show as Show, spare as Spare, spares};

use adopted::Adopted;
use codec::fault::{Fault, Refusal};
use entries::entries_of;
use judge::admit::admit;
use pool::Pool;
use run::Run;
use shelf::{SHELVES, Stored, look, lowest_filled, refusal, vacant};
use shelves::Shelves;
use store::{build, release, show};

/// No more cells of a pool are counted.
pub use store::scan::MOST_CELLS;

/// A programmer over a pool, which it owns. A shelf is a place for one value.
#[derive(Drop)]
pub struct Programmer<P: Pool> {
    pool: P,
    // the number that its tickets carry
    box_number: u32,
    // the pool's free cells at the making, and how many of them are counted
    made: u32,
    total: u32,
    shelves: Shelves,
    // the run that stands: none yet
    run: Option<Run>,
}

impl<P: Pool> Programmer<P> {
    /// A programmer with no table, no filled shelf and no run. At most 512 of the pool's free cells are counted; cells taken earlier keep their words.
    pub fn new(pool: P, box_number: u32) -> Self
        ensures agrees { Agrees (P.Pool.means pool) (opened (P.Pool.means pool).free box_number) (P.Pool.means result.pool) (view result) }
        ensures pool { P.Pool.means result.pool ≡ P.Pool.means pool }
    {
        let made = pool.count();
        Programmer {
            pool,
            box_number,
            made,
            total: made.min(MOST_CELLS),
            shelves: Shelves {
                table: None,
                places: [None; SHELVES],
            },
            run: None,
        }
    }

    /// Adopts the table that the bytes spell. Refused while a run stands, then while a shelf is filled (the place is the lowest one), then as the table is read and
    /// judged; the old table is then kept.
    pub fn adopt(&mut self, bytes: &[u8]) -> Result<(), Fault>
        ensures keeps { Keeps P.Pool.means (Adopt bytes.now) (Plainly result) self.old self.new }
        ensures still { Still P.Pool.means result self.old self.new }
    {
        if self.run.is_some() {
            return Err(refusal(Refusal::RunStands, 0));
        }
        if let Some(lowest) = lowest_filled(&self.shelves.places) {
            return Err(refusal(Refusal::ShelfFilledAtAdopt, lowest));
        }
        let table = admit(bytes)?;
        self.shelves.table = Some(Adopted { table });
        Ok(())
    }

    /// Puts the value of the type that the bytes spell on an empty shelf, in new cells of the pool. Refused where there is no such shelf, then where it is filled,
    /// then where the table has no such type, then as the bytes are read; nothing is then altered.
    pub fn put(&mut self, shelf: u32, type_number: u32, bytes: &[u8]) -> Result<(), Fault>
        ensures keeps { Keeps P.Pool.means (Put shelf type_number bytes.now) (Plainly result) self.old self.new }
        ensures still { Still P.Pool.means result self.old self.new }
    {
        vacant(&self.shelves.places, shelf)?;
        let spare = self.spare();
        let shelves = &mut self.shelves;
        let entries = entries_of(&shelves.table);
        if type_number as usize >= entries.len() {
            return Err(refusal(Refusal::NoSuchTypeOrFunction, 0));
        }
        let type_number = type_number as u8;
        let words = build::put(&mut self.pool, entries, type_number, bytes, spare)?;
        shelves.places[shelf as usize] = Some(Stored { type_number, words });
        Ok(())
    }

    /// Writes the bytes of the shelf's value first in the area, and answers their count; the rest of the area is left. Refused where there is no such shelf, then
    /// where it is empty, then where the area is too short; all of it is then left.
    pub fn show(&self, shelf: u32, area: &mut [u8]) -> Result<usize, Fault>
        ensures keeps { Keeps P.Pool.means (Show shelf (length area.old)) (Shown result area.old area.new) self.now self.now }
        ensures left { Left result area.old area.new }
    {
        let stored = look(&self.shelves.places, shelf)?;
        let entries = entries_of(&self.shelves.table);
        let count = show::show(&self.pool, entries, stored.type_number, &stored.words, area);
        count.ok_or(refusal(Refusal::AreaTooShort, 0))
    }

    /// The cells that are spare: those counted, less what the pool's count fell since the making.
    pub fn spare(&self) -> u32
        ensures keeps { Keeps P.Pool.means Spare (λ a. a ≡ spares result) self.now self.now }
        ensures is { result ≡ self.now.total - (self.now.made - (P.Pool.means self.now.pool).free) }
    {
        let free = self.pool.count();
        self.total.saturating_sub(self.made.saturating_sub(free))
    }

    /// Empties the shelf: its value's cells are given back to the pool. Refused where there is no such shelf, then where it is empty.
    pub fn empty(&mut self, shelf: u32) -> Result<(), Fault>
        ensures keeps { Keeps P.Pool.means (Empty shelf) (Plainly result) self.old self.new }
        ensures still { Still P.Pool.means result self.old self.new }
    {
        let shelves = &mut self.shelves;
        let stored = look(&shelves.places, shelf)?;
        let entries = entries_of(&shelves.table);
        release::release(&mut self.pool, entries, stored.type_number, &stored.words);
        shelves.places[shelf as usize] = None;
        Ok(())
    }
}
