ghost use Rattle.std.specs.Prelude.{◌≡◌, ℕ, ◌+◌, ◌<◌, ◌≤◌, List, [], ◌∷◌, length, take, refl};
ghost use Rattle.std.proofs.Common.{◌∙◌};
ghost use Rattle.lfpl.specs.Syntax.{Ty};
ghost use Rattle.lfpl.specs.Typing.{type_at};
ghost use Rattle.store.specs.Laws.{HoldsItsCharge};
ghost use Rattle.store.specs.Layout.{occ, used};
ghost use Rattle.store.specs.Releasing.{Released, Releases};
ghost use Rattle.store.specs.Scanning.{Listed};
ghost use Rattle.store.specs.WalkLaws.{placed_joins, placed_none};
ghost use Rattle.store.specs.Walking.{Placed, Walks};
ghost use Rattle.tables.specs.Listed.{Types};

use crate::entries::Kind;
use crate::scan::MOST_CELLS;
use crate::walk::{Sink, walk};
use pool::Pool;
use tables::listing::Entry;

// a sink that lists cells in a lent array, where there is room
#[derive(Drop)]
pub struct CellList<'a> {
    cells: &'a mut [u32],
    at: usize,
}

// Sets a place of the array, where there is one; answers the place after it.
fn place_cell(cells: &mut [u32], at: usize, cell: u32) -> usize
    ensures { Placed cells.old at (cell ∷ []) cells.new result }
{
    if at >= cells.len() {
        return at;
    }
    // by its index: after a write through get_mut a proof knows the array's length and none of its cells
    cells[at] = cell;
    at + 1
}

impl<'a> Sink for CellList<'a> {
    ghost takes = { λ a xs cs b. (b.cells.ghost_name ≡ a.cells.ghost_name) × Placed a.cells.now a.at cs b.cells.now b.at };

    ghost none = { λ s. (refl, placed_none s.cells.now s.at) };

    ghost joins = { λ a b c xs ys cs ds p q. (q.0 ∙ p.0, placed_joins a.cells.now a.at b.cells.now b.at c.cells.now c.at cs ds p.1 q.1) };

    fn number(&mut self, _n: u32) {}

    fn cell(&mut self, cell: u32) {
        let at = self.at;
        self.at = place_cell(self.cells, at, cell);
    }
}

// Lists the cells of the value of the type `t` in the words, from the place `from` of an array on, and answers the place after them.
pub fn collect<P: Pool>(
    pool: &P,
    entries: &[Entry],
    t: u8,
    words: &[u32; 16],
    cells: &mut [u32],
    from: usize,
) -> usize
    requires listed { Listed entries.now }
    requires known { t < length entries.now }
    ensures cells { (ts : List Ty) → Types entries.now ts → Walks (P.Pool.means pool.now) (type_at ts t) words.now 0 512 (λ xs cs. Placed cells.old from cs cells.new result) }
    ensures charge { HoldsItsCharge }
{
    let kind = Kind::new(entries, t);
    let mut sink = CellList { cells, at: from };
    walk(pool, kind, words, 0, MOST_CELLS as usize, &mut sink);
    sink.at
}

// Gives the first `count` cells of an array back.
pub fn give_all<P: Pool>(pool: &mut P, cells: &[u32], count: usize)
    ensures { ((c : ℕ) → occ c (take count cells.now) ≤ used (P.Pool.means pool.old) c) → Released (P.Pool.means pool.old) (take count cells.now) (P.Pool.means pool.new) }
{
    for cell in &cells[..count.min(cells.len())] {
        let _ = pool.give(*cell);
    }
}

// Gives every cell of the value of the type `t` in the words back.
pub fn release<P: Pool>(pool: &mut P, entries: &[Entry], t: u8, words: &[u32; 16])
    requires listed { Listed entries.now }
    requires known { t < length entries.now }
    ensures { (ts : List Ty) → Types entries.now ts → Releases (P.Pool.means pool.old) (type_at ts t) words.now 0 512 (P.Pool.means pool.new) }
{
    let mut cells = [0; MOST_CELLS as usize];
    let count = collect(pool, entries, t, words, &mut cells, 0);
    give_all(pool, &cells, count)
}
