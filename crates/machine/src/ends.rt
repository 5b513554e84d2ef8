ghost use Rattle.std.specs.Prelude.{◌≡◌, ℕ, ◌<◌, ◌≤◌, false, [], ◌∷◌, length, take, if◌then◌else◌, slice_index};
ghost use Rattle.pool.specs.Pools.{Meaning};
ghost use Rattle.store.specs.Layout.{occ, used};
ghost use Rattle.store.specs.Releasing.{Released};
ghost use Rattle.store.specs.Scanning.{Listed};
ghost use Rattle.machine.specs.Calling.{Begins, Finishes, Loads, Put, without};
ghost use Rattle.machine.specs.Enacting.{Owned, own};
ghost use Rattle.machine.specs.Running.{Loading};

use crate::{CELLS, Machine, Mode, WAITING, WORDS, Waiting};
use code::Code;
use pool::Pool;
use store::release::{collect, give_all};
use tables::listing::Entry;

// A value has at most sixteen words.
const WIDTH: usize = 16;

// Sets words from a place on to a value's, where there is room.
fn put_words(into: &mut [u32; WORDS], at: usize, words: &[u32; 16])
    ensures { Put into.old at words.now into.new }
{
    if at <= WORDS - WIDTH {
        into[at..at + WIDTH].copy_from_slice(words);
    }
}

// How many words a value of the entry's type has.
fn width_of(entry: Entry) -> usize
    ensures { result ≡ entry.width }
{
    entry.width as usize
}

// The first sixteen words.
fn front(words: &[u32; WORDS]) -> [u32; 16]
    ensures { (k : ℕ) → k < 16 → slice_index result k ≡ slice_index words.now k }
{
    let mut first = [0; WIDTH];
    first.copy_from_slice(&words[..WIDTH]);
    first
}

// Gives a cell back, unless it is kept.
fn give_unless<P: Pool>(pool: &mut P, cell: u32, kept: bool)
    ensures { (kept ≡ false → used (P.Pool.means pool.old) cell ≡ 1) → Released (P.Pool.means pool.old) (if kept then [] else cell ∷ []) (P.Pool.means pool.new) }
{
    if !kept {
        let _ = pool.give(cell);
    }
}

// Gives those of the cells back that are not among the staying.
fn give_others<P: Pool>(pool: &mut P, cells: &[u32], staying: &[u32])
    ensures { ((c : ℕ) → occ c (without staying.now cells.now) ≤ used (P.Pool.means pool.old) c) → Released (P.Pool.means pool.old) (without staying.now cells.now) (P.Pool.means pool.new) }
{
    for cell in cells {
        let stays = staying.contains(cell);
        give_unless(pool, *cell, stays);
    }
}

// Gives those of the cells back that are not among the staying, which are among them: none where as many stay, which is common and is told at once.
fn give_rest<P: Pool>(pool: &mut P, cells: &[u32], staying: &[u32])
    ensures { Owned cells.now staying.now → ((c : ℕ) → occ c cells.now ≤ 1) → ((c : ℕ) → occ c (without staying.now cells.now) ≤ used (P.Pool.means pool.old) c) → Released (P.Pool.means pool.old) (without staying.now cells.now) (P.Pool.means pool.new) }
{
    if staying.len() < cells.len() {
        give_others(pool, cells, staying);
    }
}

// The first `count` cells of an array, or all where there are not so many.
fn listed(cells: &[u32; CELLS], count: usize) -> &[u32]
    ensures { result.now ≡ take count cells.now }
{
    &cells[..count.min(CELLS)]
}

impl Machine {
    /// A machine with no run.
    pub fn new() -> Self
        ensures { (m : Meaning) → Loading m result [] }
    {
        Machine {
            mode: Mode::Done,
            depth: 0,
            count: 0,
            loaded: 0,
            words: [0; WORDS],
            waiting: [Waiting::default(); WAITING],
            cells: [0; CELLS],
        }
    }

    /// Forgets the last run's words and cells: arguments can be loaded.
    pub fn clear(&mut self)
        ensures { (m : Meaning) → Loading m self.new [] }
    {
        self.mode = Mode::Done;
        self.depth = 0;
        self.count = 0;
        self.loaded = 0;
    }

    /// Loads the next argument: its words come after those loaded, and its cells are the run's.
    pub fn load<P: Pool>(&mut self, pool: &P, entries: &[Entry], t: u8, words: &[u32; 16])
        requires listed { Listed entries.now }
        requires known { t < length entries.now }
        ensures { Loads (P.Pool.means pool.now) entries.now t words.now self.old self.new }
    {
        let at = self.loaded.min(WORDS);
        let count = self.count;
        put_words(&mut self.words, at, words);
        self.count = collect(pool, entries, t, words, &mut self.cells, count);
        self.loaded = at + width_of(entries[t as usize]);
    }

    /// Begins the run of a function on the arguments loaded.
    pub fn begin(&mut self, code: &Code, function: u32)
        ensures enacts { Begins code.now function self.old self.new }
        ensures same { own self.new ≡ own self.old }
    {
        self.mode = Mode::Begin {
            number: code.start(function),
            base: 0,
            dest: 0,
            height: 0,
        };
        self.depth = 0;
    }

    /// A run is done: its cells that are not in the result are given back; answers the result's words.
    pub fn finish<P: Pool>(&mut self, pool: &mut P, entries: &[Entry], t: u8) -> [u32; 16]
        requires listed { Listed entries.now }
        requires known { t < length entries.now }
        ensures { Finishes (P.Pool.means pool.old) entries.now t self.old result (P.Pool.means pool.new) self.new }
    {
        let words = front(&self.words);
        let mut kept = [0; CELLS];
        let n = collect(pool, entries, t, &words, &mut kept, 0);
        give_rest(pool, listed(&self.cells, self.count), listed(&kept, n));
        self.cells = kept;
        self.count = n;
        words
    }

    /// Gives every cell of the run back: at a halt, or when it is abandoned.
    pub fn abandon<P: Pool>(&mut self, pool: &mut P)
        ensures released { ((c : ℕ) → occ c (own self.old) ≤ used (P.Pool.means pool.old) c) → Released (P.Pool.means pool.old) (own self.old) (P.Pool.means pool.new) }
        ensures none { own self.new ≡ [] }
        ensures cleared { (m : Meaning) → Loading m self.new [] }
    {
        give_all(pool, &self.cells, self.count);
        self.clear();
    }
}
