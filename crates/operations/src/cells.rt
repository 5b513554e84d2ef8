// Words between a run and the cells of a pool.

ghost use Rattle.std.specs.Prelude.{◌≡◌, ◌+◌, ◌≤◌, length};
ghost use Rattle.acts.specs.Effects.{Kept};
ghost use Rattle.operations.specs.Fetching.{Fetched};
ghost use Rattle.store.specs.Layout.{used};

use crate::words::inside;
use pool::Pool;

// Reads the first n words of a cell to a place on.
pub fn fetch<P: Pool>(pool: &P, cell: u32, words: &mut [u32], into: usize, n: usize)
    ensures { n ≤ 16 → into + n ≤ length words.old → Fetched (P.Pool.means pool.now) cell words.old words.new into n }
{
    if inside(into, n, words.len()) {
        for (k, w) in words[into..into + n].iter_mut().enumerate() {
            *w = pool.read(cell, k).unwrap_or(0);
        }
    }
}

// Writes n words into a cell.
pub fn keep<P: Pool>(pool: &mut P, cell: u32, words: &[u32], at: usize, n: usize)
    ensures { n ≤ 16 → at + n ≤ length words.now → used (P.Pool.means pool.old) cell ≡ 1 → Kept (P.Pool.means pool.old) cell words.now at n (P.Pool.means pool.new) }
{
    if inside(at, n, words.len()) {
        for (k, w) in words[at..at + n].iter().enumerate() {
            let _ = pool.write(cell, k, *w);
        }
    }
}
