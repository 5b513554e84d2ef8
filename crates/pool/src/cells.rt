//! The pool of cells in words. Each cell is seventeen words: a mark, 0 while the cell is free, and the sixteen words of the cell.
//! The block pool and the own pool are both such pools.

ghost use Rattle.std.specs.Prelude.{◌≡◌, ◌+◌, ◌≤◌, length, count_by};
ghost use Rattle.std.specs.List.{position};
ghost use Rattle.std.proofs.Math.Seq.{paste};
ghost use Rattle.pool.specs.Pools.{Takes, Gives, word_at, Writes, limit};
ghost use Rattle.pool.specs.Words.{words_mean, cells_of, leftover, cells_in, unmarked, Placed, Found};
ghost use Rattle.pool.specs.Lawfulness.{lawful_words};

use crate::Pool;
use std::convert::AsSlice;

// the words of a cell
const WORDS: usize = 16;

// from one mark to the next
pub(crate) const STRIDE: usize = 17;

// as many cells as a slice has at most
const MOST: usize = 512;

// the mark of a free cell
pub(crate) const FREE: u32 = 0;

// a cell just taken: its mark and sixteen zero words
const FRESH: [u32; STRIDE] = [1, 0, 0, 0, 0, 0, 0, 0, 0, 0, 0, 0, 0, 0, 0, 0, 0];

/// Words that cells can lie in.
pub trait Words: AsSlice<u32> {
    // The words of the second lie where those of the first lay.
    ghost stays: { Self → Self → Type 0 };

    /// Copies words in, from a place on.
    fn put(&mut self, at: usize, words: &[u32])
        requires { at + length words.now ≤ length (Self.items self.old) }
        ensures put { Self.items self.new ≡ paste (Self.items self.old) at words.now (length words.now) }
        ensures stays { stays self.old self.new };

    // What is not changed stays.
    ghost still: { (w : Self) → stays w w };
}

/// A pool in words. Every seventeen words make a cell, at most 512 cells; words left over are never written.
#[derive(Drop)]
pub struct CellPool<W> {
    pub(crate) words: W,
    // a guess at the place, from 0, of a free cell, where the search for one begins: the place after the cell last taken, or the
    // cell last given, so taking all cells looks at each mark about once; a wrong guess costs time alone
    pub(crate) next: usize,
}

// `rest` and `stays` compare the pool before a call with the pool after it, which no ghost field or model can do: so they stand at
// each call that changes words.
impl<W: Words> Pool for CellPool<W> {
    ghost means = { λ p. words_mean (W.items p.words) };

    ghost lawful = { λ p. lawful_words (W.items p.words) };

    fn take(&mut self) -> Option<u32>
        ensures takes { Takes (words_mean (W.items self.old.words)) result (words_mean (W.items self.new.words)) }
        ensures rest { leftover (W.items self.new.words) ≡ leftover (W.items self.old.words) }
        ensures stays { W.stays self.old.words self.new.words }
    {
        let i = find(self.words.as_slice(), self.next)?;
        self.words.put(STRIDE * i, &FRESH);
        self.next = i + 1;
        Some(i as u32 + 1)
    }

    fn give(&mut self, cell: u32) -> bool
        ensures gives { Gives (words_mean (W.items self.old.words)) cell result (words_mean (W.items self.new.words)) }
        ensures rest { leftover (W.items self.new.words) ≡ leftover (W.items self.old.words) }
        ensures stays { W.stays self.old.words self.new.words }
    {
        let Some(at) = place(self.words.as_slice(), cell) else {
            return false;
        };
        self.words.put(at, &[FREE]);
        self.next = cell.saturating_sub(1) as usize;
        true
    }

    fn read(&self, cell: u32, word: usize) -> Option<u32> {
        read(self.words.as_slice(), cell, word)
    }

    fn write(&mut self, cell: u32, word: usize, value: u32) -> bool
        ensures writes { Writes (words_mean (W.items self.old.words)) cell word value result (words_mean (W.items self.new.words)) }
        ensures rest { leftover (W.items self.new.words) ≡ leftover (W.items self.old.words) }
        ensures stays { W.stays self.old.words self.new.words }
    {
        match place(self.words.as_slice(), cell) {
            Some(at) if word < WORDS => {
                self.words.put(at + 1 + word, &[value]);
                true
            }
            _ => false,
        }
    }

    fn count(&self) -> u32 {
        free_among(cells(self.words.as_slice())) as u32
    }

    fn bound(&self) -> u32 {
        cells(self.words.as_slice()).len() as u32
    }
}

// the cells, each a mark and sixteen words
pub(crate) fn cells(words: &[u32]) -> &[[u32; STRIDE]]
    ensures are { result.now ≡ cells_in words.now }
    ensures len { length result.now ≡ cells_of words.now }
{
    let (cells, _) = words.as_chunks::<STRIDE>();
    &cells[..cells.len().min(MOST)]
}

// the first free one of some cells
fn vacant(cells: &[[u32; STRIDE]]) -> Option<usize>
    ensures { result ≡ position unmarked cells.now }
{
    cells.iter().position(|cell| cell[0] == FREE)
}

// a free cell, sought from `next` to the end and then from the start
fn find(words: &[u32], next: usize) -> Option<usize>
    ensures { Found words.now result }
{
    let cells = cells(words);
    let start = next.min(cells.len());
    let (before, after) = cells.split_at(start);
    if let Some(i) = vacant(after) {
        return Some(start + i);
    }
    vacant(before)
}

// How many of some cells are free. (A loop of its own, for speed: `filter` and `count` take three times as long a cell, and each put counts the pool.)
fn free_among(cells: &[[u32; STRIDE]]) -> usize
    ensures { result ≡ count_by unmarked cells.now }
{
    let mut free = 0;
    for cell in cells {
        if cell[0] == FREE {
            free += 1;
        }
    }
    free
}

// where the mark of the taken cell stands
fn place(words: &[u32], cell: u32) -> Option<usize>
    ensures { Placed words.now cell result }
{
    let i = cell.checked_sub(1)? as usize;
    let mark = cells(words).get(i)?[0];
    if mark == FREE { None } else { Some(STRIDE * i) }
}

// a word of a taken cell
fn read(words: &[u32], cell: u32, word: usize) -> Option<u32>
    ensures { result ≡ word_at (words_mean words.now) cell word }
{
    let i = cell.checked_sub(1)? as usize;
    let lying = &cells(words).get(i)?[..];
    if lying[0] == FREE || word >= WORDS {
        return None;
    }
    Some(lying[word + 1])
}
