//! The block pool: a block of words that is lent to it, divided into cells.

ghost use Rattle.std.specs.Prelude.{◌≡◌, refl};
ghost use Rattle.pool.specs.Pools.{all_free};
ghost use Rattle.pool.specs.Words.{words_mean, cells_of, leftover};

use crate::cells::{CellPool, FREE, STRIDE, Words, cells};

/// A pool in a block of words. Every seventeen words make a cell, at most 512 cells; words left over are never written.
pub type BlockPool<'a> = CellPool<&'a mut [u32]>;

impl<'a> BlockPool<'a> {
    /// The block as a pool, every cell free, whatever the words were.
    pub fn new(block: &'a mut [u32]) -> BlockPool<'a>
        ensures all { words_mean result.words.now ≡ all_free (cells_of block.old) }
        ensures rest { leftover result.words.now ≡ leftover block.old }
        ensures named { result.words.ghost_name ≡ block.entry.ghost_name }
    {
        clear(block);
        CellPool {
            words: block,
            next: 0,
        }
    }
}

impl<'a> Words for &'a mut [u32] {
    ghost stays = { λ v w. w.ghost_name ≡ v.ghost_name };

    ghost still = { λ _. refl };

    fn put(&mut self, at: usize, words: &[u32]) {
        self[at..at + words.len()].copy_from_slice(words);
    }
}

// frees every cell
fn clear(words: &mut [u32])
    ensures all { words_mean words.new ≡ all_free (cells_of words.old) }
    ensures rest { leftover words.new ≡ leftover words.old }
{
    // by index: tried over `as_chunks_mut`, after whose borrow a proof knows nothing of the words
    for i in 0..cells(words).len() {
        words[STRIDE * i] = FREE;
    }
}
