//! The own pool: 64 cells of its own.

ghost use Rattle.std.specs.Prelude.{◌≡◌};
ghost use Rattle.pool.specs.Pools.{all_free};
ghost use Rattle.pool.specs.Words.{words_mean};

use crate::cells::{CellPool, FREE, STRIDE, Words};

// the words of 64 cells
const WORDS: usize = 64 * STRIDE;

/// A pool that holds its cells itself.
pub type OwnPool = CellPool<[u32; WORDS]>;

impl OwnPool {
    /// A pool of 64 cells, all free.
    pub fn new() -> OwnPool
        ensures { words_mean result.words ≡ all_free 64 }
    {
        CellPool {
            words: [FREE; WORDS],
            next: 0,
        }
    }
}

impl<const N: usize> Words for [u32; N] {
    ghost stays = { λ _ _. Unit {0} };

    ghost still = { λ _. tt };

    fn put(&mut self, at: usize, words: &[u32]) {
        let own = &mut self[..];
        own[at..at + words.len()].copy_from_slice(words);
    }
}
