//! The reserve pool: some of the free cells of another pool.

ghost use Rattle.std.specs.Prelude.{◌≡◌, min};
ghost use Rattle.pool.specs.Pools.{reserved};
ghost use Rattle.pool.specs.Lawfulness.{lawful_reserve};

use crate::Pool;

/// A pool that takes only so many of the free cells of another. Cells, words and bound are the lower pool's.
#[derive(Drop)]
pub struct ReservePool<P> {
    lower: P,
    // how many more cells may be taken
    left: u32,
}

impl<P: Pool> ReservePool<P> {
    /// A reserve of `q` free cells, or of all where there are fewer.
    pub fn new(lower: P, q: u32) -> ReservePool<P>
        ensures begins { reserved (P.Pool.means result.lower) result.left ≡ reserved (P.Pool.means lower) q }
        ensures lower { result.lower ≡ lower }
        ensures left { result.left ≡ min q (P.Pool.means lower).free }
    {
        let left = q.min(lower.count());
        ReservePool { lower, left }
    }
}

impl<P: Pool> Pool for ReservePool<P> {
    ghost means = { λ p. reserved (P.Pool.means p.lower) p.left };

    ghost lawful = { λ p. lawful_reserve (P.Pool.means p.lower) p.left (P.Pool.lawful p.lower) };

    fn take(&mut self) -> Option<u32> {
        if self.left == 0 {
            return None;
        }
        let cell = self.lower.take()?;
        self.left -= 1;
        Some(cell)
    }

    fn give(&mut self, cell: u32) -> bool {
        let given = self.lower.give(cell);
        if given {
            self.left = self.left.saturating_add(1);
        }
        given
    }

    fn read(&self, cell: u32, word: usize) -> Option<u32> {
        self.lower.read(cell, word)
    }

    fn write(&mut self, cell: u32, word: usize, value: u32) -> bool {
        self.lower.write(cell, word, value)
    }

    fn count(&self) -> u32 {
        self.left.min(self.lower.count())
    }

    fn bound(&self) -> u32 {
        self.lower.bound()
    }
}
