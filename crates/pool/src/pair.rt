//! The pair pool: two pools joined.

ghost use Rattle.std.specs.Prelude.{◌≡◌};
ghost use Rattle.pool.specs.Pools.{fit, paired};
ghost use Rattle.pool.specs.Sides.{Sided};
ghost use Rattle.pool.specs.Lawfulness.{lawful_pair};

use crate::{GREATEST, Pool};

/// Two pools as one: counts and bounds add, and the right one's numbers follow the left one's bound. If the bounds sum past
/// 65,535, the right pool is ignored.
#[derive(Drop)]
pub struct PairPool<L, R> {
    left: L,
    right: R,
}

// Where a cell of the pair is: in one of the pools, under the number that it has there.
#[derive(Clone, Copy)]
enum Side {
    Left(u32),
    Right(u32),
}

impl<L: Pool, R: Pool> PairPool<L, R> {
    /// The pair of two pools, each as it stands: the left one's taken cells and then the right one's, counts and bounds added.
    pub fn new(left: L, right: R) -> PairPool<L, R>
        ensures left { result.left ≡ left }
        ensures right { result.right ≡ right }
    {
        PairPool { left, right }
    }

    // whether the right pool counts
    fn joined(&self) -> bool
        ensures { result ≡ fit (L.Pool.means self.now.left) (R.Pool.means self.now.right) }
    {
        self.left.bound() + self.right.bound() <= GREATEST
    }

    // where the cell is; none if it is in neither pool
    fn side(&self, cell: u32) -> Option<Side>
        ensures { Sided (L.Pool.means self.now.left) (R.Pool.means self.now.right) cell result }
    {
        let base = self.left.bound();
        if cell <= base {
            Some(Side::Left(cell))
        } else if self.joined() {
            Some(Side::Right(cell - base))
        } else {
            None
        }
    }
}

impl<L: Pool, R: Pool> Pool for PairPool<L, R> {
    ghost means = { λ p. paired (L.Pool.means p.left) (R.Pool.means p.right) };

    ghost lawful = { λ p. lawful_pair (L.Pool.means p.left) (R.Pool.means p.right) (L.Pool.lawful p.left) (R.Pool.lawful p.right) };

    fn take(&mut self) -> Option<u32> {
        if let Some(n) = self.left.take() {
            return Some(n);
        }
        if !self.joined() {
            return None;
        }
        let base = self.left.bound();
        let n = self.right.take()?;
        Some(base + n)
    }

    fn give(&mut self, cell: u32) -> bool {
        match self.side(cell) {
            Some(Side::Left(n)) => self.left.give(n),
            Some(Side::Right(n)) => self.right.give(n),
            None => false,
        }
    }

    fn read(&self, cell: u32, word: usize) -> Option<u32> {
        match self.side(cell)? {
            Side::Left(n) => self.left.read(n, word),
            Side::Right(n) => self.right.read(n, word),
        }
    }

    fn write(&mut self, cell: u32, word: usize, value: u32) -> bool {
        match self.side(cell) {
            Some(Side::Left(n)) => self.left.write(n, word, value),
            Some(Side::Right(n)) => self.right.write(n, word, value),
            None => false,
        }
    }

    fn count(&self) -> u32 {
        if self.joined() {
            self.left.count() + self.right.count()
        } else {
            self.left.count()
        }
    }

    fn bound(&self) -> u32 {
        let base = self.left.bound();
        if !self.joined() {
            return base;
        }
        base + self.right.bound()
    }
}
