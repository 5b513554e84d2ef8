//! The lent pool: another pool, which its owner gets back.

ghost use Rattle.std.specs.Prelude.{◌≡◌};
ghost use Rattle.pool.specs.Pools.{Takes, Gives, Writes};

use crate::Pool;

/// A pool that is lent for a while. All that it does, it does to the pool that is lent.
// A type and no `impl Pool for &mut P`: that would be the same six calls, without `new` and what it promises.
#[derive(Drop)]
pub struct LentPool<'a, P> {
    pool: &'a mut P,
}

impl<'a, P: Pool> LentPool<'a, P> {
    /// The pool as it stands.
    pub fn new(pool: &'a mut P) -> LentPool<'a, P>
        ensures begins { P.Pool.means result.pool.now ≡ P.Pool.means pool.old }
        ensures named { result.pool.ghost_name ≡ pool.entry.ghost_name }
    {
        LentPool { pool }
    }
}

impl<'a, P: Pool> Pool for LentPool<'a, P> {
    ghost means = { λ p. P.Pool.means p.pool.now };

    ghost lawful = { λ p. P.Pool.lawful p.pool.now };

    fn take(&mut self) -> Option<u32>
        ensures takes { Takes (P.Pool.means self.old.pool.now) result (P.Pool.means self.new.pool.now) }
        ensures named { self.new.pool.ghost_name ≡ self.old.pool.ghost_name }
    {
        self.pool.take()
    }

    fn give(&mut self, cell: u32) -> bool
        ensures gives { Gives (P.Pool.means self.old.pool.now) cell result (P.Pool.means self.new.pool.now) }
        ensures named { self.new.pool.ghost_name ≡ self.old.pool.ghost_name }
    {
        self.pool.give(cell)
    }

    fn read(&self, cell: u32, word: usize) -> Option<u32> {
        self.pool.read(cell, word)
    }

    fn write(&mut self, cell: u32, word: usize, value: u32) -> bool
        ensures writes { Writes (P.Pool.means self.old.pool.now) cell word value result (P.Pool.means self.new.pool.now) }
        ensures named { self.new.pool.ghost_name ≡ self.old.pool.ghost_name }
    {
        self.pool.write(cell, word, value)
    }

    fn count(&self) -> u32 {
        self.pool.count()
    }

    fn bound(&self) -> u32 {
        self.pool.bound()
    }
}
