// What a caller in another crate learns of a pool at its making, and of what it lent.

ghost use Rattle.std.specs.Prelude.{◌≡◌, ◌+◌, min};
ghost use Rattle.pool.specs.Pools.{Takes};
ghost use Rattle.pool.specs.Words.{cells_of, leftover};

use pool::Pool;
use pool::block::BlockPool;
use pool::lent::LentPool;
use pool::own::OwnPool;
use pool::pair::PairPool;
use pool::reserve::ReservePool;

/// Count and bound of a reserve over an own pool joined with a block.
pub fn begins(block: &mut [u32], q: u32) -> (u32, u32)
    ensures count { result.0 ≡ min q (64 + cells_of block.old) }
    ensures bound { result.1 ≡ 64 + cells_of block.old }
{
    let pool = ReservePool::new(PairPool::new(OwnPool::new(), BlockPool::new(block)), q);
    (pool.count(), pool.bound())
}

/// A cell of a block: the lender knows that the words left over are as they were.
pub fn take_in_block(block: &mut [u32]) -> Option<u32>
    ensures { leftover block.new ≡ leftover block.old }
{
    let mut pool = BlockPool::new(block);
    pool.take()
}

/// A cell of a lent pool: the owner knows that a cell of the pool was taken.
pub fn take_lent<P: Pool>(pool: &mut P) -> Option<u32>
    ensures { Takes (P.Pool.means pool.old) result (P.Pool.means pool.new) }
{
    let mut lent = LentPool::new(pool);
    lent.take()
}
