// Code over any pool, proved from the trait alone.

ghost use Rattle.std.specs.Prelude.{◌≡◌, MatchOption};

use pool::Pool;

/// Takes cells until there is none, and answers how many.
pub fn drain<P: Pool>(pool: &mut P) -> u32
    ensures all { result ≡ (P.Pool.means pool.old).free }
    ensures none { (P.Pool.means pool.new).free ≡ 0 }
{
    let mut taken: u32 = 0;
    while pool.take().is_some() {
        taken += 1;
    }
    taken
}

/// Takes a cell, writes two words and reads them back, and gives the cell back.
pub fn two_words<P: Pool>(pool: &mut P, a: u32, b: u32) -> Option<(u32, u32)>
    ensures same { P.Pool.means pool.new ≡ P.Pool.means pool.old }
    ensures back { MatchOption result ((P.Pool.means pool.old).free ≡ 0) (λ x. (x.0 ≡ a) × (x.1 ≡ b)) }
{
    let cell = pool.take()?;
    let _ = pool.write(cell, 0, a);
    let _ = pool.write(cell, 1, b);
    let first = pool.read(cell, 0)?;
    let second = pool.read(cell, 1)?;
    let _ = pool.give(cell);
    Some((first, second))
}
