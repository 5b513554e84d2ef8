//! Pools of memory cells.
//!
//! A cell has a number and sixteen words of 32 bits. A pool lends cells out: a taken cell belongs to whoever took it, until
//! it is given back. Routines work on any pool; this crate has five.

#![tactic(auto)]

pub mod block;
pub mod cells;
pub mod lent;
pub mod own;
pub mod pair;
pub mod reserve;

ghost use Rattle.std.specs.Prelude.{◌≡◌};
ghost use Rattle.pool.specs.Pools.{Meaning, Lawful, Takes, Gives, word_at, Writes, limit};

/// The greatest bound of a pool.
pub const GREATEST: u32 = 65535;

/// A pool of cells, numbered from 1 to its bound.
pub trait Pool {
    // The taken cells with their words, and the count of free cells.
    ghost means: { Self → Meaning };

    // What holds of every pool, whatever was called.
    ghost lawful: { (p : Self) → Lawful (means p) };

    /// Takes a free cell, its words all 0, and answers its number; none exactly when the count is 0.
    fn take(&mut self) -> Option<u32>
        ensures { Takes (means self.old) result (means self.new) };

    /// Frees a taken cell; false exactly when it is not taken.
    fn give(&mut self, cell: u32) -> bool
        ensures { Gives (means self.old) cell result (means self.new) };

    /// A word, 0 to 15, of a taken cell; none exactly when the cell is not taken or there is no such word.
    fn read(&self, cell: u32, word: usize) -> Option<u32>
        ensures { result ≡ word_at (means self.now) cell word };

    /// Sets a word of a taken cell; false exactly when the cell is not taken or there is no such word.
    fn write(&mut self, cell: u32, word: usize, value: u32) -> bool
        ensures { Writes (means self.old) cell word value result (means self.new) };

    /// How many cells are free to be taken.
    fn count(&self) -> u32
        ensures { result ≡ (means self.now).free };

    /// The bound: the greatest number that a cell can have. It never alters.
    fn bound(&self) -> u32
        ensures { result ≡ limit (means self.now) };
}
