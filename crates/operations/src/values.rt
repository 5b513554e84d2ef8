// Values made in place of an expression's parts. Bounds on widths and room are premises here too, as choices.rt tells.

ghost use Rattle.std.specs.Prelude.{◌≡◌, ◌+◌, ◌≤◌, length, slice_index, slice_set};
ghost use Rattle.acts.specs.Effects.{Forked, Kept, Tagged, applied};
ghost use Rattle.store.specs.Layout.{used};

use crate::cells::keep;
use crate::words::{move_words, set_word, word};
use code::Infix;
use pool::Pool;

// What an infix operation makes of two words.
#[tactic(auto, using(std::proofs::lemmas::Int::wraps))]
fn infix(o: Infix, a: u32, b: u32) -> u32
    ensures { result ≡ applied o a b }
{
    let x = a.cast_signed();
    let y = b.cast_signed();
    match o {
        Infix::Plus => x.wrapping_add(y).cast_unsigned(),
        Infix::Minus => x.wrapping_sub(y).cast_unsigned(),
        Infix::Times => x.wrapping_mul(y).cast_unsigned(),
        Infix::Equal => u32::from(x == y),
        Infix::AtMost => u32::from(x <= y),
    }
}

// What comes of the two words at a place.
pub fn apply(o: Infix, words: &mut [u32], at: u32, dest: u32)
    ensures { words.new ≡ slice_set words.old dest (applied o (slice_index words.old at) (slice_index words.old (at + 1))) }
{
    let a = word(words, at as usize);
    let b = word(words, at as usize + 1);
    set_word(words, dest as usize, infix(o, a, b));
}

// A mark and the n words from a place on.
pub fn tag(words: &mut [u32], mark: u32, from: usize, dest: u32, n: usize)
    ensures { from + n ≤ length words.old → dest + 1 + n ≤ length words.old → Tagged words.old words.new mark from dest n }
{
    // the part may lie where the mark goes
    move_words(words, from, dest as usize + 1, n);
    set_word(words, dest as usize, mark);
}

// A list's cell, whose element is n wide: the cell, the element and the tail lie one after another.
pub fn cons<P: Pool>(pool: &mut P, words: &mut [u32], at: u32, dest: u32, n: u32)
    ensures { n ≤ 15 → at + 96 ≤ length words.old → used (P.Pool.means pool.old) (slice_index words.old at) ≡ 1 → Kept (P.Pool.means pool.old) (slice_index words.old at) words.old (at + 1) (n + 1) (P.Pool.means pool.new) × (words.new ≡ slice_set words.old dest (slice_index words.old at)) }
{
    let cell = word(words, at as usize);
    keep(pool, cell, words, at as usize + 1, n as usize + 1);
    set_word(words, dest as usize, cell);
}

// A node, whose label is n wide: two cells, the label and two subtrees lie one after another.
pub fn fork<P: Pool>(pool: &mut P, words: &mut [u32], at: u32, dest: u32, n: u32)
    ensures { n ≤ 13 → at + 96 ≤ length words.old → dest ≤ at → used (P.Pool.means pool.old) (slice_index words.old at) ≡ 1 → used (P.Pool.means pool.old) (slice_index words.old (at + 1)) ≡ 1 → Forked (P.Pool.means pool.old) words.old at dest n (P.Pool.means pool.new) words.new }
{
    let from = at as usize;
    let wide = n as usize;
    let left = word(words, from);
    let right = word(words, from + 1);
    keep(pool, left, words, from + 2 + wide, wide + 3);
    keep(pool, right, words, from + 2 + wide + (wide + 3), wide + 3);
    tag(words, 1, from + 2, dest, wide);
    set_word(words, dest as usize + 1 + wide, left);
    set_word(words, dest as usize + 2 + wide, right);
}
