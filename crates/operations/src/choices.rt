// Arms chosen by a word, and what they bind laid out in place of the value. Bounds on widths and room are premises of the clauses: a type that held them would ask more
// of whoever performs an operation.

ghost use Rattle.std.specs.Prelude.{◌≡◌, ◌+◌, ◌^◌, ◌<◌, ◌≤◌, length, if◌then◌else◌, nat_eq, slice_index};
ghost use Rattle.acts.specs.Effects.{ByWord, Copied, Opened, Spread};
ghost use Rattle.code.specs.declared.Next.TheVariants.{First, Second};

use crate::cells::fetch;
use crate::words::{move_words, set_word, word};
use code::Next;
use pool::Pool;

// The first arm by any other word than 0.
pub fn guard(words: &[u32], at: u32) -> Next
    ensures chosen { result ≡ (if nat_eq (slice_index words.now at) 0 then Second else First) }
    ensures fits { slice_index words.now at < 2 ^ 32 }
{
    if word(words, at as usize) == 0 {
        Next::Second
    } else {
        Next::First
    }
}

// The arm of a sum's mark: the part takes the mark's place.
pub fn case_sum(words: &mut [u32], at: u32, a: u32, b: u32) -> Next
    ensures { a ≤ 15 → b ≤ 15 → at + 96 ≤ length words.old → ByWord (slice_index words.old at) ((result ≡ First) × Copied words.old words.new (at + 1) at a) ((result ≡ Second) × Copied words.old words.new (at + 1) at b) }
{
    let from = at as usize;
    if word(words, from) == 0 {
        move_words(words, from + 1, from, a as usize);
        Next::First
    } else {
        move_words(words, from + 1, from, b as usize);
        Next::Second
    }
}

// The arm of a list: a cell's words, the element's n and the tail's one, follow its number.
pub fn case_list<P: Pool>(pool: &P, words: &mut [u32], at: u32, n: u32) -> Next
    ensures { n ≤ 15 → at + 96 ≤ length words.old → ByWord (slice_index words.old at) ((result ≡ First) × (words.new ≡ words.old)) ((result ≡ Second) × Opened (P.Pool.means pool.now) words.old words.new at (n + 1)) }
{
    let cell = word(words, at as usize);
    if cell == 0 {
        return Next::First;
    }
    fetch(pool, cell, words, at as usize + 1, n as usize + 1);
    Next::Second
}

// A node's cells, label and subtrees are laid out from its place on.
fn spread<P: Pool>(pool: &P, words: &mut [u32], at: u32, n: u32)
    ensures { n ≤ 13 → at + 96 ≤ length words.old → Spread (P.Pool.means pool.now) words.old words.new at n }
{
    let from = at as usize;
    let wide = n as usize;
    let left = word(words, from + 1 + wide);
    let right = word(words, from + 2 + wide);
    move_words(words, from + 1, from + 2, wide);
    set_word(words, from, left);
    set_word(words, from + 1, right);
    fetch(pool, left, words, from + 2 + wide, wide + 3);
    fetch(pool, right, words, from + 2 + wide + (wide + 3), wide + 3);
}

// The arm of a tree: a leaf's label takes the mark's place, a node is opened.
pub fn case_tree<P: Pool>(pool: &P, words: &mut [u32], at: u32, n: u32) -> Next
    ensures { n ≤ 13 → at + 96 ≤ length words.old → ByWord (slice_index words.old at) ((result ≡ First) × Copied words.old words.new (at + 1) at n) ((result ≡ Second) × Spread (P.Pool.means pool.now) words.old words.new at n) }
{
    let from = at as usize;
    if word(words, from) == 0 {
        move_words(words, from + 1, from, n as usize);
        Next::First
    } else {
        spread(pool, words, at, n);
        Next::Second
    }
}
