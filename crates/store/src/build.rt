ghost use Rattle.std.specs.Prelude.{◌≡◌, ◌+◌, ◌<◌, ◌≤◌, min, List, length, drop, slice_set};
ghost use Rattle.codec.specs.Number.{number};
ghost use Rattle.lfpl.specs.Syntax.{Ty, pair_of};
ghost use Rattle.lfpl.specs.Typing.{type_at};
ghost use Rattle.store.specs.Building.{Boxes, Builds, Fresh, Puts};
ghost use Rattle.store.specs.Decoding.{decode};
ghost use Rattle.store.specs.Kinds.{Is, wide};
ghost use Rattle.store.specs.Scanning.{Listed};
ghost use Rattle.store.specs.Spelling.{read_from};
ghost use Rattle.tables.specs.Listed.{Types};

use crate::entries::{Kind, Shape, side};
use crate::scan::scan;
use codec::cursor::number_at;
use codec::fault::Fault;
use codec::integer::unzigzag;
use pool::Pool;
use tables::listing::Entry;

// The number that begins at `at`, and the place after it; 0 and `at` where there is none.
fn number_from(bytes: &[u8], at: usize) -> (u32, usize)
    ensures is { result ≡ read_from at (number (drop at bytes.now)) }
    ensures on { at ≤ result.1 }
    ensures past { 0 < result.0 → (at < result.1) × (at < length bytes.now) }
{
    number_at(bytes, at).unwrap_or((0, at))
}

// A cell that is taken and holds the words; 0 where no cell is free.
// A number and no Option: what is built was scanned, so a cell is free, and each of the three callers would write the 0 itself.
fn fresh<P: Pool>(pool: &mut P, words: &[u32; 16]) -> u32
    ensures { 0 < (P.Pool.means pool.old).free → Fresh (P.Pool.means pool.old) words.now result (P.Pool.means pool.new) }
{
    let Some(cell) = pool.take() else {
        return 0;
    };
    for (k, word) in words.iter().enumerate() {
        let _ = pool.write(cell, k, *word);
    }
    cell
}

// Sets two words, one after the other.
fn set_two(words: &mut [u32; 16], place: usize, first: u32, second: u32)
    requires { place + 1 < 16 }
    ensures { words.new ≡ slice_set (slice_set words.old place first) (place + 1) second }
{
    words[place] = first;
    words[place + 1] = second;
}

// Builds the value of the type that begins at `at`, its words from `o` on, and answers the place after it.
#[cycle(building)]
fn build<P: Pool>(
    pool: &mut P,
    kind: Kind,
    bytes: &[u8],
    at: usize,
    words: &mut [u32; 16],
    o: usize,
) -> usize
    requires narrow { o + wide kind ≤ 16 }
    ensures on { at ≤ result }
    ensures builds { (A : Ty) → Is kind.entry A → Builds bytes.now A at result (P.Pool.means pool.old) words.old o (P.Pool.means pool.new) words.new }
{
    // the value's number or mark, where it has one
    let (number, end) = number_from(bytes, at);
    match kind.shape() {
        Shape::Number => {
            words[o] = unzigzag(number).cast_unsigned();
            end
        }
        Shape::Diamond => {
            words[o] = fresh(pool, &[0; 16]);
            at
        }
        Shape::List(element) => {
            if number == 0 {
                words[o] = 0;
                return end;
            }
            let mut cell = [0; 16];
            let last = build_pair(pool, element, kind, bytes, end, &mut cell, 0);
            words[o] = fresh(pool, &cell);
            last
        }
        Shape::Tree(label) => {
            words[o] = number;
            let mid = build(pool, label, bytes, end, words, o + 1);
            if number == 0 {
                return mid;
            }
            let place = o + 1 + label.width();
            let (left, next) = build_cell(pool, kind, bytes, mid);
            let (right, last) = build_cell(pool, kind, bytes, next);
            set_two(words, place, left, right);
            last
        }
        Shape::Pair(first, second) => build_pair(pool, first, second, bytes, at, words, o),
        Shape::Sum(first, second) => {
            let part = side(first, second, number);
            words[o] = number;
            build(pool, part, bytes, end, words, o + 1)
        }
    }
}

// Builds two values, of the types `first` and `second`, one after the other.
#[cycle(building)]
fn build_pair<P: Pool>(
    pool: &mut P,
    first: Kind,
    second: Kind,
    bytes: &[u8],
    at: usize,
    words: &mut [u32; 16],
    o: usize,
) -> usize
    requires narrow { o + (wide first + wide second) ≤ 16 }
    ensures on { at ≤ result }
    ensures builds { (A B : Ty) → Is first.entry A → Is second.entry B → Builds bytes.now (pair_of A B) at result (P.Pool.means pool.old) words.old o (P.Pool.means pool.new) words.new }
{
    let mid = build(pool, first, bytes, at, words, o);
    build(pool, second, bytes, mid, words, o + first.width())
}

// Builds the value of the type that begins at `at` in a cell of its own; answers the cell and the place after the value.
#[cycle(building)]
fn build_cell<P: Pool>(pool: &mut P, kind: Kind, bytes: &[u8], at: usize) -> (u32, usize)
    ensures on { at ≤ result.1 }
    ensures boxes { (A : Ty) → Is kind.entry A → Boxes bytes.now A at result (P.Pool.means pool.old) (P.Pool.means pool.new) }
{
    let mut words = [0; 16];
    let end = build(pool, kind, bytes, at, &mut words, 0);
    (fresh(pool, &words), end)
}

// How many cells may be taken: those that are spare, as far as the pool has them free.
fn allowance<P: Pool>(pool: &P, spare: u32) -> u32
    ensures { result ≡ min spare (P.Pool.means pool.now).free }
{
    spare.min(pool.count())
}

// Puts the value of the type `t` that the bytes spell into new cells, at most as many as are spare and free and at most `scan::MOST_CELLS`, and answers its
// words; or refuses, and nothing is altered.
pub fn put<P: Pool>(
    pool: &mut P,
    entries: &[Entry],
    t: u8,
    bytes: &[u8],
    spare: u32,
) -> Result<[u32; 16], Fault>
    requires listed { Listed entries.now }
    requires known { t < length entries.now }
    ensures { (ts : List Ty) → Types entries.now ts → Puts (decode bytes.now (type_at ts t) (min (min spare (P.Pool.means pool.old).free) 512)) (type_at ts t) (P.Pool.means pool.old) result (P.Pool.means pool.new) }
{
    let most = allowance(pool, spare);
    let _ = scan(entries, t, bytes, most)?;
    let mut words = [0; 16];
    let kind = Kind::new(entries, t);
    let _ = build(pool, kind, bytes, 0, &mut words, 0);
    Ok(words)
}
