ghost use Rattle.std.specs.Prelude.{◌≡◌, ℕ, ◌+◌, ◌<◌, ◌≤◌, List, [], ◌∷◌, ◌++◌, length};
ghost use Rattle.std.specs.Option.{unwrap_or};
ghost use Rattle.codec.specs.Number.{written};
ghost use Rattle.lfpl.specs.Syntax.{Ty, pair_of};
ghost use Rattle.pool.specs.Pools.{word_at};
ghost use Rattle.store.specs.Kinds.{Is, wide};
ghost use Rattle.store.specs.Layout.{used, words_of};
ghost use Rattle.store.specs.Walking.{Walks, WalksCell};

use crate::entries::{Kind, Shape, side};
use codec::integer::zigzag;
use pool::Pool;

// what a walk through a value hands on: the numbers that its bytes spell, and the cells that it holds
pub trait Sink {
    // from one state to another it was handed the numbers of these bytes and these cells
    ghost takes: { Self → List ℕ → List ℕ → Self → Type 0 };

    // a sink that is handed nothing stays as it is
    ghost none: { (s : Self) → takes s [] [] s };

    // what is handed over in two goes is handed over in one
    ghost joins: { (a b c : Self) (xs ys cs ds : List ℕ) → takes a xs cs b → takes b ys ds c → takes a (xs ++ ys) (cs ++ ds) c };

    // Takes a number.
    fn number(&mut self, n: u32)
        ensures { takes self.old (written n) [] self.new };

    // Takes a cell.
    fn cell(&mut self, cell: u32)
        ensures { takes self.old [] (cell ∷ []) self.new };
}

// A word of a taken cell.
fn word_of<P: Pool>(pool: &P, cell: u32, k: usize) -> u32
    ensures { result ≡ unwrap_or (word_at (P.Pool.means pool.now) cell k) 0 }
{
    pool.read(cell, k).unwrap_or(0)
}

// The words of a taken cell.
fn load<P: Pool>(pool: &P, cell: u32) -> [u32; 16]
    ensures { used (P.Pool.means pool.now) cell ≡ 1 → result ≡ words_of (P.Pool.means pool.now) cell }
{
    let mut words = [0; 16];
    for (k, word) in words.iter_mut().enumerate() {
        *word = word_of(pool, cell, k);
    }
    words
}

// Hands the value of the type in the words from `o` on to the sink. It has at most `left` cells: whatever the words are, the walk ends.
#[cycle(walking)]
pub fn walk<P: Pool, S: Sink>(
    pool: &P,
    kind: Kind,
    words: &[u32; 16],
    o: usize,
    left: usize,
    sink: &mut S,
)
    requires narrow { o + wide kind ≤ 16 }
    ensures { (A : Ty) → Is kind.entry A → Walks (P.Pool.means pool.now) A words.now o left (λ xs cs. S.Sink.takes sink.old xs cs sink.new) }
{
    let word = words[o];
    match kind.shape() {
        Shape::Number => sink.number(zigzag(word.cast_signed())),
        Shape::Diamond => sink.cell(word),
        Shape::List(element) => {
            if word == 0 {
                sink.number(0);
                return;
            }
            if left == 0 {
                return;
            }
            sink.number(1);
            sink.cell(word);
            let cell = load(pool, word);
            walk_pair(pool, element, kind, &cell, 0, left - 1, sink)
        }
        Shape::Tree(label) => {
            sink.number(word);
            walk(pool, label, words, o + 1, left, sink);
            if word == 0 {
                return;
            }
            let at = o + 1 + label.width();
            walk_cell(pool, kind, words[at], left, sink);
            walk_cell(pool, kind, words[at + 1], left, sink)
        }
        Shape::Pair(first, second) => walk_pair(pool, first, second, words, o, left, sink),
        Shape::Sum(first, second) => {
            let part = side(first, second, word);
            sink.number(word);
            walk(pool, part, words, o + 1, left, sink)
        }
    }
}

// Hands two values, of the types `first` and `second`, one after the other.
#[cycle(walking)]
fn walk_pair<P: Pool, S: Sink>(
    pool: &P,
    first: Kind,
    second: Kind,
    words: &[u32; 16],
    o: usize,
    left: usize,
    sink: &mut S,
)
    requires narrow { o + (wide first + wide second) ≤ 16 }
    ensures { (A B : Ty) → Is first.entry A → Is second.entry B → Walks (P.Pool.means pool.now) (pair_of A B) words.now o left (λ xs cs. S.Sink.takes sink.old xs cs sink.new) }
{
    walk(pool, first, words, o, left, sink);
    walk(pool, second, words, o + first.width(), left, sink)
}

// Hands a cell and the value of the type that it holds.
#[cycle(walking)]
fn walk_cell<P: Pool, S: Sink>(pool: &P, kind: Kind, cell: u32, left: usize, sink: &mut S)
    ensures { (A : Ty) → Is kind.entry A → WalksCell (P.Pool.means pool.now) A cell left (λ xs cs. S.Sink.takes sink.old xs cs sink.new) }
{
    if left == 0 {
        return;
    }
    sink.cell(cell);
    let words = load(pool, cell);
    walk(pool, kind, &words, 0, left - 1, sink)
}
