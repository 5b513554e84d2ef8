// Words of a run, read, set and moved. Whatever the places are, nothing outside the words is touched.

ghost use Rattle.std.specs.Prelude.{◌≡◌, ◌+◌, ◌<◌, ◌≤◌, true, false, length, set, slice_index, slice_set};
ghost use Rattle.acts.specs.Effects.{Copied};

// A word, 0 where there is none.
pub fn word(words: &[u32], i: usize) -> u32
    ensures { result ≡ slice_index words.now i }
{
    words.get(i).copied().unwrap_or(0)
}

// Sets a word, where there is one.
pub fn set_word(words: &mut [u32], i: usize, w: u32)
    ensures { words.new ≡ slice_set words.old i w }
{
    // tried `get_mut`: the proof did not close, since a slice's `get_mut` does not say what the other words are after a write through it
    if i < words.len() {
        words[i] = w;
    }
}

// Whether n places from one on are inside.
pub fn inside(at: usize, n: usize, len: usize) -> bool
    ensures yes { result ≡ true → at + n ≤ len }
    ensures no { result ≡ false → len < at + n }
{
    at <= len && n <= len - at
}

// Moves n words from one place to another, whether or not the places overlap; where they are the same place, nothing is copied. Most values are one word: without a
// branch of their own a merge takes 1.4 times as long.
pub fn move_words(words: &mut [u32], from: usize, to: usize, n: usize)
    ensures { from + n ≤ length words.old → to + n ≤ length words.old → Copied words.old words.new from to n }
{
    if n == 1 {
        set_word(words, to, word(words, from));
    } else if from != to && inside(from, n, words.len()) && inside(to, n, words.len()) {
        words.copy_within(from..from + n, to);
    }
}
