ghost use Rattle.std.specs.Prelude.{◌≡◌, ℕ, ◌+◌, ◌/◌, ◌<◌, ◌≤◌, max, true, List, length};
ghost use Rattle.std.proofs.lemmas.List.Edits.{sets};
ghost use Rattle.codec.specs.Integer.{zigzag as zigzagged};
ghost use Rattle.codec.specs.Laws.{ReadsBack, all_agree, examples};
ghost use Rattle.codec.specs.Number.{got, number, written};
ghost use Rattle.codec.specs.Writing.{Writes};

use crate::integer::zigzag;

// How many bytes a number is written in, by its leading zeros: its bits, hence its groups of seven. No bytes that are read as the number are fewer.
// (The worked examples are checked of the definition that this and the writing rest on.)
pub fn written_len(n: u32) -> usize
    ensures length { result ≡ length (written n) }
    ensures shortest { (bs : List ℕ) (used : ℕ) → number bs ≡ got n used → result ≤ used }
    ensures examples { all_agree examples ≡ true }
{
    groups_of(32 - n.leading_zeros() as usize)
}

// How many groups of seven bits there are in as many bits as given; one at least.
fn groups_of(bits: usize) -> usize
    requires { bits ≤ 32 }
    ensures { result ≡ max ((bits + 6) / 7) 1 }
{
    bits.div_ceil(7).max(1)
}

// Writes a number into the area from `start` on, and answers the place after it; none where it does not fit.
pub fn write_number(area: &mut [u8], start: usize, n: u32) -> Option<usize>
    ensures writes { Writes (written n) start area.old result area.new }
    ensures reads { ReadsBack n start result area.new }
{
    let end = start.checked_add(written_len(n))?;
    if end > area.len() {
        return None;
    }
    write_groups(&mut area[start..end], n);
    Some(end)
}

// Writes an integer in the same way.
pub fn write_integer(area: &mut [u8], start: usize, n: i32) -> Option<usize>
    ensures writes { Writes (written (zigzagged n)) start area.old result area.new }
    ensures reads { ReadsBack (zigzagged n) start result area.new }
{
    write_number(area, start, zigzag(n))
}

// Writes the groups of a number, each in one of the slots, of which there are just enough.
fn write_groups(slots: &mut [u8], n: u32)
    requires { length slots.old ≡ length (written n) }
    ensures { slots.new ≡ written n }
{
    let last = slots.len() - 1;
    let mut rest = n;
    for slot in slots[..last].iter_mut() {
        *slot = (rest % 128 + 128) as u8;
        rest /= 128;
    }
    slots[last] = rest as u8;
}
