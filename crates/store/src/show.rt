ghost use Rattle.std.specs.Prelude.{◌≡◌, ◌<◌, List, length, None, nat_lt, refl};
ghost use Rattle.std.proofs.Common.{◌∙◌};
ghost use Rattle.lfpl.specs.Syntax.{Ty};
ghost use Rattle.lfpl.specs.Typing.{type_at};
ghost use Rattle.store.specs.Laws.{OneValue, ReadsBack};
ghost use Rattle.store.specs.Scanning.{Listed};
ghost use Rattle.store.specs.WalkLaws.{counted_joins, counted_none, placed_joins, placed_none};
ghost use Rattle.store.specs.Walking.{Counted, Placed, Walks, Written};
ghost use Rattle.tables.specs.Listed.{Types};

use crate::entries::Kind;
use crate::scan::MOST_CELLS;
use crate::walk::{Sink, walk};
use codec::writer::{write_number, written_len};
use pool::Pool;
use tables::listing::Entry;

// a sink that counts bytes
#[derive(Drop)]
pub struct Counter {
    count: usize,
}

impl Sink for Counter {
    ghost takes = { λ a xs cs b. Counted a.count xs b.count };

    ghost none = { λ s. counted_none s.count };

    ghost joins = { λ a b c xs ys cs ds p q. counted_joins a.count b.count c.count xs ys p q };

    fn number(&mut self, n: u32) {
        self.count = self.count.saturating_add(written_len(n));
    }

    fn cell(&mut self, _cell: u32) {}
}

// a sink that writes bytes into a lent area, where there is room
#[derive(Drop)]
pub struct Area<'a> {
    out: &'a mut [u8],
    at: usize,
}

impl<'a> Sink for Area<'a> {
    ghost takes = { λ a xs cs b. (b.out.ghost_name ≡ a.out.ghost_name) × Placed a.out.now a.at xs b.out.now b.at };

    ghost none = { λ s. (refl, placed_none s.out.now s.at) };

    ghost joins = { λ a b c xs ys cs ds p q. (q.0 ∙ p.0, placed_joins a.out.now a.at b.out.now b.at c.out.now c.at xs ys p.1 q.1) };

    fn number(&mut self, n: u32) {
        let at = self.at;
        self.at = write_number(self.out, at, n).unwrap_or(at);
    }

    fn cell(&mut self, _cell: u32) {}
}

// Whether a room is too short for so many bytes.
fn too_short(room: usize, count: usize) -> bool
    ensures { result ≡ nat_lt room count }
{
    room < count
}

// Writes the bytes of the value of the type `t` in the words first in the area, and answers their count; none, and nothing is written, where the area is too
// short.
pub fn show<P: Pool>(
    pool: &P,
    entries: &[Entry],
    t: u8,
    words: &[u32; 16],
    area: &mut [u8],
) -> Option<usize>
    requires listed { Listed entries.now }
    requires known { t < length entries.now }
    ensures written { (ts : List Ty) → Types entries.now ts → Walks (P.Pool.means pool.now) (type_at ts t) words.now 0 512 (λ xs cs. Written xs area.old result area.new) }
    ensures left { result ≡ None → area.new ≡ area.old }
    ensures again { ReadsBack }
    ensures one { OneValue }
{
    let kind = Kind::new(entries, t);
    let most = MOST_CELLS as usize;
    let mut counter = Counter { count: 0 };
    walk(pool, kind, words, 0, most, &mut counter);
    let count = counter.count;
    if too_short(area.len(), count) {
        return None;
    }
    let mut sink = Area { out: area, at: 0 };
    walk(pool, kind, words, 0, most, &mut sink);
    Some(count)
}
