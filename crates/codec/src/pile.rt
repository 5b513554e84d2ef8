ghost use Rattle.std.specs.Prelude.{◌≤◌, length};

// A pile of unfinished work, last in, first out, in a slice that the caller lends, since a library crate allocates nothing.
#[derive(Drop)]
pub struct Pile<'a, T> {
    slots: &'a mut [T],
    len: usize,
    ghost sound: { len ≤ length slots.now },
}

impl<'a, T: Copy> Pile<'a, T> {
    ghost use Rattle.std.specs.Prelude.{◌≡◌, [], ◌∷◌, if◌then◌else◌, nat_lt};
    ghost use Rattle.codec.specs.Stack.{Popped, held, room};

    // An empty pile with room for as many entries as there are slots.
    pub fn new(slots: &'a mut [T]) -> Self
        ensures held { held result ≡ [] }
        ensures room { room result ≡ length slots.old }
    {
        Pile { slots, len: 0 }
    }

    // One entry more on top; false, and nothing is altered, where there is no room.
    pub fn push(&mut self, x: T) -> bool
        ensures fits { result ≡ nat_lt (length (held self.old)) (room self.old) }
        ensures held { held self.new ≡ (if result then x ∷ held self.old else held self.old) }
        ensures room { room self.new ≡ room self.old }
        ensures same { self.new.slots.ghost_name ≡ self.old.slots.ghost_name }
    {
        if self.len >= self.slots.len() {
            return false;
        }
        self.slots[self.len] = x;
        self.len += 1;
        true
    }

    // The top entry, taken off; none where the pile is empty.
    pub fn pop(&mut self) -> Option<T>
        ensures held { Popped (held self.old) result (held self.new) }
        ensures room { room self.new ≡ room self.old }
        ensures same { self.new.slots.ghost_name ≡ self.old.slots.ghost_name }
    {
        self.len = self.len.checked_sub(1)?;
        Some(self.slots[self.len])
    }
}
