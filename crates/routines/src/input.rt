//! Inputs that any program can make alike: pseudo-random from a fixed seed.

use inline_vec::InlineVec;

// no input has more bytes: 512 entries of a mark and two bytes, and five marks
const ROOM: usize = 2048;

/// A linear congruence of 32 bits, of which the upper bits are used.
#[derive(Drop)]
pub struct Random {
    seed: u32,
}

impl Random {
    /// Every input begins with the same seed.
    pub fn new() -> Random {
        Random { seed: 1 }
    }

    fn turn(&mut self) -> u32 {
        self.seed = self.seed.wrapping_mul(1664525).wrapping_add(1013904223);
        self.seed
    }

    // an entry, as the number that it is written as: fourteen bits
    fn entry(&mut self) -> u32 {
        self.turn() >> 18
    }

    fn bit(&mut self) -> bool {
        self.turn() >> 31 == 1
    }

    // 0 to 31
    fn gap(&mut self) -> u32 {
        self.turn() >> 27
    }
}

/// The bytes of a value; what does not fit is left out.
#[derive(Drop)]
pub struct Input {
    written: InlineVec<u8, ROOM>,
}

impl Input {
    fn new() -> Input {
        Input {
            written: InlineVec::new(),
        }
    }

    /// The bytes.
    pub fn bytes(&self) -> &[u8] {
        self.written.as_slice()
    }

    fn push(&mut self, byte: u8) {
        if self.written.len() < ROOM {
            self.written.push(byte);
        }
    }

    // a mark and a number of at most fourteen bits, always in two bytes: a form longer than the shortest is read like any other
    fn marked(&mut self, mark: bool, number: u32) {
        self.push(u8::from(mark));
        self.push((number & 127) as u8 | 128);
        self.push((number >> 7 & 127) as u8);
    }

    /// A list of so many entries.
    pub fn list(entries: u32, random: &mut Random) -> Input {
        let mut input = Input::new();
        for _ in 0..entries {
            input.marked(true, random.entry());
        }
        input.push(0);
        input
    }

    /// A list of so many entries that are 0 at least and ascend, each at most 31 more than the one before.
    pub fn ascending(entries: u32, random: &mut Random) -> Input {
        let mut input = Input::new();
        let mut last: u32 = 0;
        for _ in 0..entries {
            last = last.wrapping_add(random.gap());
            // an integer that is not below 0 is written as its double
            input.marked(true, last.wrapping_mul(2));
        }
        input.push(0);
        input
    }

    /// A list of four trees, which share the entries as evenly as their odd counts of labels allow.
    pub fn forest(entries: u32, random: &mut Random) -> Input {
        let mut input = Input::new();
        let nodes = (entries / 4).saturating_sub(1) / 2;
        for _ in 0..4u32 {
            input.push(1);
            input.tree(nodes, random);
        }
        input.push(0);
        input
    }

    // A tree of so many nodes, in the order in which it is written: a node as long as only it keeps the tree open, a leaf when all nodes are placed, and else as the
    // next bit says.
    fn tree(&mut self, nodes: u32, random: &mut Random) {
        let mut left = nodes;
        let mut awaited: u32 = 1;
        for _ in 0..nodes.saturating_mul(2).saturating_add(1) {
            let bit = random.bit();
            let node = left > 0 && (awaited == 1 || bit);
            self.marked(node, random.entry());
            if node {
                left = left.saturating_sub(1);
                awaited = awaited.saturating_add(1);
            } else {
                awaited = awaited.saturating_sub(1);
            }
        }
    }
}

/// A number that tells byte strings apart.
pub fn checksum(bytes: &[u8]) -> u32 {
    bytes.iter().fold(0u32, |sum, byte| {
        sum.wrapping_mul(31).wrapping_add(u32::from(*byte))
    })
}
