// A pool of another crate: it has numbers, and never a cell. It serves to reach great bounds.

ghost use Rattle.std.specs.Prelude.{◌≡◌};
ghost use Rattle.pool_trials.specs.Hollow.{hollow, lawful_hollow};

use pool::{GREATEST, Pool};

/// A pool without cells.
#[derive(Drop)]
pub struct Hollow {
    bound: u32,
}

impl Hollow {
    /// A pool without cells, of a bound cut at the greatest.
    pub fn new(bound: u32) -> Hollow
        ensures { result.bound ≡ bound }
    {
        Hollow { bound }
    }
}

impl Pool for Hollow {
    ghost means = { λ p. hollow p.bound };

    ghost lawful = { λ p. lawful_hollow p.bound };

    fn take(&mut self) -> Option<u32> {
        None
    }

    fn give(&mut self, _cell: u32) -> bool {
        false
    }

    fn read(&self, _cell: u32, _word: usize) -> Option<u32> {
        None
    }

    fn write(&mut self, _cell: u32, _word: usize, _value: u32) -> bool {
        false
    }

    fn count(&self) -> u32 {
        0
    }

    fn bound(&self) -> u32 {
        self.bound.min(GREATEST)
    }
}
