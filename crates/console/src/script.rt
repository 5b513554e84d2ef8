//! A whole script: what it sets up, and its calls up to the first mistake.

ghost use Rattle.std.specs.Prelude.{◌≡◌, if◌then◌else◌, nat_lt, vec_len, Ok, Err};

use crate::line::{Asked, Line, Mistake, PoolChoice, understood};
use std::alloc::Global;

/// What a script says so far.
#[derive(Drop)]
pub struct Script {
    pub pool: PoolChoice,
    pub box_number: u32,
    pub calls: Vec<Asked>,
    // the first line that stops the program, and why
    pub mistake: Option<(usize, Mistake)>,
}

impl Script {
    /// Nothing is said yet: the own pool and the box 0.
    pub fn new(heap: Global) -> Self {
        Script {
            pool: PoolChoice::Own,
            box_number: 0,
            calls: Vec::new(heap),
            mistake: None,
        }
    }

    // Whether a set-up line may still come: the pool and the box are set before the first call.
    fn set_up(&self) -> Result<(), Mistake>
        ensures { result ≡ (if nat_lt 0 (vec_len self.now.calls) then Err Mistake.TooLate else Ok tt) }
    {
        if !self.calls.is_empty() {
            return Err(Mistake::TooLate);
        }
        Ok(())
    }

    /// Takes one line more.
    pub fn add(&mut self, heap: Global, text: &str) -> Result<(), Mistake> {
        match understood(heap, text)? {
            None => {}
            Some(Line::Pool(choice)) => {
                self.set_up()?;
                self.pool = choice;
            }
            Some(Line::BoxNumber(n)) => {
                self.set_up()?;
                self.box_number = n;
            }
            Some(Line::Call(asked)) => self.calls.push(asked)?,
        }
        Ok(())
    }
}

/// The script that a text holds, up to its first mistake.
pub fn read_script(heap: Global, text: &str) -> Script {
    let mut script = Script::new(heap);
    for (i, line) in text.lines().enumerate() {
        if let Err(mistake) = script.add(heap, line) {
            script.mistake = Some((i.saturating_add(1), mistake));
            break;
        }
    }
    script
}
