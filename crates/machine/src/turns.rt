ghost use Rattle.std.specs.Prelude.{◌≡◌, ℕ, ◌+◌, ◌-◌, ◌<◌, ◌≤◌, true, false, List, MatchOption, slice_index_or};
ghost use Rattle.lfpl.specs.Syntax.{Program, Ty};
ghost use Rattle.meaning.specs.Machine.{Frame, State};
ghost use Rattle.code.specs.Nodes.{node_at};
ghost use Rattle.acts.specs.Effects.{Room};
ghost use Rattle.machine.specs.Enacting.{Enacts, nobody};
ghost use Rattle.machine.specs.Stepping.{Carried, Passed, Performed, Readied, Rest, Returning, Takes, goes, proceeds, progress_of, turned, turns_left};

use crate::{Limit, Machine, Mode, Progress, Ran, WAITING, Waiting};
use code::{Code, Next, Node};
use operations::perform;
use pool::Pool;

// No expression begins at this height, and none over more words.
const TOO_HIGH: u32 = 4096;

const MOST_WORDS: u32 = 8192;

// The sum of two numbers that are never near the end of their range.
fn sum(a: u32, b: u32) -> u32
    ensures { a + b ≤ 65536 → result ≡ a + b }
{
    a.wrapping_add(b)
}

impl Machine {
    // The expression that waits innermost, if one does.
    fn top(&self) -> Option<Waiting>
        ensures { MatchOption result (self.now.depth ≡ 0) (λ t. (0 < self.now.depth) × (self.now.depth ≤ 4096 → t ≡ slice_index_or self.now.waiting (self.now.depth - 1) nobody)) }
    {
        if self.depth == 0 {
            return None;
        }
        Some(self.waiting[(self.depth - 1) % WAITING])
    }

    // The next part of an expression is to begin, and it waits for it.
    // (Speed: the record is written field by field, and `settle` makes a mode in each arm. By `..r`, and a pair of number and base, `merge` and `reverse` took 10 %
    // longer.)
    fn pass(&mut self, code: &Code, r: Waiting)
        ensures passed { Passed code.now self.old r self.new }
        ensures begins { Returning self.new.mode → ⊥ }
    {
        let part = code.node(r.coming);
        if self.depth < WAITING {
            self.waiting[self.depth] = Waiting {
                number: r.number,
                coming: part.end,
                base: r.base,
                dest: r.dest,
                height: r.height,
            };
            self.depth += 1;
        }
        self.mode = Mode::Begin {
            number: r.coming,
            base: r.base,
            dest: sum(r.base, part.over),
            height: sum(r.height, 1),
        };
    }

    // The operation of an expression whose parts are done.
    fn settle<P: Pool>(&mut self, code: &Code, pool: &mut P, node: Node, r: Waiting)
        ensures performed { r.base + node.over ≤ 65536 → r.height < 65536 → Room (P.Pool.means pool.old) self.old.words r.base (r.base + node.over) r.dest node.op → Performed code.now node r (P.Pool.means pool.old) self.old (P.Pool.means pool.new) self.new }
        ensures level { self.new.depth ≡ self.old.depth }
    {
        let at = sum(r.base, node.over);
        let height = sum(r.height, 1);
        let next = perform(node.op, pool, &mut self.words, r.base, at, r.dest);
        self.mode = match next {
            Next::Value => Mode::Return,
            Next::First => Mode::Begin {
                number: r.coming,
                base: r.base,
                dest: r.dest,
                height,
            },
            Next::Second => Mode::Begin {
                number: code.node(r.coming).end,
                base: r.base,
                dest: r.dest,
                height,
            },
            Next::Body(number) => Mode::Begin {
                number,
                base: at,
                dest: r.dest,
                height,
            },
        };
    }

    // An expression goes on: its next part is to begin, or none is left and it does what it means.
    fn proceed<P: Pool>(&mut self, code: &Code, pool: &mut P, r: Waiting)
        ensures enacts { (p : Program) (R : Ty) (k : Frame) (K : List Frame) → Readied p R code.now (P.Pool.means pool.old) self.old r k K → Enacts p R code.now (P.Pool.means pool.new) self.new (proceeds p k K) × Rest (P.Pool.means pool.old) self.old (P.Pool.means pool.new) self.new }
        ensures level { Returning self.new.mode → self.new.depth ≤ self.old.depth }
    {
        let node = code.node(r.number);
        if r.coming < node.arms {
            self.pass(code, r);
        } else {
            self.settle(code, pool, node, r);
        }
    }

    // What the machine does next depends on its own state and on the expression that waits for the part just finished. (Both ways lead to one call, so that the
    // compiler can put it in line; so does the one call of this in `step`.)
    fn turn<P: Pool>(&mut self, code: &Code, pool: &mut P)
        ensures takes { Takes (turned self.old.mode) code.now (P.Pool.means pool.old) self.old (P.Pool.means pool.new) self.new }
        ensures falls { Returning self.new.mode → turns_left self.new.mode self.new.depth < turns_left self.old.mode self.old.depth }
    {
        let r = match (self.mode, self.top()) {
            (
                Mode::Begin {
                    number,
                    base,
                    dest,
                    height,
                },
                _,
            ) => {
                let place = sum(base, code.node(number).over);
                if height >= TOO_HIGH {
                    self.mode = Mode::Halted(Limit::Height);
                    return;
                }
                if place > MOST_WORDS {
                    self.mode = Mode::Halted(Limit::Words);
                    return;
                }
                Waiting {
                    number,
                    coming: sum(number, 1),
                    base,
                    dest,
                    height,
                }
            }
            (Mode::Return, Some(r)) => {
                self.depth -= 1;
                r
            }
            (Mode::Return, None) => {
                self.mode = Mode::Done;
                return;
            }
            (Mode::Done | Mode::Halted(_), _) => return,
        };
        self.proceed(code, pool, r);
    }

    /// One step: an expression begins, and values go back until another is to begin or the run has ended.
    pub fn step<P: Pool>(&mut self, code: &Code, pool: &mut P)
        ensures takes { Takes (turned self.old.mode) code.now (P.Pool.means pool.old) self.old (P.Pool.means pool.new) self.new }
        ensures settles { Returning self.new.mode → ⊥ }
    {
        loop {
            self.turn(code, pool);
            if self.mode != Mode::Return {
                return;
            }
        }
    }

    /// How the run stands.
    pub fn progress(&self) -> Progress
        ensures { result ≡ progress_of self.now.mode }
    {
        Progress::from(self.mode)
    }

    /// Takes at most `n` steps.
    // Speed: put in line, the loop is slower by what its caller does beside it.
    #[inline(never)]
    pub fn carry<P: Pool>(&mut self, code: &Code, pool: &mut P, n: u32) -> Ran
        ensures { (p : Program) (R : Ty) (s : State) → Enacts p R code.now (P.Pool.means pool.old) self.old s → (Returning self.old.mode → ⊥) → Carried p R code.now (P.Pool.means pool.old) self.old s n result (P.Pool.means pool.new) self.new }
    {
        // (No plainer as a `for`: the count is part of the answer, and a loop over a range has two ends that would each make it.)
        let mut steps = 0;
        while steps < n && matches!(self.mode, Mode::Begin { .. }) {
            self.step(code, pool);
            steps += 1;
        }
        Ran {
            steps,
            progress: self.progress(),
        }
    }
}

impl From<Mode> for Progress {
    ghost from_gives = { λ mode made. made ≡ progress_of mode };

    fn from(mode: Mode) -> Self
        ensures { result ≡ progress_of mode }
    {
        match mode {
            Mode::Begin { .. } | Mode::Return => Progress::Going,
            Mode::Done => Progress::Done,
            Mode::Halted(limit) => Progress::Halted(limit),
        }
    }
}
