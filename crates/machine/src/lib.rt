//! The machine: runs an admitted table in place, in the cells of a run's arguments, over any pool.
//!
//! What a run means is the machine of crate `meaning`, whose states are expressions with the values of their variables and parts. This machine has those values in
//! words and cells; `specs/Enacting.antt` says when it enacts such a state, and every call keeps that (see `step`, `carry`).

#![tactic(auto)]

mod ends;
mod turns;

/// The words of a run: 8,192, and room above them for the parts or variables of one expression.
pub const WORDS: usize = 8288;
/// As many expressions can wait for a part: each is higher than the one before, and none as high as 4,096.
pub const WAITING: usize = 4096;
/// The cells of a run at most.
pub const CELLS: usize = 512;

/// An expression that waits for a part: its number, the number of the part or arm that comes next, where its body's first word lies, where its own value is waited
/// for, and its height.
#[derive(Clone, Copy, Default, PartialEq, Eq, Debug)]
pub struct Waiting {
    pub(crate) number: u32,
    pub(crate) coming: u32,
    pub(crate) base: u32,
    pub(crate) dest: u32,
    pub(crate) height: u32,
}

/// The limit at which a run halts.
#[derive(Clone, Copy, PartialEq, Eq, Debug)]
pub enum Limit {
    Height,
    Words,
}

/// What the machine is about: to begin an expression (its number, where its body's first word lies, where its value is waited for, its height); to hand a value on
/// to the expression that waits for it, where it lies already; or nothing more, since the run is done or halted.
#[derive(Clone, Copy, PartialEq, Eq, Debug)]
pub enum Mode {
    Begin {
        number: u32,
        base: u32,
        dest: u32,
        height: u32,
    },
    Return,
    Done,
    Halted(Limit),
}

/// How a run stands.
#[derive(Clone, Copy, PartialEq, Eq, Debug)]
pub enum Progress {
    Going,
    Done,
    Halted(Limit),
}

/// How many steps were taken, and how the run then stands.
#[derive(Clone, Copy, PartialEq, Eq, Debug)]
pub struct Ran {
    pub steps: u32,
    pub progress: Progress,
}

/// A machine with all the memory that a run may need: its words, the first `loaded` of them the arguments' until it begins; the expressions that wait, the first
/// `depth`; and the numbers of the cells that it holds, the first `count`.
// (No plainer as vectors of fixed capacity: a run writes words anywhere, with no last one, and the cells are listed by `store` in an array that has room. Speed:
// with the waiting expressions in an `ArrayVec`, `merge` and `reverse` took 13 % longer.)
#[derive(Drop)]
pub struct Machine {
    pub(crate) mode: Mode,
    pub(crate) depth: usize,
    pub(crate) count: usize,
    pub(crate) loaded: usize,
    pub(crate) words: [u32; WORDS],
    pub(crate) waiting: [Waiting; WAITING],
    pub(crate) cells: [u32; CELLS],
}
