//! Runs a routine through the machine, in slices and over any pool.

ghost use Rattle.std.specs.Prelude.{◌≡◌, ◌<◌, min};
ghost use Rattle.store.specs.Scanning.{Listed};

use crate::input::{Random, checksum};
use crate::routine::Routine;
use assembler::assemble;
use code::Code;
use codec::fault::Fault;
use judge::admit::admit;
use machine::{Machine, Progress, Ran};
use pool::Pool;
use std::rt::Clock;
use std::time::Instant;
use store::build::put;
use store::release::release;
use store::show::show;
use tables::listing::{Entry, Listing, Signature};

// a function has so many parameters at most
const MOST_PARAMS: usize = 6;

// no result has more bytes: 512 entries of a mark and at most three bytes, and a mark
const ROOM: usize = 2049;

/// What is asked: a routine, how many entries its arguments have together, how many steps it is carried at a time, and how often at most. A run that does not end so
/// is abandoned.
#[derive(Clone, Copy)]
pub struct Job {
    pub routine: Routine,
    pub entries: u32,
    pub slice: u32,
    pub slices: u32,
}

/// The nanoseconds that a run took: on carrying it, and on all from its loading to its finish.
#[derive(Clone, Copy, Default)]
pub struct Times {
    pub carried: u64,
    pub whole: u64,
}

impl Times {
    fn plus(self, other: Times) -> Times {
        Times {
            carried: self.carried.saturating_add(other.carried),
            whole: self.whole.saturating_add(other.whole),
        }
    }

    // the mean of so many, one at least
    fn over(self, count: u32) -> Times {
        let count = u64::from(count.max(1));
        Times {
            carried: self.carried / count,
            whole: self.whole / count,
        }
    }

    /// The less of both, each by itself.
    pub fn least(self, other: Times) -> Times
        ensures carried { result.carried ≡ min self.carried other.carried }
        ensures whole { result.whole ≡ min self.whole other.whole }
    {
        Times {
            carried: self.carried.min(other.carried),
            whole: self.whole.min(other.whole),
        }
    }
}

/// How a run ended: the steps taken, its result's checksum where it gave one, and its times where the clock could be read.
#[derive(Clone, Copy)]
pub struct Outcome {
    pub steps: u32,
    pub checksum: Option<u32>,
    pub times: Option<Times>,
}

// nanoseconds from one time to another, where both could be told
fn between(from: Option<Instant>, to: Option<Instant>) -> Option<u64> {
    let nanoseconds = to?.duration_since(from?).as_nanos();
    Some(u64::try_from(nanoseconds).unwrap_or(u64::MAX))
}

// The number of the last function; a table has 32 at most.
fn last_function(listing: &Listing) -> usize
    ensures { result < 32 }
{
    listing.functions.saturating_sub(1).min(31)
}

// The signature of the last function.
fn last_signature(listing: &Listing) -> Signature {
    listing.signatures[last_function(listing)]
}

// The arguments are put, each of its parameter's type: their words.
fn put_arguments<P: Pool>(
    pool: &mut P,
    entries: &[Entry],
    signature: Signature,
    job: Job,
) -> Result<[[u32; 16]; MOST_PARAMS], Fault>
    requires { Listed entries.now }
{
    let mut random = Random::new();
    let mut arguments = [[0; 16]; MOST_PARAMS];
    let arity = signature.arity.min(MOST_PARAMS);
    for (words, t) in arguments.iter_mut().zip(&signature.params[..arity]) {
        let t = *t;
        let input = job.routine.argument(job.entries, &mut random);
        if (t as usize) < entries.len() {
            let spare = pool.count();
            *words = put(pool, entries, t, input.bytes(), spare)?;
        }
    }
    Ok(arguments)
}

// The arguments are loaded into a cleared machine.
fn load_arguments<P: Pool>(
    pool: &P,
    machine: &mut Machine,
    entries: &[Entry],
    signature: Signature,
    arguments: &[[u32; 16]; MOST_PARAMS],
)
    requires { Listed entries.now }
{
    machine.clear();
    let arity = signature.arity.min(MOST_PARAMS);
    for (words, t) in arguments.iter().zip(&signature.params[..arity]) {
        let t = *t;
        if (t as usize) < entries.len() {
            machine.load(pool, entries, t, words);
        }
    }
}

// The run is carried on as the job says.
fn carry_on<P: Pool>(pool: &mut P, machine: &mut Machine, code: &Code, job: Job) -> Ran {
    let mut steps: u32 = 0;
    for _ in 0..job.slices {
        let ran = machine.carry(code, pool, job.slice);
        steps = steps.saturating_add(ran.steps);
        if !matches!(ran.progress, Progress::Going) {
            break;
        }
    }
    Ran {
        steps,
        progress: machine.progress(),
    }
}

// The result's checksum; its cells are given back.
fn consume<P: Pool>(pool: &mut P, entries: &[Entry], t: u8, words: &[u32; 16]) -> u32
    requires { Listed entries.now }
{
    if (t as usize) >= entries.len() {
        return 0;
    }
    let mut area = [0; ROOM];
    let count = show(pool, entries, t, words, &mut area).unwrap_or(0);
    release(pool, entries, t, words);
    checksum(&area[..count.min(ROOM)])
}

// One run of the function, from its arguments' bytes to its result's.
fn run_once<P: Pool>(
    clock: &impl Clock,
    pool: &mut P,
    machine: &mut Machine,
    listing: &Listing,
    entries: &[Entry],
    code: &Code,
    job: Job,
) -> Result<Outcome, Fault>
    requires { Listed entries.now }
{
    let function = last_function(listing);
    let signature = last_signature(listing);
    let t = signature.result;
    let arguments = put_arguments(pool, entries, signature, job)?;
    let loads = Instant::now(clock).ok();
    load_arguments(pool, machine, entries, signature, &arguments);
    let begins = Instant::now(clock).ok();
    machine.begin(code, function as u32);
    let ran = carry_on(pool, machine, code, job);
    let ends = Instant::now(clock).ok();
    let mut finished = ends;
    let mut sum = None;
    if matches!(ran.progress, Progress::Done) && (t as usize) < entries.len() {
        let words = machine.finish(pool, entries, t);
        finished = Instant::now(clock).ok();
        sum = Some(consume(pool, entries, t, &words));
    } else {
        machine.abandon(pool);
    }
    Ok(Outcome {
        steps: ran.steps,
        checksum: sum,
        times: between(begins, ends)
            .zip(between(loads, finished))
            .map(|(carried, whole)| Times { carried, whole }),
    })
}

// Many runs, one after another: what the last gave, with the mean times of all.
fn run_many<P: Pool>(
    clock: &impl Clock,
    pool: &mut P,
    machine: &mut Machine,
    listing: &Listing,
    entries: &[Entry],
    code: &Code,
    job: Job,
    runs: u32,
) -> Result<Outcome, Fault>
    requires { Listed entries.now }
{
    let mut last = run_once(clock, pool, machine, listing, entries, code, job)?;
    let mut sum = last.times;
    for _ in 1..runs {
        last = run_once(clock, pool, machine, listing, entries, code, job)?;
        sum = sum.zip(last.times).map(|(all, one)| all.plus(one));
    }
    last.times = sum.map(|all| all.over(runs));
    Ok(last)
}

/// Runs the job's routine so many times, once at least, over a pool: what the last run gave, with the mean times of all. When a run has ended, the pool has as many
/// free cells as before it.
pub fn run_job<P: Pool>(
    clock: &impl Clock,
    pool: &mut P,
    machine: &mut Machine,
    job: Job,
    runs: u32,
) -> Result<Outcome, Fault> {
    let table = admit(job.routine.table())?;
    let code = assemble(&table);
    let listing = table.listing();
    let entries = listing.type_entries();
    run_many(clock, pool, machine, listing, entries, &code, job, runs)
}
