//! Times the machine on each routine, over a block pool: a line has its name, its steps, the nanoseconds of carrying it and of a whole run from the loading of its
//! arguments to its finish, the least mean of five rounds, and its result's checksum. The argument is how many runs a round has; without it each routine is run once, and no times are
//! told.

#![tactic(auto)]

use machine::Machine;
use pool::block::BlockPool;
use routines::routine::{ROUTINES, Routine};
use routines::run::{Job, Outcome, Times, run_job};
use std::{env, io};

const ROUNDS: u32 = 5;

const ENTRIES: u32 = 500;

// How many runs a round has; an insertion sort takes far more steps than the others.
fn runs_of(routine: Routine, runs: u32) -> u32 {
    match routine {
        Routine::InsertionSort => runs / 20,
        _ => runs,
    }
}

// The routine's last outcome, with the least mean times of all rounds; nothing where it was refused.
fn measure(rt: HostRuntime, machine: &mut Machine, routine: Routine, runs: u32) -> Option<Outcome> {
    let mut block = [0; 8704];
    let mut pool = BlockPool::new(&mut block);
    let job = Job {
        routine,
        entries: ENTRIES,
        slice: u32::MAX,
        slices: 1,
    };
    let mut least: Option<Outcome> = None;
    for _ in 0..ROUNDS {
        let mut outcome = run_job(&rt, &mut pool, machine, job, runs_of(routine, runs)).ok()?;
        if let Some(before) = least {
            outcome.times = outcome
                .times
                .zip(before.times)
                .map(|(one, other)| one.least(other));
        }
        least = Some(outcome);
    }
    least
}

fn main(rt: HostRuntime) -> io::Result<()> {
    let mut runs: Option<u32> = None;
    for word in env::args(&rt)?.skip(1) {
        runs = word.as_str().parse::<u32>().ok();
    }
    let mut machine = Machine::new();
    for routine in &ROUTINES {
        let Some(outcome) = measure(rt, &mut machine, *routine, runs.unwrap_or(1)) else {
            println!(rt; "{routine} refused")?;
            continue;
        };
        let steps = outcome.steps;
        let sum = outcome.checksum.unwrap_or(0);
        if runs.is_some() {
            let Times { carried, whole } = outcome.times.unwrap_or_default();
            println!(rt; "{routine} {steps} {carried} {whole} {sum}")?;
        } else {
            println!(rt; "{routine} {steps} {sum}")?;
        }
    }
    Ok(())
}
