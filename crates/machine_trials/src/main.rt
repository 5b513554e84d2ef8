//! Trials of the machine: each routine on an input that nearly fills the pool, over each kind of pool, and carried in slices of another length; and
//! once each is abandoned under way. What should be printed is worked out by `bench/evaluate.py trials`, an evaluator written apart.

#![tactic(auto)]

use machine::Machine;
use pool::Pool;
use pool::block::BlockPool;
use pool::own::OwnPool;
use pool::pair::PairPool;
use pool::reserve::ReservePool;
use routines::routine::ROUTINES;
use routines::run::{Job, run_job};
use std::io;

// What is tried: how many entries the arguments have together, how many steps a run is carried at a time, and how often at most.
#[derive(Clone, Copy)]
struct Trial {
    name: &'static str,
    entries: u32,
    slice: u32,
    slices: u32,
}

// a line for each routine over the pool: the steps that it took, its result's checksum, and the pool's free cells afterwards
fn report<P: Pool>(
    rt: HostRuntime,
    machine: &mut Machine,
    pool: &mut P,
    trial: Trial,
) -> io::Result<()> {
    let name = trial.name;
    for routine in &ROUTINES {
        let job = Job {
            routine: *routine,
            entries: trial.entries,
            slice: trial.slice,
            slices: trial.slices,
        };
        match run_job(&rt, pool, machine, job, 1) {
            Ok(outcome) => {
                let end = if outcome.checksum.is_some() {
                    "done"
                } else {
                    "not done"
                };
                let steps = outcome.steps;
                let sum = outcome.checksum.unwrap_or(0);
                let free = pool.count();
                println!(rt;
                    "{name}, {routine}: {end} after {steps} steps, checksum {sum}, {free} cells free"
                )?;
            }
            Err(fault) => {
                let number = fault.refusal.number();
                let place = fault.place;
                println!(rt; "{name}, {routine}: refused {number} at {place}")?;
            }
        }
    }
    Ok(())
}

fn main(rt: HostRuntime) -> io::Result<()> {
    let mut block = [0; 8704];
    let mut machine = Machine::new();
    let own = Trial {
        name: "own",
        entries: 64,
        slice: 1,
        slices: 20000,
    };
    report(rt, &mut machine, &mut OwnPool::new(), own)?;
    let abandoned = Trial {
        name: "abandoned",
        entries: 64,
        slice: 50,
        slices: 10,
    };
    report(rt, &mut machine, &mut OwnPool::new(), abandoned)?;
    let in_block = Trial {
        name: "block",
        entries: 500,
        slice: 1000,
        slices: 1000,
    };
    report(rt, &mut machine, &mut BlockPool::new(&mut block), in_block)?;
    let pair = Trial {
        name: "pair",
        entries: 500,
        slice: 7,
        slices: 200000,
    };
    report(
        rt,
        &mut machine,
        &mut PairPool::new(OwnPool::new(), BlockPool::new(&mut block)),
        pair,
    )?;
    let reserve = Trial {
        name: "reserve",
        entries: 500,
        slice: u32::MAX,
        slices: 1,
    };
    report(
        rt,
        &mut machine,
        &mut ReservePool::new(BlockPool::new(&mut block), 500),
        reserve,
    )
}
