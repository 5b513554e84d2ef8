//! Trials of the pools: each kind is made, counted, written, read and emptied by code that knows only that it is a pool.

#![tactic(auto)]

mod generic;
mod hollow;
mod making;

use crate::generic::{drain, two_words};
use crate::hollow::Hollow;
use crate::making::{begins, take_in_block, take_lent};
use pool::block::BlockPool;
use pool::lent::LentPool;
use pool::own::OwnPool;
use pool::pair::PairPool;
use pool::reserve::ReservePool;
use pool::{GREATEST, Pool};
use std::io;

// a line on a pool: its count and bound, two words kept in a cell for a while, and how many cells it gives until none is left
fn show<P: Pool>(rt: HostRuntime, name: &str, pool: &mut P) -> io::Result<()> {
    let count = pool.count();
    let bound = pool.bound();
    let words = two_words(pool, 7, 9);
    let taken = drain(pool);
    let left = pool.count();
    println!(rt; "{name}: {count} free of {bound}, words {words:?}, {taken} taken, {left} left")
}

// a pool is filled, and one cell is given back, taken again and read
fn refill<P: Pool>(rt: HostRuntime, cell: u32, pool: &mut P) -> io::Result<()> {
    let taken = drain(pool);
    let written = pool.write(cell, 15, 5);
    let before = pool.read(cell, 15);
    let past = pool.read(cell, 16);
    let given = pool.give(cell);
    let again = pool.give(cell);
    let free = pool.read(cell, 15);
    let next = pool.take();
    let after = pool.read(cell, 15);
    println!(rt;
        "cell {cell} of {taken}: {written} {before:?} {past:?}, {given} {again} {free:?}, {next:?} {after:?}"
    )
}

fn main(rt: HostRuntime) -> io::Result<()> {
    let mut block = [3; 100];
    show(rt, "own", &mut OwnPool::new())?;
    show(rt, "block", &mut BlockPool::new(&mut block))?;
    let left_over = block[85..100] == [3; 15];
    println!(rt; "words left over unchanged: {left_over}")?;
    show(
        rt,
        "pair",
        &mut PairPool::new(OwnPool::new(), BlockPool::new(&mut block)),
    )?;
    show(
        rt,
        "pair at the greatest bound",
        &mut PairPool::new(OwnPool::new(), Hollow::new(GREATEST - 64)),
    )?;
    show(
        rt,
        "pair past it",
        &mut PairPool::new(OwnPool::new(), Hollow::new(GREATEST - 63)),
    )?;
    show(rt, "reserve of 3", &mut ReservePool::new(OwnPool::new(), 3))?;
    show(
        rt,
        "reserve of 300",
        &mut ReservePool::new(
            PairPool::new(OwnPool::new(), BlockPool::new(&mut block)),
            300,
        ),
    )?;

    let mut own = OwnPool::new();
    show(
        rt,
        "reserve of 60 over a lent pool",
        &mut ReservePool::new(LentPool::new(&mut own), 60),
    )?;
    show(rt, "the same, back", &mut own)?;

    let (count, bound) = begins(&mut block, 68);
    let in_block = take_in_block(&mut block);
    let in_own = take_lent(&mut OwnPool::new());
    println!(rt; "begins with {count} of {bound}, first cells {in_block:?} and {in_own:?}")?;

    refill(rt, 64, &mut OwnPool::new())?;
    refill(
        rt,
        66,
        &mut ReservePool::new(
            PairPool::new(OwnPool::new(), BlockPool::new(&mut block)),
            68,
        ),
    )
}
