//! Plays a script's calls over its pool, and prints what is heard.

use crate::line::PoolChoice;
use crate::script::Script;
use codec::fault::Fault;
use pool::Pool;
use pool::block::BlockPool;
use pool::own::OwnPool;
use pool::pair::PairPool;
use pool::reserve::ReservePool;
use programmer::Programmer;
use programmer::play::{Answer, Call, Listener, Making, play};
use std::io;

// No value has more bytes: 512 cells and a shelf of sixteen words each, five bytes a word.
const MOST_BYTES: usize = 65536;

// More words than these make no more cells in a block.
const MOST_WORDS: u32 = 8704;

// what a call that is granted is answered (no `Display` of a call: that would print the call)
fn granted(call: Call) -> &'static str {
    match call {
        Call::Adopt { .. } => "adopted",
        Call::Put { .. } => "put",
        Call::Empty { .. } => "emptied",
        Call::Show { .. } | Call::Spare => "done",
    }
}

// Prints each answer as it is heard, and keeps the first trouble with printing.
#[derive(Drop)]
struct Printer {
    rt: HostRuntime,
    trouble: io::Result<()>,
}

// a value's bytes
fn print_shown(rt: HostRuntime, shown: &[u8]) -> io::Result<()> {
    print!(rt; "shown")?;
    for byte in shown {
        print!(rt; " {byte}")?;
    }
    println!(rt; "")
}

// the answer to a call
fn print_answer(
    rt: HostRuntime,
    call: Call,
    answer: Result<Answer, Fault>,
    shown: &[u8],
) -> io::Result<()> {
    match answer {
        Ok(Answer::Granted) => println!(rt; "{}", granted(call)),
        Ok(Answer::Shown(_)) => print_shown(rt, shown),
        Ok(Answer::Spare(n)) => println!(rt; "spare {n}"),
        Err(fault) => println!(rt; "{fault}"),
    }
}

impl<P: Pool> Listener<P> for Printer {
    fn hear(
        &mut self,
        _making: Making,
        calls: &[Call],
        answer: Option<Result<Answer, Fault>>,
        shown: &[u8],
        _programmer: &Programmer<P>,
    ) {
        if self.trouble.is_err() {
            return;
        }
        if let ([.., call], Some(answer)) = (calls, answer) {
            self.trouble = print_answer(self.rt, *call, answer, shown);
        }
    }
}

// Plays the script's calls on a new programmer over the pool, and prints the answers.
fn play_on<P: Pool + Drop>(rt: HostRuntime, script: &Script, pool: P) -> io::Result<()> {
    let heap = rt.alloc();
    let calls: Vec<Call> = script.calls.iter().map(Call::from).collect(heap)?;
    let mut area = vec![in heap; 0u8; MOST_BYTES]?;
    let mut printer = Printer {
        rt,
        trouble: Ok(()),
    };
    let _programmer = play(
        pool,
        script.box_number,
        calls.as_slice(),
        area.as_mut_slice(),
        &mut printer,
    );
    printer.trouble
}

/// Plays the script's calls on a new programmer over its pool.
pub fn play_over(rt: HostRuntime, script: &Script) -> io::Result<()> {
    let words = script.pool.words().min(MOST_WORDS);
    let mut block = vec![in rt.alloc(); 0u32; words as usize]?;
    let block = BlockPool::new(block.as_mut_slice());
    match script.pool {
        PoolChoice::Own => play_on(rt, script, OwnPool::new()),
        PoolChoice::Block { words: _ } => play_on(rt, script, block),
        PoolChoice::Pair { words: _ } => play_on(rt, script, PairPool::new(OwnPool::new(), block)),
        PoolChoice::Reserve { most } => {
            play_on(rt, script, ReservePool::new(OwnPool::new(), most))
        }
        PoolChoice::ReserveBlock { most, words: _ } => {
            play_on(rt, script, ReservePool::new(block, most))
        }
    }
}
