//! The operations of a run, done in place.
//!
//! A run keeps its values in words: the variables of a body lie from the body's first word on, and the parts of an expression that are worked out lie above them,
//! one after another. An operation makes of such parts the expression's value, where it is waited for, or lays out what the arm that it chooses binds.

#![tactic(auto)]

mod cells;
mod choices;
mod values;
mod words;

ghost use Rattle.acts.specs.Effects.{Effect, Room};

use choices::{case_list, case_sum, case_tree, guard};
use code::{Next, Op};
use pool::Pool;
use values::{apply, cons, fork, tag};
use words::{move_words, set_word};

/// Performs an operation: `base` is where its body's first word lies, `at` where its parts done lie, and `dest` where its value is waited for. Whatever the words, the
/// cells and the places are, nothing else is touched.
pub fn perform<P: Pool>(
    op: Op,
    pool: &mut P,
    words: &mut [u32],
    base: u32,
    at: u32,
    dest: u32,
) -> Next
    ensures acts { Room (P.Pool.means pool.old) words.old base at dest op → Effect (P.Pool.means pool.old) words.old base at dest op result (P.Pool.means pool.new) words.new }
{
    // the places go singly, as numbers of 32 bits: a struct would hide at which of them an operation works, and sums of them fit a `usize` whatever they are; the
    // operation is matched, since it is data that code is copied with, as no closure is
    match op {
        Op::Variable { place, width } => {
            move_words(
                words,
                base as usize + place as usize,
                dest as usize,
                width as usize,
            );
            Next::Value
        }
        Op::Call(body) => Next::Body(body),
        Op::Constant(w) => {
            set_word(words, dest as usize, w);
            Next::Value
        }
        Op::Apply(o) => {
            apply(o, words, at, dest);
            Next::Value
        }
        Op::Guard => guard(words, at),
        Op::Pair(n) => {
            move_words(words, at as usize, dest as usize, n as usize);
            Next::Value
        }
        Op::Split => Next::First,
        Op::Tag { mark, width } => {
            tag(words, mark, at as usize, dest, width as usize);
            Next::Value
        }
        Op::CaseSum { left, right } => case_sum(words, at, left, right),
        Op::Empty => {
            set_word(words, dest as usize, 0);
            Next::Value
        }
        Op::Cons(n) => {
            cons(pool, words, at, dest, n);
            Next::Value
        }
        Op::CaseList(n) => case_list(pool, words, at, n),
        Op::Fork(n) => {
            fork(pool, words, at, dest, n);
            Next::Value
        }
        Op::CaseTree(n) => case_tree(pool, words, at, n),
    }
}
