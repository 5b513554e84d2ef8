//! Five routines with inputs of any size, and how to run one through the machine: what the trials and the bench of the machine have in common.

#![tactic(auto)]

pub mod input;
pub mod routine;
pub mod run;
