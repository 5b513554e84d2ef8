#![tactic(auto)]

pub mod cursor;
pub mod fault;
pub mod integer;
pub mod pile;
#[cfg(test)]
mod tests;
pub mod writer;
