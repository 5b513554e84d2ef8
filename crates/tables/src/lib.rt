#![tactic(auto)]

mod expressions;
pub mod listing;
pub mod read;
mod signatures;
#[cfg(test)]
mod tests;
mod types;
