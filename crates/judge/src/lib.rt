// Judges tables: Hofmann's typing rules over the flat table that was read, and the call that admits a table.

#![tactic(auto)]

pub mod admit;
mod judge;
pub mod table;
#[cfg(test)]
mod tests;
