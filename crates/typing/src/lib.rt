// What the judge goes by: types by their codes, one rule for each kind of expression, and the variables in scope.

#![tactic(auto)]

pub mod codes;
pub mod rules;
pub mod scope;
#[cfg(test)]
mod tests;
