// Runs, stretches and steps of the record that bytes hold.

#![tactic(auto)]

pub mod running;
pub mod stepping;
