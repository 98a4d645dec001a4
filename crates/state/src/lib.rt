// The machine record, and where its segments lie in the memory.

#![tactic(auto)]

pub mod bases;
pub mod frames;
pub mod record;
pub mod rows;
