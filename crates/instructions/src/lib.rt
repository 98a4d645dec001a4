// The instructions: everything of an instruction but a crossing.

#![tactic(auto)]

pub mod cycle;
mod effects;
mod made;
mod opcodes;
