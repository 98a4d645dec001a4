// Crossings: calls through a gate and returns across domains.

#![tactic(auto)]

pub mod crossing;
