// The registers of recently used capabilities: which may be entered, and when they are sound.

#![tactic(auto)]

pub mod entering;
pub mod registers;
