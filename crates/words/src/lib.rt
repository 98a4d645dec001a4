// Pointer words, instruction words, mode words, offsets, and the arithmetic of A.

#![tactic(auto)]

pub mod arithmetic;
mod bits;
pub mod instruction;
pub mod mode;
pub mod offset;
pub mod pointer;
pub mod refusal;
