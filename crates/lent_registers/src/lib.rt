// The registers as the loop lends them: ten columns of sixteen bytes.

#![tactic(auto)]

mod cells;
pub mod columns;
pub mod lookup;
pub mod renewal;
