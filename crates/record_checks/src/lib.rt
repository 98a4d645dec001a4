// The checks on a whole record, which judge first whether it is sound.

#![tactic(auto)]

pub mod reference;
pub mod statics;
mod view;
