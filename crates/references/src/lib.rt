// The checks of a reference.

#![tactic(auto)]

pub mod flag;
pub mod live;
pub mod reference;
pub mod renewal;
pub mod statics;
pub mod view;
