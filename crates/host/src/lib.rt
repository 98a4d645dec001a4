// The calls of a host, on a machine that it keeps as bytes. The crate host_c exports each to C.

#![tactic(auto)]

pub mod image_run;
pub mod images;
pub mod logging;
pub mod looks;
mod numbers;
pub mod running;
pub mod stepping;
