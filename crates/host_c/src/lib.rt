// The calls of a host in C, each the function of its name of the crate host, under the same clauses. include/zenkorv.h declares them.

#![tactic(auto)]

pub mod image_run;
pub mod images;
pub mod logging;
pub mod looks;
pub mod running;
pub mod stepping;
