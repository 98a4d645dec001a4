// Images: what kind 1 holds. The rest of the format is definitions and laws.

#![tactic(auto)]

use state::record::Start;

#[derive(Clone, Copy)]
pub struct Head {
    pub start: Start,
    pub segments: u8,
    pub domains: u8,
}
