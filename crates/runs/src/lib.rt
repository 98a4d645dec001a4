// Runs: local runs and crossings by turns, up to an end or a limit.

#![tactic(auto)]

pub mod outcome;
mod renewal;
mod resume;
mod running;

ghost use Rattle.std.specs.Prelude.{◌≡◌};
ghost use Rattle.words.specs.Refusal.{status};
ghost use Rattle.runs.specs.Run.{run_from, judged, called_of, judged_run, ran_answer};

use crate::outcome::{End, Outcome};
use crate::running::run_on;
use soundness::sound;
use state::record::Machine;
use words::refusal::Refusal;

// What every call judges first.
pub fn judge(m: Machine, words: &[u32]) -> Result<(), Refusal>
    ensures { status result ≡ judged m words.now }
{
    if !sound(m) {
        return Err(Refusal::NotSound);
    }
    if words.len() < 8192 {
        return Err(Refusal::MemoryTooShort);
    }
    Ok(())
}

// At most limit instructions of any record; a stretch ends at its first crossing. Refused, record and words are as they were.
pub fn call(m: Machine, words: &mut [u32], limit: u16, stretch: bool) -> Outcome
    ensures { ran_answer result words.new ≡ called_of (run_from stretch limit 0) m words.old }
{
    match judge(m, words) {
        Err(refusal) => Outcome {
            machine: m,
            count: 0,
            end: End::Refused(refusal),
        },
        Ok(()) => run_on(m, words, limit, stretch),
    }
}

// The same of a record and words that were judged; a record with more frames in use than there are is refused.
pub fn run_judged(m: Machine, words: &mut [u32], limit: u16, stretches: bool) -> Outcome
    ensures { ran_answer result words.new ≡ judged_run (run_from stretches limit 0) m words.old }
{
    if 8 < m.depth {
        return Outcome {
            machine: m,
            count: 0,
            end: End::Refused(Refusal::NotSound),
        };
    }
    run_on(m, words, limit, stretches)
}
