// The calls on a machine: a step, a run, a stretch. Any record and any memory may be lent.

#![tactic(auto)]

ghost use Rattle.std.specs.Prelude.{◌≡◌};
ghost use Rattle.words.specs.Refusal.{status};
ghost use Rattle.processor.specs.Calls.{run_call, stretch_call, step_call, halts, step_answer};
ghost use Rattle.processor.specs.Steps.{ending_number, is_halted};
ghost use Rattle.runs.specs.Run.{end_answer, ran_answer};

use runs::call;
use runs::outcome::{End, Outcome};
use state::record::Machine;
use words::refusal::Refusal;

// What a completed instruction makes of its run.
#[derive(Clone, Copy, PartialEq, Eq)]
pub enum Pace {
    GoesOn,
    Halts,
}

// The record after a step, and how it was completed, or the fault or refusal.
#[derive(Clone, Copy)]
pub struct Stepped {
    pub machine: Machine,
    pub pace: Result<Pace, Refusal>,
}

// What a step gives for an ending.
fn pace_of(end: End) -> Result<Pace, Refusal>
    ensures number { status result ≡ ending_number (end_answer end) }
    ensures halted { halts result ≡ is_halted (end_answer end) }
{
    match end {
        End::Halted => Ok(Pace::Halts),
        End::Faulted(refusal) => Err(refusal),
        End::Spent => Ok(Pace::GoesOn),
        End::Crossed => Ok(Pace::GoesOn),
        End::Refused(refusal) => Err(refusal),
    }
}

// At most limit instructions.
pub fn run(m: Machine, words: &mut [u32], limit: u16) -> Outcome
    ensures { ran_answer result words.new ≡ run_call limit m words.old }
{
    call(m, words, limit, false)
}

// At most limit instructions, up to and with the first completed crossing.
pub fn stretch(m: Machine, words: &mut [u32], limit: u16) -> Outcome
    ensures { ran_answer result words.new ≡ stretch_call limit m words.old }
{
    call(m, words, limit, true)
}

// One instruction.
pub fn step(m: Machine, words: &mut [u32]) -> Stepped
    ensures { step_answer result words.new ≡ step_call m words.old }
{
    let o = call(m, words, 1, false);
    let machine = o.machine;
    Stepped {
        machine,
        pace: pace_of(o.end),
    }
}
