// The calls on a machine whose record lies behind a reference. Any record and any memory may be lent.

#![tactic(auto)]

ghost use Rattle.std.specs.Prelude.{◌≡◌};
ghost use Rattle.processor.specs.Calls.{step_call, run_call, stretch_call};
ghost use Rattle.in_place.specs.InPlace.{step_in_place, ran_in_place};

use processor::Pace;
use runs::outcome::End;
use state::record::Machine;
use words::refusal::Refusal;

#[derive(Clone, Copy)]
pub struct RunResult {
    pub count: u16,
    pub end: End,
}

// One instruction.
pub fn step(m: &mut Machine, words: &mut [u32]) -> Result<Pace, Refusal>
    ensures { step_in_place m.new words.new result ≡ step_call m.old words.old }
{
    let s = processor::step(*m, words);
    *m = s.machine;
    s.pace
}

// At most limit instructions.
pub fn run(m: &mut Machine, words: &mut [u32], limit: u16) -> RunResult
    ensures { ran_in_place m.new words.new result ≡ run_call limit m.old words.old }
{
    let o = processor::run(*m, words, limit);
    *m = o.machine;
    RunResult {
        count: o.count,
        end: o.end,
    }
}

// At most limit instructions, up to and with the first completed crossing.
pub fn stretch(m: &mut Machine, words: &mut [u32], limit: u16) -> RunResult
    ensures { ran_in_place m.new words.new result ≡ stretch_call limit m.old words.old }
{
    let o = processor::stretch(*m, words, limit);
    *m = o.machine;
    RunResult {
        count: o.count,
        end: o.end,
    }
}
