// The loop that makes a logged run of its stretches.
ghost use Rattle.std.specs.Prelude.{◌≡◌, ◌≤◌, length};
ghost use Rattle.executions.specs.Statements.{SoundRecord};
ghost use Rattle.crossing_log.specs.Log.{logged_of, logged_answer};

use crate::Logged;
use crate::records::put_crossing;
use runs::outcome::{End, Outcome};
use runs::run_judged;
use state::record::Machine;

// At most 1,000 instructions of a sound record, stretch after stretch.
pub fn follow(m: Machine, words: &mut [u32], log: &mut [u8]) -> Logged
    requires sound_record { SoundRecord m }
    requires in_bounds { 6000 ≤ length log.old }
    ensures { logged_answer result words.new log.new ≡ logged_of m words.old log.old }
{
    let mut machine = m;
    let mut n = 0u16;
    let mut calls = 0u16;
    let mut returns = 0u16;
    loop {
        let depth = machine.depth;
        let left = machine.registers.domain;
        let o = run_judged(machine, words, 1000 - n, true);
        machine = o.machine;
        n += o.count;
        let end = o.end;
        match end {
            End::Crossed => {
                let called = depth < machine.depth;
                put_crossing(
                    log,
                    (calls + returns) as usize * 6,
                    called,
                    left,
                    machine.registers,
                );
                if called {
                    calls += 1;
                } else {
                    returns += 1;
                }
            }
            other => {
                let outcome = Outcome {
                    machine,
                    count: n,
                    end: other,
                };
                return Logged {
                    outcome,
                    calls,
                    returns,
                };
            }
        }
    }
}
