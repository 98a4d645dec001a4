// A run that keeps a log of its crossings.

#![tactic(auto)]

mod records;
mod stretches;

ghost use Rattle.std.specs.Prelude.{◌≡◌};
ghost use Rattle.words.specs.Refusal.{status};
ghost use Rattle.crossing_log.specs.Log.{log_judged, log_call, logged_answer};

use crate::stretches::follow;
use runs::judge;
use runs::outcome::{End, Outcome};
use state::record::Machine;
use words::refusal::Refusal;

// What a run came to, and how many calls and returns its log has.
#[derive(Clone, Copy)]
pub struct Logged {
    pub outcome: Outcome,
    pub calls: u16,
    pub returns: u16,
}

// What is judged first.
fn judge_log(m: Machine, words: &[u32], log: &[u8]) -> Result<(), Refusal>
    ensures { status result ≡ log_judged m words.now log.now }
{
    judge(m, words)?;
    if log.len() < 6000 {
        return Err(Refusal::OutputTooShort);
    }
    Ok(())
}

// At most 1,000 instructions; each completed crossing is put into six bytes of the log. Refused, record, words and log are as they were.
pub fn run_logged(m: Machine, words: &mut [u32], log: &mut [u8]) -> Logged
    ensures { logged_answer result words.new log.new ≡ log_call m words.old log.old }
{
    match judge_log(m, words, log) {
        Err(refusal) => {
            let outcome = Outcome {
                machine: m,
                count: 0,
                end: End::Refused(refusal),
            };
            Logged {
                outcome,
                calls: 0,
                returns: 0,
            }
        }
        Ok(()) => follow(m, words, log),
    }
}
