// A run of the record that bytes hold, with a log of its crossings.

#![tactic(auto)]

ghost use Rattle.std.specs.Prelude.{◌≡◌};
ghost use Rattle.runs.specs.Run.{end_answer};
ghost use Rattle.held_runs.specs.Opened.{given};
ghost use Rattle.held_runs.specs.Runs.{ended_with, ran_code, ran_bytes, ran_words};
ghost use Rattle.held_log.specs.HeldLog.{logged_on, run_in, total_after};

use crossing_log::run_logged;
use held_runs::running::{code, keep};
use runs::outcome::End;
use snapshot_reader::{form_number, record_or_empty};

// Puts a total of a run, unless it was refused.
fn keep_total(place: &mut u16, total: u16, end: End)
    ensures { place.new ≡ ended_with place.old total (end_answer end) }
{
    match end {
        End::Refused(refusal) => {}
        other => *place = total,
    }
}

// At most 1,000 instructions; each completed crossing is put into six bytes of the log, and how many are calls and returns into two places.
pub fn log_held(
    bytes: &mut [u8],
    words: &mut [u32],
    log: &mut [u8],
    calls: &mut u16,
    returns: &mut u16,
) -> u32
    ensures code { result ≡ ran_code (run_in (logged_on bytes.old words.old log.old)) }
    ensures bytes { bytes.new ≡ ran_bytes bytes.old (run_in (logged_on bytes.old words.old log.old)) }
    ensures words { words.new ≡ ran_words words.old (run_in (logged_on bytes.old words.old log.old)) }
    ensures log { log.new ≡ given (λ l. l.log) log.old (logged_on bytes.old words.old log.old) }
    ensures calls { calls.new ≡ total_after (λ l. l.calls) calls.old (logged_on bytes.old words.old log.old) }
    ensures returns { returns.new ≡ total_after (λ l. l.returns) returns.old (logged_on bytes.old words.old log.old) }
{
    if let Err(refusal) = form_number(bytes) {
        return code(0, End::Refused(refusal));
    }
    let m = record_or_empty(bytes);
    let l = run_logged(m, words, log);
    let o = l.outcome;
    let end = o.end;
    keep(bytes, o.machine, end);
    keep_total(calls, l.calls, end);
    keep_total(returns, l.returns, end);
    code(o.count, end)
}
