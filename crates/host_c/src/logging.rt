// A run of the record that bytes hold, with a log of its crossings.
ghost use Rattle.std.specs.Prelude.{◌≡◌};
ghost use Rattle.held_runs.specs.Opened.{given};
ghost use Rattle.held_runs.specs.Runs.{ran_code, ran_bytes, ran_words};
ghost use Rattle.held_log.specs.HeldLog.{logged_on, run_in, total_after};

// At most 1,000 instructions; each completed crossing is put into six bytes of the log, and how many are calls and returns into two places.
#[unsafe(no_mangle)]
pub extern "C" fn zenkorv_log(
    bytes: &mut [u8],
    words: &mut [u32],
    log: &mut [u8],
    calls: &mut u16,
    returns: &mut u16,
) -> u32
    ensures code { result ≡ ran_code (run_in (logged_on bytes.old words.old log.old)) }
    ensures bytes { bytes.new ≡ ran_bytes bytes.old (run_in (logged_on bytes.old words.old log.old)) }
    ensures words { words.new ≡ ran_words words.old (run_in (logged_on bytes.old words.old log.old)) }
    ensures log { log.new ≡ given (λ l. l.log) log.old (logged_on bytes.old words.old log.old) }
    ensures calls { calls.new ≡ total_after (λ l. l.calls) calls.old (logged_on bytes.old words.old log.old) }
    ensures returns { returns.new ≡ total_after (λ l. l.returns) returns.old (logged_on bytes.old words.old log.old) }
{
    host::logging::zenkorv_log(bytes, words, log, calls, returns)
}
