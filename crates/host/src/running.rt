// Runs and stretches of the record that bytes hold.
ghost use Rattle.std.specs.Prelude.{◌≡◌};
ghost use Rattle.processor.specs.Calls.{run_call, stretch_call};
ghost use Rattle.held_runs.specs.Runs.{ran_on, ran_code, ran_bytes, ran_words};

use held_runs::running::run_held;

// At most limit instructions.
#[tactic(auto, unfolding(processor::specs::Calls::run_call))]
pub fn zenkorv_run(bytes: &mut [u8], words: &mut [u32], limit: u16) -> u32
    ensures code { result ≡ ran_code (ran_on (run_call limit) bytes.old words.old) }
    ensures bytes { bytes.new ≡ ran_bytes bytes.old (ran_on (run_call limit) bytes.old words.old) }
    ensures words { words.new ≡ ran_words words.old (ran_on (run_call limit) bytes.old words.old) }
{
    run_held(bytes, words, limit, false)
}

// At most limit instructions, up to and with the first completed crossing.
#[tactic(auto, unfolding(processor::specs::Calls::stretch_call))]
pub fn zenkorv_stretch(bytes: &mut [u8], words: &mut [u32], limit: u16) -> u32
    ensures code { result ≡ ran_code (ran_on (stretch_call limit) bytes.old words.old) }
    ensures bytes { bytes.new ≡ ran_bytes bytes.old (ran_on (stretch_call limit) bytes.old words.old) }
    ensures words { words.new ≡ ran_words words.old (ran_on (stretch_call limit) bytes.old words.old) }
{
    run_held(bytes, words, limit, true)
}
