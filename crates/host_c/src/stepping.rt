// A step of the record that bytes hold.
ghost use Rattle.std.specs.Prelude.{◌≡◌};
ghost use Rattle.processor.specs.Calls.{step_call};
ghost use Rattle.held_runs.specs.Runs.{stepped_on, step_code, step_bytes, step_words};

// One instruction.
#[unsafe(no_mangle)]
pub extern "C" fn zenkorv_step(bytes: &mut [u8], words: &mut [u32]) -> u16
    ensures code { result ≡ step_code (stepped_on step_call bytes.old words.old) }
    ensures bytes { bytes.new ≡ step_bytes bytes.old (stepped_on step_call bytes.old words.old) }
    ensures words { words.new ≡ step_words words.old (stepped_on step_call bytes.old words.old) }
{
    host::stepping::zenkorv_step(bytes, words)
}
