// A step of the record that bytes hold.
ghost use Rattle.std.specs.Prelude.{◌≡◌};
ghost use Rattle.processor.specs.Calls.{step_call};
ghost use Rattle.held_runs.specs.Runs.{stepped_on, step_code, step_bytes, step_words};

use processor::{Pace, step};
use snapshot_reader::{form_number, record_or_empty};
use snapshot_writer::put_record;

// One instruction of the record that bytes hold: 0, 256 where it halted, or the number of its fault or refusal.
pub fn step_held(bytes: &mut [u8], words: &mut [u32]) -> u16
    ensures code { result ≡ step_code (stepped_on step_call bytes.old words.old) }
    ensures bytes { bytes.new ≡ step_bytes bytes.old (stepped_on step_call bytes.old words.old) }
    ensures words { words.new ≡ step_words words.old (stepped_on step_call bytes.old words.old) }
{
    if let Err(refusal) = form_number(bytes) {
        return refusal.number() as u16;
    }
    let m = record_or_empty(bytes);
    let s = step(m, words);
    match s.pace {
        Err(refusal) => refusal.number() as u16,
        Ok(pace) => {
            put_record(s.machine, bytes);
            match pace {
                Pace::GoesOn => 0,
                Pace::Halts => 256,
            }
        }
    }
}
