// The records of a log.
ghost use Rattle.std.specs.Prelude.{◌≡◌, ◌+◌, ◌≤◌, length, if◌then◌else◌};
ghost use Rattle.image_format.specs.Output.{written};
ghost use Rattle.crossing_log.specs.Crossings.{call, return, crossing_by};
ghost use Rattle.crossing_log.specs.Log.{kind_byte, crossing_bytes};

use state::record::Registers;

// 0 for a call, 1 for a return.
fn kind_byte(called: bool) -> u8
    ensures { result ≡ kind_byte (if called then call else return) }
{
    if called { 0 } else { 1 }
}

// Puts the crossing from a domain to the place that registers have into six bytes.
pub fn put_crossing(log: &mut [u8], at: usize, called: bool, left: u8, r: Registers)
    requires { at + 6 ≤ length log.old }
    ensures { log.new ≡ written log.old at (crossing_bytes (crossing_by (if called then call else return) left r)) }
{
    let [low, high] = r.word.to_le_bytes();
    let bytes = [kind_byte(called), left, r.domain, r.segment, low, high];
    log[at..at + 6].copy_from_slice(&bytes);
}
