// An image is run in a memory of its own, and four bytes tell how it ended.

#![tactic(auto)]

pub mod image_run;

ghost use Rattle.std.specs.Prelude.{◌≡◌, ◌∷◌, ◌++◌, ◌≤◌, length, drop};
ghost use Rattle.image_format.specs.Bytes.{pair_bytes};
ghost use Rattle.image_writer.specs.Writer.{output_after};
ghost use Rattle.entry.specs.Entry.{ending_byte, fault_byte, entry_of};
ghost use Rattle.words.specs.Answer.{number_of};
ghost use Rattle.words.specs.Refusal.{status};
ghost use Rattle.runs.specs.Run.{end_answer};

use crate::image_run::run_image;
use runs::outcome::End;
use words::refusal::Refusal;

// The byte of how a run ended.
fn ending_byte(end: End) -> u8
    ensures { result ≡ ending_byte (end_answer end) }
{
    match end {
        End::Halted => 0,
        End::Faulted(_) => 1,
        End::Spent => 2,
        End::Crossed | End::Refused(_) => 3,
    }
}

// The number of the fault that ended it, or 0.
fn fault_byte(end: End) -> u8
    ensures { result ≡ fault_byte (end_answer end) }
{
    match end {
        End::Faulted(refusal) => refusal.number(),
        End::Halted | End::Spent | End::Crossed | End::Refused(_) => 0,
    }
}

// Puts ending, fault and count into the first four bytes.
fn put_result(res: &mut [u8], ending: u8, fault: u8, count: u16)
    requires { 4 ≤ length res.old }
    ensures { res.new ≡ (ending ∷ fault ∷ pair_bytes count) ++ drop 4 res.old }
{
    let [low, high] = count.to_le_bytes();
    res[0..4].copy_from_slice(&[ending, fault, low, high]);
}

// Runs at most limit instructions of an image, and puts ending, fault and count into the result's first four bytes.
pub fn run_to_result(image: &[u8], limit: u16, res: &mut [u8]) -> Result<(), Refusal>
    ensures value { status result ≡ number_of (entry_of image.now limit res.old) }
    ensures res_after { res.new ≡ output_after res.old (entry_of image.now limit res.old) }
{
    if res.len() < 4 {
        return Err(Refusal::OutputTooShort);
    }
    let o = run_image(image, limit);
    let end = o.end;
    match end {
        End::Refused(refusal) => Err(refusal),
        other => {
            put_result(res, ending_byte(other), fault_byte(other), o.count);
            Ok(())
        }
    }
}
