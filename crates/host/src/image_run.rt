// An image that is run in a memory of its own.
ghost use Rattle.std.specs.Prelude.{◌≡◌};
ghost use Rattle.words.specs.Answer.{number_of};
ghost use Rattle.image_writer.specs.Writer.{output_after};
ghost use Rattle.entry.specs.Entry.{entry_of};

use crate::numbers::status;
use entry::run_to_result;

// Runs at most limit instructions of an image, and puts ending, fault and count into the result's first four bytes. Gives 0, or the number of the refusal.
pub fn zenkorv_entry(image: &[u8], limit: u16, res: &mut [u8]) -> u8
    ensures value { result ≡ number_of (entry_of image.now limit res.old) }
    ensures res_after { res.new ≡ output_after res.old (entry_of image.now limit res.old) }
{
    status(run_to_result(image, limit, res))
}
