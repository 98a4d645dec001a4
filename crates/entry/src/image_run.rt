// An image, run in a memory of its own.
ghost use Rattle.std.specs.Prelude.{◌≡◌};
ghost use Rattle.entry.specs.ImageRun.{outcome_answer, image_run, closed};

use fresh::{empty_layout, fresh};
use image_reader::read;
use processor::run;
use runs::outcome::{End, Outcome};

// At most limit instructions of an image, in a memory of its own.
pub fn run_image(image: &[u8], limit: u16) -> Outcome
    ensures { outcome_answer result ≡ closed (image_run limit image.now) }
{
    let mut words = [0u32; 8192];
    let mut machine = fresh(empty_layout());
    if let Err(refusal) = read(image, &mut machine, &mut words) {
        return Outcome {
            machine,
            count: 0,
            end: End::Refused(refusal),
        };
    }
    run(machine, &mut words, limit)
}
