// What the program prints for an image.

#![tactic(auto)]

mod lines;

ghost use Rattle.std.specs.Prelude.{◌≡◌, ◌≤◌, length, take};
ghost use Rattle.report.specs.Report.{printed_of, report_of};

use crate::lines::{put_end, put_rest};
use entry::image_run::run_image;
use runs::outcome::End;

// The printed bytes are the first length ones; the others are zero.
#[derive(Clone, Copy)]
pub struct Printed {
    pub bytes: [u8; 96],
    pub length: usize,
}

// Runs at most 1,000 instructions of an image, and gives what is printed of it.
pub fn report(image: &[u8]) -> Printed
    ensures value { result ≡ printed_of (report_of image.now) }
    ensures length_in_bounds { (result.length ≤ length result.bytes) × (result.length ≡ length (take result.length result.bytes)) }
{
    let o = run_image(image, 1000);
    let end = o.end;
    let machine = o.machine;
    let registers = machine.registers;
    let mut bytes = [0u8; 96];
    let at = put_end(&mut bytes, end);
    match end {
        End::Refused(_) => Printed { bytes, length: at },
        other => {
            let next = put_rest(&mut bytes, at, o.count, registers);
            Printed {
                bytes,
                length: next,
            }
        }
    }
}
