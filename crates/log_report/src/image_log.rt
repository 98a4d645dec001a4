// An image, run in a memory of its own with a log.
ghost use Rattle.std.specs.Prelude.{◌≡◌, ◌≤◌, length};
ghost use Rattle.words.specs.Refusal.{answer_of};
ghost use Rattle.log_report.specs.LogText.{image_crossings};
ghost use Rattle.log_report.specs.Private.{totals_of, log_with};

use crossing_log::run_logged;
use fresh::{empty_layout, fresh};
use image_reader::read;
use words::refusal::Refusal;

// How many calls and returns a log has.
#[derive(Clone, Copy)]
pub struct Totals {
    pub calls: u16,
    pub returns: u16,
}

// At most 1,000 instructions of an image; its crossings are put into the log. Refused, the log is as it was.
pub fn log_image(image: &[u8], log: &mut [u8]) -> Result<Totals, Refusal>
    requires { 6000 ≤ length log.old }
    ensures value { answer_of result ≡ totals_of (image_crossings image.now) }
    ensures log_after { log.new ≡ log_with log.old (image_crossings image.now) }
{
    let mut words = [0u32; 8192];
    let mut machine = fresh(empty_layout());
    read(image, &mut machine, &mut words)?;
    let l = run_logged(machine, &mut words, log);
    Ok(Totals {
        calls: l.calls,
        returns: l.returns,
    })
}
