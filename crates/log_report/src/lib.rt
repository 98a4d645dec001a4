// What the program prints of an image's crossings.

#![tactic(auto)]

mod image_log;
mod lines;

ghost use Rattle.std.specs.Prelude.{◌≡◌, ◌≤◌, length, take};
ghost use Rattle.log_report.specs.LogText.{log_printed_of, log_report_of};

use crate::image_log::log_image;
use crate::lines::{put_crossings, put_totals};
use text::put_line;

// The printed bytes are the first length ones; the others are zero.
#[derive(Clone, Copy)]
pub struct PrintedLog {
    pub bytes: [u8; 25026],
    pub length: usize,
}

// Runs at most 1,000 instructions of an image, and gives what is printed of its crossings.
pub fn log_report(image: &[u8]) -> PrintedLog
    ensures value { result ≡ log_printed_of (log_report_of image.now) }
    ensures length_in_bounds { (result.length ≤ length result.bytes) × (result.length ≡ length (take result.length result.bytes)) }
{
    let mut log = [0u8; 6000];
    let mut bytes = [0u8; 25026];
    match log_image(image, &mut log) {
        Err(refusal) => {
            let end = put_line(&mut bytes, 0, b"refused ", refusal.number() as u32);
            PrintedLog { bytes, length: end }
        }
        Ok(t) => {
            let at = put_crossings(&mut bytes, &log, t.calls + t.returns);
            let end = put_totals(&mut bytes, at, t.calls, t.returns);
            PrintedLog { bytes, length: end }
        }
    }
}
