// Reads an image from standard input, runs it and prints its crossings.

#![tactic(auto)]

use input::read_full;
use log_report::log_report;
use std::io;

fn main(rt: HostRuntime) -> io::Result<()> {
    let mut image = [0u8; 33081];
    let n = read_full(&mut rt.stdin(), &mut image)?;
    let r = log_report(&image[..n]);
    let bytes = r.bytes;
    let k = r.length;
    rt.write_all(&bytes[..k])
}
