// The printed lines of a log.
ghost use Rattle.std.specs.Prelude.{◌≡◌, ◌+◌, ◌*◌, ◌≤◌, length};
ghost use Rattle.image_format.specs.Bytes.{joined};
ghost use Rattle.image_format.specs.Output.{written};
ghost use Rattle.text.specs.Text.{labelled};
ghost use Rattle.text.specs.Put.{place_after, output_with};
ghost use Rattle.log_report.specs.LogText.{kind_text, crossing_line, totals_text};
ghost use Rattle.log_theorems.specs.ReadBack.{byte_kind, crossing_at, records_in};

use text::{put_field, put_line};

// The word of a kind and the domain that is left, from a place on; the place after them.
fn put_kind(output: &mut [u8], at: usize, kind: u8, left: u8) -> usize
    ensures value { result ≡ place_after output.old at (labelled (kind_text (byte_kind kind)) left) }
    ensures output_after { output.new ≡ output_with output.old at (labelled (kind_text (byte_kind kind)) left) }
{
    if kind == 0 {
        return put_field(output, at, b"call ", left as u32);
    }
    put_field(output, at, b"return ", left as u32)
}

// The line of the crossing in six bytes of a log.
fn put_crossing(output: &mut [u8], at: usize, log: &[u8], from: usize) -> usize
    requires at_in_bounds { at + 25 ≤ length output.old }
    requires from_in_bounds { from + 6 ≤ length log.now }
    ensures value { result ≡ at + length (crossing_line (crossing_at log.now from)) }
    ensures output_after { output.new ≡ written output.old at (crossing_line (crossing_at log.now from)) }
{
    let low = log[from + 4];
    let high = log[from + 5];
    let first = put_kind(output, at, log[from], log[from + 1]);
    let second = put_field(output, first, b" ", log[from + 2] as u32);
    let third = put_field(output, second, b" ", log[from + 3] as u32);
    put_line(output, third, b" ", low as u32 + high as u32 * 256)
}

// The lines of the first crossings of a log, from the start on; the place after them.
pub fn put_crossings(output: &mut [u8], log: &[u8], count: u16) -> usize
    requires count_in_bounds { count * 25 ≤ length output.old }
    requires count_in_bounds_2 { count * 6 ≤ length log.now }
    ensures value { result ≡ length (joined crossing_line (records_in count log.now)) }
    ensures output_after { output.new ≡ written output.old 0 (joined crossing_line (records_in count log.now)) }
    ensures upper_bound { result ≤ count * 25 }
{
    let mut at = 0usize;
    for i in 0..count as usize {
        at = put_crossing(output, at, log, i * 6);
    }
    at
}

// The totals' line.
pub fn put_totals(output: &mut [u8], at: usize, calls: u16, returns: u16) -> usize
    requires { at + 26 ≤ length output.old }
    ensures value { result ≡ at + length (totals_text calls returns) }
    ensures output_after { output.new ≡ written output.old at (totals_text calls returns) }
    ensures upper_bound { result ≤ at + 26 }
{
    let next = put_field(output, at, b"calls ", calls as u32);
    put_line(output, next, b" returns ", returns as u32)
}
