// The printed lines, put into an output.
ghost use Rattle.std.specs.Prelude.{◌≡◌, ◌++◌, ◌∷◌, [], ◌+◌, ◌≤◌, length};
ghost use Rattle.image_format.specs.Output.{written};
ghost use Rattle.text.specs.Text.{text, labelled, line};
ghost use Rattle.report.specs.Report.{end_text, rest_text};
ghost use Rattle.runs.specs.Run.{end_answer};

use runs::outcome::End;
use state::record::Registers;
use text::{put_field, put_line, put_text};

// The location's line.
fn put_location(output: &mut [u8], at: usize, segment: u8, word: u16) -> usize
    requires { at + 25 ≤ length output.old }
    ensures value { result ≡ at + length (line (labelled (text "at ") segment ++ labelled (32 ∷ []) word)) }
    ensures output_after { output.new ≡ written output.old at (line (labelled (text "at ") segment ++ labelled (32 ∷ []) word)) }
    ensures upper_bound { result ≤ at + 25 }
{
    let first = put_field(output, at, b"at ", segment as u32);
    let second = put_field(output, first, b" ", word as u32);
    put_text(output, second, b"\n")
}

// How a run ended, or the refusal, at the start of the output.
pub fn put_end(output: &mut [u8], end: End) -> usize
    requires { 21 ≤ length output.old }
    ensures value { result ≡ length (line (end_text (end_answer end))) }
    ensures output_after { output.new ≡ written output.old 0 (line (end_text (end_answer end))) }
    ensures upper_bound { result ≤ 21 }
{
    match end {
        End::Halted => put_text(output, 0, b"end halted\n"),
        End::Faulted(refusal) => put_line(output, 0, b"end fault ", refusal.number() as u32),
        End::Spent => put_text(output, 0, b"end spent\n"),
        End::Crossed => put_text(output, 0, b"end crossed\n"),
        End::Refused(refusal) => put_line(output, 0, b"refused ", refusal.number() as u32),
    }
}

// Count, domain, location and A, from a place on; the place after them.
pub fn put_rest(output: &mut [u8], at: usize, count: u16, r: Registers) -> usize
    requires { at + 73 ≤ length output.old }
    ensures value { result ≡ at + length (rest_text count r) }
    ensures output_after { output.new ≡ written output.old at (rest_text count r) }
    ensures upper_bound { result ≤ at + 73 }
{
    let first = put_line(output, at, b"count ", count as u32);
    let second = put_line(output, first, b"domain ", r.domain as u32);
    let third = put_location(output, second, r.segment, r.word);
    put_line(output, third, b"a ", r.a)
}
