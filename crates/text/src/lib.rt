// Text and numbers, put into an output where they have room.

#![tactic(auto)]

mod numbers;

ghost use Rattle.std.specs.Prelude.{◌≡◌, ◌+◌, leb};
ghost use Rattle.text.specs.Text.{decimal, labelled, line};
ghost use Rattle.text.specs.Put.{place_after, output_with};

use crate::numbers::{put_digits, width};

// Whether a number of bytes from a place on ends within a size.
fn has_room(size: usize, at: usize, count: usize) -> bool
    ensures { result ≡ leb (at + count) size }
{
    if size < at {
        return false;
    }
    count <= size - at
}

// A text from a place on; the place after it. Without room, the output and the place stay.
pub fn put_text(output: &mut [u8], at: usize, text: &[u8]) -> usize
    ensures value { result ≡ place_after output.old at text.now }
    ensures output_after { output.new ≡ output_with output.old at text.now }
{
    if !has_room(output.len(), at, text.len()) {
        return at;
    }
    let next = at + text.len();
    output[at..next].copy_from_slice(text);
    next
}

// A number in decimal, in the same way.
pub fn put_decimal(output: &mut [u8], at: usize, n: u32) -> usize
    ensures value { result ≡ place_after output.old at (decimal n) }
    ensures output_after { output.new ≡ output_with output.old at (decimal n) }
{
    if !has_room(output.len(), at, width(n)) {
        return at;
    }
    put_digits(output, at, n)
}

// A label and a number, in the same way.
pub fn put_field(output: &mut [u8], at: usize, label: &[u8], n: u32) -> usize
    ensures value { result ≡ place_after output.old at (labelled label.now n) }
    ensures output_after { output.new ≡ output_with output.old at (labelled label.now n) }
{
    if !has_room(output.len(), at, label.len() + width(n)) {
        return at;
    }
    let next = put_text(output, at, label);
    put_decimal(output, next, n)
}

// The same as a line.
pub fn put_line(output: &mut [u8], at: usize, label: &[u8], n: u32) -> usize
    ensures value { result ≡ place_after output.old at (line (labelled label.now n)) }
    ensures output_after { output.new ≡ output_with output.old at (line (labelled label.now n)) }
{
    if !has_room(output.len(), at, label.len() + width(n) + 1) {
        return at;
    }
    let next = put_field(output, at, label, n);
    put_text(output, next, b"\n")
}
