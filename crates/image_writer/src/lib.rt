// The writer of images.

#![tactic(auto)]

mod chunk_output;
mod output;

ghost use Rattle.std.specs.Prelude.{◌≡◌, true, ◌++◌, ◌≤◌, length, drop};
ghost use Rattle.words.specs.Refusal.{answer_of};
ghost use Rattle.layout_soundness.specs.SoundLayout.{ranges_test};
ghost use Rattle.image_format.specs.Image.{image_from, bytes_of};
ghost use Rattle.image_writer.specs.Writer.{write_image, write_result, output_after};

use crate::chunk_output::{put_domains, put_head, put_segments};
use crate::output::put_header;
use image_format::Head;
use soundness::sound;
use state::bases::words_in;
use state::record::{Layout, Machine};
use words::refusal::Refusal;

// The length of the image of a layout.
fn size(layout: Layout, words: &[u32]) -> usize
    requires { (ranges_test layout ≡ true) × (8192 ≤ length words.now) }
    ensures { result ≡ length (bytes_of (image_from layout words.now)) }
{
    let segments = layout.segments as usize;
    let domains = layout.domains as usize;
    let count = words_in(&layout.lengths) as usize;
    16 + 8 * segments + 4 * count + domains * (5 + segments)
}

// The chunks of a layout's image.
fn put_image(output: &mut [u8], layout: Layout, words: &[u32])
    requires layout_value { ranges_test layout ≡ true }
    requires in_bounds { 8192 ≤ length words.now }
    requires words_in_bounds { length (bytes_of (image_from layout words.now)) ≤ length output.old }
    ensures { output.new ≡ bytes_of (image_from layout words.now) ++ drop (length (bytes_of (image_from layout words.now))) output.old }
{
    let start = layout.start;
    put_head(
        output,
        Head {
            start,
            segments: layout.segments,
            domains: layout.domains,
        },
    );
    let at = put_segments(output, 12, layout, words);
    let end = put_domains(output, at, layout);
    put_header(output, end, 0, 4);
}

// Writes the image of a machine and its memory, and gives its length. Refused, the output is as it was.
pub fn write(m: Machine, words: &[u32], output: &mut [u8]) -> Result<usize, Refusal>
    ensures value { answer_of result ≡ write_result (write_image m words.now output.old) }
    ensures output_after { output.new ≡ output_after output.old (write_image m words.now output.old) }
{
    if !sound(m) {
        return Err(Refusal::NotSound);
    }
    if words.len() < 8192 {
        return Err(Refusal::MemoryTooShort);
    }
    let layout = m.layout;
    let n = size(layout, words);
    if output.len() < n {
        return Err(Refusal::OutputTooShort);
    }
    put_image(output, layout, words);
    Ok(n)
}
