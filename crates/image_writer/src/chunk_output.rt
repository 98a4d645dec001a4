// The chunks of an image, written into an output.
ghost use Rattle.std.specs.Prelude.{◌≡◌, true, ◌+◌, ◌*◌, ◌≤◌, length};
ghost use Rattle.layout_soundness.specs.SoundLayout.{ranges_test};
ghost use Rattle.image_format.specs.Head.{head_bytes};
ghost use Rattle.image_format.specs.Segment.{segment_bytes, segments_bytes};
ghost use Rattle.image_format.specs.Domain.{domain_bytes, domains_bytes};
ghost use Rattle.image_format.specs.Image.{segments_in, domains_in};
ghost use Rattle.image_format.specs.Output.{written};

use crate::output::{put_header, put_pair, put_word, put_words};
use image_format::Head;
use state::record::Layout;
use words::pointer::{Pointer, pack};

// Kind 1, at the start.
pub fn put_head(output: &mut [u8], h: Head)
    requires { 12 ≤ length output.old }
    ensures { output.new ≡ written output.old 0 (head_bytes h) }
{
    let start = h.start;
    put_header(output, 0, 8, 1);
    output[4] = h.segments;
    output[5] = h.domains;
    output[6] = start.domain;
    output[7] = 0;
    put_word(
        output,
        8,
        pack(Pointer {
            word: start.word,
            segment: start.segment,
            tag: false,
        }),
    );
}

// Kind 2, for the words of a segment.
fn put_segment(output: &mut [u8], at: usize, gates: u16, domain: u8, words: &[u32])
    requires { (at + 8 + 4 * length words.now ≤ length output.old) × (length words.now ≤ 4096) }
    ensures { output.new ≡ written output.old at (segment_bytes (record { gates = gates; domain = domain; words = words.now })) }
{
    let n = words.len() as u16;
    put_header(output, at, 4 + 4 * n, 2);
    put_pair(output, at + 4, gates);
    output[at + 6] = domain;
    output[at + 7] = 0;
    put_words(output, at + 8, words);
}

// Kind 3, for the rights of a domain.
fn put_domain(output: &mut [u8], at: usize, stack: u8, rights: &[u8])
    requires { (at + 5 + length rights.now ≤ length output.old) × (length rights.now ≤ 16) }
    ensures { output.new ≡ written output.old at (domain_bytes (record { stack = stack; rights = rights.now })) }
{
    let n = rights.len();
    put_header(output, at, 1 + n as u16, 3);
    output[at + 4] = stack;
    output[at + 5..at + 5 + n].copy_from_slice(rights);
}

// Kind 2 for each segment, from a place on; the place after them.
pub fn put_segments(output: &mut [u8], start: usize, layout: Layout, words: &[u32]) -> usize
    requires layout_value { ranges_test layout ≡ true }
    requires in_bounds { 8192 ≤ length words.now }
    requires words_in_bounds { start + length (segments_bytes (segments_in layout words.now)) ≤ length output.old }
    ensures value { result ≡ start + length (segments_bytes (segments_in layout words.now)) }
    ensures output_after { output.new ≡ written output.old start (segments_bytes (segments_in layout words.now)) }
{
    let mut at = start;
    let mut base = 0;
    for i in 0..layout.segments as usize {
        let n = layout.lengths[i] as usize;
        put_segment(
            output,
            at,
            layout.gates[i],
            layout.gatedomains[i],
            &words[base..base + n],
        );
        at += 8 + 4 * n;
        base += n;
    }
    at
}

// Kind 3 for each domain, from a place on; the place after them.
pub fn put_domains(output: &mut [u8], start: usize, layout: Layout) -> usize
    requires layout_value { ranges_test layout ≡ true }
    requires layout_in_bounds { start + length (domains_bytes (domains_in layout)) ≤ length output.old }
    ensures value { result ≡ start + length (domains_bytes (domains_in layout)) }
    ensures output_after { output.new ≡ written output.old start (domains_bytes (domains_in layout)) }
{
    let n = layout.segments as usize;
    let mut at = start;
    for i in 0..layout.domains as usize {
        put_domain(
            output,
            at,
            layout.stacks[i],
            &layout.rights[16 * i..16 * i + n],
        );
        at += 5 + n;
    }
    at
}
