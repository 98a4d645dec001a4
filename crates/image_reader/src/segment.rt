// Kind 2: the segments.
ghost use Rattle.std.specs.Prelude.{◌≡◌, ◌+◌, ◌≤◌, length, drop};
ghost use Rattle.words.specs.Refusal.{answer_of};
ghost use Rattle.image_format.specs.Chunk.{chunk_at};
ghost use Rattle.image_format.specs.Segment.{segment_length, segment_fields, segment_read, segment_of, segments_of};
ghost use Rattle.image_reader.specs.Private.{segment_answer, segment_rows, segments_answer};

use crate::bytes::{left, pair};
use crate::chunk::header;
use words::refusal::Refusal;

// A segment's words, its gates and their domain, and the place after its chunk.
#[derive(Clone, Copy)]
pub struct SegmentRow {
    pub next: usize,
    pub length: u16,
    pub gates: u16,
    pub domain: u8,
}

// The rows of all segments, and the place after their chunks.
#[derive(Clone, Copy)]
pub struct Segments {
    pub lengths: [u16; 16],
    pub gates: [u16; 16],
    pub gatedomains: [u8; 16],
    pub next: usize,
}

// The length of a body, judged, with room for so many words.
fn body_length(room: u16, n: u16) -> Result<(), Refusal>
    ensures { answer_of result ≡ segment_length room n }
{
    if n < 8 {
        return Err(Refusal::WrongLength);
    }
    if 16388 < n {
        return Err(Refusal::WrongLength);
    }
    if n % 4 != 0 {
        return Err(Refusal::WrongLength);
    }
    if room < (n - 4) / 4 {
        return Err(Refusal::TooManyWords);
    }
    Ok(())
}

// The fields of a segment, judged.
fn fields(domains: u8, count: u16, gates: u16, domain: u8, unused: u8) -> Result<(), Refusal>
    ensures { answer_of result ≡ segment_fields domains count gates domain unused }
{
    if count < gates {
        return Err(Refusal::BadField);
    }
    if domains <= domain {
        return Err(Refusal::BadField);
    }
    if unused != 0 {
        return Err(Refusal::BadField);
    }
    Ok(())
}

// The body of n bytes of the chunk at a place.
fn body(image: &[u8], at: usize, n: u16, domains: u8) -> Result<SegmentRow, Refusal>
    requires { (8 ≤ n) × (at + 4 + n ≤ length image.now) }
    ensures { segment_answer image.now at result ≡ segment_read domains (chunk_at n (drop at image.now)) }
{
    let count = (n - 4) / 4;
    let gates = pair(image, at + 4);
    let domain = image[at + 6];
    fields(domains, count, gates, domain, image[at + 7])?;
    Ok(SegmentRow {
        next: at + 4 + n as usize,
        length: count,
        gates,
        domain,
    })
}

// The chunk of kind 2 at a place.
pub fn segment_chunk(image: &[u8], at: usize, domains: u8, room: u16) -> Result<SegmentRow, Refusal>
    ensures { segment_answer image.now at result ≡ segment_of domains room (drop at image.now) }
{
    let n = header(image, at, 2)?;
    body_length(room, n)?;
    if left(image, at) < 4 + n as usize {
        return Err(Refusal::CutShort);
    }
    body(image, at, n, domains)
}

// The chunks of kind 2 from a place on.
pub fn segment_chunks(
    image: &[u8],
    start: usize,
    count: u8,
    domains: u8,
) -> Result<Segments, Refusal>
    requires { count ≤ 16 }
    ensures { segments_answer image.now result ≡ segment_rows (segments_of count domains 8192 (drop start image.now)) }
{
    let mut lengths = [0; 16];
    let mut gates = [0; 16];
    let mut gatedomains = [0; 16];
    let mut at = start;
    let mut room = 8192;
    for i in 0..count as usize {
        let r = segment_chunk(image, at, domains, room)?;
        lengths[i] = r.length;
        gates[i] = r.gates;
        gatedomains[i] = r.domain;
        at = r.next;
        room -= r.length;
    }
    Ok(Segments {
        lengths,
        gates,
        gatedomains,
        next: at,
    })
}
