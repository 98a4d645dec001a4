// A whole image, judged before anything is stored.
ghost use Rattle.std.specs.Prelude.{◌≡◌, ◌≤◌, drop};
ghost use Rattle.words.specs.Refusal.{answer_of};
ghost use Rattle.image_format.specs.Image.{image_of, layout_of};
ghost use Rattle.image_reader.specs.Reader.{mapped};
ghost use Rattle.image_reader.specs.Private.{end_of, after_segments};

use crate::bytes::left;
use crate::chunk::exact;
use crate::domain::domain_chunks;
use crate::head::head_chunk;
use crate::segment::{Segments, segment_chunks};
use image_format::Head;
use layout_soundness::gates_sound;
use state::record::Layout;
use words::refusal::Refusal;

// Kind 4 at a place, then that the gates pass their test, and no bytes after kind 4.
fn end(image: &[u8], at: usize, pass: bool) -> Result<(), Refusal>
    ensures { answer_of result ≡ end_of pass (drop at image.now) }
{
    exact(image, at, 4, 0)?;
    let rest = left(image, at);
    if !pass {
        return Err(Refusal::DeadGate);
    }
    if rest != 4 {
        return Err(Refusal::BytesLeft);
    }
    Ok(())
}

// What comes after the segments.
fn after_segments(image: &[u8], h: Head, s: Segments) -> Result<Layout, Refusal>
    requires { (h.segments ≤ 16) × (h.domains ≤ 8) }
    ensures { answer_of result ≡ after_segments h (record { lengths = s.lengths; gates = s.gates; gatedomains = s.gatedomains; rest = drop s.next image.now }) }
{
    let d = domain_chunks(image, s.next, h.domains, h.segments)?;
    let pass = gates_sound(&s.gates, &s.gatedomains, &d.rights);
    end(image, d.next, pass)?;
    Ok(Layout {
        lengths: s.lengths,
        gates: s.gates,
        start: h.start,
        gatedomains: s.gatedomains,
        stacks: d.stacks,
        rights: d.rights,
        segments: h.segments,
        domains: h.domains,
    })
}

// The layout that an image gives, or its refusal.
pub fn judge(image: &[u8]) -> Result<Layout, Refusal>
    ensures { answer_of result ≡ mapped layout_of (image_of image.now) }
{
    let h = head_chunk(image)?;
    let s = segment_chunks(image, 12, h.segments, h.domains)?;
    after_segments(image, h, s)
}
